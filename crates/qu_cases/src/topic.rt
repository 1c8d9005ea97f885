//! A topic: the cases of a file, each with its answer.

use super::answers::answer;
use qu_case_forms::{Case, Named, NoAnswer, Told, parted, put_difference, read_names};
use std::alloc::{AllocError, Global};
use std::rt::Files;
use std::{fs, io};

/// Compares the answers of a topic with the stored ones, and prints which differ; or prints those of one case, where
/// its name is given.
pub fn check_topic(
    rt: &(impl Files + Print + AllocGlobal),
    shared: &str,
    topic: &str,
    only: &str,
) -> io::Result<()> {
    let mut out = Told::new(rt.alloc());
    if let Err(error) = check_file(rt, shared, topic, only, &mut out) {
        out.put(topic);
        out.put(": ");
        out.put(error.words());
        out.put("\n");
    }
    rt.print(out.text()?)
}

fn check_file(
    rt: &(impl Files + AllocGlobal),
    shared: &str,
    topic: &str,
    only: &str,
    out: &mut Told,
) -> Result<(), NoAnswer> {
    let text = read_topic(rt, topic)?;
    let (head, cases) = parted(text.as_str(), "== ");
    let names = names_of(rt.alloc(), shared, head)?;
    check_cases(rt, names.as_slice(), topic, only, cases, out);
    Ok(())
}

fn read_topic(rt: &(impl Files + AllocGlobal), topic: &str) -> Result<String, NoAnswer> {
    let alloc = rt.alloc();
    let path = format!(in alloc; "cases/{topic}")?;
    Ok(fs::read_to_string(rt, path)?)
}

/// The names of bytes that all topics share, and those that stand at the head of this one.
fn names_of<'a>(alloc: Global, shared: &'a str, head: &'a str) -> Result<Vec<Named<'a>>, NoAnswer> {
    let mut names = Vec::new(alloc);
    read_names(alloc, shared, &mut names)?;
    read_names(alloc, head, &mut names)?;
    Ok(names)
}

fn check_cases(
    rt: &(impl Files + AllocGlobal),
    names: &[Named<'_>],
    topic: &str,
    only: &str,
    cases: &str,
    out: &mut Told,
) {
    let (mut count, mut differing) = (0u64, 0u64);
    for text in cases.split("== ") {
        if !is_as_wanted(rt, names, only, text, out) {
            differing = differing.saturating_add(1);
        }
        count = count.saturating_add(1);
    }
    if only.is_empty() {
        put_count(topic, count, differing, out);
    }
}

fn put_count(topic: &str, count: u64, differing: u64, out: &mut Told) {
    out.put(topic);
    out.put_number(": ", count);
    if differing == 0 {
        return out.put(" cases, as stored\n");
    }
    out.put_number(" cases, ", differing);
    out.put(" not as stored\n");
}

/// Whether the answer of the case of a text is the stored one; tells where it differs. Where one name alone is asked
/// for, tells the whole answer of the case with this name.
fn is_as_wanted(
    rt: &(impl Files + AllocGlobal),
    names: &[Named<'_>],
    only: &str,
    text: &str,
    out: &mut Told,
) -> bool {
    let Some(case) = Case::of(text) else {
        out.put(text.lines().next().unwrap_or(""));
        out.put(": the reason or the answer is missing\n");
        return false;
    };
    if !only.is_empty() && only != case.name {
        return true;
    }
    match answer_of(rt, names, &case) {
        Ok(told) => compare(&case, told.as_str(), only, out),
        Err(AllocError) => {
            out.refuse();
            false
        }
    }
}

/// Whether this is the stored answer; tells where it differs. Where one name alone is asked for, tells the whole.
fn compare(case: &Case<'_>, told: &str, only: &str, out: &mut Told) -> bool {
    if !only.is_empty() {
        put_whole(case, told, out);
        return true;
    }
    if told == case.answer {
        return true;
    }
    put_difference(case, told, out);
    out.put("\n");
    false
}

/// The line of a case, and its answer.
fn put_whole(case: &Case<'_>, told: &str, out: &mut Told) {
    out.put("== ");
    out.put(case.name);
    out.put(" ");
    out.put(case.command);
    out.put(" ");
    out.put(case.words);
    out.put("\n");
    out.put(told);
    out.put("\n");
}

/// The answer of a case, or why there is none.
fn answer_of(
    rt: &(impl Files + AllocGlobal),
    names: &[Named<'_>],
    case: &Case<'_>,
) -> Result<String, AllocError> {
    let mut told = Told::new(rt.alloc());
    if let Err(error) = answer(rt, names, case, &mut told) {
        told = Told::new(rt.alloc());
        told.put("no answer: ");
        told.put(error.words());
    }
    told.text()
}

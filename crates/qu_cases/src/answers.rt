use super::program::{self, Program};
use qu_case_forms::{Case, Named, NoAnswer, Told, answer_bytes, answer_generated, bytes_of};
use qu_case_runs::{answer_order, answer_run};
use std::alloc::Global;
use std::rt::Files;

/// The answer of a case.
pub fn answer(
    rt: &(impl Files + AllocGlobal),
    names: &[Named<'_>],
    case: &Case<'_>,
    out: &mut Told,
) -> Result<(), NoAnswer> {
    match case.command {
        "example" => program::example(rt, case.name, out),
        "page" => program::page(rt, case, out),
        _ => answer_here(rt.alloc(), names, case, out),
    }
}

/// The answer of a case that reads no file.
fn answer_here(
    alloc: Global,
    names: &[Named<'_>],
    case: &Case<'_>,
    out: &mut Told,
) -> Result<(), NoAnswer> {
    match case.command {
        "sim" => program::write(alloc, Program::Qu, "sim", case.lines.as_bytes(), out),
        "qu" => program::write(alloc, Program::Qu, case.words, case.lines.as_bytes(), out),
        "qu-letters" => program::write(
            alloc,
            Program::QuLetters,
            case.words,
            case.lines.as_bytes(),
            out,
        ),
        "spelled" => of_bytes(alloc, names, case, out),
        "pieces" => program::pieces(alloc, case, out),
        "generated" => answer_generated(alloc, case, out),
        "listed" | "letters" | "injected" => answer_run(alloc, names, case, out),
        "events" | "order" | "audit" | "ordered" | "reported" => answer_order(
            alloc, names, case, out,
        ),
        _ => answer_bytes(alloc, names, case, out),
    }
}

/// What `qu` writes for a script that is given by its bytes.
fn of_bytes(
    alloc: Global,
    names: &[Named<'_>],
    case: &Case<'_>,
    out: &mut Told,
) -> Result<(), NoAnswer> {
    let script = bytes_of(alloc, names, case.lines)?;
    program::write(alloc, Program::Qu, case.words, script.as_slice(), out)
}

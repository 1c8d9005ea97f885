use super::case::Case;
use super::told::Told;

/// The first line at which an answer differs from the stored one, and both.
pub fn put_difference(case: &Case<'_>, answer: &str, out: &mut Told) {
    let mut lines = answer.lines();
    let mut number = 1u64;
    for stored in case.answer.lines() {
        let line = lines.next().unwrap_or("nothing more");
        if line != stored {
            return put_lines(case, number, line, stored, out);
        }
        number = number.saturating_add(1);
    }
    let line = lines.next().unwrap_or("nothing more");
    put_lines(case, number, line, "nothing more", out);
}

fn put_lines(case: &Case<'_>, number: u64, got: &str, stored: &str, out: &mut Told) {
    out.put(case.name);
    out.put(" ");
    out.put(case.command);
    out.put_number(": line ", number);
    out.put(" is not as stored\n  got    ");
    out.put(got);
    out.put("\n  wanted ");
    out.put(stored);
}

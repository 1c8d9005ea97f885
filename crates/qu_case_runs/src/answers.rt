use super::{events, letters};
use qu_case_forms::{Case, Named, NoAnswer, Told};
use std::alloc::Global;

/// The answer of a case that tells the letters or the events of a run.
pub fn answer_run(
    alloc: Global,
    names: &[Named<'_>],
    case: &Case<'_>,
    out: &mut Told,
) -> Result<(), NoAnswer> {
    match case.command {
        "listed" => events::listed(alloc, names, case.lines, out),
        "letters" => letters::letters(alloc, case.lines.as_bytes(), out),
        "injected" => letters::injected(alloc, case.lines.as_bytes(), out),
        _ => Err(NoAnswer::Word),
    }
}

use super::{audits, points, reports};
use qu_case_forms::{Case, Named, NoAnswer, Told};
use std::alloc::Global;

/// The answer of a case about the points or the premises of a run.
pub fn answer_order(
    alloc: Global,
    names: &[Named<'_>],
    case: &Case<'_>,
    out: &mut Told,
) -> Result<(), NoAnswer> {
    match case.command {
        "events" => points::events(alloc, names, case.lines, out),
        "order" => points::order(alloc, case.lines.as_bytes(), out),
        "audit" => audits::audited(alloc, names, case, out),
        "ordered" => audits::ordered(alloc, names, case, out),
        "reported" => reports::reported(alloc, case, out),
        _ => Err(NoAnswer::Word),
    }
}

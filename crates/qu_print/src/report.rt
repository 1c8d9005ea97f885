ghost use Rattle.std.specs.Prelude.{◌≡◌, ◌∷◌, [], ◌++◌, IfOk, OnOk, string_bytes};
ghost use Rattle.qu_print.specs.Lines.{lines_text};
ghost use Rattle.qu_print.specs.Timeline.{timeline};
ghost use Rattle.qu_print.specs.Ends.{open_lines, premises_line, end_line};
ghost use Rattle.qu_print.specs.Report.{report_of, bounds_line, told_order};

use super::open::put_open;
use crate::ends::{put_end_line, put_premises};
use crate::timeline::put_timeline;
use crate::told::told_order;
use qu_base::{Bounds, List, NoMemory};
use qu_machine::{OpRecord, Point};
use qu_trace::{DecodedTrace, Premises, Trace};
use std::alloc::Global;

/// The report of a run, of which `order` tells at which points its operations took effect. No point is told where
/// the premises of the order do not hold.
#[tactic(auto, using(crate::proofs::ReportFacts::report_parts))]
pub fn report_text(
    alloc: Global,
    trace: &DecodedTrace<'_>,
    premises: &Premises,
    order: &[Point],
) -> Result<List<u8>, NoMemory>
    ensures { IfOk result (λ text. text ≡ report_of trace.now premises.now order.now) }
{
    let run = trace.trace();
    let mut text = String::new(alloc);
    put_events(&mut text, run, told_order(premises, order))?;
    put_ends(&mut text, run.setup.clients, trace.operations(), premises)?;
    Ok(List::from(text.into_bytes()))
}

/// Writes what happened, under the bounds.
#[tactic(auto, unfolding(crate::specs::Lines::lines_text))]
fn put_events(text: &mut String, trace: &Trace, order: &[Point]) -> Result<(), NoMemory>
    ensures { OnOk result (string_bytes text.new
        ≡ string_bytes text.old
        ++ lines_text (bounds_line trace.now.setup.bounds ∷ [] ++ timeline trace.now.entries order.now)) }
{
    put_bounds(text, &trace.setup.bounds)?;
    put_timeline(text, trace.entries.as_slice(), order)?;
    Ok(())
}

#[tactic(auto, unfolding(crate::specs::Lines::lines_text, crate::specs::Report::bounds_line))]
fn put_bounds(text: &mut String, bounds: &Bounds) -> Result<(), NoMemory>
    ensures { OnOk result (string_bytes text.new
        ≡ string_bytes text.old ++ lines_text (bounds_line bounds.now ∷ [])) }
{
    let (b, n, q, r) = (bounds.b(), bounds.n(), bounds.q(), bounds.r());
    write!(text, "bounds b {b} n {n}")?;
    writeln!(text, " q {q} r {r}")?;
    Ok(())
}

/// Writes which operations of clients 1, 2, .. up to this one have no end, whether the premises hold, and how many
/// operations ended.
fn put_ends(
    text: &mut String,
    clients: u16,
    operations: &[OpRecord],
    premises: &Premises,
) -> Result<(), NoMemory>
    ensures { OnOk result (string_bytes text.new
        ≡ string_bytes text.old
        ++ lines_text (open_lines clients operations.now
        ++ premises_line premises.now ∷ end_line operations.now ∷ [])) }
{
    put_open(text, clients, operations)?;
    put_premises(text, premises)?;
    put_end_line(text, operations)?;
    Ok(())
}

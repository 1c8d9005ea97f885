//! What is told of runs for each answer of the audit.

ghost use Rattle.qu_world.specs.Run.{IsRun};

use super::audits::premises_of;
use super::points::printed;
use crate::scripts::run_text;
use qu_base::NoMemory;
use qu_case_forms::{Case, NoAnswer, Told, parted};
use qu_print::{report_text, summary_text};
use qu_trace::{DecodedTrace, Premises, Trace};
use std::alloc::Global;

/// The report of a script's run, and the line that sums it up as that of the script of a number. The audit's answer is
/// that of the words behind the number, where there are any.
pub fn reported(alloc: Global, case: &Case<'_>, out: &mut Told) -> Result<(), NoAnswer> {
    let number = case.number(0)?;
    let trace = run_text(alloc, case.lines.as_bytes())?;
    let premises = said_premises(alloc, case, &trace)?;
    Ok(put_told(alloc, number, &trace, &premises, out)?)
}

fn said_premises(alloc: Global, case: &Case<'_>, trace: &Trace) -> Result<Premises, NoAnswer>
    requires { IsRun trace.now }
{
    match case.word(1) {
        "" => Ok(premises_of(alloc, trace)?),
        "hold" => Ok(Premises::Hold),
        "forged" => Ok(Premises::Forged {
            event: case.number(2)?,
        }),
        "collide" => Ok(Premises::Collide {
            first: case.number(2)?,
            second: case.number(3)?,
        }),
        _ => Err(NoAnswer::Word),
    }
}

fn put_told(
    alloc: Global,
    number: u64,
    trace: &Trace,
    premises: &Premises,
    out: &mut Told,
) -> Result<(), NoMemory>
    requires { IsRun trace.now }
{
    let run = DecodedTrace::of(alloc, trace)?;
    let order = printed(alloc, &run)?;
    let report = report_text(alloc, &run, premises, order.as_slice())?;
    out.put_bytes(alloc, report.as_slice());
    let sum = summary_text(alloc, number, &run, premises, order.as_slice())?;
    let sum = String::from_utf8_lossy(alloc, sum.as_slice())?;
    let (line, _) = parted(sum.as_str(), "\n");
    out.put(line);
    Ok(())
}

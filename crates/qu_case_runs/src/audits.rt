//! Runs in which a client may be faulty, with what the audit tells of their premises.

ghost use Rattle.std.specs.Prelude.{IfOk};
ghost use Rattle.qu_world.specs.Run.{IsRun, IsSetup};

use super::points::points;
use crate::events::{make_lines, setup_and_lines};
use crate::scripts::{script_of, start};
use qu_audit::audit;
use qu_base::{ClientId, List, NoMemory, Party};
use qu_case_forms::{Case, Named, NoAnswer, Told, party};
use qu_trace::{DecodedTrace, Premises, Setup, Trace};
use qu_world::World;
use std::alloc::Global;

/// Makes the events of lines behind a setup, where a client that is named is faulty. Tells what each of them made,
/// and the answer of the audit at the end.
pub fn audited(
    alloc: Global,
    names: &[Named<'_>],
    case: &Case<'_>,
    out: &mut Told,
) -> Result<(), NoAnswer> {
    audited_run(alloc, names, case, out)?;
    Ok(())
}

/// Tells what `audited` does, then the points of the run, and what the judge says of their order.
pub fn ordered(
    alloc: Global,
    names: &[Named<'_>],
    case: &Case<'_>,
    out: &mut Told,
) -> Result<(), NoAnswer> {
    let trace = audited_run(alloc, names, case, out)?;
    out.put("\n");
    Ok(points(alloc, &trace, out)?)
}

fn audited_run(
    alloc: Global,
    names: &[Named<'_>],
    case: &Case<'_>,
    out: &mut Told,
) -> Result<Trace, NoAnswer>
    ensures { IfOk result IsRun }
{
    let (setup, lines) = setup_and_lines(case.lines);
    let world = world_where(alloc, setup, case.word(0))?;
    let trace = make_lines(alloc, names, setup, lines, world, out)?;
    let premises = premises_of(alloc, &trace)?;
    put_premises(premises, out);
    Ok(trace)
}

/// The world with which the run of a setup begins, where the client of a word, as `c2`, is faulty too.
fn world_where(alloc: Global, setup: &str, word: &str) -> Result<World, NoAnswer> {
    let text = format!(in alloc; "{setup}\n")?;
    let script = script_of(alloc, text.as_bytes())?;
    let setup = setup_with(alloc, script.setup.copy(alloc)?, word)?;
    Ok(start(alloc, setup)?)
}

/// The setup in which the client of a word is faulty too, the same where there is no word.
fn setup_with(alloc: Global, setup: Setup, word: &str) -> Result<Setup, NoAnswer>
    requires { IsSetup setup }
    ensures { IfOk result IsSetup }
{
    if word.is_empty() {
        return Ok(setup);
    }
    match party(word)? {
        Party::Client(client) => Ok(with_faulty_client(alloc, setup, client)?),
        Party::Replica(_) => Err(NoAnswer::Word),
    }
}

/// The setup in which this client is faulty too, the first of them.
fn with_faulty_client(alloc: Global, setup: Setup, client: ClientId) -> Result<Setup, NoMemory>
    requires { IsSetup setup }
    ensures { IfOk result IsSetup }
{
    let mut liars = setup.liars.copy(alloc)?.into_vec();
    liars.insert(0, Party::Client(client))?;
    let mut setup = setup;
    setup.liars = List::from(liars);
    Ok(setup)
}

/// `audit` without what it promises.
pub fn premises_of(alloc: Global, trace: &Trace) -> Result<Premises, NoMemory>
    requires { IsRun trace.now }
{
    let run = DecodedTrace::of(alloc, trace)?;
    audit(alloc, &run)
}

fn put_premises(premises: Premises, out: &mut Told) {
    match premises {
        Premises::Hold => out.put("premises hold"),
        Premises::Forged { event } => out.put_number("premises forged ", event),
        Premises::Collide { first, second } => {
            out.put_number("premises collide ", first);
            out.put_number(" ", second);
        }
    }
}

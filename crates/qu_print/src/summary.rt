ghost use Rattle.std.specs.Prelude.{◌≡◌, ◌≤◌, length, ◌++◌, IfOk, OnOk, string_bytes};
ghost use Rattle.qu_print.specs.Summary.{points_text, premises_word, summary_of};

use crate::ends::put_counts;
use crate::sum::counters_sum;
use crate::told::told_order;
use qu_base::{List, NoMemory, OBJECT_IDS};
use qu_machine::Point;
use qu_objects::KindName;
use qu_trace::{DecodedTrace, Premises};
use std::alloc::Global;

/// The line that sums up the run of the script of a number, of which `order` tells at which points its operations took
/// effect. No point counts where the premises of the order do not hold.
#[tactic(auto, unfolding(crate::specs::Summary::summary_of))]
pub fn summary_text(
    alloc: Global,
    number: u64,
    trace: &DecodedTrace<'_>,
    premises: &Premises,
    order: &[Point],
) -> Result<List<u8>, NoMemory>
    requires { length trace.now.setup.kinds ≤ OBJECT_IDS }
    ensures { IfOk result (λ text. text ≡ summary_of number trace.now premises.now order.now) }
{
    let kinds = trace.trace().setup.kinds.as_slice();
    let mut text = String::new(alloc);
    write!(text, "gen {number} ")?;
    put_counts(&mut text, trace.operations())?;
    put_points(&mut text, alloc, kinds, told_order(premises, order))?;
    let word = premises_word(premises);
    writeln!(text, " premises {word}")?;
    Ok(List::from(text.into_bytes()))
}

/// Writes how many points are told, and the sum of the counters behind them.
#[tactic(auto, unfolding(crate::specs::Summary::points_text))]
fn put_points(
    text: &mut String,
    alloc: Global,
    kinds: &[KindName],
    told: &[Point],
) -> Result<(), NoMemory>
    requires { length kinds.now ≤ OBJECT_IDS }
    ensures { OnOk result (string_bytes text.new ≡ string_bytes text.old ++ points_text kinds.now told.now) }
{
    let (count, sum) = (told.len(), counters_sum(alloc, kinds, told)?);
    write!(text, " points {count} sum {sum}")?;
    Ok(())
}

/// Whether the premises hold, or what breaks them.
fn premises_word(premises: &Premises) -> &'static str
    ensures { result.now ≡ premises_word premises.now }
{
    match premises {
        Premises::Hold => "hold",
        Premises::Forged { .. } => "forged",
        Premises::Collide { .. } => "collide",
    }
}

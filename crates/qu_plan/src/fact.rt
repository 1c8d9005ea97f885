ghost use Rattle.std.specs.Prelude.{◌≡◌, find, IfOk};
ghost use Rattle.std.specs.Option.{option_copied};
ghost use Rattle.qu_plan.specs.Linking.{link_in, is_fact_of, linking};

use qu_base::{List, NoMemory, ObjectId};
use qu_objects::Link;
use qu_stamp::Stamp;
use std::alloc::Global;

/// What the version of an object under one stamp tells of other objects.
#[derive(Drop)]
pub struct Fact {
    pub object: ObjectId,
    pub stamp: Stamp,
    /// By rising object.
    pub links: List<Link>,
}

impl Fact {
    /// An equal fact.
    pub fn copy(&self, alloc: Global) -> Result<Fact, NoMemory>
        ensures { IfOk result (λ fact. fact ≡ self.now) }
    {
        Ok(Fact {
            object: self.object,
            stamp: self.stamp,
            links: self.links.copy(alloc)?,
        })
    }
}

/// The link to another object that the version of this one under this stamp has, as the facts tell.
#[tactic(auto, unfolding(crate::specs::Linking::linking, crate::specs::Linking::link_by))]
pub(super) fn link_of(
    facts: &[Fact],
    object: ObjectId,
    stamp: &Stamp,
    other: ObjectId,
) -> Option<Stamp>
    ensures { result ≡ linking facts.now object stamp.now other }
{
    match fact_of(facts, object, stamp) {
        Some(fact) => link_in(fact.links.as_slice(), other),
        None => None,
    }
}

/// What is known of the version of an object under a stamp.
fn fact_of<'f>(facts: &'f [Fact], object: ObjectId, stamp: &Stamp) -> Option<&'f Fact>
    ensures { option_copied result ≡ find (is_fact_of object stamp.now) facts.now }
{
    facts.iter().find(|fact| is_fact_of(fact, object, stamp))
}

#[tactic(auto, unfolding(qu_stamp::specs::Stamp::same_stamp))]
fn is_fact_of(fact: &Fact, object: ObjectId, stamp: &Stamp) -> bool
    ensures { result ≡ is_fact_of object stamp.now fact.now }
{
    fact.object == object && fact.stamp == *stamp
}

fn link_in(links: &[Link], other: ObjectId) -> Option<Stamp>
    ensures { result ≡ link_in links.now other }
{
    let link = links.iter().find(|link| link.object == other)?;
    Some(link.stamp)
}

ghost use Rattle.std.specs.Prelude.{◌≡◌, length, None, IfOk, IsTrue};
ghost use Rattle.qu_objects.specs.Parts.{are_parts};
ghost use Rattle.qu_rows.specs.Allowed.{MayDecide};
ghost use Rattle.qu_rows.specs.Rows.{AreOperated, seen_each, objects_of, row_unknown, row_thin, decide_act, decide_ask, decide_repair, decision_on};

use crate::asked::Asked;
use crate::decision::{Decision, refuse};
use crate::rows::{Rows, row_done, row_kept, row_method, row_time};
use qu_base::{NoMemory, ObjectId};
use qu_frames::{Body, Refusal};
use qu_mends::Seen;
use qu_objects::{Act, Query};
use std::alloc::Global;

// The replica's tables: the orders of the rows of an act, of a query and of a request to mend an object. The first row
// that fits gives the decision.

/// What the replica makes of a request of objects that it has.
pub(crate) fn decide(
    alloc: Global,
    rows: &Rows,
    asked: &Asked,
    body: &Body,
) -> Result<Decision, NoMemory>
    requires { row_unknown rows.now asked.now ≡ None }
    ensures value { IfOk result (λ decision. decision ≡ decision_on rows.now asked.now body.now) }
    ensures may { IfOk result (λ decision. MayDecide rows.now decision) }
{
    match body {
        Body::Act(act) => decide_act(alloc, rows, asked, act),
        Body::Ask(query) => decide_ask(alloc, rows, asked, query),
        Body::Mend(target) => decide_repair(alloc, rows, asked, *target),
    }
}

/// What it makes of an act.
fn decide_act(alloc: Global, rows: &Rows, asked: &Asked, act: &Act) -> Result<Decision, NoMemory>
    requires { row_unknown rows.now asked.now ≡ None }
    ensures value { IfOk result (λ decision. decision ≡ decide_act rows.now asked.now act.now (objects_of act.now)) }
    ensures parts { IsTrue (are_parts act.now) }
{
    let seen = rows.seen(asked, act.parts().as_slice())?;
    decide_act_on(alloc, rows, asked, act, seen.as_slice())
}

/// What it makes of an act on objects that its sets show so.
#[tactic(auto, unfolding(crate::specs::Rows::decide_act, qu_mends::specs::Table::first_given))]
fn decide_act_on(
    alloc: Global,
    rows: &Rows,
    asked: &Asked,
    act: &Act,
    seen: &[Seen],
) -> Result<Decision, NoMemory>
    requires known { row_unknown rows.now asked.now ≡ None }
    requires seen { seen.now ≡ seen_each rows.now asked.now (objects_of act.now) }
    requires one_each { length seen.now ≡ length act.now }
    requires objects { AreOperated seen.now }
    ensures { IfOk result (λ decision. decision ≡ decide_act rows.now asked.now act.now (objects_of act.now)) }
{
    if let Some(refusal) = row_thin(alloc, rows, asked) {
        return Ok(refusal);
    }
    if let Some(done) = rows.row_retry(asked, act, seen)? {
        return Ok(done);
    }
    if let Some(refusal) = rows.row_current(seen) {
        return Ok(refusal);
    }
    if let Some(refusal) = row_method(alloc, seen) {
        return Ok(refusal);
    }
    if let Some(waits) = rows.row_version(seen)? {
        return Ok(waits);
    }
    let before = rows.base_versions(seen)?;
    if let Some(kept) = row_kept(alloc, asked, act, before.as_slice())? {
        return Ok(kept);
    }
    if let Some(refusal) = row_time(alloc, seen) {
        return Ok(refusal);
    }
    if let Some(refusal) = rows.row_full(seen) {
        return Ok(refusal);
    }
    row_done(alloc, asked, act, seen, before.as_slice())
}

/// What it makes of a query.
fn decide_ask(
    alloc: Global,
    rows: &Rows,
    asked: &Asked,
    query: &Query,
) -> Result<Decision, NoMemory>
    requires { row_unknown rows.now asked.now ≡ None }
    ensures value { IfOk result (λ decision. decision
        ≡ decide_ask rows.now asked.now query.now (objects_of query.now)) }
    ensures parts { IsTrue (are_parts query.now) }
{
    let seen = rows.seen(asked, query.parts().as_slice())?;
    decide_ask_on(alloc, rows, asked, query, seen.as_slice())
}

/// What it makes of a query of objects that its sets show so.
#[tactic(auto, unfolding(crate::specs::Rows::decide_ask, qu_mends::specs::Table::first_given))]
fn decide_ask_on(
    alloc: Global,
    rows: &Rows,
    asked: &Asked,
    query: &Query,
    seen: &[Seen],
) -> Result<Decision, NoMemory>
    requires known { row_unknown rows.now asked.now ≡ None }
    requires seen { seen.now ≡ seen_each rows.now asked.now (objects_of query.now) }
    requires one_each { length seen.now ≡ length query.now }
    ensures { IfOk result (λ decision. decision
        ≡ decide_ask rows.now asked.now query.now (objects_of query.now)) }
{
    if let Some(refusal) = row_thin(alloc, rows, asked) {
        return Ok(refusal);
    }
    if let Some(refusal) = rows.row_current(seen) {
        return Ok(refusal);
    }
    if let Some(refusal) = row_method(alloc, seen) {
        return Ok(refusal);
    }
    if let Some(waits) = rows.row_version(seen)? {
        return Ok(waits);
    }
    rows.row_told(query, seen)
}

/// What it makes of a request to mend an object.
#[tactic(auto, unfolding(crate::specs::Rows::decide_repair, crate::specs::Rows::row_evidence, qu_mends::specs::Table::first_given))]
fn decide_repair(
    alloc: Global,
    rows: &Rows,
    asked: &Asked,
    target: ObjectId,
) -> Result<Decision, NoMemory>
    requires { row_unknown rows.now asked.now ≡ None }
    ensures { IfOk result (λ decision. decision ≡ decide_repair rows.now asked.now target) }
{
    if let Some(refusal) = row_thin(alloc, rows, asked) {
        return Ok(refusal);
    }
    if let Some(refusal) = rows.row_few(asked, target) {
        return Ok(refusal);
    }
    let evidence = rows.evidence(asked, target)?;
    if let Some(waits) = rows.row_evidence(evidence.as_slice())? {
        return Ok(waits);
    }
    rows.mend(asked, target, evidence.as_slice())
}

/// Refuses sets with fewer entries of an object than a quorum.
#[tactic(auto, unfolding(crate::specs::Rows::row_thin))]
fn row_thin(alloc: Global, rows: &Rows, asked: &Asked) -> Option<Decision>
    ensures { result ≡ row_thin rows.now asked.now }
{
    let quorum = usize::from(rows.bounds().q());
    let set = asked
        .sets()
        .objects()
        .iter()
        .find(|set| set.entries.len() < quorum)?;
    Some(refuse(alloc, Refusal::Thin(set.object)))
}

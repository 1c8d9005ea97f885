//! Answers of two parts, and of a refused second one.

use qu_base::List;
use qu_objects::{Answer, Item, UNDER};
use qu_print::put_answer;
use qu_testing::holds;
use std::alloc::Global;
use std::test::Fail;

fn two_items(alloc: Global) -> Result<Answer, Fail> {
    let mut items = List::one(alloc, Item::Number(18446744073709551615))?;
    items.push(Item::Number(0))?;
    Ok(Answer::Ok(items))
}

/// Whether the answer is told in these words.
fn is_told_as(alloc: Global, answer: &Answer, words: &str) -> Result<bool, Fail> {
    let mut text = String::new(alloc);
    put_answer(&mut text, answer)?;
    Ok(text.as_str() == words)
}

#[test]
fn items_are_joined(rt: HostRuntime) -> Result<(), Fail> {
    let told = is_told_as(
        rt.alloc(),
        &two_items(rt.alloc())?,
        "18446744073709551615 + 0",
    )?;
    holds(told, "two numbers")
}

#[test]
fn the_part_that_is_refused_is_told(rt: HostRuntime) -> Result<(), Fail> {
    let refused = Answer::Refused { at: 1, why: UNDER };
    holds(is_told_as(rt.alloc(), &refused, "under at 1")?, "its words")
}

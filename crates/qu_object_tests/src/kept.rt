use kind_counter::Counter;
use qu_base::{ClientId, List, ObjectId};
use qu_kept::{Performed, Standing, perform, standing_of};
use qu_objects::{Act, Answer, Item, Method, ObjState, UNDER, Value, act_digest};
use qu_stamp::Stamp;
use qu_testing::holds;
use std::alloc::Global;
use std::test::Fail;

const OBJECT: ObjectId = ObjectId(3);

fn act_of(alloc: Global, method: Method) -> Result<Act, Fail> {
    Ok(Act::new(List::one(alloc, (OBJECT, method))?)?)
}

fn fresh(alloc: Global) -> Result<List<ObjState>, Fail> {
    let state = ObjState {
        value: Value::Counter(Counter::new(0)),
        kept: List::new(alloc),
        links: List::new(alloc),
    };
    Ok(List::one(alloc, state)?)
}

/// What stands after this act of a client.
fn after(
    alloc: Global,
    states: &List<ObjState>,
    client: u16,
    number: u64,
    method: Method,
) -> Result<Performed, Fail> {
    let act = act_of(alloc, method)?;
    performed(alloc, states.as_slice(), client, number, &act)
}

fn performed(
    alloc: Global,
    states: &[ObjState],
    client: u16,
    number: u64,
    act: &Act,
) -> Result<Performed, Fail> {
    if states.len() != 1 || act.parts().len() != 1 {
        return Err("one object")?;
    }
    let stamps = [Stamp::opening()];
    Ok(perform(alloc, states, act, ClientId(client), number, &stamps)?)
}

/// How this act of client 1 stands there.
fn stands(
    alloc: Global,
    states: &List<ObjState>,
    number: u64,
    method: Method,
) -> Result<Standing, Fail> {
    let act = act_of(alloc, method)?;
    standing(alloc, states.as_slice(), number, &act)
}

fn standing(alloc: Global, states: &[ObjState], number: u64, act: &Act) -> Result<Standing, Fail> {
    let digest = act_digest(alloc, ClientId(1), number, act)?;
    Ok(standing_of(alloc, states, act, ClientId(1), number, &digest)?)
}

/// Whether the refusal of an act of client 1 is told again.
fn is_told_again(alloc: Global, made: &Performed) -> Result<bool, Fail> {
    let standing = stands(alloc, &made.states, 1, Method::Take(1))?;
    let refused = Answer::Refused { at: 0, why: UNDER };
    Ok(made.answer == refused && standing == Standing::Already(refused))
}

#[test]
fn a_refused_act_is_told_again(rt: HostRuntime) -> Result<(), Fail> {
    let made = after(rt.alloc(), &fresh(rt.alloc())?, 1, 1, Method::Take(1))?;
    holds(is_told_again(rt.alloc(), &made)?, "a refusal")
}

/// Acts of client 1, whose number 2 is kept: the number, what is added, whether the act is spent or fresh, and words
/// for that.
const BEHIND_NUMBER_2: [(u64, u64, bool, &str); 3] = [
    (1, 1, true, "an older number"),
    (2, 1, true, "another act under this number"),
    (3, 5, false, "a newer number"),
];

fn is_behind_number_2(standing: &Standing, is_spent: bool) -> bool {
    match standing {
        Standing::Spent { object, number } => is_spent && *object == OBJECT && *number == 2,
        Standing::Fresh => !is_spent,
        Standing::Already(_) => false,
    }
}

#[test]
fn a_number_below_the_kept_one_is_spent(rt: HostRuntime) -> Result<(), Fail> {
    let made = after(rt.alloc(), &fresh(rt.alloc())?, 1, 2, Method::Add(5))?;
    for (number, more, is_spent, words) in &BEHIND_NUMBER_2 {
        let standing = stands(rt.alloc(), &made.states, *number, Method::Add(*more))?;
        holds(is_behind_number_2(&standing, *is_spent), *words)?;
    }
    Ok(())
}

/// What stands after an update of client 2 and one of client 1.
fn after_two(alloc: Global) -> Result<Performed, Fail> {
    let first = after(alloc, &fresh(alloc)?, 2, 1, Method::Add(5))?;
    after(alloc, &first.states, 1, 1, Method::Add(1))
}

/// And after one more of client 2.
fn after_three(alloc: Global) -> Result<Performed, Fail> {
    let second = after_two(alloc)?;
    after(alloc, &second.states, 2, 2, Method::Add(1))
}

/// Whether the state of the object keeps the last update of each client, by rising client.
fn has_both_rows(states: &List<ObjState>) -> bool {
    let Some(state) = states.get(0) else {
        return false;
    };
    match state.kept.as_slice() {
        [first, second] => {
            first.client == ClientId(1)
                && first.number == 1
                && second.client == ClientId(2)
                && second.number == 2
        }
        _ => false,
    }
}

fn is_number(answer: &Answer, wanted: u64) -> bool {
    match answer {
        Answer::Ok(items) => items.as_slice() == [Item::Number(wanted)].as_slice(),
        _ => false,
    }
}

#[test]
fn each_client_has_its_last_row(rt: HostRuntime) -> Result<(), Fail> {
    let third = after_three(rt.alloc())?;
    holds(
        has_both_rows(&third.states) && is_number(&third.answer, 7),
        "both rows, and 7",
    )
}

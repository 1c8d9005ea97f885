use kind_counter::Counter;
use qu_base::{ClientId, Digest, List, ObjectId};
use qu_objects::{KindName, ObjState, Value};
use qu_stamp::Stamp;
use qu_testing::{all_hold, holds};
use qu_versions::{Prepared, Stored, VersionStore};
use std::alloc::Global;
use std::test::Fail;

const OBJECT: ObjectId = ObjectId(0);

fn state_of(alloc: Global, number: u64) -> ObjState {
    ObjState {
        value: Value::Counter(Counter::new(number)),
        kept: List::new(alloc),
        links: List::new(alloc),
    }
}

fn later() -> Stamp {
    Stamp {
        time: 1,
        barrier: false,
        client: ClientId(1),
        act: None,
        set: Digest([0; 32]),
    }
}

fn is_missing(store: &VersionStore) -> Result<bool, Fail> {
    let missing = store.missing(&[(OBJECT, Stamp::opening()), (OBJECT, later())])?;
    Ok(missing.as_slice() == [(OBJECT, later())].as_slice())
}

/// The number of the counter that a version is.
fn number_under(store: &VersionStore, object: ObjectId, stamp: &Stamp) -> Option<u64> {
    match store.get(object, stamp) {
        Some(
            ObjState {
                value: Value::Counter(counter),
                ..
            },
        ) => Some(counter.number()),
        _ => None,
    }
}

fn keeps_the_first(alloc: Global, store: &mut VersionStore) -> Result<(), Fail> {
    holds(is_missing(store)?, "the later is missing")?;
    for number in [5, 7] {
        store.put(OBJECT, later(), state_of(alloc, number))?;
    }
    holds(
        number_under(store, OBJECT, &later()) == Some(5),
        "the first stays",
    )
}

#[test]
fn the_first_version_under_a_stamp_stays(rt: HostRuntime) -> Result<(), Fail> {
    keeps_the_first(
        rt.alloc(),
        &mut VersionStore::fresh(rt.alloc(), &[KindName::Counter])?,
    )
}

/// What is prepared of an object: the number 5 under the opening stamp.
fn prepared_of(alloc: Global, object: ObjectId) -> Result<Prepared, Fail> {
    let stored = Stored {
        object,
        stamp: Stamp::opening(),
        state: state_of(alloc, 5),
    };
    let copy = stored.copy(alloc)?;
    Ok(Prepared::one(alloc, copy)?)
}

/// Puts it, and tells the number of the version that is found.
fn found_of(
    alloc: Global,
    store: &mut VersionStore,
    object: ObjectId,
) -> Result<Option<u64>, Fail> {
    let prepared = prepared_of(alloc, object)?;
    if store.has_place(&prepared, &Prepared::none(alloc)) {
        store.put_prepared(prepared);
    }
    Ok(number_under(store, object, &Stamp::opening()))
}

fn prepares(alloc: Global, store: &mut VersionStore) -> Result<(), Fail> {
    let held = found_of(alloc, store, OBJECT)?;
    let prepared = found_of(alloc, store, ObjectId(1))?;
    all_hold(&[
        (held == Some(0), "the held one stays"),
        (prepared == Some(5), "the prepared one"),
    ])
}

#[test]
fn what_is_prepared_stands_behind_what_is_held(rt: HostRuntime) -> Result<(), Fail> {
    prepares(
        rt.alloc(),
        &mut VersionStore::fresh(rt.alloc(), &[KindName::Counter])?,
    )
}

//! What a client says of itself, which no listing tells.

use super::made::{keys, read};
use qu_base::{ClientId, ObjectId};
use qu_client::Client;
use qu_testing::{all_hold, holds};
use std::alloc::Global;
use std::test::Fail;

fn started(alloc: Global) -> Result<Client, Fail> {
    Ok(Client::start(alloc, ClientId(1), keys()?, 7))
}

fn is_idle(client: &Client) -> bool {
    !client.busy() && client.working_on().is_none() && !client.rests()
}

fn is_in_round(client: &Client, round: u8) -> bool {
    client.busy()
        && client.working_on() == Some(1)
        && client.last_request() == Some((1, round))
        && !client.rests()
}

/// A client that never asked begins to read, and a tick ends the round.
fn reads(alloc: Global, client: &mut Client) -> Result<(), Fail> {
    let op = read(alloc, ObjectId(0))?;
    holds(client.last_request().is_none(), "no request yet")?;
    client.invoke(op)?;
    let is_in_first = is_in_round(client, 1);
    client.tick()?;
    all_hold(&[
        (is_in_first, "its first round"),
        (is_in_round(client, 2), "its second round"),
    ])
}

#[test]
fn a_client_tells_its_round(rt: HostRuntime) -> Result<(), Fail> {
    reads(rt.alloc(), &mut started(rt.alloc())?)
}

fn ticks(client: &mut Client) -> Result<(), Fail> {
    client.tick()?;
    holds(is_idle(client), "nothing under way")
}

#[test]
fn a_tick_of_an_idle_client_makes_nothing(rt: HostRuntime) -> Result<(), Fail> {
    ticks(&mut started(rt.alloc())?)
}

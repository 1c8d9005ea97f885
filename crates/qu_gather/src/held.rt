ghost use Rattle.std.specs.Prelude.{◌≡◌, ◌++◌, length, map, OnOk};
ghost use Rattle.std.specs.List.{flat_map};
ghost use Rattle.qu_trace.specs.Faulty.{is_same};
ghost use Rattle.qu_replay.specs.declared.kept_step.KeptStep.{KeptStep as AStep};
ghost use Rattle.qu_gather.specs.Gathered.{steps_of_replica, steps_of_client, ReplicasStand, ClientsStand};
ghost use Rattle.qu_gather.specs.Torn.{first_moved, replica_locks, client_locks, replicas_behind, clients_behind};

use qu_base::{ClientId, List, NoMemory, Party, ReplicaId};
use qu_client::Client;
use qu_lock::{Kept, RunName};
use qu_replay::KeptStep;
use qu_replica::Replica;

/// The first of these replicas that is another one than the one that is named, with both names.
pub fn moved_replica<N: RunName>(
    names: &[ReplicaId],
    held: &[Kept<Replica, N>],
) -> Option<(Party, Party)>
    requires { length names.now ≡ length held.now }
    ensures { result ≡ first_moved (replica_locks names.now) (replicas_behind held.now) }
{
    for (place, kept) in held.iter().enumerate() {
        let lock = Party::Replica(names[place]);
        let here = kept.party();
        if !is_same(here, lock) {
            return Some((lock, here));
        }
    }
    None
}

/// The first of these clients that is another one than the one that is named, with both names.
pub fn moved_client<N: RunName>(
    names: &[ClientId],
    held: &[Kept<Client, N>],
) -> Option<(Party, Party)>
    requires { length names.now ≡ length held.now }
    ensures { result ≡ first_moved (client_locks names.now) (clients_behind held.now) }
{
    for (place, kept) in held.iter().enumerate() {
        let lock = Party::Client(names[place]);
        let here = kept.party();
        if !is_same(here, lock) {
            return Some((lock, here));
        }
    }
    None
}

fn is_same(one: Party, other: Party) -> bool
    ensures { result ≡ is_same one other }
{
    one == other
}

/// Puts the steps of these replicas behind others, each with the name of its replica.
pub fn put_replicas<N: RunName>(
    steps: &mut List<(Party, KeptStep)>,
    held: Vec<Kept<Replica, N>>,
) -> Result<(), NoMemory>
    ensures steps { OnOk result (steps.new ≡ steps.old ++ flat_map steps_of_replica held.items) }
    ensures stand { OnOk result (ReplicasStand N.setup held.items) }
{
    for kept in held {
        let me = kept.party();
        let (_replica, own) = kept.into_parts();
        put_steps(steps, me, own)?;
    }
    Ok(())
}

/// Puts the steps of these clients behind others, each with the name of its client.
pub fn put_clients<N: RunName>(
    steps: &mut List<(Party, KeptStep)>,
    held: Vec<Kept<Client, N>>,
) -> Result<(), NoMemory>
    ensures steps { OnOk result (steps.new ≡ steps.old ++ flat_map steps_of_client held.items) }
    ensures stand { OnOk result (ClientsStand N.setup N.calls held.items) }
{
    for kept in held {
        let me = kept.party();
        let (_client, own) = kept.into_parts();
        put_steps(steps, me, own)?;
    }
    Ok(())
}

/// Puts the steps of an actor behind others, each with its name.
fn put_steps(
    steps: &mut List<(Party, KeptStep)>,
    me: Party,
    own: List<KeptStep>,
) -> Result<(), NoMemory>
    ensures { OnOk result (steps.new ≡ steps.old ++ map (λ (step : AStep). (me, step)) own) }
{
    for step in own.into_vec() {
        steps.push((me, step))?;
    }
    Ok(())
}

use qu_client::Client;
use qu_replica::Replica;

/// What may stand behind a lock, with the steps that it took.
pub trait Actor {
    ghost use Rattle.std.specs.Prelude.{List};
    ghost use Rattle.qu_base.specs.declared.party.ClientId.{ClientId};
    ghost use Rattle.qu_base.specs.declared.party.Party.{Party};
    ghost use Rattle.qu_objects.specs.declared.op.Op.{Op};
    ghost use Rattle.qu_trace.specs.declared.trace.Setup.{Setup};
    ghost use Rattle.qu_replay.specs.declared.kept_step.KeptStep.{KeptStep};

    /// Its name.
    ghost name: { Self → Party };

    /// It is where these steps lead, in a run of this setup with these calls.
    ghost stands: { Setup → List (ClientId × Op) → Self → List KeptStep → Type 0 };
}

impl Actor for Replica {
    ghost use Rattle.qu_base.specs.declared.party.Party.TheVariants as party;
    ghost use Rattle.qu_replay.specs.Standing.{ReplicaStands};

    ghost name = { λ state. party.Replica state.me };

    ghost stands = { λ setup calls state steps. ReplicaStands setup state steps };
}

impl Actor for Client {
    ghost use Rattle.qu_base.specs.declared.party.Party.TheVariants as party;
    ghost use Rattle.qu_lock.specs.Locked.{ClientStands};

    ghost name = { λ state. party.Client state.me };

    ghost stands = { ClientStands };
}

use std::marker::Brand;

/// Names one run. What stands behind a lock is known by its type alone, so that each type there has such a name.
pub trait RunName {
    ghost use Rattle.std.specs.Prelude.{List};
    ghost use Rattle.qu_base.specs.declared.party.ClientId.{ClientId};
    ghost use Rattle.qu_objects.specs.declared.op.Op.{Op};
    ghost use Rattle.qu_trace.specs.declared.trace.Setup.{Setup};

    /// Who takes part in the run, and what objects there are.
    ghost setup: { Setup };

    /// The operations that clients are called for, in order.
    ghost calls: { List (ClientId × Op) };
}

/// The call that makes a run names it.
impl RunName for Brand {
    ghost use Rattle.std.specs.Prelude.{[]};

    ghost setup = { record { bounds = 1; seed = 0; clients = 0; kinds = []; liars = [] } };

    ghost calls = { [] };
}

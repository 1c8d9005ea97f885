ghost use Rattle.qu_replay.specs.Entries.{KeptWasSent};
ghost use Rattle.qu_replay.specs.Merged.{KeptIsRun};
ghost use Rattle.qu_replay.specs.Operations.{KeptIsBalanced, ToldOperations};
ghost use Rattle.qu_replay.specs.Told.{ToldIsRun, ToldUntil};

/// What the correct parties of a setup kept, in the order of their tickets, was sent before it was taken, and is a run
/// that leads to where they are.
pub fn kept_is_run()
    ensures run { KeptIsRun }
    ensures sent { KeptWasSent }
{}

/// Entries that tell kept steps are a run, in whatever order the steps stand: after so many entries each party is where
/// as many steps lead, and the operations that begin are those that the clients kept.
pub fn told_is_run()
    ensures run { ToldIsRun }
    ensures until { ToldUntil }
    ensures operations { ToldOperations }
{}

/// A client began as many operations as ended, and one more where one is under way.
pub fn kept_is_balanced()
    ensures { KeptIsBalanced }
{}

/// What a program tells of the run of a script.
#[derive(Clone, Copy, PartialEq, Eq)]
pub enum Telling {
    /// Its operations, in a report.
    Operations,
    /// Its events with their letters.
    Events,
    /// Its letters with their digests.
    Digests,
    /// Its letters with their bytes.
    Bytes,
    /// Its operations, points and counters, counted in one line under this number.
    Summary(u64),
}

/// What a program is asked to do, with the script on the input or with that of a number.
#[derive(Clone, Copy, PartialEq, Eq)]
pub enum Command {
    /// Runs the script on the input event by event, and tells this of the run.
    Sim(Telling),
    /// Runs the calls of the script on the input on threads, and reports their operations.
    Live,
    /// Runs the script of this number, and sums up the run.
    SimGen(u64),
    /// Writes the script of this number.
    Gen(u64),
}

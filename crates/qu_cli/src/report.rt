ghost use Rattle.std.specs.Prelude.{◌≡◌, None, Some};
ghost use Rattle.qu_cli.specs.Report.{status_of};

use qu_gather::Torn;
use qu_trace::Trace;

/// How a run of the program ended.
#[derive(Clone, Copy, PartialEq, Eq)]
pub enum End {
    /// The whole text was written.
    Done,
    /// The words are no known command.
    BadWords,
    /// The script is refused.
    BadScript,
    /// The input could not be read.
    ReadFault,
    /// The text could not be written whole.
    WriteFault,
    /// No memory is left.
    NoMemory,
    /// What threads left behind does not fit together.
    Torn,
}

impl End {
    /// The exit status for it.
    pub fn status(self) -> u8
        ensures { result ≡ status_of self }
    {
        match self {
            End::Done => 0,
            End::BadWords => 2,
            End::BadScript => 3,
            End::ReadFault => 4,
            End::WriteFault => 5,
            End::NoMemory => 6,
            End::Torn => 7,
        }
    }
}

/// What a run of the program leaves beside its output.
#[derive(Drop)]
pub struct Report {
    /// The exit status.
    pub status: u8,
    /// The run that was reported, where one was.
    pub trace: Option<Trace>,
    /// What of a run on threads does not fit together, where something does not.
    pub torn: Option<Torn>,
    /// Where a script is refused, what could stand there, in words for people, if there is memory for them. No clause
    /// speaks of them.
    pub hint: Option<String>,
}

impl Report {
    /// The report of a call that ended so, with the run that it made, if it made one.
    pub fn with_trace(outcome: End, trace: Option<Trace>) -> Report
        ensures status { result.status ≡ status_of outcome }
        ensures trace { result.trace ≡ trace }
        ensures torn { result.torn ≡ None }
    {
        Report {
            status: outcome.status(),
            trace,
            torn: None,
            hint: None,
        }
    }

    /// The report of a run that is torn so.
    pub fn with_torn(torn: Torn) -> Report
        ensures status { result.status ≡ status_of End.Torn }
        ensures trace { result.trace ≡ None }
        ensures torn { result.torn ≡ Some torn }
    {
        Report {
            status: End::Torn.status(),
            trace: None,
            torn: Some(torn),
            hint: None,
        }
    }

    /// The report of a script that is refused, with what could stand there.
    pub fn with_hint(hint: Option<String>) -> Report
        ensures { (result.status ≡ status_of End.BadScript) × (result.trace ≡ None) × (result.torn ≡ None) }
    {
        Report {
            status: End::BadScript.status(),
            trace: None,
            torn: None,
            hint,
        }
    }
}

impl From<End> for Report {
    ghost from_gives = { λ outcome report.
        (report.status ≡ status_of outcome) × (report.trace ≡ None) × (report.torn ≡ None) };

    fn from(outcome: End) -> Report {
        Report {
            status: outcome.status(),
            trace: None,
            torn: None,
            hint: None,
        }
    }
}

//! How a run ends, and the program's status for it.
ghost use Rattle.std.specs.Prelude.{◌≡◌};
ghost use Rattle.run_model.specs.Machine.Status.{status_of};

use au_model::FaultKind;

/// What is wrong with a command line.
#[derive(Clone, Copy, Debug, PartialEq, Eq)]
pub enum UsageKind {
    /// The words are no command.
    Words,
    /// The words name no text, or more than one.
    Texts,
}

/// How the program ends.
#[derive(Clone, Copy, Debug, PartialEq, Eq)]
pub enum Ending {
    Finished,
    Halted(u8),
    Budget,
    Refused {
        line: u32,
        column: u32,
        kind: FaultKind,
    },
    TooLong,
    Usage(UsageKind),
    ReadFault,
    WriteFault,
    NoMemory,
}

/// How the run of a job ends.
#[derive(Clone, Copy, Debug, PartialEq, Eq)]
pub enum RunEnding {
    Finished,
    Halted(u8),
    Budget,
    WriteFault,
    NoMemory,
}

/// How the run of a job ends, and the answers and inferences of the whole run.
#[derive(Clone, Copy, Debug, PartialEq, Eq)]
pub struct RunEnd {
    pub end: RunEnding,
    pub answers: u64,
    pub inferences: u64,
}

/// The program's exit status.
pub fn code(ending: &Ending) -> u8
    ensures { result ≡ status_of ending.now }
{
    match ending {
        Ending::Finished => 0,
        Ending::Halted(status) => *status,
        Ending::Usage(_) => 64,
        Ending::Refused { .. } => 65,
        Ending::ReadFault => 66,
        Ending::Budget => 67,
        Ending::WriteFault => 68,
        Ending::NoMemory => 69,
        Ending::TooLong => 70,
    }
}

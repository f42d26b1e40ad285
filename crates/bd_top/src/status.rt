ghost use Rattle.std.specs.Prelude.{◌≡◌};

use bd_base::{Cause, Limit, Text};
use run_texts::RunRecord;
use seq_check::Broken;

/// Which of the command's texts is meant.
#[derive(Clone, Copy, Debug, PartialEq, Eq)]
pub enum File {
    Domain,
    Problem,
    Plan,
    Script,
}

/// How a run ended.
#[derive(Debug, Drop)]
pub enum Status {
    /// All was done and written.
    Done,
    /// The plan that was read isn't valid; never with want of memory.
    PlanInvalid(Broken),
    /// The words are no command.
    Usage,
    /// A text is none of its format: the first cause and its place, in a script the line from 1.
    TextRefused {
        file: File,
        place: u32,
        cause: Cause,
    },
    /// A text couldn't be read: it is missing, or the shelf failed.
    ReadFault {
        name: Text,
        missing: bool,
    },
    /// A sink failed.
    WriteFault,
    /// A count passes its limit; the count told is the limit plus one.
    OverLimit {
        limit: Limit,
        count: u64,
    },
    /// Memory was wanting.
    NoMemory,
}

impl Status {
    ghost use Rattle.std.specs.Prelude.{pos};
    ghost use Rattle.bd_top.specs.Status.{number_of};

    /// The status that the process ends with.
    pub fn number(&self) -> i32
        ensures { result ≡ pos (number_of self.now) }
    {
        match self {
            Status::Done => 0,
            Status::PlanInvalid(_) => 1,
            Status::Usage => 2,
            Status::TextRefused { .. } => 3,
            Status::ReadFault { .. } => 4,
            Status::WriteFault => 5,
            Status::OverLimit { .. } => 6,
            Status::NoMemory => 7,
        }
    }
}

/// A run's status, and its record where the core began.
#[derive(Debug, Drop)]
pub struct Ended {
    pub status: Status,
    pub run: Option<RunRecord>,
}

use bd_base::{ActList, Cause, Limit, Text};
use bd_task::Task;
use seq_check::Broken;

/// Which of the three texts is meant.
#[derive(Clone, Copy, Debug, PartialEq, Eq)]
pub enum Part {
    Domain,
    Problem,
    Plan,
}

/// What three texts lead to.
#[derive(Debug, Drop)]
pub enum Inputs {
    /// A ground task and a valid plan for it, with its cost.
    Ready {
        task: Task,
        plan: ActList,
        cost: u64,
    },
    /// A text couldn't be read: it is missing, or the shelf failed.
    Unread {
        part: Part,
        missing: bool,
    },
    /// The first fault of a text, at a byte's place from 0, or a call that is no action.
    Refused {
        part: Part,
        place: u32,
        cause: Cause,
    },
    /// The first count that passes its limit, told as the limit plus one.
    Over {
        limit: Limit,
        count: u64,
    },
    /// The plan isn't valid; never with want of memory.
    Broken {
        task: Task,
        broken: Broken,
    },
    /// Memory was wanting.
    NoMemory,
}

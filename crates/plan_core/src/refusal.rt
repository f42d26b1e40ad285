use bd_base::NoMemory;
use bd_links::Fault;
use std::alloc::{AllocError, AllocFailed};

/// Why an offer is refused: the first of its kind's refusals whose condition holds. A replacement is tried by `Closed`,
/// `NoAction`, `Gone`, `Split`, `NotCheaper`, `TooLong` and `Unlinked`; a tightening by `Closed`, `Gone`, `Between`,
/// `TooDeep`, `NoGain` and `Unlinked`; a rebuild by `Closed`, `Idle`, `BadOrder` and `Unlinked`.
#[derive(Clone, Copy, Debug, PartialEq, Eq)]
pub enum Refusal {
    /// The core takes no more offers; its replacements and the entries of its history.
    Closed { replaced: u64, entries: u64 },
    /// A number of the list isn't that of an action of the task; the first such number.
    NoAction { number: u32 },
    /// The block isn't there, or what the offer names isn't some of the block's kids; what a window carries, each once.
    Gone,
    /// Another kid is after one carried kid and before another.
    Split,
    /// The list isn't cheaper than what it would replace; the two costs.
    NotCheaper { old: u64, new: u64 },
    /// The new tree has more than 4,096 steps; how many.
    TooLong { steps: u64 },
    /// The new tree isn't sound; its first fault.
    Unlinked(Fault),
    /// What is to be on the left and on the right aren't two groups of kids, each convex and with nothing between them.
    Between,
    /// The new tree has more than 64 levels; how many.
    TooDeep { depth: u64 },
    /// The new tree hasn't fewer ordered pairs of steps; how many the old one has, and the new one.
    NoGain { old: u64, new: u64 },
    /// No replacement was accepted since the last rebuild or the start.
    Idle,
    /// The list of pairs is no order of the tree's steps; the first pair that isn't i < j < n or isn't greater than the
    /// pair before it, and where there is none, the least that is wanting.
    BadOrder { i: u32, j: u32 },
    /// Memory was wanting: nothing is said of the offer.
    NoMemory,
}

impl From<NoMemory> for Refusal {
    ghost use Rattle.std.specs.Prelude.{◌≡◌};
    ghost use Rattle.plan_core.specs.declared.refusal.Refusal.TheVariants.{NoMemory as OutOfMemory};

    ghost from_gives = { λ _ e. e ≡ OutOfMemory };

    fn from(_: NoMemory) -> Self {
        Refusal::NoMemory
    }
}

impl From<AllocError> for Refusal {
    ghost use Rattle.std.specs.Prelude.{◌≡◌};
    ghost use Rattle.plan_core.specs.declared.refusal.Refusal.TheVariants.{NoMemory as OutOfMemory};

    ghost from_gives = { λ _ e. e ≡ OutOfMemory };

    fn from(_: AllocError) -> Self {
        Refusal::NoMemory
    }
}

impl<T: Drop> From<AllocFailed<T>> for Refusal {
    ghost use Rattle.std.specs.Prelude.{◌≡◌};
    ghost use Rattle.plan_core.specs.declared.refusal.Refusal.TheVariants.{NoMemory as OutOfMemory};

    ghost from_gives = { λ _ e. e ≡ OutOfMemory };

    fn from(_: AllocFailed<T>) -> Self {
        Refusal::NoMemory
    }
}

use crate::judged::Verdict;
use bd_merge::Found;
use plan_core::Refusal;

/// Why an offer was refused, and after how many entries of the history it was tried.
#[derive(Clone, Copy, Debug, PartialEq, Eq)]
pub struct Refused {
    pub place: u64,
    pub why: Refusal,
}

/// What came of a window in a round.
#[derive(Debug, Drop)]
pub enum What {
    /// The window didn't stand in the tree: its block or a kid was gone, or another kid had come between.
    Skipped(Found),
    /// Its subtask was searched. A found list was offered in its place: the reply is the entry's place in the history, or
    /// why the offer was refused.
    Judged {
        verdict: Verdict,
        reply: Option<Result<u64, Refused>>,
    },
}

/// What came of a window, and after how many entries of the history the tree was looked at.
#[derive(Debug, Drop)]
pub struct Piece {
    pub place: u64,
    pub what: What,
}

/// Why a run ended.
#[derive(Clone, Copy, Debug, PartialEq, Eq)]
pub enum End {
    /// A round over all windows accepted nothing.
    Dry,
    /// The core takes no more offers.
    Closed,
    /// Every offer of the script was made.
    Script,
    /// No gain was left.
    Tight,
}

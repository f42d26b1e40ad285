//! What is said of a window: a verdict on its subtask, a proposal in its place, and the piece of a round.
//!
//! It may know subtasks, the bounded search, the greedy proposer and the core's refusals, and what stands below them.
//! It knows nothing of trees, of who looks at a window, or of when.
//!
//! It promises that a verdict is true of the subtask that it was lent and of the budget, and speaks of all lists of
//! actions: a found list solves the subtask, costs less than the bound, is as cheap as any that solves it, and passes no
//! state of the compiled subtask twice; else no list below the bound solves it, or none below the floor does, and as many
//! compiled states as the budget has are reached at no higher cost. A proposal of `Greedy` solves the subtask, and there
//! is none only where no list solves it or at least 10,000 compiled states are reached.
//! Only calls that are given an allocator take memory, and they change nothing.
#![tactic(auto)]

mod judged;
mod pieces;
mod proposing;
mod searching;

pub use judged::Verdict;
pub use pieces::{End, Piece, Refused, What};
pub use proposing::{Greedy, Proposer};
pub use searching::search;

//! The part of a task that matters, and the search over it.
//!
//! A relevant fact is one that some valid list may have to see to: it is used, and it isn't true at the start or
//! doesn't stay true by itself. It may know bd_base, bd_task, the bounded search and what stands below it, and the law
//! of cut tasks. It promises that a task cut down has exactly the actions that add a relevant fact and of each set the
//! relevant facts alone, and that a verdict which was found there is one on the whole task: its list in the whole
//! task's numbers, its floor and its count of states as they are. Its laws say that a cut task keeps what runs and what facts cost,
//! so that values of the whole task may serve it. It knows nothing of plans or windows.
//! Only calls that are given an allocator take memory, and they change nothing.
#![tactic(auto)]

mod cutting;
mod laws;
mod relevance;
mod searching;

pub use cutting::{CutTask, cut_down};
pub use laws::{cutting_keeps_values, the_rest_stays};
pub use searching::search_relevant;

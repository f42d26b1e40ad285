//! Calls of plans against grounding: whether a call is an action of the task, and which one.
//!
//! It may know bd_base, bd_task, pddl_types and bd_ground. It promises that `find` and `calls_of` answer the first
//! action with the call's name and arguments, that `judge_call` says by the schemas alone why a call is none, and that
//! the two agree; and that the actions of a ground task have names that differ, so that each instance stands once.
#![tactic(auto)]

mod finding;
mod judging;
mod laws;
mod listing;
mod meeting;
mod resolving;
mod texts;

pub use finding::find;
pub use judging::{Judged, judge_call};
pub use laws::{actions_differ, calls_agree};
pub use listing::list_of;
pub use resolving::calls_of;

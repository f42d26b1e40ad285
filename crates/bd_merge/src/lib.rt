//! Windows of a tree, which carry some kids of a block, and merging, which puts steps of a list in their place.
//!
//! The crate says whether a window stands in a tree, and makes the merged tree of one that does. It may know
//! bd_tree and what stands below it: nodes, orders and which sets of kids are convex. It knows nothing of facts
//! or costs, so whether the list does what the carried kids did is the business of the crates above.
//!
//! It promises that a window stands exactly where its block is there, what it carries is some kids of that block,
//! each once and unchanged, and they are convex. A merged tree is well formed again: its new steps have new ids,
//! and the other kids are as they were, before the new steps or after them.
//! Only calls that are given an allocator take memory, and they change nothing.
#![tactic(auto)]

mod merging;
mod ordering;
mod standing;
mod window;

pub use merging::merged;
pub use standing::{Found, stands};
pub use window::{Lean, Window};

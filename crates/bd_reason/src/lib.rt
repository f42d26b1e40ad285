//! Why one kid of a block is before another: the reasons of a pair.
//!
//! A reason names a fact that the first gives and the second needs, that the first needs and the second deletes, or that the
//! first deletes and the second gives. The crate may know bd_base, bd_task, bd_tree and bd_links: facts, actions, nodes and
//! what a node needs, gives and deletes. It knows nothing of whether an ordering may go.
//!
//! It promises that `reasons` and `reasons_between` are all reasons, each once and in their order, and that the reasons of two
//! kids by their ids are those of the kids at their places. Only the effects of the two are made, and `NoMemory` is the one
//! other answer.
#![tactic(auto)]

mod law;
mod listing;
mod reason;

pub use law::reasons_by_place;
pub use listing::{reasons, reasons_between};
pub use reason::Reason;

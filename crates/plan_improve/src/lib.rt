//! Turns one after another, and each better plan put as it is found.
//!
//! A run opens on the deordered tree of a valid plan and takes turns until one ends dry or closed. Behind each turn a second core
//! takes what the turn added, entry by entry, and puts the plan of each replacement with its place and its cost. The crate may know
//! turns, the core, deordering and the texts of a run; it knows nothing of words, or of where texts come from.
//!
//! It promises that the run's history is one of accepted offers from the deordered tree, that it ends dry or closed as the last turn
//! says unless a sink failed or memory was wanting, and that the sink has received exactly the better plans of the history in their
//! order; where the run was stopped, a first part of them.
#![tactic(auto)]

mod following;
mod improving;
mod opening;
mod putting;

pub use improving::{Improvement, improve, improve_quietly};

//! A core behind a lock: the desk, and the seats of those who look at its plan and offer to it.
//!
//! It may know the core and what judges an offer. It promises that all seats of a desk share one history: a look is its replay
//! at a place, an offer is judged on all entries before it, each entry was offered by one seat and told to it once, and the core
//! that comes back at the end has the whole history. Who comes first, and when, it does not promise. To ask how long the history is
//! waits for nobody.
#![tactic(auto)]

mod desk;
mod view;

pub use desk::{Desk, Look, Seat};

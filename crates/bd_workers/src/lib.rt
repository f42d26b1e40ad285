//! Rounds and turns of a plan's improvement, by one worker.
//!
//! A round looks at windows in turn and offers what is found for them; a turn rebuilds where that is due, takes all gains and runs
//! a round over the family of windows; turns follow each other until one ends. It may know all that judges an offer and all that
//! looks for one. It knows nothing of texts, or of what is printed.
//!
//! It promises that the core is always given back with a history that begins with the one it came with, also where memory was
//! wanting; that each piece of a round is true at its place; and that a turn that ends dry leaves a tree that is tight, with a
//! true verdict on each window of its family that leaves nothing to do but lists that are too long. That a proposer is asked, no
//! contract says.
#![tactic(auto)]

mod equal;
mod improving;
mod keeping;
mod law;
mod looking;
mod offering;
mod parts;
mod rounds;
mod turns;
mod windows;

pub use improving::improved;
pub use law::{quiet_is_done, quiet_rounds, turns_run_out};
pub use parts::{Round, Setup, Turn};
pub use rounds::round_alone;
pub use turns::turn_alone;

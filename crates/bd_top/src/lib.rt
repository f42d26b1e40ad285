//! The whole program as one call: from words, named texts and two sinks to a status and the bytes written.
//!
//! It may know every crate below it. It promises what `run_alone` carries: which words and texts lead to
//! which status, which bytes are put, that the plan of every run is valid in each of its linearisations, that
//! the cost of a plan is put exactly where the plan is valid, that a plan is deordered to a tree that is tight, and that a plan is
//! improved until nothing is left to loosen and no window has anything cheaper. Generated errands are improved the same way.
#![tactic(auto)]

mod alone;
mod bench;
mod deorder;
mod improve;
mod notes;
mod prepare;
mod purpose;
mod replay;
mod status;
mod texts;
mod usage;
mod valid;

pub use alone::run_alone;
pub use bd_pieces::End;
pub use run_texts::{Reply, RunRecord, better_text, reply_text, summary_text};
pub use status::{Ended, File, Status};
pub use usage::USAGE;

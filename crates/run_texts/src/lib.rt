//! The texts of a run and its record: each better plan, the summary, and why an offer is refused.
//!
//! It may know the core and its offers, the pieces of a round, and what stands below them. It knows nothing of words, of files, or of
//! who makes the offers.
//!
//! It promises that each text is exactly what is stated, byte for byte, and of what puts a text: the sink has received exactly the
//! text; where the put fails, a first part of it; and where memory is wanting, nothing.
#![tactic(auto)]

mod better;
mod putting;
mod record;
mod reply;
mod summary;
mod writing;

pub use better::better_text;
pub use putting::{Stop, put_entry, put_text};
pub use record::{Reply, RunRecord};
pub use reply::reply_text;
pub use summary::summary_text;
pub use writing::{push_counted, push_fact, push_number};

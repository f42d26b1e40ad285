//! States that a search meets: entries that are open, by their totals, entries that are closed, and the way
//! to an entry.
//!
//! It may know bd_base and bd_task. It promises that an open list gives an entry of the least total, that a
//! closed list tells exactly whether a state is closed, and that the way to an entry runs from the start to
//! its state at its cost and passes no state twice. What a total is made of is the search's.
#![tactic(auto)]

mod closed;
mod entry;
mod opened;
mod way;

pub use closed::ClosedList;
pub use entry::{Entry, Origin};
pub use opened::OpenList;
pub use way::way_to;

//! Cases worked by hand of the desk, as tests.
//!
//! What two seats of a desk see of one another, where neither a clause nor a transcript says it: that an accepted offer is seen at once by the
//! other seat, and that calls answer something other than want of memory. The crate has nothing else, and no crate stands on it.
#![tactic(auto)]

#[cfg(test)]
mod sharing;

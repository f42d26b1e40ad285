//! Cases worked by hand of a round, as tests.
//!
//! What a round does on a small plan, where neither a clause nor a transcript says it: that a proposer is asked after a spent budget, and
//! that its list is offered. The crate has nothing else, and no crate stands on it.
#![tactic(auto)]

#[cfg(test)]
mod asking;

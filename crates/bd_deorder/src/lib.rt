//! Flat deordering: a valid list becomes a flat sound tree in which each ordering has a reason.
//!
//! For each fact that a step needs, the first giver since the last deleter is put before it, the deleters before that giver are
//! put before the giver, and later deleters behind the step; a goal fact is served likewise at the end. The order is the closure
//! of these pairs, made row by row from the last step to the first. The crate may know bd_base, bd_task, bd_tree, bd_links,
//! bd_reason and seq_check; it knows no blocks below the root.
//!
//! It promises that `deorder` gives, exactly where the list is valid, a flat sound tree with the ids 1, 2 and so on whose listed
//! linearisation is the list, and in which each pair with nothing between has a reason; and else the list's first break. It
//! doesn't promise the fewest pairs.
#![tactic(auto)]

mod closing;
mod direct;
mod flat;
mod linking;

pub use flat::deorder;

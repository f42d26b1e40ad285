//! The link check of block-deordered plans.
//!
//! It may know bd_base, bd_task and bd_tree. It promises that `effects` is what a node needs, gives and
//! deletes, that `check` answers `None` exactly where a tree is sound and else tells the first fault, that
//! each linearisation of a sound tree is valid, that the chain of a list is sound exactly where the list is
//! valid, and that `node_cost` is the sum over the node's steps.
//! A block whose kids run in turn is judged by one pass over them. Any other is judged fact by fact: a map has
//! the positions of the kids that give a fact and of those that delete it, and only those are asked how they
//! are ordered. A step's sets are lent by its action, and none is copied.
#![tactic(auto)]

mod blocks;
mod in_turn;
mod judging;
mod law;
mod links;
mod parts;
mod sets;
mod touches;
mod whole;

pub use blocks::effects_of_block;
pub use judging::check;
pub use law::{chains_fit, chains_run, faultless_where_sound, linearisations_run};
pub use links::{all_later, is_linked};
pub use parts::{Child, Effects, Fault, Touches};
pub use sets::adds_of_all;
pub use touches::{deleters, givers, touches_of};
pub use whole::{actions_fit, as_child, effects, node_cost};

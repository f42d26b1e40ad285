//! The family of windows of a tree at a width: which sets of kids of its blocks are looked at, and in which order.
//!
//! It may know bd_tree, bd_shape and bd_merge, and what stands below them: nodes, orders, hulls and windows. It knows
//! nothing of facts or costs, so what is to stand in a window's place is the business of the crates above.
//!
//! It promises that `family` is exactly the stated list, block by block in preorder: the segments of the listing, then
//! the hulls of two kids that are near each other and that aren't there yet, each early and then late. Each window of
//! it stands in the tree. A walk gives the same windows in the same order one at a time, so that not all copies have to
//! be held at once.
//! Whether a hull is there yet is told by its own positions alone, so no set of sets is kept.
//! Only calls that are given an allocator take memory, and `NoMemory` leaves everything as it was.
#![tactic(auto)]

mod cutting;
mod families;
mod law;
mod pick;
mod picking;

pub use families::{FamilyWalk, family};
pub use law::{family_stands, hulls_are_shapes};

//! What doesn't hang on ids: a tree with other ids is as sound, as deep and as ordered as before.
//!
//! It may know trees, shapes and the link check by one fact at a time. It has laws alone, each the contract of a function with
//! an empty body: that the link check, depth, steps, ordered pairs and the listed linearisation of a renamed tree are those of
//! the tree, and that two sides are tightened alike whichever free ids their groups get.
#![tactic(auto)]

mod law;

pub use law::{free_ids_dont_tell, ids_dont_tell};

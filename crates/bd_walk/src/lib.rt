//! A walk that finds gains of trees one after another, and goes on where it was.
//!
//! A gain is a candidate whose tree is sound, not too deep and has fewer ordered step pairs; where a tree has none it is tight. The
//! crate may know tasks, trees, shapes, the link check, reasons and the laws on which orderings may go; it knows nothing of offers
//! or of who takes a gain.
//!
//! It promises that `Walk::next` answers nothing exactly where the tree that it is lent is tight, and else a gain. What a walk
//! keeps is only where to begin: whichever tree it is lent, its answer is true of that tree. A candidate of which the left side
//! needs what the right one deletes is refused before it is unordered and checked; and one whose left side adds at least as many
//! ordered step pairs by its grouping as its two sides have together, before any tree is made of it.
#![tactic(auto)]

mod adding;
mod judging;
mod sides;
mod threat;
mod trying;
mod walk;

pub use walk::Walk;

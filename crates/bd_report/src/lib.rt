//! What is printed of a plan's tree: its blocks, its steps, and which kid is before which, with the reasons.
//!
//! It may know bd_base, bd_task, bd_tree, bd_links and bd_reason: tasks, trees, what a node needs, gives and deletes, and why one
//! kid is before another. It knows nothing of offers and runs, nor of whether a tree is sound.
//!
//! It promises that `tree_text` is exactly the text of the tree, byte for byte, and that `print_tree` puts exactly that text: where
//! the put fails, the sink has taken a first part of it, and where memory is wanting, nothing.
#![tactic(auto)]

mod lines;
mod orderings;
mod printing;
mod tree;

pub use printing::{Unprinted, print_tree};
pub use tree::tree_text;

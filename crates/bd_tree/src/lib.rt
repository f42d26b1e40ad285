//! Trees of plans: a node is a step of one action, or a block of kids with an order on their positions.
//!
//! The crate is for holding such a tree, reading it and counting in it, and for judging which sets of a block's
//! kids are convex. It knows numbers of actions and of nodes, and lists of pairs, from bd_base; it knows nothing
//! of facts, of what an action does, or of costs. Where an order comes from, and whether it is needed, is the
//! business of the crates above.
//!
//! It promises that each `Tree` is well formed: its root is block 0, no two of its nodes have the same id, and
//! each block's order is a strictly rising and closed list of pairs of its kids' positions. How deep a tree is,
//! is no part of that. The counts are exact, two nodes are the same exactly where they are equal, and the listed
//! linearisation is one of the tree's linearisations. `Tree::new` tests a root, tells its first misfit, and takes no
//! more than 64 levels; an order has no misfit exactly where it is one; lists are decided exactly.
//! Only calls that are given an allocator take memory, and `NoMemory` leaves everything as it was.
#![tactic(auto)]

mod convex;
mod deciding;
mod misfit;
mod node;
mod refused;
mod spans;
mod tree;

pub use convex::{
    Members, are_together, comes_before, is_after_member, is_before_member, is_convex,
};
pub use misfit::{MAX_DEPTH, Misfit, order_misfit};
pub use node::{Node, NodeList};
pub use spans::{Span, span_of};
pub use tree::Tree;

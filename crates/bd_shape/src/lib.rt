//! Shapes of trees: the hull of two kids of a block, kids grouped as one block, two kids unordered, and a block
//! restricted to some of its kids.
//!
//! The crate makes these shapes, and says when they may be made. It may know bd_tree and what stands below it: nodes,
//! orders and which sets of kids are convex. It knows nothing of facts or costs, so whether a shape is worth having,
//! or leaves a plan sound, is the business of the crates above.
//!
//! It promises that each shape is exactly the one that its definition names, and that a tree in which kids were grouped
//! or unordered is well formed again, has the same steps, and as much of each measure that adds up over kids. In a
//! grouped block exactly those pairs are ordered that were before, or that lead through the group.
//! Only calls that are given an allocator take memory, and they change nothing. A block of 2^32 kids or more, whose
//! positions no order can name, is answered by `NoMemory`.
#![tactic(auto)]

mod conditions;
mod grouping;
mod hulls;
mod place;
mod placing;
mod restricting;
mod sides;
mod unordering;

pub use conditions::{can_group, can_unorder};
pub use grouping::group;
pub use hulls::{are_kids, are_members, has_between, hull};
pub use restricting::restrict;
pub use unordering::unorder;

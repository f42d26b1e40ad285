//! The kept rows of a sound tree's root, and a walk that takes orderings of single kids out of it by them.
//!
//! Kept are the kids' effects and steps, for each fact the kids that need, give and delete it, and the root's own effects. The
//! crate may know tasks, trees, the link check and the laws on which orderings may go; it makes and checks no candidate's tree.
//!
//! It promises that the kept rows tell exactly whether the ordering of two kids may go; that `Walk::next` answers nothing
//! exactly where no pair of single kids of the root is a gain, and else such a pair, and takes no memory; and that `loosen` takes
//! it out in place and keeps what is kept, and changes nothing where memory is wanting; `Kept::follow` keeps what is kept for a tree
//! that another changes so. Groups of kids and blocks below the root
//! are not its business.
#![tactic(auto)]

mod goes;
mod kept;
mod law;
mod loosening;
mod one_fact;
mod places;
mod tightening;
mod walk;

pub use kept::Kept;
pub use law::{gains_qualify, pairs_go, tight_has_no_gain};
pub use loosening::loosen;
pub use tightening::tighten;
pub use walk::Walk;

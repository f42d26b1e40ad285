//! Which orderings of a sound tree may go, and which trees are tight.
//!
//! A candidate is a pair of kids of a block with nothing between and a side for each, a kid by itself or the hull of two; its
//! tree is the one in which the sides are grouped and unordered. The crate may know tasks, trees, shapes, the link check and
//! reasons; it knows nothing of offers, windows or who takes a gain.
//!
//! It promises that `next_gain` answers nothing exactly where the tree is tight, and else a candidate whose tree is sound, not
//! too deep and has fewer ordered step pairs; each candidate's tree is made and checked. Beside it stand laws, each the
//! contract of a function with an empty body, that say the same by one fact at a time: what a faster walk rests on.
#![tactic(auto)]

mod gain;
mod gaining;
mod judging;
mod law;
mod sides;

pub use gain::Gain;
pub use gaining::next_gain;
pub use law::{
    candidates_listed, facts_apart, faults_climb, faults_told, groups_keep, needs_judged,
    orderings_have_reasons, pairs_counted, pairs_judged, reasonless_go,
};

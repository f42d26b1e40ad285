//! Rebuilds and gains of an open core.
//!
//! A rebuild puts the plan's steps flat, in the order that deordering gives for the listed plan; then gains are taken until the
//! tree is tight: those of two single kids of the root by what is kept of it, and where there are none, those of a walk over all
//! candidates. The crate may know deordering, candidates and the core; it knows nothing of windows, searches or texts.
//!
//! It promises that what it offers is never refused: an order of the deordered listed plan, where a rebuild is due, and a gain of the
//! core's tree, whatever ids the core gives. So each of its calls ends with a core that grew, also where memory was wanting;
//! each rebuild leaves a tree in which each pair with nothing between has a reason; and the tree is tight at the end, or the core is closed.
#![tactic(auto)]

mod gains;
mod law;
mod pairs;
mod rebuilding;
mod taking;
mod tightening;

pub use law::accepted_falls;
pub use rebuilding::rebuild;
pub use tightening::tighten;

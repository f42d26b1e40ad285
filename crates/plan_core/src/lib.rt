//! The core: it holds a task, a tree and the history of accepted offers, and judges each offer by itself.
//!
//! It may know the link check, windows and shapes. A replacement puts cheaper steps in the place of a window, a tightening
//! groups kids of a block into two sides and unorders them, and a rebuild puts all steps flat under the root with an order
//! of its own. The core promises that the history is legal and replays from the start tree to its tree, and that
//! each reply is the first refusal of the offer's kind whose condition holds, else acceptance. Place n is the tree after the
//! first n entries, place 0 the start tree. At each place the tree is sound, so that each linearisation runs from the
//! initial set to the goal; it has at most 4,096 steps and 64 levels and fewer than 2^32 nodes, its actions are the task's
//! and its ids below the next one; and from place to place the cost never rises. A refused offer changes nothing. A core
//! opens on at most 2,000 steps and 64 levels, and closes after `stop` replacements or 16,777,216 entries.
#![tactic(auto)]

mod judge;
mod law;
mod offer;
mod rebuild;
mod refusal;
mod replace;
mod sides;
mod tighten;

pub use judge::{BeginErr, Core, may_begin, rebuilds, replacements, tightenings};
pub use law::offers_judged;
pub use offer::Offer;
pub use refusal::Refusal;

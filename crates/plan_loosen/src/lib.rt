//! Loosening: a valid list becomes a core whose tree is tight.
//!
//! The core opens on the deordered tree of the list, and gains of its tree are taken until there is none. The crate may know
//! deordering, the core and how it is tightened; it knows nothing of texts, windows or searches.
//!
//! It promises that `loosened` gives a core that opened on a deordered tree of the list, whose history has tightenings alone,
//! and whose tree is tight at the span: each gain leaves fewer ordered step pairs, so the core is never closed before.
#![tactic(auto)]

mod loosening;
mod opening;

pub use loosening::loosened;

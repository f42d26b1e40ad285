//! Cases worked by hand of the calls on tasks, plans, trees, windows, cores and heuristic values, as tests.
//!
//! What a library call answers on a small input, where neither a clause nor a transcript says it: each call that
//! takes memory once where there is enough, and values that a person can work out. The cases stand in a crate above
//! those that they call, so that proving them proves nothing below once more. The crate has nothing else, and no
//! crate stands on it.
#![tactic(auto)]

#[cfg(test)]
mod cores;
#[cfg(test)]
mod family;
#[cfg(test)]
mod heuristics;
#[cfg(test)]
mod links;
#[cfg(test)]
mod made;
#[cfg(test)]
mod merge;
#[cfg(test)]
mod plan;
#[cfg(test)]
mod shape;
#[cfg(test)]
mod task;
#[cfg(test)]
mod tree;

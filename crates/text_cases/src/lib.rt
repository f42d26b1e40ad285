//! Cases worked by hand of the calls that read and write texts, ground, and keep a run's record, as tests.
//!
//! What a library call answers on a small text, where neither a clause nor a transcript says it: each call that
//! takes memory once where there is enough, a limit that no text in a transcript can pass, and the parts of a run's
//! record. The cases stand in a crate above those that they call, so that proving them proves nothing below once
//! more. The crate has nothing else, and no crate stands on it.
#![tactic(auto)]

#[cfg(test)]
mod calls;
#[cfg(test)]
mod domain;
#[cfg(test)]
mod grounding;
#[cfg(test)]
mod inputs;
#[cfg(test)]
mod lex;
#[cfg(test)]
mod made;
#[cfg(test)]
mod plan;
#[cfg(test)]
mod problem;
#[cfg(test)]
mod run;
#[cfg(test)]
mod script;

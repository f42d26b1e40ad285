//! A problem of any size from a number: errands from a hub, with a plan that goes back to it each time.
//!
//! It may know bd_base alone. It promises that `generate` gives exactly the stated texts.
#![tactic(auto)]

mod lines;
mod sample;
mod writing;

pub use sample::{DOMAIN, Sample, generate};

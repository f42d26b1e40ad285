//! What the generated texts of errands lead to, by the readers that judge every other three texts.
//!
//! It may know the generator, what a shelf is, and what reads and judges three texts. It promises that `errand_inputs` tells what
//! the stated texts lead to as they stand: nothing of a shelf comes in between, and want of memory alone is free.
#![tactic(auto)]

mod reading;
mod shelf;

pub use reading::generated_inputs;

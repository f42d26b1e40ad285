//! The program's words: which command they ask for, with which names and numbers.
//!
//! It may know bd_base and clap. It promises that `request_of` answers what the words ask for: the first word names a
//! command, and the words behind it are those that clap takes for it, with the names and numbers that clap finds there;
//! and nothing exactly where there is no word, the first one is no command, or clap refuses the rest. Each number stands in its
//! range, and no words ask for two commands.
#![tactic(auto)]

mod apps;
mod law;
mod reading;
mod request;

pub use law::one_command;
pub use reading::request_of;
pub use request::{Numbers, Request, TextNames};

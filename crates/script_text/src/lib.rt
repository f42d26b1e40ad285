//! Scripts: texts that write a task, a plan for it, and what is to be done with them, line by line.
//!
//! It may know plan_core and what stands below it. It promises that `read_script` answers a script exactly
//! where the text spells one within the limits, a limit exactly where it spells one beyond them, and else
//! the line and the cause of the first fault from left to right; and that no text spells two scripts. A start
//! tree is well formed and lists the plan; the blocks that a replacement carries are read as they are written.
//! Reading is near linear in the text: names are found by a hash and lent from the text, each set is sorted
//! once, and nodes are read word by word over the blocks that are open.
#![tactic(auto)]

mod lines;
mod names;
mod nodes;
mod offers;
mod readers;
mod script;
mod sections;
mod words;

pub use script::Script;
pub use sections::{one_script, read_script};

//! Plan texts: calls of a domain's actions at constants and objects, read and printed.
//!
//! It may know bd_base, bd_task, pddl_lex, pddl_types and pddl_form, and not how a domain or a problem is read.
//! `read_plan` promises the calls exactly where the text spells them, and else the first fault; no text spells two
//! plans. `print_plan` promises a line for each action, and after a put that failed a first part of them.
#![tactic(auto)]

mod calls;
mod printed;

pub use calls::{one_plan, read_plan};
pub use printed::print_plan;

//! Problems for a domain: objects, what holds at first, the goal and the metric, read from one list of words.
//!
//! It may know bd_base, pddl_lex, pddl_types and pddl_form, and not how a domain is read. `read_problem`
//! promises the problem that the tree is, or its first fault; and that, where the domain was read, all that grounding
//! relies on holds of the two.
#![tactic(auto)]

mod goal;
mod init;
mod keys;
mod known;
mod outline;
mod sections;
mod whole;

pub use whole::read_problem;

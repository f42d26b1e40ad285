//! What the texts of domains and problems spell, as relations in the words of the format, and the laws that join each to
//! the function that gives a section's value or its first fault.
//!
//! It may know bd_base and the readers of domains and problems. It promises that each section of a domain or a problem is
//! read exactly where it is spelled, so that no tree spells two values of it. No function here does anything.
#![tactic(auto)]

mod domains;
mod problems;

pub use domains::{
    actions_law, condition_law, domain_law, domain_outline_law, effect_law, functions_law,
    one_domain, parameters_law, types_law,
};
pub use problems::{goal_law, init_law, metric_law, one_problem, problem_law, problem_outline_law};

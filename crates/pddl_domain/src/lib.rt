//! Domains: types, constants, predicates, functions and actions, read from one list of words.
//!
//! It may know bd_base, pddl_lex, pddl_types and pddl_form. `read_domain` promises the domain that the tree is, or
//! its first fault by the order of docs/rules.md; what grounding relies on holds of each domain that it gives.
#![tactic(auto)]

mod actions;
mod conditions;
mod effects;
mod fields;
mod heads;
mod outline;
mod params;
mod reading;
mod sections;
mod type_table;
mod types;
mod values;
mod whole;

pub use whole::read_domain;

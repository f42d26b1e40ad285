//! From the three texts of a command to a ground task and a valid plan: domain, problem, plan, grounding, the plan's
//! actions, and its validity, judged in this order.
//!
//! It may know the readers of texts, bd_ground, plan_calls, seq_check and what these stand on. `inputs` promises what the
//! texts that a shelf tells lead to: each text is read and judged before the next one is read, and the first fault, limit
//! or break is told. By `valid_plans` they are ready exactly where the plan is valid, and then its calls run by the schemas.
#![tactic(auto)]

mod answers;
mod law;
mod reading;
mod stages;
mod steps;

pub use answers::{Inputs, Part};
pub use law::valid_plans;
pub use stages::inputs;

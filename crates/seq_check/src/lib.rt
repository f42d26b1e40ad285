//! Whether a list of actions is a plan: it runs from the initial set to the goal.
//!
//! It may know bd_base and bd_task. `validate` answers the cost exactly where the list is valid, and else
//! its first break; its contract says that nothing breaks exactly where the list is valid.
#![tactic(auto)]

mod judging;

pub use judging::{Broken, validate};

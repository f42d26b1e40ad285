//! Heuristic values of a state, where deletes are ignored.
//!
//! It may know bd_base and bd_task. It promises that `h_max` and `h_add` are the relaxed values of the goal
//! after as many rounds as the task has facts: none exactly where the goal can't be reached with deletes
//! ignored; and that `h_max` is at most the cost of every list that reaches the goal. The values of all facts
//! come in one pass over an index of the task's actions, cheapest first. Its laws say that a state's
//! preconditions decide what can run and what each fact costs: crates above keep values by that.
#![tactic(auto)]

mod heuristics;
mod index;
mod join;
mod joining;
mod laws;
mod queue;
mod running;
mod settling;

pub use heuristics::{h_add, h_max};
pub use index::{ActionIndex, ActionRow};
pub use join::Join;
pub use joining::{joined, value_at};
pub use laws::{h_max_is_consistent, the_core_decides, values_are_columns};
pub use running::runnable;
pub use settling::values;

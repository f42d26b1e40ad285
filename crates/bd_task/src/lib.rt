//! Ground tasks: numbered facts and actions, an initial set and a goal, and how a list of actions runs.
//!
//! It may know bd_base. It promises that a `Task` meets its conditions (facts in range, bounded costs, adds
//! and deletes apart), that its sets rise, that `Task::step` is one step of the run of a list, and that
//! `Task::cost` is the sum of the actions' costs. Its definitions say what a run, a valid list and the first
//! break of a list are.
#![tactic(auto)]

mod fits;
mod ground;

pub use fits::is_task;
pub use ground::{Action, Task};

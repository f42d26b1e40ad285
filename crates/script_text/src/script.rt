use bd_base::{ActList, Items};
use bd_task::Task;
use bd_tree::Tree;
use plan_core::Offer;

/// What a script gives: a task, a plan for it, and what is to be done with them.
#[derive(Debug, Drop)]
pub struct Script {
    pub task: Task,
    pub plan: ActList,
    /// The tree to start from; else it is the chain of the plan.
    pub start: Option<Tree>,
    /// The number of the line of the start tree, from 1; 0 where there is none.
    pub start_line: u32,
    /// After how many replacements nothing more is accepted.
    pub stop: u32,
    pub offers: Items<Offer>,
}

use bd_base::{ActionId, NoMemory};
use bd_task::Task;
use std::alloc::Global;

/// The cost of a list, if it runs to the goal.
pub fn cost_of_run(alloc: Global, task: &Task, list: &[ActionId]) -> Result<Option<u64>, NoMemory> {
    let mut state = task.init().try_copy(alloc)?;
    let mut cost = 0u64;
    for a in list {
        if a.0 >= task.actions() || !task.step(alloc, &mut state, *a)? {
            return Ok(None);
        }
        cost = cost.saturating_add(task.action(*a).cost);
    }
    if !task.goal().subset(&state) {
        return Ok(None);
    }
    Ok(Some(cost))
}

use crate::made::{action, task_of};
use bd_base::NoMemory;
use bd_heur::{h_add, h_max};
use bd_task::Task;
use std::alloc::Global;
use std::test::Fail;

// Facts a, b, c, x, y: from a to b at 3, from a to c at 2, x at b, y at c, each at 1; a fact z that nothing adds.
fn letters(alloc: Global, goal: &[u32]) -> Result<Option<Task>, NoMemory> {
    let mut actions = Vec::new(alloc);
    actions.push(action(alloc, 3, &[0], &[1], &[])?)?;
    actions.push(action(alloc, 2, &[0], &[2], &[])?)?;
    actions.push(action(alloc, 1, &[1], &[3], &[])?)?;
    actions.push(action(alloc, 1, &[2], &[4], &[])?)?;
    task_of(alloc, 6, actions, &[0], goal)
}

#[test]
fn the_dearest_goal_fact_and_the_sum(rt: HostRuntime) -> Result<(), Fail> {
    let alloc = rt.alloc();
    let task = letters(alloc, &[3, 4])?.ok_or("no task")?;
    assert_eq!(rt; h_max(alloc, &task, task.init())?, Some(4));
    assert_eq!(rt; h_add(alloc, &task, task.init())?, Some(7));
    Ok(())
}

#[test]
fn a_fact_that_nothing_adds(rt: HostRuntime) -> Result<(), Fail> {
    let alloc = rt.alloc();
    let task = letters(alloc, &[3, 5])?.ok_or("no task")?;
    assert_eq!(rt; h_max(alloc, &task, task.init())?, None);
    assert_eq!(rt; h_add(alloc, &task, task.init())?, None);
    Ok(())
}

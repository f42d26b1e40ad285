use crate::made::{action, set, task_of};
use bd_base::{ActionId, FactId, NoMemory};
use bd_task::Task;
use std::alloc::Global;
use std::test::Fail;

// From a to b at cost 3, and back at cost 4.
fn there_and_back(alloc: Global) -> Result<Option<Task>, NoMemory> {
    let mut actions = Vec::new(alloc);
    actions.push(action(alloc, 3, &[0], &[1], &[0])?)?;
    actions.push(action(alloc, 4, &[1], &[0], &[1])?)?;
    task_of(alloc, 2, actions, &[0], &[1])
}

#[test]
fn a_task_is_made_copied_and_run(rt: HostRuntime) -> Result<(), Fail> {
    let alloc = rt.alloc();
    let task = there_and_back(alloc)?.ok_or("no task")?.try_copy(alloc)?;
    assert_eq!(rt; task.actions(), 2);
    let mut s = task.init().try_copy(alloc)?;
    assert!(rt; task.step(alloc, &mut s, ActionId(0))?);
    assert!(rt; s.has(FactId(1)) && !s.has(FactId(0)));
    assert!(rt; !task.step(alloc, &mut s, ActionId(0))?);
    assert_eq!(rt; task.cost(&[ActionId(0), ActionId(1)]), 7);
    Ok(())
}

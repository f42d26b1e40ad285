use crate::made::{action, task_of};
use bd_base::{ActionId, FactId, NoMemory};
use bd_task::Task;
use seq_check::{Broken, validate};
use std::alloc::Global;
use std::test::Fail;

// Action 0 goes from a to b at cost 3, and action 1 makes c out of a and b at cost 5; the goal is b and c.
fn small_task(alloc: Global) -> Result<Option<Task>, NoMemory> {
    let mut actions = Vec::new(alloc);
    actions.push(action(alloc, 3, &[0], &[1], &[0])?)?;
    actions.push(action(alloc, 5, &[1], &[2], &[])?)?;
    task_of(alloc, 3, actions, &[0], &[1, 2])
}

#[test]
fn a_list_is_judged(rt: HostRuntime) -> Result<(), Fail> {
    let alloc = rt.alloc();
    let task = small_task(alloc)?.ok_or("no task")?;
    assert_eq!(rt; task.actions(), 2);
    assert_eq!(rt; validate(alloc, &task, &[ActionId(0), ActionId(1)]), Ok(8));
    let step = Broken::Step {
        at: 2,
        fact: FactId(0),
    };
    assert_eq!(rt;
        validate(alloc, &task, &[ActionId(0), ActionId(0)]),
        Err(step)
    );
    let goal = Broken::Goal { fact: FactId(2) };
    assert_eq!(rt; validate(alloc, &task, &[ActionId(0)]), Err(goal));
    Ok(())
}

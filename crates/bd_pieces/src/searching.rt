ghost use Rattle.std.specs.Prelude.{◌≡◌, ◌≤◌, true, length, IfOk};
ghost use Rattle.bd_task.specs.TaskView.{are_apart};
ghost use Rattle.bd_subtask.specs.Compiled.{IsOf};
ghost use Rattle.bd_pieces.specs.Verdict.{IsTrueOf};

use crate::judged::Verdict;
use bd_base::NoMemory;
use bd_relevant::search_relevant;
use bd_subtask::{SubTask, compile};
use bd_task::Task;
use std::alloc::Global;

// The same subtask.
fn copy_of(alloc: Global, sub: &SubTask) -> Result<SubTask, NoMemory>
    ensures { IfOk result (λ copy. copy ≡ sub.now) }
{
    Ok(SubTask {
        init: sub.init.try_copy(alloc)?,
        goal: sub.goal.try_copy(alloc)?,
        make: sub.make.try_copy(alloc)?,
        keep: sub.keep.try_copy(alloc)?,
        bound: sub.bound,
    })
}

/// A true verdict on a subtask within a budget of states: a bounded search over what is relevant of the compiled
/// subtask, which closes at most `nodes` states. The subtask that was lent is kept beside it.
pub fn search(alloc: Global, task: &Task, sub: &SubTask, nodes: u32) -> Result<Verdict, NoMemory>
    requires of { IsOf task.now sub.now }
    requires apart { are_apart sub.now.make sub.now.keep ≡ true }
    requires few { length task.now.facts ≤ 262_144 }
    ensures kept { IfOk result (λ verdict. verdict.sub ≡ sub.now) }
    ensures verdict { IfOk result (λ verdict. IsTrueOf task.now sub.now nodes verdict.kind) }
{
    let compiled = compile(alloc, task, sub)?;
    let kind = search_relevant(alloc, &compiled, sub.bound, nodes)?;
    let copy = copy_of(alloc, sub)?;
    Ok(Verdict { sub: copy, kind })
}

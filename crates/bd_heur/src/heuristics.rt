ghost use Rattle.std.specs.Prelude.{◌≡◌, IfOk};
ghost use Rattle.bd_heur.specs.Reachable.{IsNumberWhereReachable};
ghost use Rattle.bd_heur.specs.Relaxed.{goal_value, IsBelowAllCosts};
ghost use Rattle.bd_heur.specs.declared.join.Join.TheVariants.{Greatest, Sum};

use crate::Join;
use crate::index::ActionIndex;
use crate::joining::value_of_all;
use crate::settling::values;
use bd_base::{FactSet, NoMemory};
use bd_task::Task;
use std::alloc::Global;

fn goal_value(alloc: Global, join: Join, task: &Task, s: &FactSet) -> Result<Option<u64>, NoMemory>
    ensures { IfOk result (λ value. value ≡ goal_value join task.now s.now) }
{
    let _ = task.init();
    let index = ActionIndex::of(alloc, task)?;
    let table = values(alloc, join, task, &index, s)?;
    Ok(value_of_all(join, &table, task.goal()))
}

/// The greatest relaxed value of the goal facts from a state: none exactly where the goal can't be reached
/// with deletes ignored, and at most the cost of each list that reaches the goal.
pub fn h_max(alloc: Global, task: &Task, s: &FactSet) -> Result<Option<u64>, NoMemory>
    ensures value { IfOk result (λ value. value ≡ goal_value Greatest task.now s.now) }
    ensures some { IfOk result (λ value. IsNumberWhereReachable task.now s.now value) }
    ensures admissible { IfOk result (λ value. IsBelowAllCosts task.now s.now value) }
{
    let _ = task.init();
    goal_value(alloc, Join::Greatest, task, s)
}

/// The sum of the relaxed values of the goal facts from a state: none exactly where the goal can't be reached
/// with deletes ignored.
pub fn h_add(alloc: Global, task: &Task, s: &FactSet) -> Result<Option<u64>, NoMemory>
    ensures value { IfOk result (λ value. value ≡ goal_value Sum task.now s.now) }
    ensures some { IfOk result (λ value. IsNumberWhereReachable task.now s.now value) }
{
    let _ = task.init();
    goal_value(alloc, Join::Sum, task, s)
}

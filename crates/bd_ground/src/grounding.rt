ghost use Rattle.std.specs.Prelude.{◌≡◌, ◌≤◌, map, length, IfOk};
ghost use Rattle.pddl_types.specs.Readable.{IsDomain, IsProblem};
ghost use Rattle.bd_ground.specs.Instances.{task_instances};
ghost use Rattle.bd_ground.specs.Sight.{instance_of};
ghost use Rattle.bd_ground.specs.Task.{goal_atoms as goal_atoms_of, start_atoms as start_atoms_of, fact_atoms, action_of};
ghost use Rattle.bd_ground.specs.Grounding.{IsGround, Grounds};

use crate::choices::World;
use crate::facts::FactTable;
use crate::found::{Found, Instance};
use crate::grounding_err::GroundErr;
use crate::made::table_of;
use crate::parts::{actions_after_start, names_of};
use crate::sets::{goal_atoms, start_atoms};
use bd_base::NoMemory;
use bd_task::{Action, Task};
use pddl_types::{Domain, Problem};
use std::alloc::Global;

// The task, whose facts and actions are all there.
fn task_of(
    alloc: Global,
    domain: &Domain,
    problem: &Problem,
    facts: &FactTable,
    start: &[Vec<u32>],
    goal: &[Vec<u32>],
    list: &[Instance],
    actions: Vec<Action>,
) -> Result<Task, NoMemory>
    requires domain { IsDomain domain.now }
    requires problem { IsProblem domain.now problem.now }
    requires facts { facts.now ≡ fact_atoms domain.now problem.now }
    requires start { map (λ g. g.items) start.now ≡ start_atoms_of domain.now problem.now }
    requires goal { map (λ g. g.items) goal.now ≡ goal_atoms_of problem.now }
    requires list { map instance_of list.now ≡ task_instances domain.now problem.now }
    requires few { length list.now ≤ 1_000_000 }
    requires actions { actions.items ≡ map (λ i. action_of domain.now problem.now facts.now (instance_of i)) list.now }
    ensures { IfOk result (λ t. IsGround domain.now problem.now t) }
{
    let atoms = facts.as_slice();
    let names = names_of(alloc, domain, problem, atoms)?;
    let init = facts.set_of(alloc, start)?;
    let wanted = facts.set_of(alloc, goal)?;
    Ok(Task::new(names, actions, init, wanted))
}

fn task_from(
    alloc: Global,
    domain: &Domain,
    problem: &Problem,
    list: &[Instance],
) -> Result<Task, GroundErr>
    requires domain { IsDomain domain.now }
    requires problem { IsProblem domain.now problem.now }
    requires list { map instance_of list.now ≡ task_instances domain.now problem.now }
    requires few { length list.now ≤ 1_000_000 }
    ensures { Grounds domain.now problem.now result }
{
    let goal = goal_atoms(alloc, problem)?;
    let start = start_atoms(alloc, domain, problem, &goal)?;
    let mut facts = FactTable::new(alloc);
    match actions_after_start(alloc, domain, problem, &mut facts, &start, &goal, list) {
        Ok(actions) => {
            let task = task_of(alloc, domain, problem, &facts, &start, &goal, list, actions)?;
            Ok(task)
        }
        Err(e) => Err(e),
    }
}

/// The ground task of a problem: all its actions and facts, unless they are too many.
pub fn ground(alloc: Global, domain: &Domain, problem: &Problem) -> Result<Task, GroundErr>
    requires domain { IsDomain domain.now }
    requires problem { IsProblem domain.now problem.now }
    ensures { Grounds domain.now problem.now result }
{
    let stated = table_of(alloc, problem.init.as_slice())?;
    let world = World::new(alloc, domain, problem, &stated)?;
    let mut found = Found::new(alloc);
    match world.add_all(alloc, &mut found) {
        Ok(()) => task_from(alloc, domain, problem, found.as_slice()),
        Err(e) => Err(e),
    }
}

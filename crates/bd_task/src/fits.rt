ghost use Rattle.std.specs.Prelude.{◌≡◌, ◌≤◌, ◌<◌, length, true, IsTrue, ◌↔◌};
ghost use Rattle.bd_task.specs.TaskView.{AreBelow, are_apart, IsAction, AreActions, IsTask};

use crate::Action;
use bd_base::{FactId, FactSet, Text};

fn are_below(n: usize, set: &FactSet) -> bool
    ensures { IsTrue result ↔ AreBelow n set.now }
{
    for f in set.iter() {
        if f.0 as usize >= n {
            return false;
        }
    }
    true
}

fn are_apart(left: &FactSet, right: &FactSet) -> bool
    ensures { result ≡ are_apart left.now right.now }
{
    for f in left.iter() {
        if right.has(f) {
            return false;
        }
    }
    true
}

fn is_action(n: usize, a: &Action) -> bool
    ensures { IsTrue result ↔ IsAction n a.now }
{
    a.cost <= 1_000_000_000
        && are_below(n, &a.pre)
        && are_below(n, &a.add)
        && are_below(n, &a.del)
        && are_apart(&a.add, &a.del)
}

fn are_actions(n: usize, actions: &[Action]) -> bool
    ensures { IsTrue result ↔ AreActions n actions.now }
{
    for a in actions {
        if !is_action(n, a) {
            return false;
        }
    }
    true
}

/// Whether these parts make a task: the condition of `Task::new`.
pub fn is_task(facts: &[Text], actions: &[Action], init: &FactSet, goal: &FactSet) -> bool
    ensures { IsTrue result ↔ IsTask (record { facts = facts.now; actions = actions.now; init = init.now; goal = goal.now }) }
{
    facts.len() <= 524_288
        && actions.len() <= 1_000_000
        && are_actions(facts.len(), actions)
        && are_below(facts.len(), init)
        && are_below(facts.len(), goal)
}

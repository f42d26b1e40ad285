ghost use Rattle.std.specs.Prelude.{◌≡◌, ◌<◌, ◌↔◌, length, find, not, Option, None, IfOk, IfSome, IsTrue};
ghost use Rattle.bd_base.specs.Facts.{has};
ghost use Rattle.bd_task.specs.TaskView.{IsTask};
ghost use Rattle.bd_links.specs.Faults.{holds_after, root_fault, fact_of};
ghost use Rattle.bd_links.specs.Judged.{Answers, Judges};
ghost use Rattle.bd_links.specs.Sound.{summary_of, child_of, are_below, first_fault, IsSound, RunsAlways};

use crate::blocks::judge_block;
use crate::parts::{Child, Fault, Stop};
use bd_base::{FactId, FactSet, NoMemory};
use bd_task::Task;
use bd_tree::{Node, Tree};
use std::alloc::Global;

// A node's id and effects, or the first fault inside it.
fn judge<'a>(alloc: Global, task: &'a Task, node: &Node) -> Result<Child<'a>, Stop>
    requires { IsTrue (are_below (length task.now.actions) node.now) }
    ensures { Judges (summary_of task.now.actions node.now).fault (child_of task.now.actions node.now) result }
{
    match node {
        Node::Step { id, action } => Ok(Child::of_step(*id, task.action(*action))),
        Node::Block { id, kids, order } => {
            let mut children = Vec::new(alloc);
            for kid in kids.as_slice() {
                children.push(judge(alloc, task, kid)?)?;
            }
            let effects = judge_block(alloc, *id, order, &children)?;
            Ok(Child::of_effects(*id, effects))
        }
    }
}

// The least fact of the set that the other lacks.
fn first_lacking(facts: &FactSet, s: &FactSet) -> Option<FactId>
    ensures { result ≡ find (λ p. not (has s.now p)) facts.now }
{
    for p in facts.iter() {
        if !s.has(p) {
            return Some(p);
        }
    }
    None
}

// The least goal fact that isn't true at the end.
fn first_missed(init: &FactSet, goal: &FactSet, root: &Child<'_>) -> Option<FactId>
    ensures { result ≡ find (λ g. not (holds_after init.now root.now.effects g)) goal.now }
{
    for g in goal.iter() {
        if !(root.add().has(g) || (init.has(g) && !root.del().has(g))) {
            return Some(g);
        }
    }
    None
}

// The fault of a root.
fn fault_of_root(init: &FactSet, goal: &FactSet, root: &Child<'_>) -> Option<Fault>
    ensures { result ≡ root_fault init.now goal.now root.now.effects }
{
    if let Some(fact) = first_lacking(root.need(), init) {
        return Some(Fault::Need { fact });
    }
    match first_missed(init, goal, root) {
        Some(fact) => Some(Fault::Goal { fact }),
        None => None,
    }
}

// The answer for a root that was judged. It takes no memory, so a fault that was found is told.
fn answer(task: &Task, judged: Result<Child<'_>, Stop>) -> Result<Option<Fault>, NoMemory>
    ensures { Answers task.now.init task.now.goal judged.entry result }
{
    match judged {
        Ok(root) => Ok(fault_of_root(task.init(), task.goal(), &root)),
        Err(Stop::Found(fault)) => Ok(Some(fault)),
        Err(Stop::NoMemory) => Err(NoMemory),
    }
}

fn fault_of_tree(alloc: Global, task: &Task, root: &Node) -> Result<Option<Fault>, NoMemory>
    requires { IsTrue (are_below (length task.now.actions) root.now) }
    ensures first { IfOk result (λ f. f ≡ first_fault task.now root.now) }
    ensures task { IsTask task.now }
{
    let _ = task.init();
    answer(task, judge(alloc, task, root))
}

/// The link check: `None` exactly where the tree is sound, else the first fault. Kids are walked before
/// their block and siblings in their listing; at a block the kid of the least position and then the least
/// fact is told; then the least need of the root, and then the least goal fact. Each linearisation of a
/// sound tree is valid, and the fact that a fault tells is one of the task's.
pub fn check(alloc: Global, task: &Task, tree: &Tree) -> Result<Option<Fault>, NoMemory>
    requires { IsTrue (are_below (length task.now.actions) tree.now) }
    ensures first { IfOk result (λ f. f ≡ first_fault task.now tree.now) }
    ensures sound { IfOk result (λ f. (f ≡ None) ↔ IsSound task.now tree.now) }
    ensures runs { IfOk result (λ f. f ≡ None → RunsAlways task.now tree.now) }
    ensures fact { IfOk result (λ f. IfSome f (λ fault. fact_of fault < length task.now.facts)) }
{
    fault_of_tree(alloc, task, tree.root())
}

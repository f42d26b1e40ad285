ghost use Rattle.std.specs.Prelude.{◌≡◌, ◌+◌, length, Some, IfOk, OnOk, slice_get};
ghost use Rattle.bd_task.specs.TaskView.{IsAction};
ghost use Rattle.bd_cut.specs.Cut.{AreRelevant, cut_set, cut_action};
ghost use Rattle.bd_relevant.specs.CutDown.{IsCutDown};
ghost use Rattle.bd_relevant.specs.Uses.{AreCutActions};

use crate::relevance::{is_kept, relevant_facts};
use bd_base::{ActList, ActionId, FactSet, FromItems, Items, NoMemory, Text};
use bd_task::{Action, Task};
use std::alloc::Global;

/// A task cut down: its relevant facts, its actions that add one of them with their numbers in the whole task, and what
/// is left of it. Facts keep their numbers, and have no names.
#[derive(Debug, Drop)]
pub struct CutTask {
    pub relevant: FactSet,
    pub numbers: ActList,
    pub task: Task,
}

// The relevant facts of a set.
fn cut_set(alloc: Global, relevant: &FactSet, s: &FactSet) -> Result<FactSet, NoMemory>
    ensures { IfOk result (λ cut. cut ≡ cut_set relevant.now s.now) }
{
    let _walk = s.iter();
    let mut others = s.try_copy(alloc)?;
    others.minus(relevant);
    let mut cut = s.try_copy(alloc)?;
    cut.minus(&others);
    Ok(cut)
}

// An action on the relevant facts alone.
fn cut_action(alloc: Global, relevant: &FactSet, action: &Action) -> Result<Action, NoMemory>
    ensures { IfOk result (λ cut. cut ≡ cut_action relevant.now action.now) }
{
    Ok(Action {
        name: Text::from_slice(alloc, action.name.as_slice())?,
        cost: action.cost,
        pre: cut_set(alloc, relevant, &action.pre)?,
        add: cut_set(alloc, relevant, &action.add)?,
        del: cut_set(alloc, relevant, &action.del)?,
    })
}

// Puts an action, cut down, behind others, with its number, if it adds a relevant fact.
fn push_kept(
    alloc: Global,
    task: &Task,
    relevant: &FactSet,
    number: ActionId,
    action: &Action,
    numbers: &mut Vec<ActionId>,
    actions: &mut Vec<Action>,
) -> Result<(), NoMemory>
    requires at { slice_get task.now.actions number ≡ Some action.now }
    requires fits { IsAction (length task.now.facts) action.now }
    requires kept { AreCutActions task.now relevant.now number numbers.old.items actions.old.items }
    ensures { OnOk result (AreCutActions task.now relevant.now (number + 1) numbers.new.items actions.new.items) }
{
    let _ = task;
    if !is_kept(relevant, action) {
        return Ok(());
    }
    let cut = cut_action(alloc, relevant, action)?;
    actions.push(cut)?;
    numbers.push(number)?;
    Ok(())
}

// The actions that add a relevant fact, cut down, behind their numbers.
#[tactic(auto, using(crate::proofs::CutDownLemmas::cut_none))]
fn kept_actions(
    alloc: Global,
    task: &Task,
    relevant: &FactSet,
) -> Result<(Vec<ActionId>, Vec<Action>), NoMemory>
    ensures { IfOk result (λ kept. AreCutActions task.now relevant.now (length task.now.actions) kept.0.items kept.1.items) }
{
    let mut numbers = Vec::new(alloc);
    let mut actions = Vec::new(alloc);
    for a in 0..task.actions() {
        let number = ActionId(a);
        push_kept(
            alloc,
            task,
            relevant,
            number,
            task.action(number),
            &mut numbers,
            &mut actions,
        )?;
    }
    Ok((numbers, actions))
}

// As many empty names as there are facts.
fn no_names(alloc: Global, count: u32) -> Result<Vec<Text>, NoMemory>
    ensures { IfOk result (λ names. length names.items ≡ count) }
{
    let mut names = Vec::new(alloc);
    for _ in 0..count {
        names.push(Text::from_slice(alloc, &[])?)?;
    }
    Ok(names)
}

// The task cut down, of its relevant facts and of the actions that add one of them.
fn cut_with(
    alloc: Global,
    task: &Task,
    relevant: FactSet,
    numbers: Vec<ActionId>,
    actions: Vec<Action>,
) -> Result<CutTask, NoMemory>
    requires relevant { AreRelevant task.now relevant }
    requires kept { AreCutActions task.now relevant (length task.now.actions) numbers.items actions.items }
    ensures { IfOk result (IsCutDown task.now) }
{
    let _start = task.init();
    let names = no_names(alloc, task.facts())?;
    let first = cut_set(alloc, &relevant, task.init())?;
    let wanted = cut_set(alloc, &relevant, task.goal())?;
    let cut = Task::new(names, actions, first, wanted);
    Ok(CutTask {
        relevant,
        numbers: ActList::of(numbers),
        task: cut,
    })
}

/// The task cut down to its relevant facts.
pub fn cut_down(alloc: Global, task: &Task) -> Result<CutTask, NoMemory>
    ensures { IfOk result (IsCutDown task.now) }
{
    let relevant = relevant_facts(alloc, task)?;
    let (numbers, actions) = kept_actions(alloc, task, &relevant)?;
    cut_with(alloc, task, relevant, numbers, actions)
}

ghost use Rattle.std.specs.Prelude.{◌≡◌, ◌+◌, ◌*◌, ◌<◌, ◌≤◌, suc, [], Some, length, IfOk, OnOk, slice_get};
ghost use Rattle.bd_heur.specs.Index.{IsIndex};
ghost use Rattle.bd_heur.specs.declared.join.Join.TheVariants.{Sum};
ghost use Rattle.bd_values.specs.Kept.{IsReady};
ghost use Rattle.bd_greedy.specs.Hunt.{IsFirst, IsHunt, IsNext, sum_value};
ghost use Rattle.bd_greedy.specs.Proposal.{IsProposal};

use bd_base::{ActList, ActionId, FactSet, NoMemory};
use bd_heur::ActionIndex;
use bd_states::{ClosedList, Entry, OpenList, Origin, way_to};
use bd_task::Task;
use bd_values::CoreStates;
use std::alloc::Global;

// The value of a state.
fn value_of(
    alloc: Global,
    task: &Task,
    index: &ActionIndex,
    states: &mut CoreStates,
    s: &FactSet,
) -> Result<Option<u64>, NoMemory>
    requires index { IsIndex task.now index.now }
    requires ready { IsReady Sum task.now states.old }
    ensures value { IfOk result (λ value. value ≡ sum_value task.now s.now) }
    ensures ready { IsReady Sum task.now states.new }
{
    states.goal_value(alloc, task, index, s)
}

// The open list at the start: none where the goal can't be reached with deletes ignored.
fn start(
    alloc: Global,
    task: &Task,
    index: &ActionIndex,
    states: &mut CoreStates,
) -> Result<OpenList, NoMemory>
    requires index { IsIndex task.now index.now }
    requires ready { IsReady Sum task.now states.old }
    ensures first { IfOk result (λ opened. IsFirst task.now opened) }
    ensures ready { IsReady Sum task.now states.new }
{
    let state = task.init().try_copy(alloc)?;
    match value_of(alloc, task, index, states, &state)? {
        None => Ok(OpenList::new(alloc)),
        Some(value) => {
            let mut opened = OpenList::new(alloc);
            opened.put(Entry {
                state,
                cost: 0,
                value,
                total: value,
                from: None,
            })?;
            Ok(opened)
        }
    }
}

// The entry one action behind a closed one, if the action runs, the goal can be reached from there with
// deletes ignored, and the state isn't known.
fn successor(
    alloc: Global,
    task: &Task,
    index: &ActionIndex,
    states: &mut CoreStates,
    closed: &ClosedList,
    entry: &Entry,
    place: usize,
    number: ActionId,
) -> Result<Option<Entry>, NoMemory>
    requires number { number < length task.now.actions }
    requires few { place < 10_000 }
    requires cheap { entry.now.cost ≤ 1_000_000_000 * place }
    requires index { IsIndex task.now index.now }
    requires ready { IsReady Sum task.now states.old }
    ensures next { IfOk result (λ next. IsNext task.now closed.now entry.now place number next) }
    ensures ready { IsReady Sum task.now states.new }
{
    let action = task.action(number);
    if !action.pre.subset(&entry.state) {
        return Ok(None);
    }
    let mut state = entry.state.try_copy(alloc)?;
    state.minus(&action.del);
    state.join(alloc, &action.add)?;
    if closed.knows(&state, u64::MAX) {
        return Ok(None);
    }
    let from = Origin {
        place,
        action: number,
    };
    match value_of(alloc, task, index, states, &state)? {
        None => Ok(None),
        Some(value) => Ok(Some(Entry {
            state,
            cost: entry.cost + action.cost,
            value,
            total: value,
            from: Some(from),
        })),
    }
}

// Opens the successors of the last closed entry, which is lent with its place.
fn open_successors(
    alloc: Global,
    task: &Task,
    index: &ActionIndex,
    states: &mut CoreStates,
    closed: &ClosedList,
    entry: &Entry,
    place: usize,
    opened: &mut OpenList,
) -> Result<(), NoMemory>
    requires entry { slice_get closed.now place ≡ Some entry.now }
    requires last { suc place ≡ length closed.now }
    requires few { length closed.now ≤ 10_000 }
    requires hunt { IsHunt task.now closed.now opened.old 0 }
    requires index { IsIndex task.now index.now }
    requires ready { IsReady Sum task.now states.old }
    ensures hunt { OnOk result (IsHunt task.now closed.now opened.new (length task.now.actions)) }
    ensures few { OnOk result (length opened.new ≤ length opened.old + length task.now.actions) }
    ensures ready { IsReady Sum task.now states.new }
{
    let _ = task.init();
    let numbers = states.runnable(alloc, task, index, &entry.state)?;
    let mut done = 0u32;
    for f in numbers.iter() {
        if f.0 < done || f.0 >= task.actions() {
            continue;
        }
        let number = ActionId(f.0);
        match successor(alloc, task, index, states, closed, entry, place, number)? {
            None => {}
            Some(next) => {
                opened.put(next)?;
            }
        }
        done = f.0 + 1;
    }
    Ok(())
}

// Opens the successors of the last closed entry.
fn expand(
    alloc: Global,
    task: &Task,
    index: &ActionIndex,
    states: &mut CoreStates,
    closed: &ClosedList,
    opened: &mut OpenList,
) -> Result<(), NoMemory>
    requires some { 0 < length closed.now }
    requires few { length closed.now ≤ 10_000 }
    requires hunt { IsHunt task.now closed.now opened.old 0 }
    requires index { IsIndex task.now index.now }
    requires ready { IsReady Sum task.now states.old }
    ensures hunt { OnOk result (IsHunt task.now closed.now opened.new (length task.now.actions)) }
    ensures few { OnOk result (length opened.new ≤ length opened.old + length task.now.actions) }
    ensures ready { IsReady Sum task.now states.new }
{
    let entries = closed.as_slice();
    let place = entries.len() - 1;
    open_successors(
        alloc,
        task,
        index,
        states,
        closed,
        &entries[place],
        place,
        opened,
    )
}

/// A valid list, found by following `h_add`; or none, where no list is valid or at least 10,000 states that
/// differ are reached. The index is the task's; the core states are the task's too, and stay so, also after
/// want of memory.
pub fn propose(
    alloc: Global,
    task: &Task,
    index: &ActionIndex,
    states: &mut CoreStates,
) -> Result<Option<ActList>, NoMemory>
    requires index { IsIndex task.now index.now }
    requires ready { IsReady Sum task.now states.old }
    ensures proposal { IfOk result (λ list. IsProposal task.now list) }
    ensures ready { IsReady Sum task.now states.new }
{
    let _ = task.init();
    let mut closed = ClosedList::new(alloc, 16_384)?;
    let mut opened = start(alloc, task, index, states)?;
    while let Some(entry) = opened.take() {
        if closed.has(alloc, &entry.state)? {
            continue;
        }
        if task.goal().subset(&entry.state) {
            return Ok(Some(way_to(alloc, task, closed.as_slice(), &entry)?));
        }
        if closed.as_slice().len() >= 10_000 {
            return Ok(None);
        }
        closed.add(alloc, entry)?;
        expand(alloc, task, index, states, &closed, &mut opened)?;
    }
    Ok(None)
}

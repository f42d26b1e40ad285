ghost use Rattle.std.specs.Prelude.{◌≡◌, ◌+◌, ◌<◌, ◌≤◌, suc, [], Some, length, IfOk, OnOk, slice_get};
ghost use Rattle.bd_heur.specs.Index.{IsIndex};
ghost use Rattle.bd_heur.specs.declared.join.Join.TheVariants.{Greatest};
ghost use Rattle.bd_values.specs.Kept.{IsReady};
ghost use Rattle.bd_search.specs.Search.{IsEntry, IsSearch, IsSuccessor, min_value};
ghost use Rattle.bd_search.specs.Verdict.{IsTrueVerdict};

use crate::Kind;
use bd_base::{ActionId, FactSet, NoMemory};
use bd_heur::ActionIndex;
use bd_states::{ClosedList, Entry, OpenList, Origin, way_to};
use bd_task::Task;
use bd_values::CoreStates;
use std::alloc::Global;

// The value of a state.
fn value_of(
    alloc: Global,
    task: &Task,
    index: &ActionIndex,
    states: &mut CoreStates,
    s: &FactSet,
) -> Result<Option<u64>, NoMemory>
    requires index { IsIndex task.now index.now }
    requires ready { IsReady Greatest task.now states.old }
    ensures value { IfOk result (λ value. value ≡ min_value task.now s.now) }
    ensures ready { IsReady Greatest task.now states.new }
{
    states.goal_value(alloc, task, index, s)
}

// The entry for a state at a cost, if its total is below the bound.
fn entry_of(
    alloc: Global,
    task: &Task,
    index: &ActionIndex,
    states: &mut CoreStates,
    bound: u64,
    state: FactSet,
    cost: u64,
    from: Option<Origin>,
) -> Result<Option<Entry>, NoMemory>
    requires index { IsIndex task.now index.now }
    requires ready { IsReady Greatest task.now states.old }
    ensures entry { IfOk result (λ entry. IsEntry task.now bound state cost from entry) }
    ensures ready { IsReady Greatest task.now states.new }
{
    let Some(value) = value_of(alloc, task, index, states, &state)? else {
        return Ok(None);
    };
    let Some(total) = cost.checked_add(value) else {
        return Ok(None);
    };
    if total >= bound {
        return Ok(None);
    }
    Ok(Some(Entry {
        state,
        cost,
        value,
        total,
        from,
    }))
}

// The entry one action behind a closed one, if the action runs, its total is below the bound, and the
// state isn't known at no higher cost.
fn successor(
    alloc: Global,
    task: &Task,
    index: &ActionIndex,
    states: &mut CoreStates,
    bound: u64,
    closed: &ClosedList,
    entry: &Entry,
    place: usize,
    number: ActionId,
) -> Result<Option<Entry>, NoMemory>
    requires number { number < length task.now.actions }
    requires index { IsIndex task.now index.now }
    requires ready { IsReady Greatest task.now states.old }
    ensures next { IfOk result (λ next. IsSuccessor task.now bound closed.now entry.now place number next) }
    ensures ready { IsReady Greatest task.now states.new }
{
    let action = task.action(number);
    if !action.pre.subset(&entry.state) {
        return Ok(None);
    }
    let Some(cost) = entry.cost.checked_add(action.cost) else {
        return Ok(None);
    };
    let mut state = entry.state.try_copy(alloc)?;
    state.minus(&action.del);
    state.join(alloc, &action.add)?;
    if closed.knows(&state, cost) {
        return Ok(None);
    }
    let from = Origin {
        place,
        action: number,
    };
    entry_of(alloc, task, index, states, bound, state, cost, Some(from))
}

// The open list at the start.
fn start(
    alloc: Global,
    task: &Task,
    index: &ActionIndex,
    states: &mut CoreStates,
    bound: u64,
) -> Result<OpenList, NoMemory>
    requires index { IsIndex task.now index.now }
    requires ready { IsReady Greatest task.now states.old }
    ensures search { IfOk result (λ opened. IsSearch task.now bound [] opened (length task.now.actions)) }
    ensures ready { IsReady Greatest task.now states.new }
{
    let state = task.init().try_copy(alloc)?;
    match entry_of(alloc, task, index, states, bound, state, 0, None)? {
        None => Ok(OpenList::new(alloc)),
        Some(entry) => {
            let mut opened = OpenList::new(alloc);
            opened.put(entry)?;
            Ok(opened)
        }
    }
}

// Opens the successors of the last closed entry, which is lent with its place.
fn open_successors(
    alloc: Global,
    task: &Task,
    index: &ActionIndex,
    states: &mut CoreStates,
    bound: u64,
    closed: &ClosedList,
    entry: &Entry,
    place: usize,
    opened: &mut OpenList,
) -> Result<(), NoMemory>
    requires entry { slice_get closed.now place ≡ Some entry.now }
    requires last { suc place ≡ length closed.now }
    requires search { IsSearch task.now bound closed.now opened.old 0 }
    requires index { IsIndex task.now index.now }
    requires ready { IsReady Greatest task.now states.old }
    ensures search { OnOk result (IsSearch task.now bound closed.now opened.new (length task.now.actions)) }
    ensures few { OnOk result (length opened.new ≤ length opened.old + length task.now.actions) }
    ensures ready { IsReady Greatest task.now states.new }
{
    let _ = task.init();
    let numbers = states.runnable(alloc, task, index, &entry.state)?;
    let mut done = 0u32;
    for f in numbers.iter() {
        if f.0 < done || f.0 >= task.actions() {
            continue;
        }
        let number = ActionId(f.0);
        match successor(
            alloc, task, index, states, bound, closed, entry, place, number,
        )? {
            None => {}
            Some(next) => {
                opened.put(next)?;
            }
        }
        done = f.0 + 1;
    }
    Ok(())
}

// Opens the successors of the last closed entry.
fn expand(
    alloc: Global,
    task: &Task,
    index: &ActionIndex,
    states: &mut CoreStates,
    bound: u64,
    closed: &ClosedList,
    opened: &mut OpenList,
) -> Result<(), NoMemory>
    requires some { 0 < length closed.now }
    requires search { IsSearch task.now bound closed.now opened.old 0 }
    requires index { IsIndex task.now index.now }
    requires ready { IsReady Greatest task.now states.old }
    ensures search { OnOk result (IsSearch task.now bound closed.now opened.new (length task.now.actions)) }
    ensures few { OnOk result (length opened.new ≤ length opened.old + length task.now.actions) }
    ensures ready { IsReady Greatest task.now states.new }
{
    let entries = closed.as_slice();
    let place = entries.len() - 1;
    open_successors(
        alloc,
        task,
        index,
        states,
        bound,
        closed,
        &entries[place],
        place,
        opened,
    )
}

/// A true verdict on a task within a bound and a budget of states: A* by the cost so far plus `h_max`, which
/// closes at most `nodes` states. The index is the task's; the core states are the task's too, and stay so,
/// also after want of memory.
pub fn search(
    alloc: Global,
    task: &Task,
    index: &ActionIndex,
    states: &mut CoreStates,
    bound: u64,
    nodes: u32,
) -> Result<Kind, NoMemory>
    requires index { IsIndex task.now index.now }
    requires ready { IsReady Greatest task.now states.old }
    ensures verdict { IfOk result (λ kind. IsTrueVerdict task.now bound nodes kind) }
    ensures ready { IsReady Greatest task.now states.new }
{
    let _ = task.init();
    let mut closed = ClosedList::new(alloc, 2 * nodes.min(65_536))?;
    let mut opened = start(alloc, task, index, states, bound)?;
    while let Some(entry) = opened.take() {
        if closed.has(alloc, &entry.state)? {
            continue;
        }
        if task.goal().subset(&entry.state) {
            return Ok(Kind::Found(way_to(alloc, task, closed.as_slice(), &entry)?));
        }
        if closed.as_slice().len() >= nodes as usize {
            return Ok(Kind::Spent {
                floor: entry.total,
                nodes,
            });
        }
        closed.add(alloc, entry)?;
        expand(alloc, task, index, states, bound, &closed, &mut opened)?;
    }
    Ok(Kind::Exhausted)
}

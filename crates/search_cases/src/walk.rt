// All states that are reached, by plain breadth: nothing is ordered, and nothing is cut off.
use bd_base::{ActionId, FactSet, NoMemory};
use bd_task::Task;
use std::alloc::Global;

/// How many entries a walk may have.
const LIMIT: usize = 100_000;

/// A state that is reached, and the cost of a way to it.
#[derive(Drop)]
pub struct Reached {
    state: FactSet,
    cost: u64,
}

// Whether one of them has the state, at no higher cost.
fn have(reached: &[Reached], s: &FactSet, cost: u64) -> bool {
    reached.iter().any(|r| r.cost <= cost && r.state.subset(s) && s.subset(&r.state))
}

// The state behind an action, if it runs.
fn next(alloc: Global, task: &Task, from: &Reached, a: u32) -> Result<Option<Reached>, NoMemory> {
    if a >= task.actions() {
        return Ok(None);
    }
    let mut state = from.state.try_copy(alloc)?;
    if !task.step(alloc, &mut state, ActionId(a))? {
        return Ok(None);
    }
    let cost = from.cost.saturating_add(task.action(ActionId(a)).cost);
    Ok(Some(Reached { state, cost }))
}

// The states behind one of them that aren't there at no higher cost.
fn add_next(
    alloc: Global,
    task: &Task,
    reached: &mut Vec<Reached>,
    place: usize,
) -> Result<(), NoMemory> {
    for a in 0..task.actions() {
        let Some(from) = reached.get(place) else {
            return Ok(());
        };
        let Some(r) = next(alloc, task, from, a)? else {
            continue;
        };
        if !have(reached, &r.state, r.cost) {
            reached.push(r)?;
        }
    }
    Ok(())
}

/// Each state that is reached, with the cost of each way that was the cheapest until then; none where there are too many.
pub fn walk(alloc: Global, task: &Task) -> Result<Option<Vec<Reached>>, NoMemory> {
    let mut reached = Vec::new(alloc);
    let state = task.init().try_copy(alloc)?;
    reached.push(Reached { state, cost: 0 })?;
    for place in 0..LIMIT {
        if place >= reached.len() {
            return Ok(Some(reached));
        }
        add_next(alloc, task, &mut reached, place)?;
    }
    Ok(None)
}

/// The least cost of a way to the goal.
pub fn least(task: &Task, reached: &[Reached]) -> Option<u64> {
    let mut least = None;
    for r in reached {
        if task.goal().subset(&r.state) {
            least = Some(least.unwrap_or(r.cost).min(r.cost));
        }
    }
    least
}

/// How many states are reached at a cost of at most so much.
pub fn within(reached: &[Reached], cost: u64) -> u64 {
    let mut count = 0u64;
    for (i, r) in reached.iter().enumerate() {
        let before = reached.get(..i).unwrap_or(&[]);
        if r.cost <= cost && !have(before, &r.state, cost) {
            count = count.saturating_add(1);
        }
    }
    count
}

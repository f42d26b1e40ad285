ghost use Rattle.std.specs.Prelude.{◌≡◌, IfOk, slice_get};
ghost use Rattle.std.specs.Option.{unwrap_or};
ghost use Rattle.bd_cut.specs.Cut.{renumbered, renumbered_kind};
ghost use Rattle.bd_relevant.specs.CutDown.{IsCutDown};
ghost use Rattle.bd_search.specs.Verdict.{IsTrueVerdict};

use crate::cutting::{CutTask, cut_down};
use bd_base::{ActList, ActionId, FromItems, Items, NoMemory};
use bd_heur::{ActionIndex, Join};
use bd_search::{Kind, search};
use bd_task::Task;
use bd_values::CoreStates;
use std::alloc::Global;

/// How many values are kept at most, over all core states.
const KEPT_VALUES: u32 = 4_194_304;

// How many core states of a task to keep, where so many states may be closed.
fn slots_for(task: &Task, nodes: u32) -> u32 {
    let room = KEPT_VALUES / (task.facts() + 1);
    room.min(2 * nodes.min(65_536))
}

// A true verdict on a task, by values of its own.
fn search_whole(alloc: Global, task: &Task, bound: u64, nodes: u32) -> Result<Kind, NoMemory>
    ensures { IfOk result (λ kind. IsTrueVerdict task.now bound nodes kind) }
{
    let index = ActionIndex::of(alloc, task)?;
    let slots = slots_for(task, nodes);
    let mut states = CoreStates::new(alloc, Join::Greatest, task, slots)?;
    search(alloc, task, &index, &mut states, bound, nodes)
}

// The number of an action in the whole task.
fn number_at(numbers: &[ActionId], k: ActionId) -> ActionId
    ensures { result ≡ unwrap_or (slice_get numbers.now k) 0 }
{
    match numbers.get(k.0 as usize) {
        None => ActionId(0),
        Some(number) => *number,
    }
}

// A list in the whole task's numbers.
fn renumbered(alloc: Global, numbers: &[ActionId], list: &[ActionId]) -> Result<ActList, NoMemory>
    ensures { IfOk result (λ whole. whole ≡ renumbered numbers.now list.now) }
{
    let mut whole = Vec::new(alloc);
    for k in list {
        whole.push(number_at(numbers, *k))?;
    }
    Ok(ActList::of(whole))
}

// A verdict in the whole task's numbers.
fn renumbered_kind(alloc: Global, numbers: &[ActionId], kind: Kind) -> Result<Kind, NoMemory>
    ensures { IfOk result (λ whole. whole ≡ renumbered_kind numbers.now kind) }
{
    match kind {
        Kind::Found(list) => {
            let whole = renumbered(alloc, numbers, list.as_slice())?;
            Ok(Kind::Found(whole))
        }
        Kind::Exhausted => Ok(Kind::Exhausted),
        Kind::Spent { floor, nodes } => Ok(Kind::Spent { floor, nodes }),
    }
}

// A true verdict on a task, by a search over it cut down.
#[tactic(auto, using(crate::proofs::CutDownLemmas::carried))]
fn search_cut(
    alloc: Global,
    task: &Task,
    cut: &CutTask,
    bound: u64,
    nodes: u32,
) -> Result<Kind, NoMemory>
    requires { IsCutDown task.now cut.now }
    ensures { IfOk result (λ kind. IsTrueVerdict task.now bound nodes kind) }
{
    let _ = task;
    let kind = search_whole(alloc, &cut.task, bound, nodes)?;
    let whole = renumbered_kind(alloc, cut.numbers.as_slice(), kind)?;
    Ok(whole)
}

/// A true verdict on a task within a bound and a budget of states, by a search over what is relevant of it: at most
/// `nodes` states of the task cut down are closed.
pub fn search_relevant(alloc: Global, task: &Task, bound: u64, nodes: u32) -> Result<Kind, NoMemory>
    ensures { IfOk result (λ kind. IsTrueVerdict task.now bound nodes kind) }
{
    let cut = cut_down(alloc, task)?;
    search_cut(alloc, task, &cut, bound, nodes)
}

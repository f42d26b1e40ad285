ghost use Rattle.std.specs.Prelude.{◌≡◌, ℕ, true, IfOk, OnOk};
ghost use Rattle.bd_base.specs.Facts.{has, is_subset};
ghost use Rattle.bd_heur.specs.Index.{row_at, IsRunnable, IsIndex};

use crate::index::{ActionIndex, row_of};
use bd_base::{ActionId, FactId, FactSet, NoMemory};
use bd_task::Task;
use std::alloc::Global;

// Whether a state has all facts of a list.
fn has_all(s: &FactSet, facts: &[FactId]) -> bool
    ensures { result ≡ is_subset facts.now s.now }
{
    facts.iter().all(|f| s.has(*f))
}

// Whether a state has the preconditions of an action.
#[tactic(auto, using(crate::proofs::RunningLemmas::runs_row, crate::proofs::RunningLemmas::runs_none))]
fn runs(task: &Task, index: &ActionIndex, a: ActionId, s: &FactSet) -> bool
    requires { IsIndex task.now index.now }
    ensures { IsRunnable task.now s.now a → result ≡ true }
{
    let _ = task;
    match index.rows.get(a.0 as usize) {
        None => false,
        Some(row) => has_all(s, &row.pre),
    }
}

// Puts an action's number behind others where it runs in a state.
fn push_running(
    task: &Task,
    index: &ActionIndex,
    s: &FactSet,
    items: &mut Vec<FactId>,
    a: ActionId,
) -> Result<(), NoMemory>
    requires { IsIndex task.now index.now }
    ensures kept { (x : ℕ) → has items.old.items x ≡ true → has items.new.items x ≡ true }
    ensures pushed { OnOk result (IsRunnable task.now s.now a → has items.new.items a ≡ true) }
{
    if !runs(task, index, a, s) {
        return Ok(());
    }
    items.push(FactId(a.0))?;
    Ok(())
}

// Puts the numbers of a row's actions that run in a state behind others.
fn push_row(
    task: &Task,
    index: &ActionIndex,
    s: &FactSet,
    items: &mut Vec<FactId>,
    row: &[ActionId],
) -> Result<(), NoMemory>
    requires { IsIndex task.now index.now }
    ensures kept { (x : ℕ) → has items.old.items x ≡ true → has items.new.items x ≡ true }
    ensures pushed { OnOk result ((x : ℕ) → IsRunnable task.now s.now x → has row.now x ≡ true → has items.new.items x ≡ true) }
{
    for a in row {
        push_running(task, index, s, items, *a)?;
    }
    Ok(())
}

/// The numbers of the actions that run in a state, as a set.
pub fn runnable(
    alloc: Global,
    task: &Task,
    index: &ActionIndex,
    s: &FactSet,
) -> Result<FactSet, NoMemory>
    requires { IsIndex task.now index.now }
    ensures { IfOk result (λ set. (x : ℕ) → IsRunnable task.now s.now x → has set x ≡ true) }
{
    let mut items = Vec::new(alloc);
    push_row(task, index, s, &mut items, &index.free)?;
    for f in s.iter() {
        push_row(task, index, s, &mut items, row_of(&index.needers, f))?;
    }
    let set = FactSet::of(items)?;
    Ok(set)
}

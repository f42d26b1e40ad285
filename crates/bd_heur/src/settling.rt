ghost use Rattle.std.specs.Prelude.{◌≡◌, ℕ, ◌<◌, ◌≤◌, [], ◌∷◌, true, false, length, Some, slice_get, IfOk, OnOk};
ghost use Rattle.bd_heur.specs.Relaxed.{goal_value, joined, value_of_all, value_by, IsWithin};
ghost use Rattle.bd_heur.specs.Tables.{value_in, HasRounds};
ghost use Rattle.bd_heur.specs.Index.{IsIndex};
ghost use Rattle.bd_heur.specs.Settling.{IsPut, IsLowered, IsRelaxed, IsSettling, IsStart, rank, weight};

use crate::Join;
use crate::index::{ActionIndex, row_of};
use crate::joining::{value_at, value_by};
use crate::queue::{Queue, Waiting};
use bd_base::{ActionId, FactId, FactSet, NoMemory};
use bd_task::Task;
use std::alloc::Global;

fn is_lower(value: u64, than: Option<u64>) -> bool
    ensures yes { result ≡ true → value < rank than }
    ensures no { result ≡ false → IsWithin 0 than (Some value) }
{
    match than {
        None => true,
        Some(old) => value < old,
    }
}

// Lowers a fact to a value, and has it wait, unless it is no higher.
fn lower_fact(
    table: &mut Vec<Option<u64>>,
    queue: &mut Queue,
    p: FactId,
    value: u64,
) -> Result<(), NoMemory>
    ensures { OnOk result (IsPut value p table.old.items queue.old table.new.items queue.new) }
{
    let place = p.0 as usize;
    if place >= table.len() {
        return Ok(());
    }
    if !is_lower(value, value_at(table, p)) {
        return Ok(());
    }
    queue.put(Waiting { value, fact: p })?;
    table[place] = Some(value);
    Ok(())
}

// Lowers facts to a value.
fn lower_all(
    table: &mut Vec<Option<u64>>,
    queue: &mut Queue,
    facts: &[FactId],
    value: u64,
) -> Result<(), NoMemory>
    ensures { OnOk result (IsLowered value [] facts.now table.old.items queue.old table.new.items queue.new) }
{
    for p in facts {
        lower_fact(table, queue, *p, value)?;
    }
    Ok(())
}

// Lowers what an action adds to what the action gives.
fn relax(
    join: Join,
    task: &Task,
    index: &ActionIndex,
    table: &mut Vec<Option<u64>>,
    queue: &mut Queue,
    a: ActionId,
) -> Result<(), NoMemory>
    requires { IsIndex task.now index.now }
    ensures { OnOk result (IsRelaxed join (slice_get task.now.actions a) table.old.items queue.old table.new.items queue.new) }
{
    let _ = task;
    let Some(row) = index.rows.get(a.0 as usize) else {
        return Ok(());
    };
    let Some(value) = value_by(join, table, row) else {
        return Ok(());
    };
    lower_all(table, queue, &row.add, value)
}

// Relaxes the actions of a row.
fn relax_all(
    join: Join,
    task: &Task,
    index: &ActionIndex,
    s: &FactSet,
    table: &mut Vec<Option<u64>>,
    queue: &mut Queue,
    row: &[ActionId],
) -> Result<(), NoMemory>
    requires index { IsIndex task.now index.now }
    requires settling { IsSettling join task.now s.now table.old.items queue.old row.now }
    ensures settling { OnOk result (IsSettling join task.now s.now table.new.items queue.new []) }
    ensures light { OnOk result (weight table.new.items queue.new ≤ weight table.old.items queue.old) }
{
    let _ = task.init();
    let _ = s;
    for a in row {
        relax(join, task, index, table, queue, *a)?;
    }
    Ok(())
}

fn is_label(label: Option<u64>, value: u64) -> bool
    ensures yes { result ≡ true → label ≡ Some value }
    ensures no { result ≡ false → label ≡ Some value → ⊥ }
{
    match label {
        None => false,
        Some(own) => own == value,
    }
}

// The facts of the state wait with 0.
fn start(
    alloc: Global,
    task: &Task,
    s: &FactSet,
    queue: &mut Queue,
) -> Result<Vec<Option<u64>>, NoMemory>
    ensures { queue.old ≡ [] → IfOk result (λ table. IsStart s.now (length task.now.facts) table.items queue.new) }
{
    let mut table = Vec::new(alloc);
    for p in 0..task.facts() {
        if s.has(FactId(p)) {
            queue.put(Waiting {
                value: 0,
                fact: FactId(p),
            })?;
            table.push(Some(0))?;
        } else {
            table.push(None)?;
        }
    }
    Ok(table)
}

/// The values of all facts in a state: those after as many rounds as there are facts.
pub fn values(
    alloc: Global,
    join: Join,
    task: &Task,
    index: &ActionIndex,
    s: &FactSet,
) -> Result<Vec<Option<u64>>, NoMemory>
    requires { IsIndex task.now index.now }
    ensures { IfOk result (λ table. HasRounds join task.now s.now (length task.now.facts) table.items) }
{
    let _ = task.init();
    let mut queue = Queue::new(alloc);
    let mut table = start(alloc, task, s, &mut queue)?;
    relax_all(join, task, index, s, &mut table, &mut queue, &index.free)?;
    while let Some(waiting) = queue.take() {
        if !is_label(value_at(&table, waiting.fact), waiting.value) {
            continue;
        }
        let row = row_of(&index.needers, waiting.fact);
        relax_all(join, task, index, s, &mut table, &mut queue, row)?;
    }
    Ok(table)
}

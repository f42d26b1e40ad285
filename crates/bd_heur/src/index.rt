ghost use Rattle.std.specs.Prelude.{◌≡◌, ℕ, ◌<◌, true, length, IfOk, OnOk};
ghost use Rattle.bd_base.specs.Facts.{has};
ghost use Rattle.bd_heur.specs.Index.{row_at, IsRowOf, IsIndex};

use bd_base::{ActionId, FactId, FactSet, NoMemory};
use bd_task::{Action, Task};
use std::alloc::Global;

/// What an action costs, needs and adds.
#[derive(Debug, Drop)]
pub struct ActionRow {
    pub(crate) cost: u64,
    pub(crate) pre: Vec<FactId>,
    pub(crate) add: Vec<FactId>,
}

/// An index of a task's actions: a row for each, for each fact the actions that need it, and the actions
/// that need none.
#[derive(Debug, Drop)]
pub struct ActionIndex {
    pub(crate) rows: Vec<ActionRow>,
    pub(crate) needers: Vec<Vec<ActionId>>,
    pub(crate) free: Vec<ActionId>,
}

// The facts of a set, as a list.
fn list_of(alloc: Global, set: &FactSet) -> Result<Vec<FactId>, NoMemory>
    ensures { IfOk result (λ list. list.items ≡ set.now) }
{
    let mut list = Vec::new(alloc);
    for f in set.iter() {
        list.push(f)?;
    }
    Ok(list)
}

fn row_of_action(alloc: Global, action: &Action) -> Result<ActionRow, NoMemory>
    ensures { IfOk result (λ row. IsRowOf action.now row) }
{
    Ok(ActionRow {
        cost: action.cost,
        pre: list_of(alloc, &action.pre)?,
        add: list_of(alloc, &action.add)?,
    })
}

// As many empty rows as there are facts.
fn empty_rows(alloc: Global, count: u32) -> Result<Vec<Vec<ActionId>>, NoMemory>
    ensures { IfOk result (λ rows. length rows.items ≡ count) }
{
    let mut rows = Vec::new(alloc);
    for _ in 0..count {
        rows.push(Vec::new(alloc))?;
    }
    Ok(rows)
}

// Puts an action into a row.
fn put_row(rows: &mut Vec<Vec<ActionId>>, f: FactId, a: ActionId) -> Result<(), NoMemory>
    ensures len { length rows.new.items ≡ length rows.old.items }
    ensures kept { (q x : ℕ) → has (row_at rows.old.items q) x ≡ true → has (row_at rows.new.items q) x ≡ true }
    ensures put { OnOk result (f < length rows.old.items → has (row_at rows.new.items f) a ≡ true) }
{
    let place = f.0 as usize;
    if place < rows.len() {
        rows[place].push(a)?;
    }
    Ok(())
}

// Puts an action into the rows of facts.
fn put_rows(rows: &mut Vec<Vec<ActionId>>, facts: &FactSet, a: ActionId) -> Result<(), NoMemory>
    ensures len { length rows.new.items ≡ length rows.old.items }
    ensures kept { (q x : ℕ) → has (row_at rows.old.items q) x ≡ true → has (row_at rows.new.items q) x ≡ true }
    ensures put { OnOk result ((q : ℕ) → q < length rows.old.items → has facts.now q ≡ true → has (row_at rows.new.items q) a ≡ true) }
{
    for f in facts.iter() {
        put_row(rows, f, a)?;
    }
    Ok(())
}

/// The row of a fact.
pub(crate) fn row_of(rows: &[Vec<ActionId>], f: FactId) -> &[ActionId]
    ensures { result.now ≡ row_at rows.now f }
{
    match rows.get(f.0 as usize) {
        None => &[],
        Some(row) => row,
    }
}

impl ActionIndex {
    /// The index of a task.
    pub fn of(alloc: Global, task: &Task) -> Result<ActionIndex, NoMemory>
        ensures { IfOk result (λ index. IsIndex task.now index) }
    {
        let mut rows = Vec::new(alloc);
        let mut needers = empty_rows(alloc, task.facts())?;
        let mut free = Vec::new(alloc);
        for a in 0..task.actions() {
            let action = task.action(ActionId(a));
            rows.push(row_of_action(alloc, action)?)?;
            put_rows(&mut needers, &action.pre, ActionId(a))?;
            if action.pre.len() == 0 {
                free.push(ActionId(a))?;
            }
        }
        Ok(ActionIndex {
            rows,
            needers,
            free,
        })
    }
}

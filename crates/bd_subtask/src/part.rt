// What some kids of a block need, give and delete, read as a block with the old order, by the rows of its facts.
ghost use Rattle.std.specs.Prelude.{◌≡◌, ◌&&◌, ◌||◌, ◌==◌, [], not, IfOk, OnOk};
ghost use Rattle.std.specs.List.{enumerate_from, list_all, list_any};
ghost use Rattle.bd_base.specs.Pairs.{is_before};
ghost use Rattle.bd_subtask.specs.Level.{is_marked, is_rare, lacks, links_part, outlasts, part_deletes, part_gives, part_needs, settle_all, settled, start_of, steps_aside, with_rare, yields};

use crate::fact_rows::FactRow;
use bd_base::{FactId, FactSet, NoMemory, OwnedRow, PairList};
use bd_tree::comes_before;
use std::alloc::Global;

fn is_marked(marks: &[bool], i: usize) -> bool
    ensures { result ≡ is_marked marks.now i }
{
    match marks.get(i) {
        Some(mark) => *mark,
        None => false,
    }
}

// A marked deleter is giver i or before it.
fn yields(order: &PairList, marks: &[bool], i: usize, d: usize) -> bool
    ensures { result ≡ yields order.now marks.now i d }
{
    !is_marked(marks, d) || d == i || comes_before(order, d, i)
}

// A marked giver comes after each other marked deleter.
fn outlasts(order: &PairList, marks: &[bool], deletes: &[usize], i: usize) -> bool
    ensures { result ≡ outlasts order.now marks.now deletes.now i }
{
    is_marked(marks, i) && all_yield(order, marks, deletes, i)
}

fn all_yield(order: &PairList, marks: &[bool], deletes: &[usize], i: usize) -> bool
    ensures { result ≡ list_all (yields order.now marks.now i) deletes.now }
{
    deletes.iter().all(|d| yields(order, marks, i, *d))
}

fn gives(order: &PairList, marks: &[bool], row: &FactRow) -> bool
    ensures { result ≡ part_gives order.now marks.now row.now }
{
    let deletes = row.deletes.as_slice();
    row.gives
        .as_slice()
        .iter()
        .any(|i| outlasts(order, marks, deletes, *i))
}

fn some_marked(marks: &[bool], places: &[usize]) -> bool
    ensures { result ≡ list_any (is_marked marks.now) places.now }
{
    places.iter().any(|d| is_marked(marks, *d))
}

fn deletes(order: &PairList, marks: &[bool], row: &FactRow) -> bool
    ensures { result ≡ part_deletes order.now marks.now row.now }
{
    some_marked(marks, row.deletes.as_slice()) && !gives(order, marks, row)
}

// A marked deleter is kid i or j, or is before i or after j.
fn steps_aside(order: &PairList, marks: &[bool], i: usize, j: usize, d: usize) -> bool
    ensures { result ≡ steps_aside order.now marks.now i j d }
{
    !is_marked(marks, d)
        || d == i
        || d == j
        || comes_before(order, d, i)
        || comes_before(order, j, d)
}

fn all_step_aside(order: &PairList, marks: &[bool], deletes: &[usize], i: usize, j: usize) -> bool
    ensures { result ≡ list_all (steps_aside order.now marks.now i j) deletes.now }
{
    deletes.iter().all(|d| steps_aside(order, marks, i, j, *d))
}

// A marked giver links kid j past the marked deleters.
fn links(order: &PairList, marks: &[bool], deletes: &[usize], j: usize, i: usize) -> bool
    ensures { result ≡ links_part order.now marks.now deletes.now j i }
{
    is_marked(marks, i) && comes_before(order, i, j) && all_step_aside(order, marks, deletes, i, j)
}

fn is_linked(order: &PairList, marks: &[bool], row: &FactRow, j: usize) -> bool
    ensures { result ≡ list_any (links_part order.now marks.now row.now.deletes j) row.now.gives }
{
    let deletes = row.deletes.as_slice();
    row.gives
        .as_slice()
        .iter()
        .any(|i| links(order, marks, deletes, j, *i))
}

// A marked kid isn't linked for the row's fact.
fn lacks(order: &PairList, marks: &[bool], row: &FactRow, j: usize) -> bool
    ensures { result ≡ lacks order.now marks.now row.now j }
{
    is_marked(marks, j) && !is_linked(order, marks, row, j)
}

fn needs(order: &PairList, marks: &[bool], row: &FactRow) -> bool
    ensures { result ≡ part_needs order.now marks.now row.now }
{
    row.needs
        .as_slice()
        .iter()
        .any(|j| lacks(order, marks, row, *j))
}

/// The marked kids as a part of their block: whether most kids are marked, and the places of the rows that a kid touches
/// whose mark is the rarer one.
#[derive(Drop)]
pub struct Part {
    pub most: bool,
    pub changed: OwnedRow,
}

// Whether more than half of the kids are marked.
fn are_most(marks: &[bool]) -> bool {
    let mut count: usize = 0;
    for mark in marks {
        if *mark {
            count = count.saturating_add(1);
        }
    }
    count > marks.len() / 2
}

fn is_rare(most: bool, mark: bool) -> bool
    ensures { result ≡ is_rare most mark }
{
    if most { !mark } else { mark }
}

// The places of the rows that the kids touch whose marks are rare.
fn with_rare(
    alloc: Global,
    marks: &[bool],
    most: bool,
    touched: &[OwnedRow],
) -> Result<OwnedRow, NoMemory>
    ensures { IfOk result (λ r. r ≡ with_rare marks.now most [] (enumerate_from 0 touched.now)) }
{
    let mut changed = OwnedRow::new(alloc);
    let mut at = 0;
    for row in touched {
        if is_rare(most, is_marked(marks, at)) {
            changed.join(&row.row())?;
        }
        at += 1;
    }
    Ok(changed)
}

/// The marked kids as a part of the block whose kids touch these rows.
pub fn part_by(alloc: Global, marks: &[bool], touched: &[OwnedRow]) -> Result<Part, NoMemory>
    ensures { IfOk result (λ p. p.changed ≡ with_rare marks.now p.most [] (enumerate_from 0 touched.now)) }
{
    let most = are_most(marks);
    let changed = with_rare(alloc, marks, most, touched)?;
    Ok(Part { most, changed })
}

// What is told of the facts of rows that no rare kid touches: what holds for the whole block, where most kids are marked.
fn start(alloc: Global, most: bool, whole: &FactSet) -> Result<FactSet, NoMemory>
    ensures { IfOk result (λ s. s ≡ start_of most whole.now) }
{
    if most {
        whole.try_copy(alloc)
    } else {
        Ok(FactSet::new())
    }
}

// Puts the fact in where it holds, and else takes it out.
fn settle(alloc: Global, facts: &mut FactSet, p: FactId, holds: bool) -> Result<(), NoMemory>
    ensures { OnOk result (facts.new ≡ settled p holds facts.old) }
{
    if holds {
        facts.insert(alloc, p)?;
    } else {
        facts.remove(p);
    }
    Ok(())
}

/// The facts that the marked kids, read as a block, need, by those that all kids need.
pub fn all_needs(
    alloc: Global,
    order: &PairList,
    marks: &[bool],
    part: &Part,
    whole: &FactSet,
    rows: &[FactRow],
) -> Result<FactSet, NoMemory>
    ensures { IfOk result (λ s. s ≡ settle_all (part_needs order.now marks.now) rows.now (start_of part.now.most whole.now) part.now.changed) }
{
    let mut facts = start(alloc, part.most, whole)?;
    let changed = part.changed.row();
    for r in changed.iter() {
        match rows.get(r as usize) {
            Some(row) => settle(alloc, &mut facts, row.fact, needs(order, marks, row))?,
            None => {}
        }
    }
    Ok(facts)
}

/// The facts that the marked kids, read as a block, give, by those that all kids give.
pub fn all_gives(
    alloc: Global,
    order: &PairList,
    marks: &[bool],
    part: &Part,
    whole: &FactSet,
    rows: &[FactRow],
) -> Result<FactSet, NoMemory>
    ensures { IfOk result (λ s. s ≡ settle_all (part_gives order.now marks.now) rows.now (start_of part.now.most whole.now) part.now.changed) }
{
    let mut facts = start(alloc, part.most, whole)?;
    let changed = part.changed.row();
    for r in changed.iter() {
        match rows.get(r as usize) {
            Some(row) => settle(alloc, &mut facts, row.fact, gives(order, marks, row))?,
            None => {}
        }
    }
    Ok(facts)
}

/// The facts that the marked kids, read as a block, delete, by those that all kids delete.
pub fn all_deletes(
    alloc: Global,
    order: &PairList,
    marks: &[bool],
    part: &Part,
    whole: &FactSet,
    rows: &[FactRow],
) -> Result<FactSet, NoMemory>
    ensures { IfOk result (λ s. s ≡ settle_all (part_deletes order.now marks.now) rows.now (start_of part.now.most whole.now) part.now.changed) }
{
    let mut facts = start(alloc, part.most, whole)?;
    let changed = part.changed.row();
    for r in changed.iter() {
        match rows.get(r as usize) {
            Some(row) => settle(alloc, &mut facts, row.fact, deletes(order, marks, row))?,
            None => {}
        }
    }
    Ok(facts)
}

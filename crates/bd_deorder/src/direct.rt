// The direct pairs of a list of steps.
ghost use Rattle.std.specs.Prelude.{◌≡◌, ℕ, ◌<◌, ◌≤◌, ◌||◌, ◌&&◌, ◌==◌, false, length, IfOk, OnOk};
ghost use Rattle.std.specs.List.{enumerate_from};
ghost use Rattle.bd_deorder.specs.Direct.{has_pair, is_direct, is_earlier_pair, is_final_pair, is_goal_pair, is_later_pair, is_need_pair, is_step_pair};
ghost use Rattle.bd_links.specs.Rows.{places_of};

use crate::linking::link_of;
use bd_base::{FactSet, NoMemory, OwnedRow};
use bd_links::{Child, Touches, deleters, givers};
use std::alloc::Global;

/// The position as the rows have it.
pub(crate) fn position(at: usize) -> Result<u32, NoMemory>
    ensures { IfOk result (λ n. n ≡ at) }
{
    match u32::try_from(at) {
        Ok(n) => Ok(n),
        Err(_) => Err(NoMemory),
    }
}

// Puts in that i is before j.
fn put_pair(rows: &mut Vec<OwnedRow>, i: usize, j: usize) -> Result<(), NoMemory>
    requires { i < length rows.old.items }
    ensures len { length rows.new.items ≡ length rows.old.items }
    ensures put { OnOk result ((a b : ℕ) → has_pair rows.new.items a b ≡ (has_pair rows.old.items a b || (i == a && j == b))) }
{
    let to = position(j)?;
    rows[i].put(to)
}

// Puts in that j is before each later deleter.
fn put_later(rows: &mut Vec<OwnedRow>, deleters: &[usize], j: usize) -> Result<(), NoMemory>
    requires { j < length rows.old.items }
    ensures len { length rows.new.items ≡ length rows.old.items }
    ensures put { OnOk result ((a b : ℕ) → has_pair rows.new.items a b ≡ (has_pair rows.old.items a b || is_later_pair deleters.now j a b)) }
{
    for d in deleters {
        if j < *d {
            put_pair(rows, j, *d)?;
        }
    }
    Ok(())
}

// Puts in that each earlier deleter is before g.
fn put_earlier(rows: &mut Vec<OwnedRow>, deleters: &[usize], g: usize) -> Result<(), NoMemory>
    requires { g ≤ length rows.old.items }
    ensures len { length rows.new.items ≡ length rows.old.items }
    ensures put { OnOk result ((a b : ℕ) → has_pair rows.new.items a b ≡ (has_pair rows.old.items a b || is_earlier_pair deleters.now g a b)) }
{
    for d in deleters {
        if *d < g {
            put_pair(rows, *d, g)?;
        }
    }
    Ok(())
}

// Puts in what is needed since j needs a fact.
fn put_need(
    rows: &mut Vec<OwnedRow>,
    start: bool,
    givers: &[usize],
    deleters: &[usize],
    j: usize,
) -> Result<(), NoMemory>
    requires { j < length rows.old.items }
    ensures len { length rows.new.items ≡ length rows.old.items }
    ensures put { OnOk result ((a b : ℕ) → has_pair rows.new.items a b ≡ (has_pair rows.old.items a b || is_need_pair start givers.now deleters.now j a b)) }
{
    put_later(rows, deleters, j)?;
    match link_of(start, givers, deleters, j) {
        None => Ok(()),
        Some(g) => {
            put_pair(rows, g, j)?;
            put_earlier(rows, deleters, g)
        }
    }
}

// Puts in what is needed since a fact is to be true at the end.
fn put_goal(
    rows: &mut Vec<OwnedRow>,
    start: bool,
    givers: &[usize],
    deleters: &[usize],
) -> Result<(), NoMemory>
    ensures len { length rows.new.items ≡ length rows.old.items }
    ensures put { OnOk result ((a b : ℕ) → has_pair rows.new.items a b ≡ (has_pair rows.old.items a b || is_goal_pair start givers.now deleters.now (length rows.old.items) a b)) }
{
    match link_of(start, givers, deleters, rows.len()) {
        None => Ok(()),
        Some(g) => put_earlier(rows, deleters, g),
    }
}

// Puts in what is needed since j needs some facts.
fn put_step(
    rows: &mut Vec<OwnedRow>,
    init: &FactSet,
    touches: &Touches,
    need: &FactSet,
    j: usize,
) -> Result<(), NoMemory>
    requires { j < length rows.old.items }
    ensures len { length rows.new.items ≡ length rows.old.items }
    ensures put { OnOk result ((a b : ℕ) → has_pair rows.new.items a b ≡ (has_pair rows.old.items a b || is_step_pair init.now touches.now need.now j a b)) }
{
    for p in need.iter() {
        put_need(
            rows,
            init.has(p),
            givers(touches, p),
            deleters(touches, p),
            j,
        )?;
    }
    Ok(())
}

// Puts in what is needed since some facts are to be true at the end.
fn put_goals(
    rows: &mut Vec<OwnedRow>,
    init: &FactSet,
    touches: &Touches,
    goal: &FactSet,
) -> Result<(), NoMemory>
    ensures len { length rows.new.items ≡ length rows.old.items }
    ensures put { OnOk result ((a b : ℕ) → has_pair rows.new.items a b ≡ (has_pair rows.old.items a b || is_final_pair init.now touches.now goal.now (length rows.old.items) a b)) }
{
    for p in goal.iter() {
        put_goal(rows, init.has(p), givers(touches, p), deleters(touches, p))?;
    }
    Ok(())
}

// As many rows, with nothing in them.
fn empty_rows(alloc: Global, n: usize) -> Result<Vec<OwnedRow>, NoMemory>
    ensures len { IfOk result (λ rows. length rows.items ≡ n) }
    ensures empty { IfOk result (λ rows. (a b : ℕ) → has_pair rows.items a b ≡ false) }
{
    let mut rows = Vec::with_capacity(alloc, n)?;
    for i in 0..n {
        rows.push(OwnedRow::new(alloc))?;
    }
    Ok(rows)
}

/// The direct pairs, as rows: row i has the steps that step i is directly before.
pub fn direct_rows(
    alloc: Global,
    init: &FactSet,
    goal: &FactSet,
    touches: &Touches,
    kids: &[Child<'_>],
) -> Result<Vec<OwnedRow>, NoMemory>
    ensures len { IfOk result (λ rows. length rows.items ≡ length kids.now) }
    ensures direct { IfOk result (λ rows. (a b : ℕ) → has_pair rows.items a b ≡ is_direct init.now goal.now touches.now (length kids.now) (enumerate_from 0 kids.now) a b) }
{
    let mut rows = empty_rows(alloc, kids.len())?;
    for (j, kid) in kids.iter().enumerate() {
        put_step(&mut rows, init, touches, kid.need(), j)?;
    }
    put_goals(&mut rows, init, touches, goal)?;
    Ok(rows)
}

// Which kids of a block stand in front of a window, and which behind it.
ghost use Rattle.std.specs.Prelude.{◌≡◌, [], map, filter, IfOk, OnOk};
ghost use Rattle.std.specs.List.{enumerate_from, list_any};
ghost use Rattle.bd_base.specs.Facts.{has, plus};
ghost use Rattle.bd_base.specs.Pairs.{after_of, is_before};
ghost use Rattle.bd_tree.specs.Tree.{id_of};
ghost use Rattle.bd_subtask.specs.Level.{is_in, leans, reach_from, reach_of, stands_behind, stands_in_front};

use bd_base::{NoMemory, OwnedRow, PairList, Row};
use bd_merge::{Lean, Window};
use bd_tree::{Members, Node, comes_before};
use std::alloc::Global;

/// Marks at the positions of the kids in front, and at those of the kids behind.
#[derive(Drop)]
pub struct Marks {
    pub front: Vec<bool>,
    pub back: Vec<bool>,
}

fn is_carried(window: &Window, kid: &Node) -> bool
    ensures { result ≡ is_in (map id_of window.now.kids) kid.now }
{
    Members::of_nodes(window.kids.as_slice()).has(kid.id())
}

/// Marks at the positions of the kids that the window carries.
pub fn carried(alloc: Global, window: &Window, kids: &[Node]) -> Result<Vec<bool>, NoMemory>
    ensures { IfOk result (λ v. v.items ≡ map (is_in (map id_of window.now.kids)) kids.now) }
{
    let mut marks = Vec::with_capacity(alloc, kids.len())?;
    for kid in kids {
        marks.push(is_carried(window, kid))?;
    }
    Ok(marks)
}

/// The positions that are marked.
pub fn marked_places(alloc: Global, marks: &[bool]) -> Result<Vec<usize>, NoMemory>
    ensures { IfOk result (λ v. v.items ≡ map (λ k. k.0) (filter (λ k. k.1) (enumerate_from 0 marks.now))) }
{
    let mut places = Vec::new(alloc);
    let mut at = 0;
    for mark in marks {
        if *mark {
            places.push(at)?;
        }
        at += 1;
    }
    Ok(places)
}

// Whether the position is in the row.
fn row_has(row: &Row<'_>, at: usize) -> bool
    ensures { result ≡ has row.now at }
{
    match u32::try_from(at) {
        Ok(at) => row.has(at),
        Err(_) => is_listed(row, at),
    }
}

// The same by a walk, for positions that are no u32.
fn is_listed(row: &Row<'_>, at: usize) -> bool
    ensures { result ≡ has row.now at }
{
    for j in row.iter() {
        if j as usize == at {
            return true;
        }
    }
    false
}

// Puts in the positions that the member is before.
fn put_after(order: &PairList, member: usize, row: &mut OwnedRow) -> Result<(), NoMemory>
    ensures { OnOk result (row.new ≡ plus row.old (after_of order.now member)) }
{
    match u32::try_from(member) {
        Ok(i) => row.join(&order.after(i)),
        Err(_) => Err(NoMemory),
    }
}

// The positions that some member is before.
fn reach(alloc: Global, order: &PairList, members: &[usize]) -> Result<OwnedRow, NoMemory>
    ensures { IfOk result (λ r. r ≡ reach_from order.now [] members.now) }
{
    let mut row = OwnedRow::new(alloc);
    for m in members {
        put_after(order, *m, &mut row)?;
    }
    Ok(row)
}

// What is asked of the positions after members, where the window leans early.
fn lean_reach(
    alloc: Global,
    lean: Lean,
    order: &PairList,
    members: &[usize],
) -> Result<OwnedRow, NoMemory>
    ensures { IfOk result (λ r. r ≡ reach_of lean order.now members.now) }
{
    match lean {
        Lean::Early => reach(alloc, order, members),
        Lean::Late => Ok(OwnedRow::new(alloc)),
    }
}

fn some_in(row: &Row<'_>, members: &[usize]) -> bool
    ensures { result ≡ list_any (λ m. has row.now m) members.now }
{
    members.iter().any(|m| row_has(row, *m))
}

fn some_after(order: &PairList, members: &[usize], at: usize) -> bool
    ensures { result ≡ list_any (λ m. is_before order.now at m) members.now }
{
    match u32::try_from(at) {
        Ok(i) => some_in(&order.after(i), members),
        Err(_) => members.iter().any(|m| comes_before(order, at, *m)),
    }
}

// Whether the kid at the position, if it is outside a window of these members, goes in front of it.
fn leans(lean: Lean, order: &PairList, members: &[usize], after: &Row<'_>, at: usize) -> bool
    requires { after.now ≡ reach_of lean order.now members.now }
    ensures { result ≡ leans lean order.now members.now at }
{
    match lean {
        Lean::Early => !row_has(after, at),
        Lean::Late => some_after(order, members, at),
    }
}

/// The two sides of a window that carries the marked kids of a block with this order, which have these positions.
pub fn sides(
    alloc: Global,
    lean: Lean,
    order: &PairList,
    carried: &[bool],
    members: &[usize],
) -> Result<Marks, NoMemory>
    ensures front { IfOk result (λ s. s.front.items ≡ map (stands_in_front lean order.now members.now) (enumerate_from 0 carried.now)) }
    ensures back { IfOk result (λ s. s.back.items ≡ map (stands_behind lean order.now members.now) (enumerate_from 0 carried.now)) }
{
    let reach = lean_reach(alloc, lean, order, members)?;
    let after = reach.row();
    let mut front = Vec::with_capacity(alloc, carried.len())?;
    let mut back = Vec::with_capacity(alloc, carried.len())?;
    let mut at = 0;
    for mark in carried {
        let inside = *mark;
        let first = leans(lean, order, members, &after, at);
        front.push(!inside && first)?;
        back.push(!inside && !first)?;
        at += 1;
    }
    Ok(Marks { front, back })
}

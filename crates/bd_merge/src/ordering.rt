// The order of a merged block, made row by row. The places of a side's kids rise with their old positions, so a run of
// old positions is a run of places, and a row is put run by run. A row that has all positions from one on is known by
// how many it has left, and is put as one run from there.
ghost use Rattle.std.specs.Prelude.{◌≡◌, ℕ, ◌+◌, ◌<◌, ◌≤◌, ◌^◌, ◌&&◌, ◌||◌, [], nat_lt, true, length, IfOk, IsTrue, OnOk, slice_get, slice_index};
ghost use Rattle.bd_base.specs.Facts.{has};
ghost use Rattle.bd_base.specs.Pairs.{after_of, total_order};
ghost use Rattle.bd_tree.specs.Order.{is_order};
ghost use Rattle.bd_merge.specs.Merged.{is_kept, merged_order};
ghost use Rattle.bd_merge.specs.Starts.{AreListed, AreParts, AreStarts, IsStart, Rise, RiseBetween, is_between, is_in_run, is_kid};

use crate::merging::Place;
use bd_base::{NoMemory, OwnedRow, PairList, Row};
use std::alloc::Global;

// On which side of the new steps a kid stands.
#[derive(Clone, Copy)]
pub(crate) enum Side {
    Ahead,
    Behind,
}

// What the rows of one side's kids are made of: the places behind each of them, whatever the order, and of each old
// position the place from which on the kids stand that have it or a later one.
#[derive(Drop)]
pub(crate) struct RowParts {
    always: OwnedRow,
    starts: Vec<u32>,
}

// Whether the kid of a side with an old position stands at a place.
fn is_kid_at(places: &[Place], side: Side, j: u32, q: u32) -> bool
    ensures { result ≡ is_kid side j (slice_get places.now q) }
{
    match places.get(q as usize) {
        None => false,
        Some(place) => match side {
            Side::Ahead => match *place {
                Place::Front(k) => j == k,
                Place::New => false,
                Place::Back(_) => false,
            },
            Side::Behind => match *place {
                Place::Front(_) => false,
                Place::New => false,
                Place::Back(k) => j == k,
            },
        },
    }
}

// The place of the first kid behind the new steps, or one past all places.
fn first_behind(places: &[Place], olds: u32) -> u32
    requires few { length places.now < 2 ^ 32 }
    requires listed { AreListed olds places.now }
    ensures start { IsStart Side.Behind places.now 0 result }
    ensures within { result ≤ length places.now }
{
    let mut q = 0;
    for place in places {
        if let Place::Back(_) = *place {
            return q;
        }
        q += 1;
    }
    q
}

// Of each old position, from which place on the kids of a side stand that have it or a later one.
fn starts_of(
    alloc: Global,
    places: &[Place],
    side: Side,
    first: u32,
    olds: u32,
) -> Result<Vec<u32>, NoMemory>
    requires few { length places.now < 2 ^ 32 }
    requires listed { AreListed olds places.now }
    requires first { IsStart side places.now 0 first }
    ensures { IfOk result (λ starts. AreStarts side places.now olds starts.items) }
{
    let mut starts = Vec::with_capacity(alloc, olds as usize + 1)?;
    let mut q = first;
    for j in 0..olds {
        starts.push(q)?;
        if is_kid_at(places, side, j, q) {
            q += 1;
        }
    }
    starts.push(q)?;
    Ok(starts)
}

// Adds the places of the kids whose old positions are at least `from` and below `to`.
fn put_kids(row: &mut OwnedRow, starts: &[u32], from: u32, to: u32) -> Result<(), NoMemory>
    requires { (from ≤ to) × (to < length starts.now) }
    ensures { OnOk result ((q : ℕ) → has row.new q ≡ (has row.old q || is_in_run (slice_index starts.now from) (slice_index starts.now to) q)) }
{
    row.put_run(starts[from as usize], starts[to as usize])
}

// Adds the places of the kids whose old positions are in a row. All of these are above i.
fn put_all(
    row: &mut OwnedRow,
    after: &Row<'_>,
    starts: &[u32],
    i: u32,
    olds: u32,
) -> Result<(), NoMemory>
    requires starts { Rise olds starts.now }
    requires row { RiseBetween (i + 1) olds after.now }
    requires within { i < olds }
    ensures { OnOk result ((q : ℕ) → has row.new q ≡ (has row.old q || is_between starts.now after.now q)) }
{
    let mut left = after.len();
    if i as usize + 1 + left == olds as usize {
        return put_kids(row, starts, i + 1, olds);
    }
    let mut from = 0;
    let mut to = 0;
    for j in after.iter() {
        if j as usize + left == olds as usize {
            put_kids(row, starts, from, to)?;
            return put_kids(row, starts, j, olds);
        }
        if j != to {
            put_kids(row, starts, from, to)?;
            from = j;
        }
        to = j + 1;
        left -= 1;
    }
    put_kids(row, starts, from, to)
}

// The places behind a kid of a side with an old position.
fn kid_row(
    alloc: Global,
    order: &PairList,
    parts: &RowParts,
    i: u32,
    olds: u32,
) -> Result<OwnedRow, NoMemory>
    requires starts { Rise olds parts.now.starts.items }
    requires order { is_order olds order.now ≡ true }
    requires within { i < olds }
    ensures { IfOk result (λ row. (q : ℕ) → has row q ≡ (has parts.now.always q || is_between parts.now.starts.items (after_of order.now i) q)) }
{
    let mut row = parts.always.try_copy(alloc)?;
    put_all(&mut row, &order.after(i), &parts.starts, i, olds)?;
    Ok(row)
}

// The places behind a new step.
fn new_row(alloc: Global, none: &OwnedRow, a: u32, count: u32) -> Result<OwnedRow, NoMemory>
    requires { a < count }
    ensures { IfOk result (λ row. (q : ℕ) → has row q ≡ (has none.now q || is_in_run (a + 1) count q)) }
{
    let mut row = none.try_copy(alloc)?;
    row.put_run(a + 1, count)?;
    Ok(row)
}

// The later positions that what stands at a position is before.
fn row_of(
    alloc: Global,
    order: &PairList,
    places: &[Place],
    ahead: &RowParts,
    behind: &RowParts,
    olds: u32,
    a: u32,
) -> Result<OwnedRow, NoMemory>
    requires few { length places.now < 2 ^ 32 }
    requires listed { AreListed olds places.now }
    requires order { is_order olds order.now ≡ true }
    requires ahead { AreParts Side.Ahead places.now olds ahead.now }
    requires behind { AreParts Side.Behind places.now olds behind.now }
    requires within { a < length places.now }
    ensures { IfOk result (λ row. (q : ℕ) → has row q ≡ (nat_lt a q && is_kept order.now places.now (a, q))) }
{
    match places[a as usize] {
        Place::Front(i) => kid_row(alloc, order, ahead, i, olds),
        Place::New => new_row(alloc, &behind.always, a, places.len() as u32),
        Place::Back(i) => kid_row(alloc, order, behind, i, olds),
    }
}

// What the rows of the kids in front are made of: all else is behind them.
fn parts_ahead(alloc: Global, places: &[Place], olds: u32) -> Result<RowParts, NoMemory>
    requires few { length places.now < 2 ^ 32 }
    requires listed { AreListed olds places.now }
    ensures { IfOk result (λ parts. AreParts Side.Ahead places.now olds parts) }
{
    let starts = starts_of(alloc, places, Side::Ahead, 0, olds)?;
    let mut always = OwnedRow::new(alloc);
    always.put_run(starts[olds as usize], places.len() as u32)?;
    Ok(RowParts { always, starts })
}

// No positions, with the room that a row takes.
fn emptied(alloc: Global, row: &OwnedRow) -> Result<OwnedRow, NoMemory>
    ensures { IfOk result (λ none. none ≡ []) }
{
    let mut none = row.try_copy(alloc)?;
    none.meet(&OwnedRow::new(alloc).row());
    Ok(none)
}

// What the rows of the kids behind are made of, by a row that is as wide.
fn parts_behind(
    alloc: Global,
    places: &[Place],
    olds: u32,
    wide: &OwnedRow,
) -> Result<RowParts, NoMemory>
    requires few { length places.now < 2 ^ 32 }
    requires listed { AreListed olds places.now }
    ensures { IfOk result (λ parts. AreParts Side.Behind places.now olds parts) }
{
    let first = first_behind(places, olds);
    let starts = starts_of(alloc, places, Side::Behind, first, olds)?;
    let always = emptied(alloc, wide)?;
    Ok(RowParts { always, starts })
}

// The new order, row by row; where it is known that every pair is kept, none is asked for.
pub(crate) fn new_order(
    alloc: Global,
    order: &PairList,
    places: &[Place],
    olds: u32,
    keeps_all: bool,
) -> Result<PairList, NoMemory>
    requires few { length places.now < 2 ^ 32 }
    requires listed { AreListed olds places.now }
    requires order { is_order olds order.now ≡ true }
    requires all { IsTrue keeps_all → merged_order order.now places.now ≡ total_order (length places.now) }
    ensures { IfOk result (λ o. o ≡ merged_order order.now places.now) }
{
    let count = places.len() as u32;
    if keeps_all {
        return PairList::total(alloc, count);
    }
    let ahead = parts_ahead(alloc, places, olds)?;
    let behind = parts_behind(alloc, places, olds, &ahead.always)?;
    let mut made = PairList::new(alloc);
    for a in 0..count {
        let row = row_of(alloc, order, places, &ahead, &behind, olds, a)?;
        made.put_row(alloc, a, &row.row())?;
    }
    Ok(made)
}

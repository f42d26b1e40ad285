ghost use Rattle.std.specs.Prelude.{◌≡◌, ℕ, ◌<◌, ◌||◌, ◌&&◌, Some, None, nat_lt, get_or, length, slice_get, if◌then◌else◌, IfOk, OnOk};
ghost use Rattle.std.specs.List.{enumerate_from, list_any};
ghost use Rattle.bd_base.specs.Facts.{has};
ghost use Rattle.bd_shape.specs.Placed.{AreApart, AreSplit, AreSpots, IsLow, are_placed, is_kid, is_put_through, is_spot, leads, placed_order, was_put};

use crate::place::Place;
use crate::sides::{Sides, position};
use bd_base::{NoMemory, OwnedRow, PairList, Row};
use std::alloc::Global;

/// The order of the places of a new listing, row by row: two kids outside the group are ordered as they were or by
/// way of the group, whose sides these are. There were so many kids. Where the listing is cut, the group stands, if at
/// all, and the kids behind it are those after some kid of it.
pub fn placed_order(
    alloc: Global,
    order: &PairList,
    sides: &Sides,
    places: &[Place],
    kids: usize,
    cut: u32,
) -> Result<PairList, NoMemory>
    requires apart { AreApart kids places.now }
    requires split { AreSplit sides.now places.now cut }
    ensures { IfOk result (λ o. o ≡ placed_order order.now sides.now places.now) }
{
    let spots = spots_of(alloc, places, kids)?;
    let mut made = PairList::new(alloc);
    for a in 0..places.len() {
        let row = row_of(alloc, order, sides, places, &spots, cut, a)?;
        made.put_row(alloc, position(a)?, &row.row())?;
    }
    Ok(made)
}

// Where each old kid stands now, by its old position.
fn spots_of(alloc: Global, places: &[Place], kids: usize) -> Result<Vec<Option<u32>>, NoMemory>
    requires { AreApart kids places.now }
    ensures { IfOk result (λ spots. AreSpots places.now spots.items) }
{
    let mut spots = vec![in alloc; None; kids]?;
    for (at, place) in places.iter().enumerate() {
        put_spot(&mut spots, *place, position(at)?);
    }
    Ok(spots)
}

// Writes down that the kid at the place stands at this position.
fn put_spot(spots: &mut Vec<Option<u32>>, place: Place, at: u32)
    requires { IsLow (length spots.old.items) place }
    ensures len { length spots.new.items ≡ length spots.old.items }
    ensures spots { (d : ℕ) → get_or spots.new.items d None ≡ (if is_kid d place then Some at else get_or spots.old.items d None) }
{
    if let Place::Outside(d) = place {
        spots[d as usize] = Some(at);
    }
}

// Where the old kid stands now, if it does.
fn spot(spots: &[Option<u32>], d: u32) -> Option<u32>
    ensures { result ≡ get_or spots.now d None }
{
    if (d as usize) < spots.len() {
        spots[d as usize]
    } else {
        None
    }
}

// Puts the position in at which an old kid stands now, if it is a later one.
fn put_later(row: &mut OwnedRow, spots: &[Option<u32>], d: u32, at: u32) -> Result<(), NoMemory>
    ensures { OnOk result ((q : ℕ) → has row.new q ≡ (has row.old q || (nat_lt at q && is_spot spots.now d q))) }
{
    match spot(spots, d) {
        Some(later) if later > at => row.put(later),
        _ => Ok(()),
    }
}

// Puts the later positions in at which the kids of a row stand now.
fn put_old(
    row: &mut OwnedRow,
    after: &Row<'_>,
    spots: &[Option<u32>],
    at: u32,
) -> Result<(), NoMemory>
    ensures { OnOk result ((q : ℕ) → has row.new q ≡ (has row.old q || list_any (λ d. nat_lt at q && is_spot spots.now d q) after.now)) }
{
    for d in after.iter() {
        put_later(row, spots, d, at)?;
    }
    Ok(())
}

// Puts the later positions in at which kids stand now that were after the first.
fn put_after(
    row: &mut OwnedRow,
    order: &PairList,
    spots: &[Option<u32>],
    first: Place,
    at: u32,
) -> Result<(), NoMemory>
    ensures { OnOk result ((q : ℕ) → has row.new q ≡ (has row.old q || was_put order.now spots.now at first q)) }
{
    match first {
        Place::Outside(c) => put_old(row, &order.after(c), spots, at),
        Place::Group => Ok(()),
    }
}

// Whether the place may be before others by way of the group.
fn leads(sides: &Sides, first: Place) -> bool
    ensures { result ≡ leads sides.now first }
{
    match first {
        Place::Outside(c) => sides.before.row().has(c),
        Place::Group => true,
    }
}

// Puts the later positions in that are ordered by way of the group: where the first leads to it, all from the cut on.
fn put_through(
    row: &mut OwnedRow,
    sides: &Sides,
    places: &[Place],
    cut: u32,
    first: Place,
    at: u32,
) -> Result<(), NoMemory>
    requires split { AreSplit sides.now places.now cut }
    requires first { slice_get places.now at ≡ Some first }
    ensures { OnOk result ((q : ℕ) → has row.new q ≡ (has row.old q || list_any (λ k. nat_lt at q && is_put_through sides.now first q k) (enumerate_from 0 places.now))) }
{
    if !leads(sides, first) {
        return Ok(());
    }
    let end = position(places.len())?;
    row.put_run(cut.max(at + 1), end)
}

// The later positions that the one at a position is before.
fn row_of(
    alloc: Global,
    order: &PairList,
    sides: &Sides,
    places: &[Place],
    spots: &[Option<u32>],
    cut: u32,
    a: usize,
) -> Result<OwnedRow, NoMemory>
    requires spots { AreSpots places.now spots.now }
    requires split { AreSplit sides.now places.now cut }
    requires within { a < length places.now }
    ensures { IfOk result (λ row. (q : ℕ) → has row q ≡ (nat_lt a q && are_placed order.now sides.now (slice_get places.now a) (slice_get places.now q))) }
{
    let at = position(a)?;
    let first = places[a];
    let mut row = OwnedRow::new(alloc);
    put_after(&mut row, order, spots, first, at)?;
    put_through(&mut row, sides, places, cut, first, at)?;
    Ok(row)
}

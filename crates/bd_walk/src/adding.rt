// What a left side's grouping adds to the ordered step pairs of its block: where that is at least what its two sides can lose,
// the candidate is no gain, and no tree is made of it.
ghost use Rattle.std.specs.List.{enumerate_from, list_any};
ghost use Rattle.std.specs.Prelude.{◌≡◌, ◌*◌, ◌<◌, ◌≤◌, ◌^◌, length, map, false, true, IfOk};
ghost use Rattle.bd_base.specs.Pairs.{is_before};
ghost use Rattle.bd_tree.specs.Tree.{steps_of, total};
ghost use Rattle.bd_tight.specs.Gains.{are_short};
ghost use Rattle.bd_walk.specs.Added.{AddsFor, AreHopeless, IsHopeless, added, added_by, missed, side_steps, spots};

use crate::judging::are_short;
use bd_base::{IdList, NoMemory, NodeId, PairList};
use bd_tree::{Members, Node};
use std::alloc::Global;

/// The steps of a left side, and how many ordered step pairs its grouping adds at least.
#[derive(Clone, Copy, Debug)]
pub(crate) struct Adds {
    pub(crate) steps: u32,
    pub(crate) pairs: u64,
}

// The position as the orders write it.
fn position(at: usize) -> Result<u32, NoMemory>
    ensures { IfOk result (λ n. n ≡ at) }
{
    match u32::try_from(at) {
        Ok(n) => Ok(n),
        Err(_) => Err(NoMemory),
    }
}

// The steps of the kids with these ids.
fn side_steps(kids: &[Node], ids: &[NodeId]) -> u32
    requires few { total (map steps_of kids.now) < 2 ^ 32 }
    ensures { result ≡ side_steps ids.now kids.now }
{
    let members = Members::of_ids(ids);
    let mut sum = 0;
    for kid in kids {
        if members.has(kid.id()) {
            sum += kid.steps();
        }
    }
    sum
}

// The places of the kids with these ids, and how many steps they have.
fn spots_of(alloc: Global, kids: &[Node], ids: &[NodeId]) -> Result<Vec<(u32, u32)>, NoMemory>
    requires few { total (map steps_of kids.now) < 2 ^ 32 }
    ensures { IfOk result (λ v. v.items ≡ spots ids.now (enumerate_from 0 kids.now)) }
{
    let members = Members::of_ids(ids);
    let mut spots = Vec::new(alloc);
    for (at, kid) in kids.iter().enumerate() {
        if members.has(kid.id()) {
            spots.push((position(at)?, kid.steps()))?;
        }
    }
    Ok(spots)
}

// Whether a place is before one of some places.
fn leads(order: &PairList, spots: &[(u32, u32)], c: u32) -> bool
    ensures { result ≡ list_any (λ m. is_before order.now c m.0) spots.now }
{
    for spot in spots {
        if order.has(c, spot.0) {
            return true;
        }
    }
    false
}

// The steps of those that a place isn't before; too many for 64 bits are told as the greatest number.
fn missed(order: &PairList, spots: &[(u32, u32)], c: u32) -> u64
    ensures { result ≤ missed order.now c spots.now }
{
    let mut sum: u64 = 0;
    for spot in spots {
        if !order.has(c, spot.0) {
            sum = sum.saturating_add(spot.1 as u64);
        }
    }
    sum
}

// The step pairs that come by a kid at a place: once it is before some, it is before all.
fn added_by(order: &PairList, spots: &[(u32, u32)], c: u32, steps: u32) -> u64
    ensures { result ≤ added_by order.now spots.now c steps }
{
    if !leads(order, spots, c) {
        return 0;
    }
    (steps as u64).saturating_mul(missed(order, spots, c))
}

// Those that come by the kids that aren't grouped.
fn added(
    order: &PairList,
    kids: &[Node],
    ids: &[NodeId],
    spots: &[(u32, u32)],
) -> Result<u64, NoMemory>
    requires few { total (map steps_of kids.now) < 2 ^ 32 }
    ensures { IfOk result (λ n. n ≤ added ids.now order.now spots.now (enumerate_from 0 kids.now)) }
{
    let members = Members::of_ids(ids);
    let mut sum: u64 = 0;
    for (at, kid) in kids.iter().enumerate() {
        if !members.has(kid.id()) {
            sum = sum.saturating_add(added_by(order, spots, position(at)?, kid.steps()));
        }
    }
    Ok(sum)
}

/// What is known of a left side of a block's kids.
pub(crate) fn adds_of(
    alloc: Global,
    order: &PairList,
    kids: &[Node],
    left: &[NodeId],
) -> Result<Adds, NoMemory>
    requires few { total (map steps_of kids.now) < 2 ^ 32 }
    ensures { IfOk result (λ a. AddsFor kids.now order.now left.now a) }
{
    let spots = spots_of(alloc, kids, left)?;
    Ok(Adds {
        steps: side_steps(kids, left),
        pairs: added(order, kids, left, &spots)?,
    })
}

// Whether as many step pairs come as two sides have together.
fn outweighs(adds: Adds, right: u32) -> bool
    ensures { result ≡ true → adds.steps * right ≤ adds.pairs }
{
    let lost = (adds.steps as u64).saturating_mul(right as u64);
    lost < u64::MAX && lost <= adds.pairs
}

/// Whether the two sides overlap or are too long, or so many step pairs come by grouping the left one that none can go.
pub(crate) fn is_hopeless(
    span: u32,
    order: &PairList,
    kids: &[Node],
    adds: Adds,
    left: &[NodeId],
    right: &[NodeId],
) -> bool
    requires few { total (map steps_of kids.now) < 2 ^ 32 }
    requires adds { AddsFor kids.now order.now left.now adds }
    ensures hopeless { result ≡ true → IsHopeless span kids.now order.now left.now right.now }
    ensures short { result ≡ false → are_short span left.now right.now ≡ true }
{
    if !are_short(span, left, right) {
        return true;
    }
    left.len() >= 2 && outweighs(adds, side_steps(kids, right))
}

/// The same of each of the right sides.
pub(crate) fn are_hopeless(
    span: u32,
    order: &PairList,
    kids: &[Node],
    adds: Adds,
    left: &[NodeId],
    rights: &[IdList],
) -> bool
    requires few { total (map steps_of kids.now) < 2 ^ 32 }
    requires adds { AddsFor kids.now order.now left.now adds }
    ensures { result ≡ true → AreHopeless span kids.now order.now left.now rights.now }
{
    for right in rights {
        if !is_hopeless(span, order, kids, adds, left, right.as_slice()) {
            return false;
        }
    }
    true
}

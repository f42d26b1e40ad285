ghost use Rattle.std.specs.Prelude.{◌≡◌, ℕ, ◌≤◌, ◌^◌, [], IfOk, MatchResult};
ghost use Rattle.std.specs.List.{enumerate_from};
ghost use Rattle.bd_base.specs.Facts.{has};
ghost use Rattle.bd_tree.specs.Convex.{is_after_some, is_before_some};
ghost use Rattle.bd_shape.specs.Sides.{AreSides};

use bd_base::{NoMemory, NodeId, OwnedRow, PairList};
use bd_tree::{Members, Node};
use std::alloc::Global;

/// The positions after some of a block's kids, and those before some of them.
#[derive(Debug, Drop)]
pub struct Sides {
    pub after: OwnedRow,
    pub before: OwnedRow,
}

/// The sides of the kids with these ids.
pub fn sides_of(
    alloc: Global,
    order: &PairList,
    kids: &[Node],
    ids: &[NodeId],
) -> Result<Sides, NoMemory>
    ensures { IfOk result (λ sides. AreSides order.now ids.now kids.now sides) }
{
    Ok(Sides {
        after: after_members(alloc, order, kids, ids)?,
        before: before_members(alloc, order, kids, ids)?,
    })
}

/// The sides of no kids.
pub fn no_sides(alloc: Global) -> Sides
    ensures after { result.after ≡ [] }
    ensures before { result.before ≡ [] }
{
    Sides {
        after: OwnedRow::new(alloc),
        before: OwnedRow::new(alloc),
    }
}

/// The position as the orders write it. It takes no memory, and answers an error only for one of 2^32 or more.
pub fn position(at: usize) -> Result<u32, NoMemory>
    ensures { MatchResult result (λ n. n ≡ at) (λ _. 2 ^ 32 ≤ at) }
{
    match u32::try_from(at) {
        Ok(n) => Ok(n),
        Err(_) => Err(NoMemory),
    }
}

// The positions after some kid with one of the ids.
fn after_members(
    alloc: Global,
    order: &PairList,
    kids: &[Node],
    ids: &[NodeId],
) -> Result<OwnedRow, NoMemory>
    ensures { IfOk result (λ row. (q : ℕ) → has row q ≡ is_after_some order.now ids.now (enumerate_from 0 kids.now) q) }
{
    let members = Members::of_ids(ids);
    let mut row = OwnedRow::new(alloc);
    for (at, kid) in kids.iter().enumerate() {
        if members.has(kid.id()) {
            row.join(&order.after(position(at)?))?;
        }
    }
    Ok(row)
}

// The positions before some kid with one of the ids.
fn before_members(
    alloc: Global,
    order: &PairList,
    kids: &[Node],
    ids: &[NodeId],
) -> Result<OwnedRow, NoMemory>
    ensures { IfOk result (λ row. (q : ℕ) → has row q ≡ is_before_some order.now ids.now (enumerate_from 0 kids.now) q) }
{
    let members = Members::of_ids(ids);
    let mut row = OwnedRow::new(alloc);
    for (at, kid) in kids.iter().enumerate() {
        if members.has(kid.id()) {
            row.join(&order.before(alloc, position(at)?)?.row())?;
        }
    }
    Ok(row)
}

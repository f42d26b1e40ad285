ghost use Rattle.std.specs.Prelude.{◌≡◌, ◌&&◌, ◌||◌, false, [], ◌∷◌, ◌++◌, map, filter, IfOk, OnOk};
ghost use Rattle.std.specs.List.{enumerate_from, list_any};
ghost use Rattle.bd_base.specs.Facts.{is_subset};
ghost use Rattle.bd_base.specs.Pairs.{is_before};
ghost use Rattle.bd_tree.specs.Convex.{is_member};
ghost use Rattle.bd_tree.specs.Tree.{id_of};
ghost use Rattle.bd_tree.specs.WellFormed.{are_distinct};
ghost use Rattle.bd_shape.specs.Hull.{has_between, is_in_hull, hull_of, the_two};
ghost use Rattle.bd_shape.specs.Kids.{kid_ids, are_kids};
ghost use Rattle.bd_shape.specs.Sides.{AreSides};

use crate::sides::{Sides, position, sides_of};
use bd_base::{FromItems, IdList, Items, NoMemory, NodeId, PairList};
use bd_tree::{Members, Node, comes_before};
use std::alloc::Global;

/// The ids of the hull of two kids of the block, in the listing: the two, and every kid between them. It is just the two
/// where no kid is between them: in a closed order, as each order of a tree is, wherever they aren't ordered. A lent
/// node may have an order that isn't closed, and then a kid may be between two that aren't ordered.
pub fn hull(alloc: Global, block: &Node, i: NodeId, j: NodeId) -> Result<IdList, NoMemory>
    ensures hull { IfOk result (λ ids. ids ≡ hull_of block.now i j) }
    ensures alone { has_between block.now i j ≡ false → has_between block.now j i ≡ false → hull_of block.now i j ≡ the_two block.now i j }
{
    hull_ids(alloc, block, i, j)
}

// The same, told by its definition alone.
fn hull_ids(alloc: Global, block: &Node, i: NodeId, j: NodeId) -> Result<IdList, NoMemory>
    ensures { IfOk result (λ ids. ids ≡ hull_of block.now i j) }
{
    let mut ids = Vec::new(alloc);
    if let Node::Block { kids, order, .. } = block {
        let kids = kids.as_slice();
        put_hull(alloc, kids, order, i, j, &mut ids)?;
    }
    Ok(Items::of(ids))
}

/// Whether some kid of the block is after the first and before the second. It takes no memory.
pub fn has_between(block: &Node, i: NodeId, j: NodeId) -> bool
    ensures { result ≡ has_between block.now i j }
{
    match block {
        Node::Step { .. } => false,
        Node::Block { kids, order, .. } => { some_leads(order, kids.as_slice(), i, j) }
    }
}

/// Whether each of the ids is a kid's of the block. It takes no memory.
pub fn are_members(block: &Node, ids: &[NodeId]) -> bool
    ensures { result ≡ is_subset ids.now (kid_ids block.now) }
{
    match block {
        Node::Step { .. } => ids.is_empty(),
        Node::Block { kids, .. } => are_listed(kids.as_slice(), ids),
    }
}

/// Whether the ids are kids of the block, each different from the others. It takes no memory.
pub fn are_kids(block: &Node, ids: &[NodeId]) -> bool
    ensures { result ≡ are_kids block.now ids.now }
{
    are_members(block, ids) && are_distinct(ids)
}

// Whether each of the ids is a kid's.
fn are_listed(kids: &[Node], ids: &[NodeId]) -> bool
    ensures { result ≡ is_subset ids.now (map id_of kids.now) }
{
    let own = Members::of_nodes(kids);
    for id in ids {
        if !own.has(*id) {
            return false;
        }
    }
    true
}

// Whether each id is unlike all later ones.
fn are_distinct(ids: &[NodeId]) -> bool
    ensures { result ≡ are_distinct ids.now }
{
    let mut rest = ids;
    for id in ids {
        rest = &rest[1..];
        if Members::of_ids(rest).has(*id) {
            return false;
        }
    }
    true
}

// Whether a kid with the first id is before some kid that is before one with the second.
fn some_leads(order: &PairList, kids: &[Node], i: NodeId, j: NodeId) -> bool
    ensures { result ≡ list_any (λ a. is_member (i ∷ []) a && list_any (λ b. is_member (j ∷ []) b && list_any (λ k. is_before order.now a.0 k.0 && is_before order.now k.0 b.0) (enumerate_from 0 kids.now)) (enumerate_from 0 kids.now)) (enumerate_from 0 kids.now) }
{
    let ids = [i];
    let members = Members::of_ids(&ids);
    for (a, kid) in kids.iter().enumerate() {
        if members.has(kid.id()) && some_ends(order, kids, j, a) {
            return true;
        }
    }
    false
}

// Whether the position is before some kid that is before one with the id.
fn some_ends(order: &PairList, kids: &[Node], j: NodeId, a: usize) -> bool
    ensures { result ≡ list_any (λ b. is_member (j ∷ []) b && list_any (λ k. is_before order.now a k.0 && is_before order.now k.0 b.0) (enumerate_from 0 kids.now)) (enumerate_from 0 kids.now) }
{
    let ids = [j];
    let members = Members::of_ids(&ids);
    for (b, kid) in kids.iter().enumerate() {
        if members.has(kid.id()) && meets(order, kids, a, b) {
            return true;
        }
    }
    false
}

// Whether some kid is after the first position and before the second.
fn meets(order: &PairList, kids: &[Node], a: usize, b: usize) -> bool
    ensures { result ≡ list_any (λ k. is_before order.now a k.0 && is_before order.now k.0 b) (enumerate_from 0 kids.now) }
{
    for (k, _) in kids.iter().enumerate() {
        if comes_before(order, a, k) && comes_before(order, k, b) {
            return true;
        }
    }
    false
}

// Whether the kid is one of the two, or after one of them and before the other, told by the sides of the two.
fn is_in_hull(
    order: &PairList,
    kids: &[Node],
    first: &Sides,
    second: &Sides,
    i: NodeId,
    j: NodeId,
    at: u32,
    kid: &Node,
) -> bool
    requires first { AreSides order.now (i ∷ []) kids.now first.now }
    requires second { AreSides order.now (j ∷ []) kids.now second.now }
    ensures { result ≡ is_in_hull order.now i j (enumerate_from 0 kids.now) (at, kid.now) }
{
    Members::of_ids(&[i, j]).has(kid.id())
        || first.after.row().has(at) && second.before.row().has(at)
        || second.after.row().has(at) && first.before.row().has(at)
}

// Puts the ids of the hull at the end of the list. After an error the list may have got a part of them.
fn put_hull(
    alloc: Global,
    kids: &[Node],
    order: &PairList,
    i: NodeId,
    j: NodeId,
    ids: &mut Vec<NodeId>,
) -> Result<(), NoMemory>
    ensures { OnOk result (ids.new.items ≡ ids.old.items ++ map (λ k. id_of k.1) (filter (is_in_hull order.now i j (enumerate_from 0 kids.now)) (enumerate_from 0 kids.now))) }
{
    let first = sides_of(alloc, order, kids, &[i])?;
    let second = sides_of(alloc, order, kids, &[j])?;
    for (at, kid) in kids.iter().enumerate() {
        if is_in_hull(order, kids, &first, &second, i, j, position(at)?, kid) {
            ids.push(kid.id())?;
        }
    }
    Ok(())
}

// The two sides of a tightening: what is asked of them, and the trees in which they are grouped and unordered.
ghost use Rattle.std.specs.Prelude.{◌≡◌, ◌<◌, ◌^◌, [], false, true, IfOk, IfNone, IfSome};
ghost use Rattle.bd_tree.specs.Tree.{ids_of, greatest};
ghost use Rattle.bd_tree.specs.WellFormed.{are_distinct};
ghost use Rattle.bd_shape.specs.Grouped.{count_taken, side_id};
ghost use Rattle.bd_shape.specs.Hull.{between_at};
ghost use Rattle.bd_shape.specs.Kids.{convex_at};
ghost use Rattle.bd_shape.specs.Tightened.{both_grouped, right_fresh, tightened};
ghost use Rattle.bd_shape.specs.Unordered.{CanUnorder, unordered};
ghost use Rattle.plan_core.specs.New.{are_new};
ghost use Rattle.plan_core.specs.Sides.{CanTighten, are_sides, are_two, has_sides, is_block};

use bd_base::{NoMemory, NodeId};
use bd_shape::{are_members, group, has_between, unorder};
use bd_tree::{Node, Tree, is_convex};
use std::alloc::Global;
use std::collections::BTreeSet;

fn is_block(node: &Node) -> bool
    ensures { result ≡ is_block node.now }
{
    match node {
        Node::Step { .. } => false,
        Node::Block { .. } => true,
    }
}

// Whether the block is there, and the ids of both sides are kids of it.
pub(crate) fn has_sides(tree: &Tree, block: NodeId, left: &[NodeId], right: &[NodeId]) -> bool
    ensures { result ≡ has_sides tree.now block left.now right.now }
{
    match tree.find(block) {
        Some(node) => is_block(node) && are_members(node, left) && are_members(node, right),
        None => false,
    }
}

// Whether each id is unlike all that were seen before it.
fn are_new(alloc: Global, ids: &[NodeId]) -> Result<bool, NoMemory>
    ensures { IfOk result (λ told. told ≡ are_new [] ids.now) }
{
    let mut seen = BTreeSet::new(alloc);
    for id in ids {
        if !seen.insert(id.0)? {
            return Ok(false);
        }
    }
    Ok(true)
}

// Whether no id stands twice in the list.
fn are_distinct(alloc: Global, ids: &[NodeId]) -> Result<bool, NoMemory>
    ensures { IfOk result (λ told. told ≡ are_distinct ids.now) }
{
    are_new(alloc, ids)
}

// Whether neither side is empty, and no id stands twice in the two.
fn are_two(alloc: Global, left: &[NodeId], right: &[NodeId]) -> Result<bool, NoMemory>
    ensures { IfOk result (λ told. told ≡ are_two left.now right.now) }
{
    if left.is_empty() || right.is_empty() {
        return Ok(false);
    }
    let mut both = Vec::from_slice(alloc, left)?;
    both.extend_from_slice(right)?;
    are_distinct(alloc, &both)
}

// Whether the kids of the block with these ids are convex.
fn is_convex_at(tree: &Tree, block: NodeId, ids: &[NodeId]) -> bool
    ensures { result ≡ convex_at block ids.now tree.now }
{
    match tree.find(block) {
        Some(node) => is_convex(node, ids),
        None => true,
    }
}

// Whether some kid of the block is after the first and before the second.
fn is_between_at(tree: &Tree, block: NodeId, i: NodeId, j: NodeId) -> bool
    ensures { result ≡ between_at block i j tree.now }
{
    match tree.find(block) {
        Some(node) => has_between(node, i, j),
        None => false,
    }
}

// How many ids the grouping of the kids takes: none for a single one.
pub(crate) fn count_taken(ids: &[NodeId]) -> u64
    ensures { result ≡ count_taken ids.now }
{
    match ids {
        [] | [_] => 0,
        _ => 1,
    }
}

// The id of the kid that the kids become: its own for a single one, and else the fresh one.
fn side_id(ids: &[NodeId], fresh: NodeId) -> NodeId
    ensures { result ≡ side_id ids.now fresh }
{
    match ids {
        [single] => *single,
        _ => fresh,
    }
}

// The id that is free once the left side is grouped.
fn right_fresh(left: &[NodeId], next: NodeId) -> NodeId
    requires { next < 2 ^ 63 }
    ensures { result ≡ right_fresh left.now next }
{
    NodeId(next.0 + count_taken(left))
}

// The tree in which both sides are grouped, if they can then be unordered.
pub(crate) fn grouped_sides(
    alloc: Global,
    tree: &Tree,
    next: NodeId,
    block: NodeId,
    left: &[NodeId],
    right: &[NodeId],
) -> Result<Option<Tree>, NoMemory>
    requires there { has_sides tree.now block left.now right.now ≡ true }
    requires fresh { greatest (ids_of tree.now) < next }
    requires small { next < 2 ^ 63 }
    ensures none { IfOk result (λ told. IfNone told (are_sides tree.now block left.now right.now next ≡ false)) }
    ensures some { IfOk result (λ told. IfSome told (λ t. are_sides tree.now block left.now right.now next ≡ true)) }
    ensures tree { IfOk result (λ told. IfSome told (λ t. t ≡ both_grouped tree.now block left.now right.now next)) }
{
    if !are_two(alloc, left, right)? {
        return Ok(None);
    }
    if !is_convex_at(tree, block, left) {
        return Ok(None);
    }
    let first = group(alloc, tree, block, left, next)?;
    if !is_convex_at(&first, block, right) {
        return Ok(None);
    }
    let free = right_fresh(left, next);
    let both = group(alloc, &first, block, right, free)?;
    if is_between_at(&both, block, side_id(left, next), side_id(right, free)) {
        return Ok(None);
    }
    Ok(Some(both))
}

// The tree in which the left side is no longer before the right one, where both are grouped.
pub(crate) fn unordered_sides(
    alloc: Global,
    both: &Tree,
    next: NodeId,
    block: NodeId,
    left: &[NodeId],
    right: &[NodeId],
) -> Result<Tree, NoMemory>
    requires can { CanUnorder both.now block (side_id left.now next) (side_id right.now (right_fresh left.now next)) }
    requires small { next < 2 ^ 63 }
    ensures { IfOk result (λ t. t ≡ unordered both.now block (side_id left.now next) (side_id right.now (right_fresh left.now next))) }
{
    let first = side_id(left, next);
    let second = side_id(right, right_fresh(left, next));
    unorder(alloc, both, block, first, second)
}

// The tree in which the two sides are grouped and then unordered.
pub(crate) fn tightened(
    alloc: Global,
    tree: &Tree,
    next: NodeId,
    block: NodeId,
    left: &[NodeId],
    right: &[NodeId],
) -> Result<Tree, NoMemory>
    requires can { CanTighten tree.now block left.now right.now next }
    requires fresh { greatest (ids_of tree.now) < next }
    requires small { next < 2 ^ 63 }
    ensures { IfOk result (λ t. t ≡ tightened tree.now block left.now right.now next) }
{
    let first = group(alloc, tree, block, left, next)?;
    let both = group(alloc, &first, block, right, right_fresh(left, next))?;
    unordered_sides(alloc, &both, next, block, left, right)
}

// Whether a candidate fits and qualifies: what the two effect lists refuse is never checked, else its tree is made and checked.
ghost use Rattle.std.specs.Prelude.{◌≡◌, ◌↔◌, ◌+◌, ◌<◌, ◌≤◌, ◌^◌, ◌&&◌, ℕ, false, true, not, cond, length, map, nat_lt, Some, IfOk, IfNone, IfSome, IsTrue};
ghost use Rattle.std.specs.List.{list_all};
ghost use Rattle.bd_base.specs.Facts.{has};
ghost use Rattle.bd_links.specs.Sound.{IsSound, are_below};
ghost use Rattle.bd_shape.specs.Grouped.{CanGroup, count_taken, side_id};
ghost use Rattle.bd_shape.specs.Tightened.{right_fresh};
ghost use Rattle.bd_tree.specs.declared.node.Node.{Block};
ghost use Rattle.bd_tree.specs.Tree.{find_in, nodes_of, ids_of, greatest, steps_of, total};
ghost use Rattle.bd_tree.specs.WellFormed.{IsWellFormed};
ghost use Rattle.bd_tight.specs.Candidates.{fits, fresh_of};
ghost use Rattle.bd_tight.specs.Gains.{MakesBoth, are_short, gain_if, is_better};
ghost use Rattle.bd_walk.specs.Added.{AddsFor};
ghost use Rattle.bd_walk.specs.Found.{GroupsLeft};

use crate::adding::{Adds, is_hopeless};
use crate::threat::is_threatened;
use bd_base::{IdList, NoMemory, NodeId, PairList};
use bd_links::check;
use bd_shape::{can_group, can_unorder, group, unorder};
use bd_task::Task;
use bd_tight::Gain;
use bd_tree::{MAX_DEPTH, Members, Node, Tree};
use std::alloc::Global;

// Whether no id of the left side is one of the right side.
fn are_apart(left: &[NodeId], right: &[NodeId]) -> bool
    ensures { result ≡ list_all (λ x. not (has right.now x)) left.now }
{
    let others = Members::of_ids(right);
    for id in left {
        if others.has(*id) {
            return false;
        }
    }
    true
}

/// Whether the sides have no kid in common and at most `span` members.
pub(crate) fn are_short(span: u32, left: &[NodeId], right: &[NodeId]) -> bool
    ensures { result ≡ are_short span left.now right.now }
{
    if left.len() > span as usize || right.len() > span as usize {
        return false;
    }
    are_apart(left, right)
}

// How many ids the grouping of the kids takes: none for a single one.
fn count_taken(ids: &[NodeId]) -> u64
    ensures taken { result ≡ count_taken ids.now }
    ensures few { result ≤ 1 }
{
    match ids {
        [] | [_] => 0,
        _ => 1,
    }
}

// The id of the kid that the kids become: its own for a single one, and else the fresh one.
fn side_id(ids: &[NodeId], fresh: NodeId) -> NodeId
    ensures { result ≡ side_id ids.now fresh }
{
    match ids {
        [single] => *single,
        _ => fresh,
    }
}

/// The id that is free in the tree.
pub(crate) fn fresh_of(tree: &Tree) -> NodeId
    requires { greatest (ids_of tree.now) + 1 < 2 ^ 63 }
    ensures fresh { result ≡ fresh_of tree.now }
    ensures well { IsWellFormed tree.now }
{
    NodeId(tree.root().top_id().0 + 1)
}

// The id that is free once the left side is grouped.
fn right_fresh(left: &[NodeId], next: NodeId) -> NodeId
    requires { next < 2 ^ 63 }
    ensures { result ≡ right_fresh left.now next }
{
    NodeId(next.0 + count_taken(left))
}

// The tree in which both sides are grouped, if the candidate fits; its sides are short and apart. In the first tree the left
// one is grouped.
fn grouped_sides(
    alloc: Global,
    tree: &Tree,
    span: u32,
    first: &Tree,
    next: NodeId,
    block: NodeId,
    left: &[NodeId],
    right: &[NodeId],
) -> Result<Option<Tree>, NoMemory>
    requires short { are_short span left.now right.now ≡ true }
    requires first { GroupsLeft tree.now block left.now next first.now }
    requires left { CanGroup tree.now block left.now }
    requires right { CanGroup tree.now block right.now }
    requires ids { greatest (ids_of tree.now) + 1 < 2 ^ 63 }
    ensures none { IfOk result (λ told. IfNone told (fits tree.now span (record { block = block; left = left.now; right = right.now }) ≡ false)) }
    ensures some { IfOk result (λ told. IfSome told (λ t. MakesBoth tree.now span (record { block = block; left = left.now; right = right.now }) t)) }
{
    if !can_group(first, block, right) {
        return Ok(None);
    }
    let free = right_fresh(left, next);
    let both = group(alloc, first, block, right, free)?;
    if !can_unorder(&both, block, side_id(left, next), side_id(right, free)) {
        return Ok(None);
    }
    Ok(Some(both))
}

// Whether the tree has fewer ordered step pairs than the other, isn't too deep, and is sound.
fn is_better(alloc: Global, task: &Task, tree: &Tree, made: &Tree) -> Result<bool, NoMemory>
    requires below { IsTrue (are_below (length task.now.actions) made.now) }
    requires few { nodes_of tree.now < 2 ^ 32 }
    requires few_made { nodes_of made.now < 2 ^ 32 }
    ensures { IfOk result (λ b. b ≡ is_better task.now tree.now made.now) }
{
    if made.pairs() >= tree.pairs() {
        return Ok(false);
    }
    if made.depth() > MAX_DEPTH {
        return Ok(false);
    }
    let fault = check(alloc, task, made)?;
    Ok(fault.is_none())
}

// The two sides.
fn gain_of(
    alloc: Global,
    block: NodeId,
    left: &[NodeId],
    right: &[NodeId],
) -> Result<Gain, NoMemory>
    ensures { IfOk result (λ gain. gain ≡ record { block = block; left = left.now; right = right.now }) }
{
    Ok(Gain {
        block,
        left: IdList::from_slice(alloc, left)?,
        right: IdList::from_slice(alloc, right)?,
    })
}

// The two sides, if their candidate qualifies; it fits, and this is the tree in which both are grouped.
fn gain_grouped(
    alloc: Global,
    task: &Task,
    tree: &Tree,
    span: u32,
    first: &Tree,
    next: NodeId,
    both: &Tree,
    block: NodeId,
    left: &[NodeId],
    right: &[NodeId],
) -> Result<Option<Gain>, NoMemory>
    requires first { GroupsLeft tree.now block left.now next first.now }
    requires below { IsTrue (are_below (length task.now.actions) tree.now) }
    requires few { nodes_of tree.now + 2 < 2 ^ 32 }
    requires ids { greatest (ids_of tree.now) + 1 < 2 ^ 63 }
    requires sound { IsSound task.now tree.now }
    requires left { CanGroup tree.now block left.now }
    requires right { CanGroup tree.now block right.now }
    requires makes { MakesBoth tree.now span (record { block = block; left = left.now; right = right.now }) both.now }
    ensures { IfOk result (λ told. told ≡ gain_if task.now tree.now span (record { block = block; left = left.now; right = right.now })) }
{
    let one = side_id(left, next);
    let two = side_id(right, right_fresh(left, next));
    if is_threatened(alloc, task, both, block, one, two)? {
        return Ok(None);
    }
    let made = unorder(alloc, both, block, one, two)?;
    if !is_better(alloc, task, tree, &made)? {
        return Ok(None);
    }
    let gain = gain_of(alloc, block, left, right)?;
    Ok(Some(gain))
}

/// The two sides, if they are a candidate that fits and qualifies; in the first tree the left one is grouped. Where the left one
/// needs what the right one deletes, it is refused before it is unordered and checked; and before anything is made of it, where
/// it is hopeless by its count of step pairs.
pub(crate) fn gain_if(
    alloc: Global,
    task: &Task,
    tree: &Tree,
    span: u32,
    first: &Tree,
    next: NodeId,
    block: NodeId,
    order: &PairList,
    nodes: &[Node],
    adds: Adds,
    left: &[NodeId],
    right: &[NodeId],
) -> Result<Option<Gain>, NoMemory>
    requires first { GroupsLeft tree.now block left.now next first.now }
    requires below { IsTrue (are_below (length task.now.actions) tree.now) }
    requires few { nodes_of tree.now + 2 < 2 ^ 32 }
    requires ids { greatest (ids_of tree.now) + 1 < 2 ^ 63 }
    requires sound { IsSound task.now tree.now }
    requires found { find_in block tree.now ≡ Some (Block block nodes.now order.now) }
    requires few_steps { total (map steps_of nodes.now) < 2 ^ 32 }
    requires adds { AddsFor nodes.now order.now left.now adds }
    requires left { CanGroup tree.now block left.now }
    requires right { CanGroup tree.now block right.now }
    ensures { IfOk result (λ told. told ≡ gain_if task.now tree.now span (record { block = block; left = left.now; right = right.now })) }
{
    if is_hopeless(span, order, nodes, adds, left, right) {
        return Ok(None);
    }
    match grouped_sides(alloc, tree, span, first, next, block, left, right)? {
        None => Ok(None),
        Some(both) => {
            gain_grouped(
                alloc, task, tree, span, first, next, &both, block, left, right,
            )
        }
    }
}

// The candidates of a pair of kids, one after another.
ghost use Rattle.std.specs.Prelude.{◌≡◌, ◌+◌, ◌<◌, ◌^◌, length, map, slice_get, None, Some, All, IfOk, IfNone, IfSome, IsTrue};
ghost use Rattle.bd_tree.specs.declared.node.Node.{Block};
ghost use Rattle.bd_tree.specs.Tree.{find_in, greatest, ids_of, nodes_of, steps_of, total};
ghost use Rattle.bd_tree.specs.WellFormed.{IsWellFormed};
ghost use Rattle.bd_links.specs.Sound.{IsSound, are_below};
ghost use Rattle.bd_shape.specs.Grouped.{CanGroup};
ghost use Rattle.bd_tight.specs.Gains.{HasId, gain_among, gain_of_two, gain_with};
ghost use Rattle.bd_walk.specs.Found.{IsTried, Stands};

use crate::adding::{adds_of, are_hopeless};
use crate::judging::{fresh_of, gain_if};
use crate::sides::{facts_between, related, related_from, sides};
use bd_base::{IdList, NoMemory, NodeId, PairList};
use bd_links::Child;
use bd_shape::group;
use bd_task::Task;
use bd_tight::Gain;
use bd_tree::{Node, Tree};
use std::alloc::Global;

// The first candidate of the left side and one of the right ones that fits and qualifies. The left side is grouped once for
// all, and not at all where each of them is hopeless.
fn gain_with(
    alloc: Global,
    task: &Task,
    tree: &Tree,
    span: u32,
    block: NodeId,
    order: &PairList,
    nodes: &[Node],
    left: &[NodeId],
    rights: &[IdList],
) -> Result<Option<Gain>, NoMemory>
    requires below { IsTrue (are_below (length task.now.actions) tree.now) }
    requires few { nodes_of tree.now + 2 < 2 ^ 32 }
    requires ids { greatest (ids_of tree.now) + 1 < 2 ^ 63 }
    requires sound { IsSound task.now tree.now }
    requires well { IsWellFormed tree.now }
    requires found { find_in block tree.now ≡ Some (Block block nodes.now order.now) }
    requires few_steps { total (map steps_of nodes.now) < 2 ^ 32 }
    requires left { CanGroup tree.now block left.now }
    requires rights { All (CanGroup tree.now block) rights.now }
    ensures { IfOk result (λ told. told ≡ gain_with task.now tree.now span block rights.now left.now) }
{
    if left.len() > span as usize {
        return Ok(None);
    }
    let adds = adds_of(alloc, order, nodes, left)?;
    if are_hopeless(span, order, nodes, adds, left, rights) {
        return Ok(None);
    }
    let next = fresh_of(tree);
    let first = group(alloc, tree, block, left, next)?;
    for right in rights {
        match gain_if(
            alloc,
            task,
            tree,
            span,
            &first,
            next,
            block,
            order,
            nodes,
            adds,
            left,
            right.as_slice(),
        )? {
            Some(gain) => return Ok(Some(gain)),
            None => {}
        }
    }
    Ok(None)
}

// The same of one of the left sides.
fn gain_among(
    alloc: Global,
    task: &Task,
    tree: &Tree,
    span: u32,
    block: NodeId,
    order: &PairList,
    nodes: &[Node],
    lefts: &[IdList],
    rights: &[IdList],
) -> Result<Option<Gain>, NoMemory>
    requires below { IsTrue (are_below (length task.now.actions) tree.now) }
    requires few { nodes_of tree.now + 2 < 2 ^ 32 }
    requires ids { greatest (ids_of tree.now) + 1 < 2 ^ 63 }
    requires sound { IsSound task.now tree.now }
    requires well { IsWellFormed tree.now }
    requires found { find_in block tree.now ≡ Some (Block block nodes.now order.now) }
    requires few_steps { total (map steps_of nodes.now) < 2 ^ 32 }
    requires lefts { All (CanGroup tree.now block) lefts.now }
    requires rights { All (CanGroup tree.now block) rights.now }
    ensures { IfOk result (λ told. told ≡ gain_among task.now tree.now span block lefts.now rights.now) }
{
    for left in lefts {
        match gain_with(
            alloc,
            task,
            tree,
            span,
            block,
            order,
            nodes,
            left.as_slice(),
            rights,
        )? {
            Some(gain) => return Ok(Some(gain)),
            None => {}
        }
    }
    Ok(None)
}

// A candidate of two kids that fits and qualifies: a left side with each right one, and of these the hulls with kids from
// place j on before the others.
fn gain_of_kids(
    alloc: Global,
    task: &Task,
    tree: &Tree,
    span: u32,
    own: NodeId,
    block: &Node,
    order: &PairList,
    nodes: &[Node],
    kids: &[Child<'_>],
    first: &Child<'_>,
    second: &Child<'_>,
    j: u32,
) -> Result<Option<Gain>, NoMemory>
    requires below { IsTrue (are_below (length task.now.actions) tree.now) }
    requires few { nodes_of tree.now + 2 < 2 ^ 32 }
    requires ids { greatest (ids_of tree.now) + 1 < 2 ^ 63 }
    requires sound { IsSound task.now tree.now }
    requires nodes { block.now ≡ Block own nodes.now order.now }
    requires stands { Stands task.now.actions tree.now own block.now order.now kids.now }
    requires first { HasId kids.now first.now.id }
    requires second { HasId kids.now second.now.id }
    ensures none { IfOk result (λ told. IfNone told (gain_of_two task.now tree.now span own block.now kids.now (Some first.now) (Some second.now) ≡ None)) }
    ensures some { IfOk result (λ told. IfSome told (λ gain. IsTried task.now tree.now span own block.now kids.now (Some first.now) (Some second.now) gain)) }
{
    let facts = facts_between(alloc, first, second)?;
    let others = related(alloc, &facts, kids)?;
    let turned = related_from(alloc, &facts, kids, j)?;
    let lefts = sides(alloc, block, first.id(), &others)?;
    let rights = sides(alloc, block, second.id(), &turned)?;
    gain_among(alloc, task, tree, span, own, order, nodes, &lefts, &rights)
}

/// The same of the kids at two places.
pub(crate) fn gain_of_two(
    alloc: Global,
    task: &Task,
    tree: &Tree,
    span: u32,
    own: NodeId,
    block: &Node,
    order: &PairList,
    nodes: &[Node],
    kids: &[Child<'_>],
    i: u32,
    j: u32,
) -> Result<Option<Gain>, NoMemory>
    requires below { IsTrue (are_below (length task.now.actions) tree.now) }
    requires few { nodes_of tree.now + 2 < 2 ^ 32 }
    requires ids { greatest (ids_of tree.now) + 1 < 2 ^ 63 }
    requires sound { IsSound task.now tree.now }
    requires nodes { block.now ≡ Block own nodes.now order.now }
    requires stands { Stands task.now.actions tree.now own block.now order.now kids.now }
    ensures none { IfOk result (λ told. IfNone told (gain_of_two task.now tree.now span own block.now kids.now (slice_get kids.now i) (slice_get kids.now j) ≡ None)) }
    ensures some { IfOk result (λ told. IfSome told (λ gain. IsTried task.now tree.now span own block.now kids.now (slice_get kids.now i) (slice_get kids.now j) gain)) }
{
    match kids.get(i as usize) {
        None => Ok(None),
        Some(first) => match kids.get(j as usize) {
            None => Ok(None),
            Some(second) => {
                gain_of_kids(
                    alloc, task, tree, span, own, block, order, nodes, kids, first, second, j,
                )
            }
        },
    }
}

// The gains of a tree: each candidate is made and checked, block by block and pair by pair.
ghost use Rattle.std.specs.Prelude.{◌≡◌, ◌↔◌, ◌+◌, ◌<◌, ◌^◌, ◌++◌, true, length, map, slice_get, None, Some, All, IfOk, IfSome, IsTrue, OnOk};
ghost use Rattle.std.specs.List.{list_all};
ghost use Rattle.bd_tree.specs.Misfit.{leads_to};
ghost use Rattle.bd_tree.specs.Tree.{find_in, greatest, id_of, ids_of, nodes_of};
ghost use Rattle.bd_tree.specs.WellFormed.{IsWellFormed};
ghost use Rattle.bd_links.specs.Sound.{are_below, child_of};
ghost use Rattle.bd_shape.specs.Grouped.{CanGroup};
ghost use Rattle.bd_tight.specs.Candidates.{IsCandidate, IsTight, Qualifies};
ghost use Rattle.bd_tight.specs.Gains.{HasId, StandsIn, blocks_of, first_gain, gain_among, gain_at, gain_in, gain_of_pairs, gain_of_two, gain_with};

use crate::Gain;
use crate::judging::gain_if;
use crate::sides::{facts_between, related, sides};
use bd_base::{IdList, NoMemory, NodeId, PairList};
use bd_links::{Child, as_child};
use bd_task::Task;
use bd_tree::{Node, Tree};
use std::alloc::Global;

// The ids of the blocks, each before those in it, put at the end of the list. After an error the list may have got a part
// of them.
fn put_blocks(node: &Node, ids: &mut Vec<NodeId>) -> Result<(), NoMemory>
    ensures { OnOk result (ids.new.items ≡ ids.old.items ++ blocks_of node.now) }
{
    match node {
        Node::Step { .. } => {}
        Node::Block { id, kids, .. } => {
            ids.push(*id)?;
            for kid in kids.as_slice() {
                put_blocks(kid, ids)?;
            }
        }
    }
    Ok(())
}

// Whether i is before some position that is before j.
#[tactic(auto, using(crate::proofs::GainLemmas::leads_is))]
fn leads_to(order: &PairList, i: u32, j: u32) -> bool
    ensures { result ≡ leads_to order.now (i, j) }
{
    for k in order.after(i).iter() {
        if order.has(k, j) {
            return true;
        }
    }
    false
}

// The kids with their effects.
fn children_of<'a>(alloc: Global, task: &'a Task, kids: &[Node]) -> Result<Vec<Child<'a>>, NoMemory>
    requires { list_all (λ b. b) (map (are_below (length task.now.actions)) kids.now) ≡ true }
    ensures { IfOk result (λ v. v.items ≡ map (child_of task.now.actions) kids.now) }
{
    let mut all = Vec::new(alloc);
    for kid in kids {
        all.push(as_child(alloc, task, kid)?)?;
    }
    Ok(all)
}

// The first candidate of the left side and one of the right ones that fits and qualifies.
fn gain_with(
    alloc: Global,
    task: &Task,
    tree: &Tree,
    span: u32,
    block: NodeId,
    left: &[NodeId],
    rights: &[IdList],
) -> Result<Option<Gain>, NoMemory>
    requires below { IsTrue (are_below (length task.now.actions) tree.now) }
    requires few { nodes_of tree.now + 2 < 2 ^ 32 }
    requires ids { greatest (ids_of tree.now) + 1 < 2 ^ 63 }
    requires left { CanGroup tree.now block left.now }
    requires rights { All (CanGroup tree.now block) rights.now }
    ensures { IfOk result (λ told. told ≡ gain_with task.now tree.now span block rights.now left.now) }
{
    for right in rights {
        match gain_if(alloc, task, tree, span, block, left, right.as_slice())? {
            Some(gain) => return Ok(Some(gain)),
            None => {}
        }
    }
    Ok(None)
}

// The same of one of the left sides.
fn gain_among(
    alloc: Global,
    task: &Task,
    tree: &Tree,
    span: u32,
    block: NodeId,
    lefts: &[IdList],
    rights: &[IdList],
) -> Result<Option<Gain>, NoMemory>
    requires below { IsTrue (are_below (length task.now.actions) tree.now) }
    requires few { nodes_of tree.now + 2 < 2 ^ 32 }
    requires ids { greatest (ids_of tree.now) + 1 < 2 ^ 63 }
    requires lefts { All (CanGroup tree.now block) lefts.now }
    requires rights { All (CanGroup tree.now block) rights.now }
    ensures { IfOk result (λ told. told ≡ gain_among task.now tree.now span block lefts.now rights.now) }
{
    for left in lefts {
        match gain_with(alloc, task, tree, span, block, left.as_slice(), rights)? {
            Some(gain) => return Ok(Some(gain)),
            None => {}
        }
    }
    Ok(None)
}

// The first candidate of two kids that fits and qualifies.
fn gain_of_kids(
    alloc: Global,
    task: &Task,
    tree: &Tree,
    span: u32,
    own: NodeId,
    block: &Node,
    kids: &[Child<'_>],
    first: &Child<'_>,
    second: &Child<'_>,
) -> Result<Option<Gain>, NoMemory>
    requires below { IsTrue (are_below (length task.now.actions) tree.now) }
    requires few { nodes_of tree.now + 2 < 2 ^ 32 }
    requires ids { greatest (ids_of tree.now) + 1 < 2 ^ 63 }
    requires stands { StandsIn task.now.actions tree.now own block.now kids.now }
    requires first { HasId kids.now first.now.id }
    requires second { HasId kids.now second.now.id }
    ensures { IfOk result (λ told. told ≡ gain_of_two task.now tree.now span own block.now kids.now (Some first.now) (Some second.now)) }
{
    let facts = facts_between(alloc, first, second)?;
    let others = related(alloc, &facts, kids)?;
    let lefts = sides(alloc, block, first.id(), &others)?;
    let rights = sides(alloc, block, second.id(), &others)?;
    gain_among(alloc, task, tree, span, own, &lefts, &rights)
}

// The same of the kids at two places.
fn gain_of_two(
    alloc: Global,
    task: &Task,
    tree: &Tree,
    span: u32,
    own: NodeId,
    block: &Node,
    kids: &[Child<'_>],
    i: u32,
    j: u32,
) -> Result<Option<Gain>, NoMemory>
    requires below { IsTrue (are_below (length task.now.actions) tree.now) }
    requires few { nodes_of tree.now + 2 < 2 ^ 32 }
    requires ids { greatest (ids_of tree.now) + 1 < 2 ^ 63 }
    requires stands { StandsIn task.now.actions tree.now own block.now kids.now }
    ensures { IfOk result (λ told. told ≡ gain_of_two task.now tree.now span own block.now kids.now (slice_get kids.now i) (slice_get kids.now j)) }
{
    match kids.get(i as usize) {
        None => Ok(None),
        Some(first) => match kids.get(j as usize) {
            None => Ok(None),
            Some(second) => {
                gain_of_kids(alloc, task, tree, span, own, block, kids, first, second)
            }
        },
    }
}

// The same of a pair of the order, if nothing is between.
fn gain_at(
    alloc: Global,
    task: &Task,
    tree: &Tree,
    span: u32,
    own: NodeId,
    block: &Node,
    kids: &[Child<'_>],
    order: &PairList,
    pair: (u32, u32),
) -> Result<Option<Gain>, NoMemory>
    requires below { IsTrue (are_below (length task.now.actions) tree.now) }
    requires few { nodes_of tree.now + 2 < 2 ^ 32 }
    requires ids { greatest (ids_of tree.now) + 1 < 2 ^ 63 }
    requires stands { StandsIn task.now.actions tree.now own block.now kids.now }
    ensures { IfOk result (λ told. told ≡ gain_at task.now tree.now span own block.now kids.now order.now pair) }
{
    if leads_to(order, pair.0, pair.1) {
        return Ok(None);
    }
    gain_of_two(alloc, task, tree, span, own, block, kids, pair.0, pair.1)
}

// The same of the pairs of a block.
fn gain_of_pairs(
    alloc: Global,
    task: &Task,
    tree: &Tree,
    span: u32,
    own: NodeId,
    block: &Node,
    kids: &[Child<'_>],
    order: &PairList,
) -> Result<Option<Gain>, NoMemory>
    requires below { IsTrue (are_below (length task.now.actions) tree.now) }
    requires few { nodes_of tree.now + 2 < 2 ^ 32 }
    requires ids { greatest (ids_of tree.now) + 1 < 2 ^ 63 }
    requires stands { StandsIn task.now.actions tree.now own block.now kids.now }
    ensures { IfOk result (λ told. told ≡ gain_of_pairs task.now tree.now span own block.now kids.now order.now) }
{
    for pair in order.iter() {
        match gain_at(alloc, task, tree, span, own, block, kids, order, pair)? {
            Some(gain) => return Ok(Some(gain)),
            None => {}
        }
    }
    Ok(None)
}

// The same of a block of the tree.
fn gain_in(
    alloc: Global,
    task: &Task,
    tree: &Tree,
    span: u32,
    block: &Node,
) -> Result<Option<Gain>, NoMemory>
    requires below { IsTrue (are_below (length task.now.actions) tree.now) }
    requires few { nodes_of tree.now + 2 < 2 ^ 32 }
    requires ids { greatest (ids_of tree.now) + 1 < 2 ^ 63 }
    requires well { IsWellFormed tree.now }
    requires found { find_in (id_of block.now) tree.now ≡ Some block.now }
    ensures { IfOk result (λ told. told ≡ gain_in task.now tree.now span (Some block.now)) }
{
    match block {
        Node::Step { .. } => Ok(None),
        Node::Block { id, kids, order } => {
            let children = children_of(alloc, task, kids.as_slice())?;
            gain_of_pairs(alloc, task, tree, span, *id, block, &children, order)
        }
    }
}

// The same of the block with the id.
fn gain_by_id(
    alloc: Global,
    task: &Task,
    tree: &Tree,
    span: u32,
    id: NodeId,
) -> Result<Option<Gain>, NoMemory>
    requires below { IsTrue (are_below (length task.now.actions) tree.now) }
    requires few { nodes_of tree.now + 2 < 2 ^ 32 }
    requires ids { greatest (ids_of tree.now) + 1 < 2 ^ 63 }
    requires well { IsWellFormed tree.now }
    ensures { IfOk result (λ told. told ≡ gain_in task.now tree.now span (find_in id tree.now)) }
{
    match tree.find(id) {
        None => Ok(None),
        Some(block) => gain_in(alloc, task, tree, span, block),
    }
}

// The first candidate of the tree that fits and qualifies.
fn first_gain(alloc: Global, task: &Task, tree: &Tree, span: u32) -> Result<Option<Gain>, NoMemory>
    requires below { IsTrue (are_below (length task.now.actions) tree.now) }
    requires few { nodes_of tree.now + 2 < 2 ^ 32 }
    requires ids { greatest (ids_of tree.now) + 1 < 2 ^ 63 }
    ensures gain { IfOk result (λ told. told ≡ first_gain task.now tree.now span) }
    ensures well { IsWellFormed tree.now }
{
    let mut blocks = Vec::new(alloc);
    put_blocks(tree.root(), &mut blocks)?;
    for id in &blocks {
        match gain_by_id(alloc, task, tree, span, *id)? {
            Some(gain) => return Ok(Some(gain)),
            None => {}
        }
    }
    Ok(None)
}

/// A gain of a tree: `None` exactly where the tree is tight at the span, and else a candidate whose tree is sound, has at
/// most 64 levels and fewer ordered step pairs. Which one, is not promised. Two more nodes are to have ids.
pub fn next_gain(
    alloc: Global,
    task: &Task,
    tree: &Tree,
    span: u32,
) -> Result<Option<Gain>, NoMemory>
    requires below { IsTrue (are_below (length task.now.actions) tree.now) }
    requires few { nodes_of tree.now + 2 < 2 ^ 32 }
    requires ids { greatest (ids_of tree.now) + 1 < 2 ^ 63 }
    ensures none { IfOk result (λ told. (told ≡ None) ↔ IsTight task.now tree.now span) }
    ensures candidate { IfOk result (λ told. IfSome told (λ gain. IsCandidate task.now.actions tree.now span gain)) }
    ensures qualifies { IfOk result (λ told. IfSome told (λ gain. Qualifies task.now tree.now gain)) }
{
    first_gain(alloc, task, tree, span)
}

// The gains of a tree, block by block and pair by pair, from where the last one was.
ghost use Rattle.std.specs.Prelude.{◌≡◌, ◌↔◌, ◌+◌, ◌<◌, ◌^◌, ◌++◌, ◌||◌, nat_lt, not, true, length, map, slice_get, None, Some, All, IfOk, IfNone, IfSome, IsTrue, OnOk};
ghost use Rattle.std.specs.List.{list_all};
ghost use Rattle.bd_base.specs.Pairs.{is_before};
ghost use Rattle.bd_tree.specs.declared.node.Node.{Block};
ghost use Rattle.bd_tree.specs.Misfit.{leads_to};
ghost use Rattle.bd_tree.specs.Tree.{find_in, greatest, id_of, ids_of, nodes_of};
ghost use Rattle.bd_tree.specs.WellFormed.{IsWellFormed};
ghost use Rattle.bd_links.specs.Sound.{IsSound, are_below, child_of};
ghost use Rattle.bd_shape.specs.Grouped.{CanGroup};
ghost use Rattle.bd_tight.specs.Candidates.{IsCandidate, IsTight, Qualifies};
ghost use Rattle.bd_tight.specs.Gains.{HasId, blocks_of, gain_among, gain_of_two, gain_with};
ghost use Rattle.bd_walk.specs.Found.{IsFound, IsTried, Stands, misses, misses_in};

use crate::trying::gain_of_two;
use bd_base::{NoMemory, NodeId, PairList};
use bd_links::{Child, as_child};
use bd_task::Task;
use bd_tight::Gain;
use bd_tree::{Node, Tree};
use std::alloc::Global;

// The ids of the blocks, each before those in it, put at the end of the list. After an error the list may have got a part
// of them.
fn put_blocks(node: &Node, ids: &mut Vec<NodeId>) -> Result<(), NoMemory>
    ensures { OnOk result (ids.new.items ≡ ids.old.items ++ blocks_of node.now) }
{
    match node {
        Node::Step { .. } => {}
        Node::Block { id, kids, .. } => {
            ids.push(*id)?;
            for kid in kids.as_slice() {
                put_blocks(kid, ids)?;
            }
        }
    }
    Ok(())
}

// Whether i is before some position that is before j.
#[tactic(auto, using(crate::proofs::RowLemmas::leads_is))]
fn leads_to(order: &PairList, i: u32, j: u32) -> bool
    ensures { result ≡ leads_to order.now (i, j) }
{
    for k in order.after(i).iter() {
        if order.has(k, j) {
            return true;
        }
    }
    false
}

// The kids with their effects.
fn children_of<'a>(alloc: Global, task: &'a Task, kids: &[Node]) -> Result<Vec<Child<'a>>, NoMemory>
    requires { list_all (λ b. b) (map (are_below (length task.now.actions)) kids.now) ≡ true }
    ensures { IfOk result (λ v. v.items ≡ map (child_of task.now.actions) kids.now) }
{
    let mut all = Vec::new(alloc);
    for kid in kids {
        all.push(as_child(alloc, task, kid)?)?;
    }
    Ok(all)
}

// The same of a pair of the order, if nothing is between.
fn gain_at(
    alloc: Global,
    task: &Task,
    tree: &Tree,
    span: u32,
    own: NodeId,
    block: &Node,
    order: &PairList,
    nodes: &[Node],
    kids: &[Child<'_>],
    pair: (u32, u32),
) -> Result<Option<Gain>, NoMemory>
    requires below { IsTrue (are_below (length task.now.actions) tree.now) }
    requires few { nodes_of tree.now + 2 < 2 ^ 32 }
    requires ids { greatest (ids_of tree.now) + 1 < 2 ^ 63 }
    requires sound { IsSound task.now tree.now }
    requires nodes { block.now ≡ Block own nodes.now order.now }
    requires stands { Stands task.now.actions tree.now own block.now order.now kids.now }
    requires ordered { is_before order.now pair.0 pair.1 ≡ true }
    ensures none { IfOk result (λ told. IfNone told (misses task.now tree.now span own block.now order.now kids.now pair ≡ true)) }
    ensures some { IfOk result (λ told. IfSome told (λ gain. IsFound task.now tree.now span gain)) }
{
    if leads_to(order, pair.0, pair.1) {
        return Ok(None);
    }
    gain_of_two(
        alloc, task, tree, span, own, block, order, nodes, kids, pair.0, pair.1,
    )
}

// Whether the pair is passed without a look: its first kid stands before the place, or it is no pair of the order.
fn is_passed(order: &PairList, from: u32, pair: (u32, u32)) -> bool
    ensures { result ≡ (nat_lt pair.0 from || not (is_before order.now pair.0 pair.1)) }
{
    pair.0 < from || !order.has(pair.0, pair.1)
}

// The same of the pairs of a block whose first kid stands at the place or behind it; and the place of the first kid of the gain.
fn gain_of_pairs(
    alloc: Global,
    task: &Task,
    tree: &Tree,
    span: u32,
    own: NodeId,
    block: &Node,
    order: &PairList,
    nodes: &[Node],
    kids: &[Child<'_>],
    from: u32,
) -> Result<Option<(Gain, u32)>, NoMemory>
    requires below { IsTrue (are_below (length task.now.actions) tree.now) }
    requires few { nodes_of tree.now + 2 < 2 ^ 32 }
    requires ids { greatest (ids_of tree.now) + 1 < 2 ^ 63 }
    requires sound { IsSound task.now tree.now }
    requires nodes { block.now ≡ Block own nodes.now order.now }
    requires stands { Stands task.now.actions tree.now own block.now order.now kids.now }
    ensures none { IfOk result (λ told. IfNone told (list_all (λ p. nat_lt p.0 from || not (is_before order.now p.0 p.1) || misses task.now tree.now span own block.now order.now kids.now p) order.now ≡ true)) }
    ensures some { IfOk result (λ told. IfSome told (λ f. IsFound task.now tree.now span f.0)) }
{
    for pair in order.iter() {
        if !is_passed(order, from, pair) {
            match gain_at(
                alloc, task, tree, span, own, block, order, nodes, kids, pair,
            )? {
                Some(gain) => return Ok(Some((gain, pair.0))),
                None => {}
            }
        }
    }
    Ok(None)
}

// The same of a block of the tree.
fn gain_in(
    alloc: Global,
    task: &Task,
    tree: &Tree,
    span: u32,
    block: &Node,
    from: u32,
) -> Result<Option<(Gain, u32)>, NoMemory>
    requires below { IsTrue (are_below (length task.now.actions) tree.now) }
    requires few { nodes_of tree.now + 2 < 2 ^ 32 }
    requires ids { greatest (ids_of tree.now) + 1 < 2 ^ 63 }
    requires sound { IsSound task.now tree.now }
    requires well { IsWellFormed tree.now }
    requires found { find_in (id_of block.now) tree.now ≡ Some block.now }
    ensures none { IfOk result (λ told. IfNone told (from ≡ 0 → misses_in task.now tree.now span (Some block.now) ≡ true)) }
    ensures some { IfOk result (λ told. IfSome told (λ f. IsFound task.now tree.now span f.0)) }
{
    match block {
        Node::Step { .. } => Ok(None),
        Node::Block { id, kids, order } => {
            let children = children_of(alloc, task, kids.as_slice())?;
            gain_of_pairs(
                alloc,
                task,
                tree,
                span,
                *id,
                block,
                order,
                kids.as_slice(),
                &children,
                from,
            )
        }
    }
}

// The same of the block with the id.
fn gain_by_id(
    alloc: Global,
    task: &Task,
    tree: &Tree,
    span: u32,
    id: NodeId,
    from: u32,
) -> Result<Option<(Gain, u32)>, NoMemory>
    requires below { IsTrue (are_below (length task.now.actions) tree.now) }
    requires few { nodes_of tree.now + 2 < 2 ^ 32 }
    requires ids { greatest (ids_of tree.now) + 1 < 2 ^ 63 }
    requires sound { IsSound task.now tree.now }
    requires well { IsWellFormed tree.now }
    ensures none { IfOk result (λ told. IfNone told (from ≡ 0 → misses_in task.now tree.now span (find_in id tree.now) ≡ true)) }
    ensures some { IfOk result (λ told. IfSome told (λ f. IsFound task.now tree.now span f.0)) }
{
    match tree.find(id) {
        None => Ok(None),
        Some(block) => gain_in(alloc, task, tree, span, block, from),
    }
}

// The same of blocks of the tree; and the place of the gain's block among them.
fn gain_of_blocks(
    alloc: Global,
    task: &Task,
    tree: &Tree,
    span: u32,
    blocks: &[NodeId],
) -> Result<Option<(Gain, u32, usize)>, NoMemory>
    requires below { IsTrue (are_below (length task.now.actions) tree.now) }
    requires few { nodes_of tree.now + 2 < 2 ^ 32 }
    requires ids { greatest (ids_of tree.now) + 1 < 2 ^ 63 }
    requires sound { IsSound task.now tree.now }
    requires well { IsWellFormed tree.now }
    ensures none { IfOk result (λ told. IfNone told (list_all (λ id. misses_in task.now tree.now span (find_in id tree.now)) blocks.now ≡ true)) }
    ensures some { IfOk result (λ told. IfSome told (λ f. IsFound task.now tree.now span f.0)) }
{
    let mut k: usize = 0;
    for id in blocks {
        match gain_by_id(alloc, task, tree, span, *id, 0)? {
            Some((gain, row)) => return Ok(Some((gain, row, k))),
            None => k = k.saturating_add(1),
        }
    }
    Ok(None)
}

// The ids of the tree's blocks, each before those in it.
fn blocks_of(alloc: Global, tree: &Tree) -> Result<Vec<NodeId>, NoMemory>
    ensures blocks { IfOk result (λ v. v.items ≡ blocks_of tree.now) }
    ensures well { IsWellFormed tree.now }
{
    let mut blocks = Vec::new(alloc);
    put_blocks(tree.root(), &mut blocks)?;
    Ok(blocks)
}

// A gain of the block at the place, from the row on.
fn gain_here(
    alloc: Global,
    task: &Task,
    tree: &Tree,
    span: u32,
    blocks: &[NodeId],
    at: usize,
    row: u32,
) -> Result<Option<(Gain, u32)>, NoMemory>
    requires below { IsTrue (are_below (length task.now.actions) tree.now) }
    requires few { nodes_of tree.now + 2 < 2 ^ 32 }
    requires ids { greatest (ids_of tree.now) + 1 < 2 ^ 63 }
    requires sound { IsSound task.now tree.now }
    requires well { IsWellFormed tree.now }
    ensures some { IfOk result (λ told. IfSome told (λ f. IsFound task.now tree.now span f.0)) }
{
    match blocks.get(at) {
        None => Ok(None),
        Some(id) => gain_by_id(alloc, task, tree, span, *id, row),
    }
}

// A gain of all blocks, those from the place on before the others.
fn gain_around(
    alloc: Global,
    task: &Task,
    tree: &Tree,
    span: u32,
    blocks: &[NodeId],
    at: usize,
) -> Result<Option<(Gain, u32, usize)>, NoMemory>
    requires below { IsTrue (are_below (length task.now.actions) tree.now) }
    requires few { nodes_of tree.now + 2 < 2 ^ 32 }
    requires ids { greatest (ids_of tree.now) + 1 < 2 ^ 63 }
    requires sound { IsSound task.now tree.now }
    requires well { IsWellFormed tree.now }
    ensures none { IfOk result (λ told. IfNone told (list_all (λ id. misses_in task.now tree.now span (find_in id tree.now)) blocks.now ≡ true)) }
    ensures some { IfOk result (λ told. IfSome told (λ f. IsFound task.now tree.now span f.0)) }
{
    let from = at.min(blocks.len());
    match gain_of_blocks(alloc, task, tree, span, &blocks[from..])? {
        Some((gain, row, k)) => Ok(Some((gain, row, k.saturating_add(from)))),
        None => gain_of_blocks(alloc, task, tree, span, &blocks[..from]),
    }
}

// A gain of the tree: first of the block at the place, from the row on, then of the blocks behind it, then of all others.
fn gain_from(
    alloc: Global,
    task: &Task,
    tree: &Tree,
    span: u32,
    at: usize,
    row: u32,
) -> Result<Option<(Gain, u32, usize)>, NoMemory>
    requires below { IsTrue (are_below (length task.now.actions) tree.now) }
    requires few { nodes_of tree.now + 2 < 2 ^ 32 }
    requires ids { greatest (ids_of tree.now) + 1 < 2 ^ 63 }
    requires sound { IsSound task.now tree.now }
    ensures none { IfOk result (λ told. (told ≡ None) ↔ IsTight task.now tree.now span) }
    ensures some { IfOk result (λ told. IfSome told (λ f. IsFound task.now tree.now span f.0)) }
{
    let blocks = blocks_of(alloc, tree)?;
    match gain_here(alloc, task, tree, span, &blocks, at, row)? {
        Some((gain, row)) => Ok(Some((gain, row, at))),
        None => gain_around(alloc, task, tree, span, &blocks, at.saturating_add(1)),
    }
}

/// A walk over the candidates of trees that its caller keeps: where it goes on looking. What it answers is true of the tree that
/// it is lent, whichever that is.
#[derive(Clone, Copy, Debug)]
pub struct Walk {
    block: usize,
    row: u32,
}

impl Walk {
    /// A walk that starts at the root.
    pub fn new() -> Walk {
        Walk { block: 0, row: 0 }
    }

    /// A gain of the tree: `None` exactly where the tree is tight at the span, and else a candidate whose tree is sound, has at
    /// most 64 levels and fewer ordered step pairs. Which one, is not promised; it goes on behind the last one. Two more nodes
    /// are to have ids.
    pub fn next(
        &mut self,
        alloc: Global,
        task: &Task,
        tree: &Tree,
        span: u32,
    ) -> Result<Option<Gain>, NoMemory>
        requires below { IsTrue (are_below (length task.now.actions) tree.now) }
        requires few { nodes_of tree.now + 2 < 2 ^ 32 }
        requires ids { greatest (ids_of tree.now) + 1 < 2 ^ 63 }
        requires sound { IsSound task.now tree.now }
        ensures none { IfOk result (λ told. (told ≡ None) ↔ IsTight task.now tree.now span) }
        ensures candidate { IfOk result (λ told. IfSome told (λ gain. IsCandidate task.now.actions tree.now span gain)) }
        ensures qualifies { IfOk result (λ told. IfSome told (λ gain. Qualifies task.now tree.now gain)) }
    {
        match gain_from(alloc, task, tree, span, self.block, self.row)? {
            None => Ok(None),
            Some((gain, row, at)) => {
                self.block = at;
                self.row = row;
                Ok(Some(gain))
            }
        }
    }
}

// The windows of the sets, block by block: where each is to be cut, and its copy.
ghost use Rattle.std.specs.Prelude.{◌≡◌, ◌<◌, ◌≤◌, ◌^◌, ◌++◌, length, IfOk, OnOk};
ghost use Rattle.bd_tree.specs.Tree.{nodes_of};
ghost use Rattle.bd_window.specs.Family.{each_of, family_of};
ghost use Rattle.bd_window.specs.Law.{AllStand};
ghost use Rattle.bd_window.specs.Picks.{picks_of, picked_family, pair_of};

use crate::pick::Pick;
use crate::picking::{carried, picks};
use bd_base::{NoMemory, NodeId, PairList};
use bd_merge::{Lean, Window};
use bd_tree::{Node, Tree};
use std::alloc::Global;
use std::marker::Model;

/// A window whose kids aren't copied yet; seen as the window.
#[derive(Drop)]
pub struct Cut<'a> {
    block: NodeId,
    kids: &'a [Node],
    order: &'a PairList,
    pick: Pick,
    lean: Lean,
}

impl<'a> Model for Cut<'a> {
    ghost use Rattle.std.specs.Prelude.{◌<◌, ◌≤◌, length};
    ghost use Rattle.std.specs.Coded.{codes};
    ghost use Rattle.bd_tree.specs.contracts.node.Node as node;
    ghost use Rattle.bd_merge.specs.declared.window.Window.{Window};
    ghost use Rattle.bd_window.specs.Picks.{window_of};

    ghost Value = { Window };

    ghost coded = { Prim.hlevel (codes, node.the_row.coded) };

    ghost view = { λ c. window_of c.block c.kids.now c.order.now c.lean c.pick };

    ghost invariant = { λ c. (c.pick.first ≤ c.pick.last) × (c.pick.last < length c.kids.now) };
}

impl<'a> Cut<'a> {
    /// The window, with copies of its kids.
    pub fn window(&self, alloc: Global) -> Result<Window, NoMemory>
        ensures { IfOk result (λ w. w ≡ self.now) }
    {
        Ok(Window {
            block: self.block,
            kids: carried(alloc, self.kids, self.order, self.pick)?,
            lean: self.lean,
        })
    }
}

// Puts the two windows of a set.
fn put_pair<'a>(
    block: NodeId,
    kids: &'a [Node],
    order: &'a PairList,
    pick: Pick,
    cuts: &mut Vec<Cut<'a>>,
) -> Result<(), NoMemory>
    requires rises { pick.first ≤ pick.last }
    requires within { pick.last < length kids.now }
    ensures { OnOk result (cuts.new.items ≡ cuts.old.items ++ pair_of block kids.now order.now pick) }
{
    cuts.push(Cut {
        block,
        kids,
        order,
        pick,
        lean: Lean::Early,
    })?;
    cuts.push(Cut {
        block,
        kids,
        order,
        pick,
        lean: Lean::Late,
    })?;
    Ok(())
}

// Puts the windows of a block.
fn put_block<'a>(
    alloc: Global,
    block: NodeId,
    kids: &'a [Node],
    order: &'a PairList,
    width: u32,
    cuts: &mut Vec<Cut<'a>>,
) -> Result<(), NoMemory>
    requires { length kids.now < 2 ^ 62 }
    ensures { OnOk result (cuts.new.items ≡ cuts.old.items ++ each_of (pair_of block kids.now order.now) (picks_of width (length kids.now) order.now)) }
{
    let sets = picks(alloc, order, width as usize, kids.len())?;
    for pick in sets.as_slice() {
        put_pair(block, kids, order, *pick, cuts)?;
    }
    Ok(())
}

// Puts the windows of a node, each block's before those of the blocks in it.
fn put_family<'a>(
    alloc: Global,
    node: &'a Node,
    width: u32,
    cuts: &mut Vec<Cut<'a>>,
) -> Result<(), NoMemory>
    requires { nodes_of node.now < 2 ^ 32 }
    ensures { OnOk result (cuts.new.items ≡ cuts.old.items ++ picked_family width node.now) }
{
    match node {
        Node::Step { .. } => Ok(()),
        Node::Block { id, kids, order } => {
            put_block(alloc, *id, kids.as_slice(), order, width, cuts)?;
            for kid in kids.as_slice() {
                put_family(alloc, kid, width, cuts)?;
            }
            Ok(())
        }
    }
}

/// The windows of the family of a tree at a width, in its order.
pub fn cuts<'a>(alloc: Global, tree: &'a Tree, width: u32) -> Result<Vec<Cut<'a>>, NoMemory>
    requires few { nodes_of tree.now < 2 ^ 32 }
    ensures cuts { IfOk result (λ v. v.items ≡ family_of width tree.now) }
    ensures stand { IfOk result (λ v. AllStand tree.now v.items) }
{
    let mut cuts = Vec::new(alloc);
    put_family(alloc, tree.root(), width, &mut cuts)?;
    Ok(cuts)
}

ghost use Rattle.std.specs.Prelude.{◌≡◌, ◌==◌, true, map, position, IfOk};
ghost use Rattle.bd_tree.specs.Tree.{id_of, ids_of, depth_of, steps_of, nodes_of, listed_of};
ghost use Rattle.bd_tree.specs.WellFormed.{are_distinct};
ghost use Rattle.bd_shape.specs.Kids.{kids_at};
ghost use Rattle.bd_shape.specs.Measures.{AddUpAlike};
ghost use Rattle.bd_shape.specs.Unordered.{CanUnorder, unordered_pairs, unordered_block, unordered};

use crate::sides::position;
use bd_base::{FromItems, Items, NoMemory, NodeId, PairList};
use bd_tree::{Node, Tree};
use std::alloc::Global;

/// The tree in which kid i of the block is no longer before kid j. All else stays as it was.
pub fn unorder(
    alloc: Global,
    tree: &Tree,
    block: NodeId,
    i: NodeId,
    j: NodeId,
) -> Result<Tree, NoMemory>
    requires { CanUnorder tree.now block i j }
    ensures tree { IfOk result (λ t. t ≡ unordered tree.now block i j) }
    ensures measures { IfOk result (λ t. AddUpAlike tree.now t) }
    ensures steps { IfOk result (λ t. steps_of t ≡ steps_of tree.now) }
    ensures nodes { IfOk result (λ t. nodes_of t ≡ nodes_of tree.now) }
    ensures ids { IfOk result (λ t. ids_of t ≡ ids_of tree.now) }
    ensures depth { IfOk result (λ t. depth_of t ≡ depth_of tree.now) }
    ensures listed { IfOk result (λ t. listed_of t ≡ listed_of tree.now) }
    ensures kids { IfOk result (λ t. kids_at block t ≡ kids_at block tree.now) }
{
    Ok(Tree::of(new_node(alloc, block, i, j, tree.root())?))
}

// Where the first kid with the id stands, if one does.
fn place_of(kids: &[Node], id: NodeId) -> Option<usize>
    ensures { result ≡ position (λ kid. id_of kid == id) kids.now }
{
    kids.iter().position(|kid| kid.id() == id)
}

// The order without the pair that says that kid i is before kid j.
fn unordered_pairs(
    alloc: Global,
    kids: &[Node],
    order: &PairList,
    i: NodeId,
    j: NodeId,
) -> Result<PairList, NoMemory>
    requires { are_distinct (map id_of kids.now) ≡ true }
    ensures { IfOk result (λ o. o ≡ unordered_pairs i j kids.now order.now) }
{
    match place_of(kids, i) {
        None => order.try_copy(alloc),
        Some(a) => match place_of(kids, j) {
            None => order.try_copy(alloc),
            Some(b) => order.without(alloc, position(a)?, position(b)?),
        },
    }
}

// The node in which the kids of the block are unordered.
fn new_node(
    alloc: Global,
    block: NodeId,
    i: NodeId,
    j: NodeId,
    node: &Node,
) -> Result<Node, NoMemory>
    requires distinct { are_distinct (ids_of node.now) ≡ true }
    ensures { IfOk result (λ n. n ≡ unordered node.now block i j) }
{
    match node {
        Node::Step { id, action } => Ok(Node::Step {
            id: *id,
            action: *action,
        }),
        Node::Block { id, kids, order } => {
            let kids = kids.as_slice();
            if *id == block {
                return new_block(alloc, block, i, j, kids, order);
            }
            let mut copies = Vec::new(alloc);
            for kid in kids {
                copies.push(new_node(alloc, block, i, j, kid)?)?;
            }
            Ok(Node::Block {
                id: *id,
                kids: Items::of(copies),
                order: order.try_copy(alloc)?,
            })
        }
    }
}

fn copied(alloc: Global, kids: &[Node]) -> Result<Vec<Node>, NoMemory>
    ensures { IfOk result (λ copies. copies.items ≡ kids.now) }
{
    let mut copies = Vec::new(alloc);
    for kid in kids {
        copies.push(kid.try_copy(alloc)?)?;
    }
    Ok(copies)
}

// The block with these kids and this order, where two of them are unordered.
fn new_block(
    alloc: Global,
    block: NodeId,
    i: NodeId,
    j: NodeId,
    kids: &[Node],
    order: &PairList,
) -> Result<Node, NoMemory>
    requires { are_distinct (map id_of kids.now) ≡ true }
    ensures { IfOk result (λ n. n ≡ unordered_block block i j kids.now order.now) }
{
    let copies = copied(alloc, kids)?;
    let order = unordered_pairs(alloc, kids, order, i, j)?;
    Ok(Node::Block {
        id: block,
        kids: Items::of(copies),
        order,
    })
}

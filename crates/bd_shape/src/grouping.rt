ghost use Rattle.std.specs.Prelude.{◌≡◌, ◌+◌, ◌<◌, ◌≤◌, ◌||◌, ◌&&◌, ◌++◌, [], ◌∷◌, ℕ, length, map, IfOk, OnOk};
ghost use Rattle.std.specs.List.{enumerate_from};
ghost use Rattle.bd_base.specs.Facts.{has};
ghost use Rattle.bd_tree.specs.Tree.{id_of, ids_of, greatest, depth_of, nodes_of, steps_of};
ghost use Rattle.bd_tree.specs.WellFormed.{IsWellFormed};
ghost use Rattle.bd_shape.specs.Grouped.{CanGroup, HasSide, OrdersAsTold, is_front, is_back, fronts, backs, grouped_places, grouped_order, grouped_block, grouped, ids_taken, count_taken};
ghost use Rattle.bd_shape.specs.Measures.{AddUpAlike};
ghost use Rattle.bd_shape.specs.Remade.{remade};
ghost use Rattle.bd_shape.specs.Sides.{AreSides};

use crate::place::Place;
use crate::placing::placed_order;
use crate::restricting::restricted_block;
use crate::sides::{Sides, position, sides_of};
use bd_base::{FromItems, Items, NoMemory, NodeId, PairList};
use bd_tree::{Members, Node, Tree};
use std::alloc::Global;

/// The tree in which the kids of the block with these ids are one block, with the fresh id. The kids that aren't after
/// any of them come before it in the listing, and the others behind it. A single kid stays as it is, and takes no id.
pub fn group(
    alloc: Global,
    tree: &Tree,
    block: NodeId,
    kids: &[NodeId],
    fresh: NodeId,
) -> Result<Tree, NoMemory>
    requires kids { CanGroup tree.now block kids.now }
    requires fresh { greatest (ids_of tree.now) < fresh }
    ensures tree { IfOk result (λ t. t ≡ grouped tree.now block kids.now fresh) }
    ensures exact { OrdersAsTold tree.now block kids.now }
    ensures measures { IfOk result (λ t. AddUpAlike tree.now t) }
    ensures steps { IfOk result (λ t. steps_of t ≡ steps_of tree.now) }
    ensures nodes { IfOk result (λ t. nodes_of t ≡ nodes_of tree.now + count_taken kids.now) }
    ensures ids { IfOk result (λ t. (q : ℕ) → has (ids_of t) q ≡ (has (ids_of tree.now) q || has (ids_taken kids.now fresh) q)) }
    ensures top { IfOk result (λ t. greatest (ids_of t) < fresh + count_taken kids.now) }
    ensures depth { IfOk result (λ t. depth_of t ≤ depth_of tree.now + count_taken kids.now) }
    ensures kids { IfOk result (λ t. HasSide tree.now block kids.now fresh t) }
{
    grouped_tree(alloc, tree, block, kids, fresh)
}

// The same, told by its definition alone.
fn grouped_tree(
    alloc: Global,
    tree: &Tree,
    block: NodeId,
    kids: &[NodeId],
    fresh: NodeId,
) -> Result<Tree, NoMemory>
    requires kids { CanGroup tree.now block kids.now }
    requires fresh { greatest (ids_of tree.now) < fresh }
    ensures tree { IfOk result (λ t. t ≡ grouped tree.now block kids.now fresh) }
    ensures well_formed { IsWellFormed tree.now }
{
    let root = tree.root();
    if kids.len() < 2 {
        return tree.try_copy(alloc);
    }
    Ok(Tree::of(new_node(alloc, block, kids, fresh, root)?))
}

// Puts copies of the kids in front at the end of the lists. After an error the lists may have got a part of them.
fn put_fronts(
    alloc: Global,
    ids: &[NodeId],
    order: &PairList,
    sides: &Sides,
    kids: &[Node],
    copies: &mut Vec<Node>,
    places: &mut Vec<Place>,
) -> Result<(), NoMemory>
    requires { AreSides order.now ids.now kids.now sides.now }
    ensures kids { OnOk result (copies.new.items ≡ copies.old.items ++ map (λ k. k.1) (fronts ids.now order.now (enumerate_from 0 kids.now))) }
    ensures places { OnOk result (places.new.items ≡ places.old.items ++ map (λ k. Place.Outside k.0) (fronts ids.now order.now (enumerate_from 0 kids.now))) }
{
    let members = Members::of_ids(ids);
    for (at, kid) in kids.iter().enumerate() {
        let at = position(at)?;
        if !members.has(kid.id()) && !sides.after.row().has(at) {
            copies.push(kid.try_copy(alloc)?)?;
            places.push(Place::Outside(at))?;
        }
    }
    Ok(())
}

// The same for the kids behind.
fn put_backs(
    alloc: Global,
    ids: &[NodeId],
    order: &PairList,
    sides: &Sides,
    kids: &[Node],
    copies: &mut Vec<Node>,
    places: &mut Vec<Place>,
) -> Result<(), NoMemory>
    requires { AreSides order.now ids.now kids.now sides.now }
    ensures kids { OnOk result (copies.new.items ≡ copies.old.items ++ map (λ k. k.1) (backs ids.now order.now (enumerate_from 0 kids.now))) }
    ensures places { OnOk result (places.new.items ≡ places.old.items ++ map (λ k. Place.Outside k.0) (backs ids.now order.now (enumerate_from 0 kids.now))) }
{
    let members = Members::of_ids(ids);
    for (at, kid) in kids.iter().enumerate() {
        let at = position(at)?;
        if !members.has(kid.id()) && sides.after.row().has(at) {
            copies.push(kid.try_copy(alloc)?)?;
            places.push(Place::Outside(at))?;
        }
    }
    Ok(())
}

// The order of the new block, where these are its places, and the group stands at this one.
fn new_order(
    alloc: Global,
    ids: &[NodeId],
    order: &PairList,
    sides: &Sides,
    kids: &[Node],
    places: &[Place],
    cut: u32,
) -> Result<PairList, NoMemory>
    requires sides { AreSides order.now ids.now kids.now sides.now }
    requires places { places.now ≡ grouped_places ids.now order.now (enumerate_from 0 kids.now) }
    requires cut { cut ≡ length (fronts ids.now order.now (enumerate_from 0 kids.now)) }
    ensures { IfOk result (λ o. o ≡ grouped_order ids.now order.now (enumerate_from 0 kids.now) places.now) }
{
    placed_order(alloc, order, sides, places, kids.len(), cut)
}

// The block with these kids and this order, where the kids with these ids are one block.
fn new_block(
    alloc: Global,
    block: NodeId,
    ids: &[NodeId],
    fresh: NodeId,
    kids: &[Node],
    order: &PairList,
) -> Result<Node, NoMemory>
    ensures { IfOk result (λ n. n ≡ grouped_block block ids.now fresh kids.now order.now) }
{
    let mut copies = Vec::new(alloc);
    let mut places = Vec::new(alloc);
    let sides = sides_of(alloc, order, kids, ids)?;
    put_fronts(alloc, ids, order, &sides, kids, &mut copies, &mut places)?;
    let cut = position(places.len())?;
    copies.push(restricted_block(alloc, fresh, kids, order, ids)?)?;
    places.push(Place::Group)?;
    put_backs(alloc, ids, order, &sides, kids, &mut copies, &mut places)?;
    let order = new_order(alloc, ids, order, &sides, kids, &places, cut)?;
    Ok(Node::Block {
        id: block,
        kids: Items::of(copies),
        order,
    })
}

// The node in which the kids of the block are one block.
fn new_node(
    alloc: Global,
    block: NodeId,
    ids: &[NodeId],
    fresh: NodeId,
    node: &Node,
) -> Result<Node, NoMemory>
    ensures { IfOk result (λ n. n ≡ remade node.now block (grouped_block block ids.now fresh)) }
{
    match node {
        Node::Step { id, action } => Ok(Node::Step {
            id: *id,
            action: *action,
        }),
        Node::Block { id, kids, order } => {
            let kids = kids.as_slice();
            if *id == block {
                return new_block(alloc, block, ids, fresh, kids, order);
            }
            let mut copies = Vec::new(alloc);
            for kid in kids {
                copies.push(new_node(alloc, block, ids, fresh, kid)?)?;
            }
            Ok(Node::Block {
                id: *id,
                kids: Items::of(copies),
                order: order.try_copy(alloc)?,
            })
        }
    }
}

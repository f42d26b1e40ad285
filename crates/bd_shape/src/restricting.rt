ghost use Rattle.std.specs.Prelude.{◌≡◌, ◌++◌, ◌≤◌, true, length, map, IfOk, OnOk};
ghost use Rattle.std.specs.List.{enumerate_from};
ghost use Rattle.bd_tree.specs.Tree.{nodes_of};
ghost use Rattle.bd_tree.specs.WellFormed.{has_orders};
ghost use Rattle.bd_shape.specs.Restricted.{RestrictsAsTold, members, restricted_order, restricted_block, restricted};

use crate::place::Place;
use crate::placing::placed_order;
use crate::sides::{no_sides, position};
use bd_base::{FromItems, Items, NoMemory, NodeId, PairList};
use bd_tree::{Members, Node};
use std::alloc::Global;

/// The block with these kids alone, in the listing, as they were ordered. A step stays as it is.
pub fn restrict(alloc: Global, block: &Node, kids: &[NodeId]) -> Result<Node, NoMemory>
    ensures block { IfOk result (λ n. n ≡ restricted block.now kids.now) }
    ensures exact { RestrictsAsTold block.now kids.now }
    ensures ordered { IfOk result (λ n. has_orders block.now ≡ true → has_orders n ≡ true) }
    ensures nodes { IfOk result (λ n. nodes_of n ≤ nodes_of block.now) }
{
    match block {
        Node::Step { id, action } => Ok(Node::Step {
            id: *id,
            action: *action,
        }),
        Node::Block {
            id,
            kids: all,
            order,
        } => restricted_block(alloc, *id, all.as_slice(), order, kids),
    }
}

/// The block of the kids with these ids.
pub fn restricted_block(
    alloc: Global,
    own: NodeId,
    kids: &[Node],
    order: &PairList,
    ids: &[NodeId],
) -> Result<Node, NoMemory>
    ensures { IfOk result (λ n. n ≡ restricted_block own order.now (members ids.now (enumerate_from 0 kids.now))) }
{
    let mut copies = Vec::new(alloc);
    let mut places = Vec::new(alloc);
    put_members(alloc, kids, ids, &mut copies, &mut places)?;
    let order = restricted_order(alloc, kids, order, ids, &places)?;
    Ok(Node::Block {
        id: own,
        kids: Items::of(copies),
        order,
    })
}

// Puts copies of the kids with these ids, and their places, at the end of the lists. After an error the lists may
// have got a part of them.
fn put_members(
    alloc: Global,
    kids: &[Node],
    ids: &[NodeId],
    copies: &mut Vec<Node>,
    places: &mut Vec<Place>,
) -> Result<(), NoMemory>
    ensures kids { OnOk result (copies.new.items ≡ copies.old.items ++ map (λ k. k.1) (members ids.now (enumerate_from 0 kids.now))) }
    ensures places { OnOk result (places.new.items ≡ places.old.items ++ map (λ k. Place.Outside k.0) (members ids.now (enumerate_from 0 kids.now))) }
{
    let members = Members::of_ids(ids);
    for (at, kid) in kids.iter().enumerate() {
        if members.has(kid.id()) {
            copies.push(kid.try_copy(alloc)?)?;
            places.push(Place::Outside(position(at)?))?;
        }
    }
    Ok(())
}

// The order of the kids with these ids among themselves, where these are their places.
fn restricted_order(
    alloc: Global,
    kids: &[Node],
    order: &PairList,
    ids: &[NodeId],
    places: &[Place],
) -> Result<PairList, NoMemory>
    requires { places.now ≡ map (λ k. Place.Outside k.0) (members ids.now (enumerate_from 0 kids.now)) }
    ensures { IfOk result (λ o. o ≡ restricted_order order.now (map (λ k. k.0) (members ids.now (enumerate_from 0 kids.now)))) }
{
    let none = no_sides(alloc);
    let cut = position(places.len())?;
    placed_order(alloc, order, &none, places, kids.len(), cut)
}

ghost use Rattle.std.specs.Prelude.{◌≡◌, ℕ, ◌+◌, ◌<◌, ◌≤◌, ◌^◌, ◌||◌, ◌++◌, true, length, map, IfOk, OnOk};
ghost use Rattle.std.specs.List.{enumerate_from};
ghost use Rattle.bd_base.specs.Facts.{has};
ghost use Rattle.bd_tree.specs.Chain.{steps_from};
ghost use Rattle.bd_tree.specs.Order.{is_order};
ghost use Rattle.bd_tree.specs.WellFormed.{has_orders};
ghost use Rattle.bd_tree.specs.Tree.{id_of, ids_of, greatest, nodes_of, steps_of, total};
ghost use Rattle.bd_merge.specs.Stands.{Stands};
ghost use Rattle.bd_merge.specs.FrontEnd.{IsFrontEnd, IsTouched, TellsSides, is_related, is_told_first};
ghost use Rattle.bd_merge.specs.Merged.{goes_first, is_front, is_back, fronts, backs, merged_block, merged, Exchanges};

use crate::ordering::new_order;
use crate::{Found, Lean, Window};
use bd_base::{ActionId, FromItems, Items, NoMemory, NodeId, OwnedRow, PairList};
use bd_tree::{Members, Node, Tree, span_of};
use std::alloc::Global;

/// What stands at a position of a merged block: a kid in front of the new steps, a new step, or a kid behind
/// them. A kid is told by its old position.
#[derive(Clone, Copy, Debug, PartialEq, Eq)]
pub enum Place {
    Front(u32),
    New,
    Back(u32),
}

/// The tree in which the window's block has steps of the list, with ids from `next` on, in the place of the carried
/// kids. By the window's lean the other kids go in front of them or behind, as they were listed and ordered.
pub fn merged(
    alloc: Global,
    tree: &Tree,
    window: &Window,
    list: &[ActionId],
    next: NodeId,
) -> Result<Tree, NoMemory>
    requires stands { Stands tree.now window.now Found.At }
    requires fresh { greatest (ids_of tree.now) < next }
    requires room { next < 2 ^ 63 }
    requires few { nodes_of tree.now + length list.now < 2 ^ 32 }
    ensures tree { IfOk result (λ t. t ≡ merged tree.now window.now list.now next) }
    ensures measures { IfOk result (λ t. Exchanges tree.now window.now list.now next t) }
    ensures steps { IfOk result (λ t. steps_of t + total (map steps_of window.now.kids) ≡ steps_of tree.now + length list.now) }
    ensures nodes { IfOk result (λ t. nodes_of t ≤ nodes_of tree.now + length list.now) }
    ensures top { IfOk result (λ t. greatest (ids_of t) < next + length list.now) }
{
    Ok(Tree::of(new_node(alloc, window, list, next, tree.root())?))
}

// Whether each position is before the next. An order that isn't total lacks such a pair.
fn has_neighbours(order: &PairList, count: u32) -> bool {
    for j in 1..count {
        if !order.has(j - 1, j) {
            return false;
        }
    }
    true
}

// Where each kid is before all later ones, the position that the kids in front of the window stand below.
fn front_end(window: &Window, order: &PairList, kids: &[Node]) -> Option<usize>
    requires { length kids.now < 2 ^ 32 }
    ensures { IsFrontEnd window.now order.now kids.now result }
{
    if !has_neighbours(order, kids.len() as u32) || !order.is_total(kids.len()) {
        return None;
    }
    let span = span_of(kids, &Members::of_nodes(window.kids.as_slice()));
    match window.lean {
        Lean::Early => Some(span.first + 1),
        Lean::Late => Some(span.past.saturating_sub(1)),
    }
}

// Adds the positions that the order puts after a position, or for `Late` before it.
fn join_related(
    alloc: Global,
    lean: Lean,
    order: &PairList,
    at: u32,
    row: &mut OwnedRow,
) -> Result<(), NoMemory>
    ensures { OnOk result ((q : ℕ) → has row.new q ≡ (is_related lean order.now at q || has row.old q)) }
{
    match lean {
        Lean::Early => row.join(&order.after(at)),
        Lean::Late => {
            let before = order.before(alloc, at)?;
            row.join(&before.row())
        }
    }
}

// The positions to which some carried kid is related.
fn touched_of(
    alloc: Global,
    window: &Window,
    order: &PairList,
    kids: &[Node],
) -> Result<OwnedRow, NoMemory>
    requires { length kids.now < 2 ^ 32 }
    ensures { IfOk result (λ row. IsTouched window.now order.now kids.now row) }
{
    let mut row = OwnedRow::new(alloc);
    for at in 0..kids.len() {
        if is_carried(window, &kids[at]) {
            join_related(alloc, window.lean, order, at as u32, &mut row)?;
        }
    }
    Ok(row)
}

// How it is told whether a kid outside the window goes in front of it: by an end where each kid is before all later ones,
// and else by the positions to which some carried kid is related.
#[derive(Drop)]
enum Sides {
    Below(usize),
    Touched(OwnedRow),
}

fn sides_of(
    alloc: Global,
    window: &Window,
    order: &PairList,
    kids: &[Node],
    end: Option<usize>,
) -> Result<Sides, NoMemory>
    requires few { length kids.now < 2 ^ 32 }
    requires end { IsFrontEnd window.now order.now kids.now end }
    ensures { IfOk result (λ sides. TellsSides window.now order.now kids.now sides) }
{
    match end {
        Some(end) => Ok(Sides::Below(end)),
        None => {
            let row = touched_of(alloc, window, order, kids)?;
            Ok(Sides::Touched(row))
        }
    }
}

// Whether a kid at the position goes in front, as the sides tell it.
fn is_told_first(lean: Lean, sides: &Sides, at: u32) -> bool
    ensures { result ≡ is_told_first lean sides.now at }
{
    match sides {
        Sides::Below(end) => (at as usize) < *end,
        Sides::Touched(row) => match lean {
            Lean::Early => !row.row().has(at),
            Lean::Late => row.row().has(at),
        },
    }
}

// Whether the kid at the position, if it is outside the window, goes in front of it.
fn is_first(window: &Window, order: &PairList, kids: &[Node], sides: &Sides, at: u32) -> bool
    requires sides { TellsSides window.now order.now kids.now sides.now }
    requires within { at < length kids.now }
    ensures { result ≡ goes_first window.now.lean order.now (map id_of window.now.kids) (enumerate_from 0 kids.now) at }
{
    is_told_first(window.lean, sides, at)
}

fn is_carried(window: &Window, kid: &Node) -> bool
    ensures { result ≡ has (map id_of window.now.kids) (id_of kid.now) }
{
    Members::of_nodes(window.kids.as_slice()).has(kid.id())
}

// Puts copies of the kids in front at the end of the lists. After an error the lists may have got a part of them.
fn put_fronts(
    alloc: Global,
    window: &Window,
    order: &PairList,
    kids: &[Node],
    sides: &Sides,
    copies: &mut Vec<Node>,
    places: &mut Vec<Place>,
) -> Result<(), NoMemory>
    requires sides { TellsSides window.now order.now kids.now sides.now }
    requires few { length kids.now < 2 ^ 32 }
    ensures kids { OnOk result (copies.new.items ≡ copies.old.items ++ map (λ k. k.1) (fronts window.now order.now (enumerate_from 0 kids.now))) }
    ensures places { OnOk result (places.new.items ≡ places.old.items ++ map (λ k. Place.Front k.0) (fronts window.now order.now (enumerate_from 0 kids.now))) }
{
    let mut at = 0u32;
    for kid in kids {
        if !is_carried(window, kid) && is_first(window, order, kids, sides, at) {
            copies.push(kid.try_copy(alloc)?)?;
            places.push(Place::Front(at))?;
        }
        at += 1;
    }
    Ok(())
}

// The same for the kids behind.
fn put_backs(
    alloc: Global,
    window: &Window,
    order: &PairList,
    kids: &[Node],
    sides: &Sides,
    copies: &mut Vec<Node>,
    places: &mut Vec<Place>,
) -> Result<(), NoMemory>
    requires sides { TellsSides window.now order.now kids.now sides.now }
    requires few { length kids.now < 2 ^ 32 }
    ensures kids { OnOk result (copies.new.items ≡ copies.old.items ++ map (λ k. k.1) (backs window.now order.now (enumerate_from 0 kids.now))) }
    ensures places { OnOk result (places.new.items ≡ places.old.items ++ map (λ k. Place.Back k.0) (backs window.now order.now (enumerate_from 0 kids.now))) }
{
    let mut at = 0u32;
    for kid in kids {
        if !is_carried(window, kid) && !is_first(window, order, kids, sides, at) {
            copies.push(kid.try_copy(alloc)?)?;
            places.push(Place::Back(at))?;
        }
        at += 1;
    }
    Ok(())
}

// Puts steps of the list's actions, with ids from the number on.
fn put_steps(
    list: &[ActionId],
    next: NodeId,
    copies: &mut Vec<Node>,
    places: &mut Vec<Place>,
) -> Result<(), NoMemory>
    requires { next + length list.now < 2 ^ 64 }
    ensures kids { OnOk result (copies.new.items ≡ copies.old.items ++ steps_from next list.now) }
    ensures places { OnOk result (places.new.items ≡ places.old.items ++ map (λ a. Place.New) list.now) }
{
    let mut id = next.0;
    for action in list {
        copies.push(Node::Step {
            id: NodeId(id),
            action: *action,
        })?;
        places.push(Place::New)?;
        id += 1;
    }
    Ok(())
}

// The window's block, where it has these kids and this order.
fn new_block(
    alloc: Global,
    window: &Window,
    list: &[ActionId],
    next: NodeId,
    kids: &[Node],
    order: &PairList,
) -> Result<Node, NoMemory>
    requires room { next < 2 ^ 63 }
    requires few { length kids.now + length list.now < 2 ^ 32 }
    requires order { is_order (length kids.now) order.now ≡ true }
    ensures { IfOk result (λ n. n ≡ merged_block window.now list.now next window.now.block kids.now order.now) }
{
    let mut copies = Vec::new(alloc);
    let mut places = Vec::new(alloc);
    let end = front_end(window, order, kids);
    let sides = sides_of(alloc, window, order, kids, end)?;
    put_fronts(alloc, window, order, kids, &sides, &mut copies, &mut places)?;
    put_steps(list, next, &mut copies, &mut places)?;
    put_backs(alloc, window, order, kids, &sides, &mut copies, &mut places)?;
    let order = new_order(alloc, order, &places, kids.len() as u32, end.is_some())?;
    Ok(Node::Block {
        id: window.block,
        kids: Items::of(copies),
        order,
    })
}

// The node in which the window's block is merged with the list.
fn new_node(
    alloc: Global,
    window: &Window,
    list: &[ActionId],
    next: NodeId,
    node: &Node,
) -> Result<Node, NoMemory>
    requires room { next < 2 ^ 63 }
    requires few { nodes_of node.now + length list.now < 2 ^ 32 }
    requires ordered { has_orders node.now ≡ true }
    ensures { IfOk result (λ n. n ≡ merged node.now window.now list.now next) }
{
    match node {
        Node::Step { id, action } => Ok(Node::Step {
            id: *id,
            action: *action,
        }),
        Node::Block { id, kids, order } => {
            if *id == window.block {
                return new_block(alloc, window, list, next, kids.as_slice(), order);
            }
            let mut copies = Vec::new(alloc);
            for kid in kids.as_slice() {
                copies.push(new_node(alloc, window, list, next, kid)?)?;
            }
            Ok(Node::Block {
                id: *id,
                kids: Items::of(copies),
                order: order.try_copy(alloc)?,
            })
        }
    }
}

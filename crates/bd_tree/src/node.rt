use crate::misfit::FEW;
use bd_base::{ActionId, FromItems, Items, NoMemory, NodeId, PairList};
use std::alloc::Global;

/// A list of nodes, as the kids of a block.
pub type NodeList = Items<Node>;

/// A step of one action, or a block of kids and an order on their positions.
///
/// The kids stand in their listing, and the pair `(i, j)` of the order says that the kid at position i comes
/// before the kid at position j. A node by itself may have any ids and any order; a `Tree` is well formed.
#[derive(Debug, Drop)]
pub enum Node {
    Step {
        id: NodeId,
        action: ActionId,
    },
    Block {
        id: NodeId,
        kids: Items<Node>,
        order: PairList,
    },
}

impl Node {
    ghost use Rattle.bd_base.specs.Pairs.{without_pair};
    ghost use Rattle.bd_tree.specs.declared.node.Node.{Node, Block};
    ghost use Rattle.std.specs.Prelude.{ℕ, List, ◌≡◌, ◌+◌, ◌-◌, ◌++◌, ◌<◌, ◌^◌, ◌↔◌, min, true, IsTrue, IfOk, OnOk};
    ghost use Rattle.std.specs.Option.{option_copied};
    ghost use Rattle.bd_tree.specs.Tree.{id_of, ids_of, greatest, depth_of, steps_of, nodes_of, pairs_of, listed_of, find_in};
    ghost use Rattle.bd_tree.specs.WellFormed.{has_orders};

    /// The node's own id.
    pub fn id(&self) -> NodeId
        ensures { result ≡ id_of self.now }
    {
        match self {
            Node::Step { id, .. } => *id,
            Node::Block { id, .. } => *id,
        }
    }

    /// How many levels it has: 1 for a step, and 1 more than the deepest kid for a block.
    pub fn depth(&self) -> u32
        requires { depth_of self.now < 2 ^ 32 }
        ensures { result ≡ depth_of self.now }
    {
        match self {
            Node::Step { .. } => 1,
            Node::Block { kids, .. } => {
                let mut most = 0;
                for kid in kids.as_slice() {
                    most = kid.depth().max(most);
                }
                most + 1
            }
        }
    }

    /// How many steps it has; a step is one itself.
    pub fn steps(&self) -> u32
        requires { steps_of self.now < 2 ^ 32 }
        ensures { result ≡ steps_of self.now }
    {
        match self {
            Node::Step { .. } => 1,
            Node::Block { kids, .. } => {
                let mut sum = 0;
                for kid in kids.as_slice() {
                    sum += kid.steps();
                }
                sum
            }
        }
    }

    /// How many nodes it has, itself among them; a number that 64 bits can't hold is told as the greatest of them. So it
    /// is below 2^32 exactly where the node meets the condition of the calls that ask for fewer nodes than that.
    pub fn nodes(&self) -> u64
        ensures { result ≡ min (nodes_of self.now) (2 ^ 64 - 1) }
    {
        match self {
            Node::Step { .. } => 1,
            Node::Block { kids, .. } => {
                let mut sum = 1u64;
                for kid in kids.as_slice() {
                    sum = sum.saturating_add(kid.nodes());
                }
                sum
            }
        }
    }

    /// How many pairs of its steps are ordered, by its own order and by those of the blocks in it.
    pub fn pairs(&self) -> u64
        requires small { nodes_of self.now < 2 ^ 32 }
        requires ordered { has_orders self.now ≡ true }
        ensures { result ≡ pairs_of self.now }
    {
        match self {
            Node::Step { .. } => 0,
            Node::Block { kids, order, .. } => {
                let mut sum = ordered_pairs(kids.as_slice(), order);
                for kid in kids.as_slice() {
                    sum += kid.pairs();
                }
                sum
            }
        }
    }

    /// The greatest id of it and of the nodes in it.
    pub fn top_id(&self) -> NodeId
        ensures { result ≡ greatest (ids_of self.now) }
    {
        match self {
            Node::Step { id, .. } => *id,
            Node::Block { id, kids, .. } => {
                let mut most = id.0;
                for kid in kids.as_slice() {
                    most = kid.top_id().0.max(most);
                }
                NodeId(most)
            }
        }
    }

    // Puts the listed linearisation at the end of the list. After an error the list may have got a part of it.
    pub(crate) fn list_into(&self, list: &mut Vec<ActionId>) -> Result<(), NoMemory>
        ensures { OnOk result (list.new.items ≡ list.old.items ++ listed_of self.now) }
    {
        match self {
            Node::Step { action, .. } => {
                list.push(*action)?;
            }
            Node::Block { kids, .. } => {
                for kid in kids.as_slice() {
                    kid.list_into(list)?;
                }
            }
        }
        Ok(())
    }

    // Puts the ids at the end of the list, each node's before its kids'. After an error the list may have got a part
    // of them.
    pub(crate) fn ids_into(&self, ids: &mut Vec<NodeId>) -> Result<(), NoMemory>
        ensures { OnOk result (ids.new.items ≡ ids.old.items ++ ids_of self.now) }
    {
        match self {
            Node::Step { id, .. } => {
                ids.push(*id)?;
            }
            Node::Block { id, kids, .. } => {
                ids.push(*id)?;
                for kid in kids.as_slice() {
                    kid.ids_into(ids)?;
                }
            }
        }
        Ok(())
    }

    /// Takes a pair out of a block's order, in place: it takes no memory. A step stays as it is.
    pub fn loosen(&mut self, i: u32, j: u32)
        ensures { (id : ℕ) (kids : List Node) (order : List (ℕ × ℕ)) → self.old ≡ Block id kids order → self.new ≡ Block id kids (without_pair i j order) }
    {
        match self {
            Node::Step { .. } => {}
            Node::Block { order, .. } => order.remove(i, j),
        }
    }

    /// The same node.
    pub fn try_copy(&self, alloc: Global) -> Result<Node, NoMemory>
        ensures { IfOk result (λ n. n ≡ self.now) }
    {
        match self {
            Node::Step { id, action } => Ok(Node::Step {
                id: *id,
                action: *action,
            }),
            Node::Block { id, kids, order } => {
                let mut copies = Vec::new(alloc);
                for kid in kids.as_slice() {
                    copies.push(kid.try_copy(alloc)?)?;
                }
                Ok(Node::Block {
                    id: *id,
                    kids: Items::of(copies),
                    order: order.try_copy(alloc)?,
                })
            }
        }
    }

    /// Whether the other is the same node: an equal step, or a block with the same id, equal kids and the same order.
    pub fn same(&self, other: &Node) -> bool
        ensures { IsTrue result ↔ (self.now ≡ other.now) }
    {
        match (self, other) {
            (
                Node::Step { id, action },
                Node::Step {
                    id: other_id,
                    action: other_action,
                },
            ) => *id == *other_id && *action == *other_action,
            (
                Node::Block { id, kids, order },
                Node::Block {
                    id: other_id,
                    kids: other_kids,
                    order: other_order,
                },
            ) => {
                if *id != *other_id || !same_pairs(order, other_order) {
                    return false;
                }
                let mut rest = other_kids.as_slice();
                for kid in kids.as_slice() {
                    match rest.split_first() {
                        Some((first, left)) if kid.same(first) => rest = left,
                        _ => return false,
                    }
                }
                rest.is_empty()
            }
            _ => false,
        }
    }

    /// The first node with the id, where a node comes before its kids and kids come as they are listed.
    pub fn find(&self, id: NodeId) -> Option<&Node>
        ensures { option_copied result ≡ find_in id self.now }
    {
        match self {
            Node::Step { id: own, .. } => { if *own == id { Some(self) } else { None } }
            Node::Block { id: own, kids, .. } => {
                if *own == id {
                    return Some(self);
                }
                for kid in kids.as_slice() {
                    if let Some(found) = kid.find(id) {
                        return Some(found);
                    }
                }
                None
            }
        }
    }
}

ghost use Rattle.std.specs.Prelude.{◌≡◌, ◌<◌, ◌≤◌, ◌^◌, ◌↔◌, true, IsTrue, length, map};
ghost use Rattle.std.specs.List.{list_all};
ghost use Rattle.bd_tree.specs.Order.{is_order, is_rising, is_within};
ghost use Rattle.bd_tree.specs.Products.{first_steps, steps_before};
ghost use Rattle.bd_tree.specs.Tree.{steps_of, total, products};

// How many pairs of steps the order of the kids orders.
//
// At first each kid that comes after another counts as one step, so that only the pairs of each position are counted.
// Then each kid of more or fewer steps is counted again, as what it is, which takes a look at each kid that may be
// before it. Where the order has few pairs, a walk through them is shorter.
fn ordered_pairs(kids: &[Node], order: &PairList) -> u64
    requires few { total (map steps_of kids.now) < 2 ^ 32 }
    requires ordered { is_order (length kids.now) order.now ≡ true }
    ensures { result ≡ products order.now (map steps_of kids.now) }
{
    if kids.len() > FEW as usize || is_sparse(kids, order) {
        return walked_pairs(kids, order);
    }
    let mut sum = first_steps(kids, order);
    for k in 0..kids.len() {
        let steps = kids[k].steps() as u64;
        if steps != 1 {
            let before = steps_before(kids, order, k);
            sum = sum - before + steps * before;
        }
    }
    sum
}

// Whether a walk through the pairs is shorter than one for each block through the kids before it. These are half of the
// kids for a block in the middle, and a pair costs about as much as two of them.
fn is_sparse(kids: &[Node], order: &PairList) -> bool
    requires { length kids.now ≤ 8192 }
{
    let most = blocks_among(kids) * kids.len() / 4;
    most > 0 && order.len() < most
}

// How many of the nodes are blocks.
fn blocks_among(nodes: &[Node]) -> usize
    ensures { result ≤ length nodes.now }
{
    let mut n = 0;
    for node in nodes {
        if let Node::Block { .. } = node {
            n += 1;
        }
    }
    n
}

// The same by a walk through the pairs.
fn walked_pairs(kids: &[Node], order: &PairList) -> u64
    requires few { total (map steps_of kids.now) < 2 ^ 32 }
    requires within { list_all (is_within (length kids.now)) order.now ≡ true }
    requires small { products order.now (map steps_of kids.now) < 2 ^ 64 }
    ensures { result ≡ products order.now (map steps_of kids.now) }
{
    let mut sum = 0;
    for pair in order.iter() {
        sum += kids[pair.0 as usize].steps() as u64 * kids[pair.1 as usize].steps() as u64;
    }
    sum
}

// For each pair of the order, the first kid's number of steps, added up.
fn first_steps(kids: &[Node], order: &PairList) -> u64
    requires few { total (map steps_of kids.now) < 2 ^ 32 }
    requires short { length kids.now ≤ 8192 }
    requires within { list_all (is_within (length kids.now)) order.now ≡ true }
    requires small { first_steps order.now (map steps_of kids.now) < 2 ^ 64 }
    ensures { result ≡ first_steps order.now (map steps_of kids.now) }
{
    let mut sum = 0;
    for i in 0..kids.len() {
        sum += kids[i].steps() as u64 * order.after(i as u32).len() as u64;
    }
    sum
}

// How many steps the kids before kid k have.
fn steps_before(kids: &[Node], order: &PairList, k: usize) -> u64
    requires few { total (map steps_of kids.now) < 2 ^ 32 }
    requires short { length kids.now ≤ 8192 }
    requires below { k < length kids.now }
    requires within { list_all (is_within (length kids.now)) order.now ≡ true }
    requires rising { is_rising order.now ≡ true }
    ensures { result ≡ steps_before order.now (map steps_of kids.now) k }
{
    let mut sum = 0;
    for i in 0..k {
        if order.has(i as u32, k as u32) {
            sum += kids[i].steps() as u64;
        }
    }
    sum
}

// Whether the two lists have the same pairs in the same places.
fn same_pairs(first: &PairList, second: &PairList) -> bool
    ensures { IsTrue result ↔ (first.now ≡ second.now) }
{
    let mut rest = second.iter();
    for pair in first.iter() {
        if rest.next() != Some(pair) {
            return false;
        }
    }
    rest.next().is_none()
}

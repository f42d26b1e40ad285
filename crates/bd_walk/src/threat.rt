// Whether a kid of a block needs what a later one deletes: then the ordering of the two may never go.
ghost use Rattle.std.specs.List.{list_all, list_any};
ghost use Rattle.std.specs.Prelude.{◌≡◌, length, map, slice_get, true, IfOk, IfSome, IsTrue};
ghost use Rattle.bd_base.specs.Facts.{has};
ghost use Rattle.bd_links.specs.Sound.{are_below, effects_of};
ghost use Rattle.bd_shape.specs.Unordered.{stands_at};
ghost use Rattle.bd_walk.specs.Threat.{AreThreatened, IsThreatened, IsThreatenedIn, threat_if};

use bd_base::{FactSet, NoMemory, NodeId, PairList};
use bd_links::as_child;
use bd_task::Task;
use bd_tree::{Node, Tree};
use std::alloc::Global;

// Whether some fact is in both sets.
fn meet(facts: &FactSet, of: &FactSet) -> bool
    ensures { result ≡ list_any (has of.now) facts.now }
{
    for p in facts.iter() {
        if of.has(p) {
            return true;
        }
    }
    false
}

// Whether the first node needs what the second deletes.
fn is_threat(alloc: Global, task: &Task, first: &Node, second: &Node) -> Result<bool, NoMemory>
    requires first { IsTrue (are_below (length task.now.actions) first.now) }
    requires second { IsTrue (are_below (length task.now.actions) second.now) }
    ensures { IfOk result (λ told. told ≡ list_any (has (effects_of task.now.actions second.now).del) (effects_of task.now.actions first.now).need) }
{
    let from = as_child(alloc, task, first)?;
    let to = as_child(alloc, task, second)?;
    Ok(meet(from.need(), to.del()))
}

// The same of the kids at two places; not where one isn't there.
fn is_threat_at(alloc: Global, task: &Task, kids: &[Node], a: u32, b: u32) -> Result<bool, NoMemory>
    requires { list_all (λ n. n) (map (are_below (length task.now.actions)) kids.now) ≡ true }
    ensures { IfOk result (λ told. told ≡ threat_if task.now.actions (slice_get kids.now a) (slice_get kids.now b)) }
{
    match kids.get(a as usize) {
        None => Ok(false),
        Some(first) => match kids.get(b as usize) {
            None => Ok(false),
            Some(second) => is_threat(alloc, task, first, second),
        },
    }
}

// Whether a kid with the id stands at the place.
fn stands_at(kids: &[Node], id: NodeId, a: u32) -> bool
    ensures { result ≡ stands_at kids.now id a }
{
    match kids.get(a as usize) {
        None => false,
        Some(kid) => kid.id() == id,
    }
}

// The place of the kid with the id.
fn place_of(kids: &[Node], id: NodeId) -> Option<u32>
    ensures { IfSome result (λ a. stands_at kids.now id a ≡ true) }
{
    let Ok(end) = u32::try_from(kids.len()) else {
        return None;
    };
    for a in 0..end {
        if stands_at(kids, id, a) {
            return Some(a);
        }
    }
    None
}

// The same of the kids with two ids, where the first is before the second.
fn are_threatened(
    alloc: Global,
    task: &Task,
    kids: &[Node],
    order: &PairList,
    x: NodeId,
    y: NodeId,
) -> Result<bool, NoMemory>
    requires { list_all (λ n. n) (map (are_below (length task.now.actions)) kids.now) ≡ true }
    ensures { IfOk result (λ told. told ≡ true → AreThreatened task.now.actions kids.now order.now x y) }
{
    match place_of(kids, x) {
        None => Ok(false),
        Some(a) => match place_of(kids, y) {
            None => Ok(false),
            Some(b) => {
                if !order.has(a, b) {
                    return Ok(false);
                }
                is_threat_at(alloc, task, kids, a, b)
            }
        },
    }
}

// The same of a node's kids; a step has none.
fn is_threatened_in(
    alloc: Global,
    task: &Task,
    node: &Node,
    x: NodeId,
    y: NodeId,
) -> Result<bool, NoMemory>
    requires { IsTrue (are_below (length task.now.actions) node.now) }
    ensures { IfOk result (λ told. told ≡ true → IsThreatenedIn task.now.actions node.now x y) }
{
    match node {
        Node::Step { .. } => Ok(false),
        Node::Block { kids, order, .. } => {
            are_threatened(alloc, task, kids.as_slice(), order, x, y)
        }
    }
}

/// The same of the block's kids; where it says so, the two may never be unordered.
pub(crate) fn is_threatened(
    alloc: Global,
    task: &Task,
    tree: &Tree,
    block: NodeId,
    x: NodeId,
    y: NodeId,
) -> Result<bool, NoMemory>
    requires { IsTrue (are_below (length task.now.actions) tree.now) }
    ensures { IfOk result (λ told. told ≡ true → IsThreatened task.now.actions tree.now block x y) }
{
    match tree.find(block) {
        None => Ok(false),
        Some(node) => is_threatened_in(alloc, task, node, x, y),
    }
}

ghost use Rattle.std.specs.Prelude.{◌≡◌, ◌↔◌, true, IfSome, IsTrue, map};
ghost use Rattle.bd_tree.specs.Tree.{id_of};
ghost use Rattle.bd_tree.specs.WellFormed.{are_distinct};
ghost use Rattle.bd_merge.specs.Stands.{IsAmong, AreAmong, AreKids, Stands};
ghost use Rattle.bd_merge.specs.Walked.{IsBehind, ComeInOrder};

use crate::Window;
use bd_tree::{Members, Node, Tree, are_together};

/// Whether a window stands in a tree.
#[derive(Clone, Copy, Debug, PartialEq, Eq)]
pub enum Found {
    /// It stands.
    At,
    /// The block isn't there, or what the window carries isn't some of its kids, each once.
    Gone,
    /// Another kid is after one of the carried kids and before another.
    Split,
}

/// Whether the window stands in the tree. It takes no memory. What is carried in the order of the kids is found in one
/// walk, and else each node is looked for among all kids.
pub fn stands(tree: &Tree, window: &Window) -> Found
    ensures { Stands tree.now window.now result }
{
    // The root tells that ids are distinct.
    let _root = tree.root();
    let Some(block) = tree.find(window.block) else {
        return Found::Gone;
    };
    match block {
        Node::Step { .. } => Found::Gone,
        Node::Block { kids, order, .. } => {
            let kids = kids.as_slice();
            let carried = window.kids.as_slice();
            if !are_kids(kids, carried) {
                return Found::Gone;
            }
            if are_together(order, kids, &Members::of_nodes(carried)) {
                Found::At
            } else {
                Found::Split
            }
        }
    }
}

// Whether the carried nodes are some of the kids, each once.
fn are_kids(kids: &[Node], carried: &[Node]) -> bool
    requires { are_distinct (map id_of kids.now) ≡ true }
    ensures { IsTrue result ↔ AreKids kids.now carried.now }
{
    if come_in_order(kids, carried) {
        return !carried.is_empty();
    }
    !carried.is_empty() && are_among(kids, carried) && have_own_ids(carried)
}

// The kids behind the first one that equals the node.
fn behind<'a>(kids: &'a [Node], node: &Node) -> Option<&'a [Node]>
    ensures { IfSome result (λ later. IsBehind kids.now node.now later.now) }
{
    let mut left = kids;
    while let Some((first, rest)) = left.split_first() {
        if first.same(node) {
            return Some(rest);
        }
        left = rest;
    }
    None
}

// Whether the nodes are seen to be kids in the same order.
fn come_in_order(kids: &[Node], nodes: &[Node]) -> bool
    ensures { IsTrue result → ComeInOrder kids.now nodes.now }
{
    let mut rest = kids;
    for node in nodes {
        match behind(rest, node) {
            Some(later) => rest = later,
            None => return false,
        }
    }
    true
}

// Whether no two of the nodes have the same id.
fn have_own_ids(nodes: &[Node]) -> bool
    ensures { result ≡ are_distinct (map id_of nodes.now) }
{
    let mut rest = nodes;
    for node in nodes {
        rest = &rest[1..];
        if Members::of_nodes(rest).has(node.id()) {
            return false;
        }
    }
    true
}

fn are_among(kids: &[Node], nodes: &[Node]) -> bool
    ensures { IsTrue result ↔ AreAmong kids.now nodes.now }
{
    for node in nodes {
        if !is_among(kids, node) {
            return false;
        }
    }
    true
}

// Whether the node equals one of the kids.
fn is_among(kids: &[Node], node: &Node) -> bool
    ensures { IsTrue result ↔ IsAmong kids.now node.now }
{
    for kid in kids {
        if kid.same(node) {
            return true;
        }
    }
    false
}

ghost use Rattle.std.specs.Prelude.{◌≡◌, ◌&&◌, ◌||◌, ◌++◌, ◌<◌, ◌≤◌, [], length, map, IsTrue};
ghost use Rattle.std.specs.List.{enumerate_from};
ghost use Rattle.bd_base.specs.Facts.{has};
ghost use Rattle.bd_base.specs.Pairs.{have_rising_pairs, is_before};
ghost use Rattle.bd_tree.specs.Convex.{is_member, is_after_some, is_before_some, is_aside, are_convex, is_convex_in, SpansMembers};
ghost use Rattle.bd_tree.specs.Tree.{id_of};

use crate::{Node, Span, span_of};
use bd_base::{NodeId, PairList};
use std::marker::Model;

/// Some kids of a block, seen as their ids. They are named by the ids, or by nodes that have them.
#[derive(Debug, Drop)]
pub struct Members<'a> {
    nodes: &'a [Node],
    ids: &'a [NodeId],
}

impl<'a> Model for Members<'a> {
    ghost use Rattle.std.specs.Prelude.{List, ℕ, map, ◌++◌};
    ghost use Rattle.bd_tree.specs.Tree.{id_of};

    ghost Value = { List ℕ };

    ghost view = { λ m. map id_of m.nodes.now ++ m.ids.now };
}

impl<'a> Members<'a> {
    /// The kids with these ids.
    pub fn of_ids(ids: &'a [NodeId]) -> Members<'a>
        ensures { result ≡ ids.now }
    {
        Members { nodes: &[], ids }
    }

    /// The kids with the ids of these nodes.
    pub fn of_nodes(nodes: &'a [Node]) -> Members<'a>
        ensures { result ≡ map id_of nodes.now }
    {
        Members { nodes, ids: &[] }
    }

    /// Whether the id is one of theirs.
    pub fn has(&self, id: NodeId) -> bool
        ensures { result ≡ has self.now id }
    {
        one_has(self.nodes, id) || is_listed(self.ids, id)
    }
}

// Whether one of the nodes has the id.
fn one_has(nodes: &[Node], id: NodeId) -> bool
    ensures { result ≡ has (map id_of nodes.now) id }
{
    for node in nodes {
        if node.id() == id {
            return true;
        }
    }
    false
}

fn is_listed(ids: &[NodeId], id: NodeId) -> bool
    ensures { result ≡ has ids.now id }
{
    for own in ids {
        if *own == id {
            return true;
        }
    }
    false
}

/// Whether position i is before position j.
pub fn comes_before(order: &PairList, i: usize, j: usize) -> bool
    ensures { result ≡ is_before order.now i j }
{
    match (u32::try_from(i), u32::try_from(j)) {
        (Ok(i), Ok(j)) => order.has(i, j),
        _ => has_pair(order, i, j),
    }
}

// The same by a walk, for positions that are no u32.
fn has_pair(order: &PairList, i: usize, j: usize) -> bool
    ensures { result ≡ is_before order.now i j }
{
    for p in order.iter() {
        if p.0 as usize == i && p.1 as usize == j {
            return true;
        }
    }
    false
}

// Whether the kid is a member and before position j. The order is asked first, which costs less.
fn leads(order: &PairList, members: &Members<'_>, j: usize, k: usize, kid: &Node) -> bool
    ensures { result ≡ (is_member members.now (k, kid.now) && is_before order.now k j) }
{
    comes_before(order, k, j) && members.has(kid.id())
}

// Whether the kid is a member and after position j. The order is asked first, which costs less.
fn follows(order: &PairList, members: &Members<'_>, j: usize, k: usize, kid: &Node) -> bool
    ensures { result ≡ (is_member members.now (k, kid.now) && is_before order.now j k) }
{
    comes_before(order, j, k) && members.has(kid.id())
}

/// Whether some member is before position j.
pub fn is_after_member(order: &PairList, kids: &[Node], members: &Members<'_>, j: usize) -> bool
    ensures { result ≡ is_after_some order.now members.now (enumerate_from 0 kids.now) j }
{
    kids.iter()
        .enumerate()
        .any(|(k, kid)| leads(order, members, j, k, kid))
}

/// Whether position j is before some member.
pub fn is_before_member(order: &PairList, kids: &[Node], members: &Members<'_>, j: usize) -> bool
    ensures { result ≡ is_before_some order.now members.now (enumerate_from 0 kids.now) j }
{
    kids.iter()
        .enumerate()
        .any(|(k, kid)| follows(order, members, j, k, kid))
}

// Whether the kid is a member, or isn't both after a member and before one.
fn stands_aside(
    order: &PairList,
    kids: &[Node],
    members: &Members<'_>,
    k: usize,
    kid: &Node,
) -> bool
    ensures { result ≡ is_aside order.now members.now (enumerate_from 0 kids.now) (k, kid.now) }
{
    members.has(kid.id())
        || !(is_after_member(order, kids, members, k) && is_before_member(order, kids, members, k))
}

fn are_all_aside(order: &PairList, kids: &[Node], members: &Members<'_>) -> bool
    ensures { result ≡ are_convex order.now members.now (enumerate_from 0 kids.now) }
{
    kids.iter()
        .enumerate()
        .all(|(k, kid)| stands_aside(order, kids, members, k, kid))
}

// The same as `is_after_member`, where pairs rise: only the members below position j are asked.
fn is_after_earlier(
    order: &PairList,
    kids: &[Node],
    members: &Members<'_>,
    span: Span,
    j: usize,
) -> bool
    requires rising { IsTrue (have_rising_pairs order.now) }
    requires span { SpansMembers members.now kids.now span.first span.past }
    requires within { j ≤ length kids.now }
    ensures { result ≡ is_after_some order.now members.now (enumerate_from 0 kids.now) j }
{
    for k in span.first..j {
        if leads(order, members, j, k, &kids[k]) {
            return true;
        }
    }
    false
}

// The same as `is_before_member`, where pairs rise: only the members above position j are asked.
fn is_before_later(
    order: &PairList,
    kids: &[Node],
    members: &Members<'_>,
    span: Span,
    j: usize,
) -> bool
    requires rising { IsTrue (have_rising_pairs order.now) }
    requires span { SpansMembers members.now kids.now span.first span.past }
    requires within { j < length kids.now }
    ensures { result ≡ is_before_some order.now members.now (enumerate_from 0 kids.now) j }
{
    for k in j + 1..span.past {
        if follows(order, members, j, k, &kids[k]) {
            return true;
        }
    }
    false
}

// The same as `stands_aside`, where pairs rise: then a kid outside the members' span is aside.
fn stands_aside_of_span(
    order: &PairList,
    kids: &[Node],
    members: &Members<'_>,
    span: Span,
    k: usize,
    kid: &Node,
) -> bool
    requires rising { IsTrue (have_rising_pairs order.now) }
    requires span { SpansMembers members.now kids.now span.first span.past }
    ensures { result ≡ is_aside order.now members.now (enumerate_from 0 kids.now) (k, kid.now) }
{
    if k < span.first || span.past <= k {
        return true;
    }
    members.has(kid.id())
        || !(is_after_earlier(order, kids, members, span, k)
            && is_before_later(order, kids, members, span, k))
}

/// Whether the members are convex among the kids: no other kid is after one member and before another.
///
/// Where each pair of the order has its smaller position first, which the order is asked once, only the kids between the
/// first member and the last are judged.
pub fn are_together(order: &PairList, kids: &[Node], members: &Members<'_>) -> bool
    ensures { result ≡ are_convex order.now members.now (enumerate_from 0 kids.now) }
{
    if !order.rises() {
        return are_all_aside(order, kids, members);
    }
    let span = span_of(kids, members);
    kids.iter().enumerate().all(|(k, kid)| stands_aside_of_span(order, kids, members, span, k, kid))
}

/// Whether the kids with these ids are convex in the block: no other kid is after one of them and before another.
/// An id of no kid is passed over, and a step, which has no kids, answers true. It takes no memory.
pub fn is_convex(block: &Node, kids: &[NodeId]) -> bool
    ensures { result ≡ is_convex_in block.now kids.now }
{
    match block {
        Node::Step { .. } => true,
        Node::Block {
            kids: all,
            order,
            ..
        } => are_together(order, all.as_slice(), &Members::of_ids(kids)),
    }
}

ghost use Rattle.std.specs.Prelude.{◌≡◌, ◌↔◌, ◌+◌, ◌-◌, ◌<◌, ◌≤◌, ◌^◌, ◌&&◌, ◌||◌, ◌==◌, ℕ, None, Some, true, [], length, take, drop, nat_lt, not, IfOk, IsTrue};
ghost use Rattle.std.specs.List.{list_all, list_any, find};
ghost use Rattle.std.specs.Option.{option_map};
ghost use Rattle.bd_base.specs.Facts.{is_subset};
ghost use Rattle.bd_base.specs.Pairs.{after_of, is_before, before_each, total_order};
ghost use Rattle.bd_tree.specs.Misfit.{first_repeat, stray_after, leads_to, is_gap, first_gap, order_misfit, first_disorder, first_misfit};
ghost use Rattle.bd_tree.specs.Order.{is_less, is_order, is_rising, is_within};
ghost use Rattle.bd_tree.specs.Tree.{ids_of, nodes_of};
ghost use Rattle.bd_tree.specs.WellFormed.{is_root};
ghost use Rattle.bd_tree.specs.declared.misfit.Misfit.TheVariants.{NoMemory as OutOfMemory};

use crate::Node;
use bd_base::{NoMemory, NodeId, PairList};
use std::alloc::Global;
use std::collections::BTreeSet;
use std::marker::Model;

/// No tree that `Tree::new` makes has more levels than this.
pub const MAX_DEPTH: u32 = 64;

// Up to so many positions, a `PairList` whose pairs rise answers at once whether it has a pair.
pub(crate) const FEW: u32 = 8192;

/// Why a node is no root of a tree: the first cause, in this order.
#[derive(Clone, Copy, Debug, PartialEq, Eq)]
pub enum Misfit {
    /// It isn't block 0.
    Root,
    /// The first node whose id an earlier node has, where a node comes before its kids.
    Twice { id: NodeId },
    /// The first block whose order isn't one of its kids, and the pair that `order_misfit` tells of it.
    Order { block: NodeId, i: u32, j: u32 },
    /// It has this many levels, which are more than 64.
    TooDeep { depth: u32 },
    /// Memory was wanting: nothing is said of the node.
    NoMemory,
}

impl From<NoMemory> for Misfit {
    ghost from_gives = { λ _ e. e ≡ OutOfMemory };

    fn from(_: NoMemory) -> Self {
        Misfit::NoMemory
    }
}

// Whether the node is block 0.
fn is_root(node: &Node) -> bool
    ensures { result ≡ is_root node.now }
{
    match node {
        Node::Step { .. } => false,
        Node::Block { id, .. } => id.0 == 0,
    }
}

// The first id that an earlier one equals.
fn first_repeat(alloc: Global, ids: &[NodeId]) -> Result<Option<NodeId>, NoMemory>
    ensures { IfOk result (λ told. told ≡ first_repeat [] ids.now) }
{
    let mut seen = BTreeSet::new(alloc);
    for id in ids {
        if !seen.insert(id.0)? {
            return Ok(Some(*id));
        }
    }
    Ok(None)
}

// The first id of a node that an earlier node has.
fn repeated_id(alloc: Global, node: &Node) -> Result<Option<NodeId>, NoMemory>
    ensures { IfOk result (λ told. told ≡ first_repeat [] (ids_of node.now)) }
{
    let mut ids = Vec::new(alloc);
    node.ids_into(&mut ids)?;
    first_repeat(alloc, &ids)
}

// Whether a pair comes before another: by the first position, and then by the second.
fn is_less(p: (u32, u32), q: (u32, u32)) -> bool
    ensures { result ≡ is_less p q }
{
    p.0 < q.0 || (p.0 == q.0 && p.1 < q.1)
}

// Whether the pair has i < j < n and is greater than the pair before it.
fn follows(before: (u32, u32), p: (u32, u32), n: u32) -> bool
    ensures { result ≡ (is_within n p && is_less before p) }
{
    p.0 < p.1 && p.1 < n && is_less(before, p)
}

// The first pair that isn't i < j < n, or isn't greater than the pair before it.
fn first_stray(order: &PairList, n: u32) -> Option<(u32, u32)>
    ensures { result ≡ stray_after n (0, 0) order.now }
{
    let mut before = (0, 0);
    for p in order.iter() {
        if !follows(before, p, n) {
            return Some(p);
        }
        before = p;
    }
    None
}

// How many of the pairs at the front begin with i.
fn row_length(pairs: &[(u32, u32)], i: u32) -> usize
    ensures within { result ≤ length pairs.now }
    ensures row { list_all (λ p. p.0 == i) (take result pairs.now) ≡ true }
    ensures behind { is_rising pairs.now ≡ true → list_all (λ p. not (nat_lt p.0 i)) pairs.now ≡ true → list_all (λ p. nat_lt i p.0) (drop result pairs.now) ≡ true }
{
    for k in 0..pairs.len() {
        if pairs[k].0 != i {
            return k;
        }
    }
    pairs.len()
}

// Whether i is before j in a list of pairs that rises, which is halved again and again.
fn has_rising(pairs: &[(u32, u32)], i: u32, j: u32) -> bool
    requires { is_rising pairs.now ≡ true }
    ensures { result ≡ is_before pairs.now i j }
{
    let mut left = pairs;
    loop {
        let (below, from) = left.split_at(left.len() / 2);
        let Some((middle, above)) = from.split_first() else {
            return false;
        };
        if is_less(*middle, (i, j)) {
            left = above;
        } else if is_less((i, j), *middle) {
            left = below;
        } else {
            return true;
        }
    }
}

// An order whose pairs rise, seen as the pairs, and a list of them.
#[derive(Drop)]
struct Lookup<'a> {
    order: &'a PairList,
    pairs: &'a [(u32, u32)],
    halves: bool,
}

impl<'a> Model for Lookup<'a> {
    ghost use Rattle.std.specs.Prelude.{◌≡◌, List, ℕ, true};
    ghost use Rattle.bd_tree.specs.Order.{is_rising};

    ghost Value = { List (ℕ × ℕ) };

    ghost view = { λ l. l.order.now };

    ghost invariant = { λ l. (is_rising l.pairs.now ≡ true) × (l.pairs.now ≡ l.order.now) };
}

impl Lookup<'_> {
    // Whether i is before j. An order of few positions answers at once, and the pairs of others are halved.
    fn has(&self, i: u32, j: u32) -> bool
        ensures { result ≡ is_before self.now i j }
    {
        if self.halves {
            has_rising(self.pairs, i, j)
        } else {
            self.order.has(i, j)
        }
    }

    // Whether closure is seen to need no further pair of i; the row is the pairs of i. An order of few positions is
    // asked a row at a time, and of others only an empty row is told so.
    fn is_full(&self, row: &[(u32, u32)], i: u32) -> bool
        ensures { IsTrue result → list_all (λ p. is_subset (after_of self.now p.1) (after_of self.now i)) row.now ≡ true }
    {
        row.is_empty() || !self.halves && is_full_row(self.order, row, i)
    }
}

// Whether i is before all positions that a second position of the row is before.
fn is_full_row(order: &PairList, row: &[(u32, u32)], i: u32) -> bool
    ensures { result ≡ list_all (λ p. is_subset (after_of order.now p.1) (after_of order.now i)) row.now }
{
    row.iter().all(|p| order.after(p.1).within(&order.after(i)))
}

// Whether j is after the second position of a pair of the row.
fn reaches(order: &Lookup<'_>, row: &[(u32, u32)], j: u32) -> bool
    ensures { result ≡ list_any (λ p. is_before order.now p.1 j) row.now }
{
    row.iter().any(|p| order.has(p.1, j))
}

// Whether closure needs the pair (i, j) and the list lacks it; the row is the pairs of i.
fn is_gap(order: &Lookup<'_>, row: &[(u32, u32)], i: u32, j: u32) -> bool
    requires { leads_to order.now (i, j) ≡ list_any (λ p. is_before order.now p.1 j) row.now }
    ensures { result ≡ is_gap order.now (i, j) }
{
    !order.has(i, j) && reaches(order, row, j)
}

// The least pair with the first position i that closure needs and the list lacks; the row is the pairs of i.
fn gap_in_row(order: &Lookup<'_>, row: &[(u32, u32)], i: u32, n: u32) -> Option<(u32, u32)>
    requires within { i < n }
    requires row { (j : ℕ) → leads_to order.now (i, j) ≡ list_any (λ p. is_before order.now p.1 j) row.now }
    ensures { result ≡ find (is_gap order.now) (before_each i (i + 1) (n - (i + 1))) }
{
    if order.is_full(row, i) {
        return None;
    }
    for j in i + 1..n {
        if is_gap(order, row, i, j) {
            return Some((i, j));
        }
    }
    None
}

// The pairs as they stand.
fn pairs_of(alloc: Global, order: &PairList) -> Result<Vec<(u32, u32)>, NoMemory>
    ensures { IfOk result (λ pairs. pairs.items ≡ order.now) }
{
    let mut pairs = Vec::new(alloc);
    for p in order.iter() {
        pairs.push(p)?;
    }
    Ok(pairs)
}

// The least pair that closure needs and the list lacks. One row after the other is judged as a whole, and only one
// that has a gap is looked through.
fn first_gap(alloc: Global, order: &PairList, n: u32) -> Result<Option<(u32, u32)>, NoMemory>
    requires { is_rising order.now ≡ true }
    ensures { IfOk result (λ told. told ≡ first_gap n order.now) }
{
    let pairs = pairs_of(alloc, order)?;
    let lookup = Lookup {
        order,
        pairs: pairs.as_slice(),
        halves: n > FEW,
    };
    let mut rest = pairs.as_slice();
    for i in 0..n {
        let (row, behind) = rest.split_at(row_length(rest, i));
        match gap_in_row(&lookup, row, i, n) {
            Some(gap) => return Ok(Some(gap)),
            None => rest = behind,
        }
    }
    Ok(None)
}

/// The pair that tells why the list of pairs is no order of n kids, or `None` exactly where it is one.
///
/// It is the first listed pair that isn't i < j < n, or isn't greater than the pair before it. Where there is no such
/// pair, it is the least pair that closure needs and the list lacks.
pub fn order_misfit(alloc: Global, order: &PairList, n: u32) -> Result<Option<(u32, u32)>, NoMemory>
    ensures told { IfOk result (λ told. told ≡ order_misfit n order.now) }
    ensures exact { (order_misfit n order.now ≡ None) ↔ (is_order n order.now ≡ true) }
{
    misfit_of_order(alloc, order, n)
}

// The same, told by its definition alone.
fn misfit_of_order(alloc: Global, order: &PairList, n: u32) -> Result<Option<(u32, u32)>, NoMemory>
    ensures { IfOk result (λ told. told ≡ order_misfit n order.now) }
{
    if order.is_total(n as usize) {
        return Ok(None);
    }
    match first_stray(order, n) {
        Some(pair) => Ok(Some(pair)),
        None => first_gap(alloc, order, n),
    }
}

// The misfit of the first block whose order is misformed, each block before its kids.
fn first_disorder(alloc: Global, node: &Node) -> Result<Option<Misfit>, NoMemory>
    requires { nodes_of node.now < 2 ^ 32 }
    ensures { IfOk result (λ told. told ≡ first_disorder node.now) }
{
    match node {
        Node::Step { .. } => Ok(None),
        Node::Block { id, kids, order } => {
            match misfit_of_order(alloc, order, kids.len() as u32)? {
                Some((i, j)) => return Ok(Some(Misfit::Order { block: *id, i, j })),
                None => {}
            }
            for kid in kids.as_slice() {
                if let Some(misfit) = first_disorder(alloc, kid)? {
                    return Ok(Some(misfit));
                }
            }
            Ok(None)
        }
    }
}

// The first misfit of a root.
pub(crate) fn first_misfit(alloc: Global, root: &Node) -> Result<Option<Misfit>, NoMemory>
    requires { nodes_of root.now < 2 ^ 32 }
    ensures { IfOk result (λ told. told ≡ first_misfit root.now) }
{
    if !is_root(root) {
        return Ok(Some(Misfit::Root));
    }
    if let Some(id) = repeated_id(alloc, root)? {
        return Ok(Some(Misfit::Twice { id }));
    }
    if let Some(misfit) = first_disorder(alloc, root)? {
        return Ok(Some(misfit));
    }
    let depth = root.depth();
    if depth > MAX_DEPTH {
        return Ok(Some(Misfit::TooDeep { depth }));
    }
    Ok(None)
}

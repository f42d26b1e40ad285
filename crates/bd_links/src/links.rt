// The tests of one block by the positions of the kids that give a fact and of those that delete it.
ghost use Rattle.std.specs.Prelude.{◌≡◌, ◌&&◌, ◌||◌, ◌==◌, true, false, not, find};
ghost use Rattle.std.specs.List.{list_all, list_any};
ghost use Rattle.bd_base.specs.Facts.{has};
ghost use Rattle.bd_base.specs.Pairs.{is_before};
ghost use Rattle.bd_links.specs.Rows.{any_gives, any_links, gives_past, given_by, is_aside, is_later, linked_by, links_past, places_of};

use crate::parts::Touches;
use crate::touches::{deleters, givers};
use bd_base::{FactId, PairList};
use bd_tree::comes_before;

// Deleter d is kid j or after it.
fn is_later(order: &PairList, j: usize, d: usize) -> bool
    ensures { result ≡ is_later order.now j d }
{
    d == j || comes_before(order, j, d)
}

// The first deleter that isn't kid j, nor after it.
fn first_unordered(order: &PairList, deleters: &[usize], j: usize) -> Option<usize>
    ensures { result ≡ find (λ d. not (is_later order.now j d)) deleters.now }
{
    for d in deleters {
        if !is_later(order, j, *d) {
            return Some(*d);
        }
    }
    None
}

/// Whether each other kid that deletes the fact is after kid j.
pub fn all_later(order: &PairList, touches: &Touches, j: usize, p: FactId) -> bool
    ensures { result ≡ list_all (is_later order.now j) (places_of touches.now.deletes p) }
{
    deleters(touches, p).iter().all(|d| is_later(order, j, *d))
}

// Deleter d is kid i or j, or is before i or after j.
fn is_aside(order: &PairList, i: usize, j: usize, d: usize) -> bool
    ensures { result ≡ is_aside order.now i j d }
{
    d == i || d == j || comes_before(order, d, i) || comes_before(order, j, d)
}

// The first deleter that isn't kid i or j, nor before i, nor after j.
fn first_between(order: &PairList, deleters: &[usize], i: usize, j: usize) -> Option<usize>
    ensures { result ≡ find (λ d. not (is_aside order.now i j d)) deleters.now }
{
    for d in deleters {
        if !is_aside(order, i, j, *d) {
            return Some(*d);
        }
    }
    None
}

// Giver i is before kid j, and is the deleter m or after it.
fn may_link(order: &PairList, m: usize, j: usize, i: usize) -> bool
    ensures { result ≡ (is_before order.now i j && (m == i || is_before order.now m i)) }
{
    comes_before(order, i, j) && (m == i || comes_before(order, m, i))
}

// Whether a giver links kid j, where the deleter m isn't j, nor after it: only a giver that is m or after
// it may. A deleter that was in the way of one giver is asked of the next in place of m.
fn any_links_past(
    order: &PairList,
    givers: &[usize],
    deleters: &[usize],
    m: usize,
    j: usize,
) -> bool
    requires found { has deleters.now m ≡ true }
    requires unordered { is_later order.now j m ≡ false }
    ensures { result ≡ any_links order.now givers.now deleters.now j }
{
    let mut m = m;
    for i in givers {
        if may_link(order, m, j, *i) {
            match first_between(order, deleters, *i, j) {
                None => return true,
                Some(d) => m = d,
            }
        }
    }
    false
}

// Whether a giver is before kid j.
fn any_before(order: &PairList, givers: &[usize], j: usize) -> bool
    ensures { result ≡ list_any (λ i. is_before order.now i j) givers.now }
{
    givers.iter().any(|i| comes_before(order, *i, j))
}

// Whether a giver links kid j past the deleters.
fn any_links(order: &PairList, givers: &[usize], deleters: &[usize], j: usize) -> bool
    ensures { result ≡ any_links order.now givers.now deleters.now j }
{
    match first_unordered(order, deleters, j) {
        None => any_before(order, givers, j),
        Some(m) => any_links_past(order, givers, deleters, m, j),
    }
}

/// Whether kid j is linked for the fact.
pub fn is_linked(order: &PairList, touches: &Touches, j: usize, p: FactId) -> bool
    ensures { result ≡ linked_by order.now touches.now j p }
{
    any_links(order, givers(touches, p), deleters(touches, p), j)
}

// Deleter d is giver i or before it.
fn is_earlier(order: &PairList, i: usize, d: usize) -> bool
    ensures { result ≡ (d == i || is_before order.now d i) }
{
    d == i || comes_before(order, d, i)
}

// Whether giver i comes after each other deleter.
fn gives_past(order: &PairList, deleters: &[usize], i: usize) -> bool
    ensures { result ≡ gives_past order.now deleters.now i }
{
    deleters.iter().all(|d| is_earlier(order, i, *d))
}

fn any_gives(order: &PairList, givers: &[usize], deleters: &[usize]) -> bool
    ensures { result ≡ any_gives order.now givers.now deleters.now }
{
    givers.iter().any(|i| gives_past(order, deleters, *i))
}

/// Whether the block gives the fact.
pub fn is_given(order: &PairList, touches: &Touches, p: FactId) -> bool
    ensures { result ≡ given_by order.now touches.now p }
{
    any_gives(order, givers(touches, p), deleters(touches, p))
}

ghost use Rattle.std.specs.Prelude.{◌≡◌, ◌≤◌, ℕ, nat_lt, length, take, drop};
ghost use Rattle.bd_tree.specs.Convex.{has_member, SpansMembers};

use crate::{Members, Node};

/// Where the members stand among the kids of a block: none at a position below `first`, and none from `past` on.
#[derive(Clone, Copy, Debug, PartialEq, Eq)]
pub struct Span {
    pub first: usize,
    pub past: usize,
}

/// The least span of the members. Where no kid is a member, it begins at the number of kids and ends at 0.
pub fn span_of(kids: &[Node], members: &Members<'_>) -> Span
    ensures { SpansMembers members.now kids.now result.first result.past }
{
    Span {
        first: first_member(kids, members),
        past: past_members(kids, members),
    }
}

// The position of the first member, or the number of kids.
fn first_member(kids: &[Node], members: &Members<'_>) -> usize
    ensures within { result ≤ length kids.now }
    ensures before { (j : ℕ) → j ≤ length kids.now → has_member members.now (take j kids.now) ≡ nat_lt result j }
{
    for at in 0..kids.len() {
        if members.has(kids[at].id()) {
            return at;
        }
    }
    kids.len()
}

// The position behind the last member, or 0.
fn past_members(kids: &[Node], members: &Members<'_>) -> usize
    ensures within { result ≤ length kids.now }
    ensures behind { (j : ℕ) → has_member members.now (drop j kids.now) ≡ nat_lt j result }
{
    for at in (0..kids.len()).rev() {
        if members.has(kids[at].id()) {
            return at + 1;
        }
    }
    0
}

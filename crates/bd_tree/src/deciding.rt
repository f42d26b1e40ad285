// Whether a list of actions is a linearisation of a node.
ghost use Rattle.std.specs.Prelude.{◌≡◌, ◌<◌, ◌≤◌, ◌^◌, ◌↔◌, ◌++◌, ◌∷◌, [], length, IsTrue, IfOk, OnOk};
ghost use Rattle.std.specs.List.{enumerate_from};
ghost use Rattle.bd_tree.specs.Deciding.{placed, positions, StartsAt, Remains, AreRefused, IsOneOf};
ghost use Rattle.bd_tree.specs.Linearisation.{IsFirst, IsLinearisation, LinearisesKids};
ghost use Rattle.bd_tree.specs.Tree.{nodes_of};

use crate::Node;
use crate::refused::Refused;
use bd_base::{ActionId, NoMemory, PairList};
use std::alloc::Global;

// The kids with their positions.
fn places(alloc: Global, kids: &[Node]) -> Result<Vec<(u32, &Node)>, NoMemory>
    requires { length kids.now < 2 ^ 32 }
    ensures { IfOk result (λ rest. placed rest.items ≡ enumerate_from 0 kids.now) }
{
    let mut rest = Vec::new(alloc);
    for (i, kid) in kids.iter().enumerate() {
        rest.push((i as u32, kid))?;
    }
    Ok(rest)
}

// Whether none of the kids is before position i.
fn is_first(order: &PairList, i: u32, rest: &[(u32, &Node)]) -> bool
    ensures { IsTrue result ↔ IsFirst order.now i (placed rest.now) }
{
    for place in rest {
        if order.has(place.0, i) {
            return false;
        }
    }
    true
}

// Whether the list is this one action.
fn is_only(list: &[ActionId], action: ActionId) -> bool
    ensures { IsTrue result ↔ (list.now ≡ action ∷ []) }
{
    match list {
        [only] => *only == action,
        _ => false,
    }
}

// The kids of both lists.
fn joined<'a>(
    alloc: Global,
    before: &[(u32, &'a Node)],
    after: &[(u32, &'a Node)],
) -> Result<Vec<(u32, &'a Node)>, NoMemory>
    ensures { IfOk result (λ left. left.items ≡ before.now ++ after.now) }
{
    let mut left = Vec::from_slice(alloc, before)?;
    left.extend_from_slice(after)?;
    Ok(left)
}

// The positions of the kids.
fn set_of(alloc: Global, rest: &[(u32, &Node)]) -> Result<Vec<u32>, NoMemory>
    ensures { IfOk result (λ set. set.items ≡ positions (placed rest.now)) }
{
    let mut set = Vec::new(alloc);
    for place in rest {
        set.push(place.0)?;
    }
    Ok(set)
}

// Whether the kids that remain are a set that was refused.
fn is_refused(alloc: Global, rest: &[(u32, &Node)], refused: &Refused) -> Result<bool, NoMemory>
    ensures { IfOk result (λ told. IsTrue told → IsOneOf refused.now (positions (placed rest.now))) }
{
    if refused.is_empty() {
        return Ok(false);
    }
    let set = set_of(alloc, rest)?;
    Ok(refused.has(&set))
}

// A block and the list that is asked of it.
#[derive(Drop)]
struct Asked<'a> {
    kids: &'a [Node],
    order: &'a PairList,
    list: &'a [ActionId],
}

/// Whether the list is a linearisation of the node.
#[cycle(deciding)]
pub(crate) fn linearises(alloc: Global, node: &Node, list: &[ActionId]) -> Result<bool, NoMemory>
    requires { nodes_of node.now < 2 ^ 32 }
    ensures { IfOk result (λ told. IsTrue told ↔ IsLinearisation node.now list.now) }
{
    match node {
        Node::Step { action, .. } => Ok(is_only(list, *action)),
        Node::Block { kids, order, .. } => {
            if node.steps() as usize != list.len() {
                return Ok(false);
            }
            let rest = places(alloc, kids.as_slice())?;
            let asked = Asked {
                kids: kids.as_slice(),
                order,
                list,
            };
            let mut refused = Refused::new(alloc);
            kids_linearise(alloc, &asked, &rest, list, &mut refused)
        }
    }
}

// Whether this end of the list is a linearisation of the kids that remain: some kid is tried after the other as
// the next one. Where none is, the kids that remain are kept as refused.
#[cycle(deciding)]
fn kids_linearise(
    alloc: Global,
    asked: &Asked<'_>,
    rest: &[(u32, &Node)],
    back: &[ActionId],
    refused: &mut Refused,
) -> Result<bool, NoMemory>
    requires remains { Remains asked.now.kids.now asked.now.list.now (placed rest.now) back.now }
    requires refused { AreRefused asked.now.kids.now asked.now.order.now asked.now.list.now refused.old }
    ensures answer { IfOk result (λ told. IsTrue told ↔ LinearisesKids asked.now.order.now (placed rest.now) back.now) }
    ensures refused { OnOk result (AreRefused asked.now.kids.now asked.now.order.now asked.now.list.now refused.new) }
{
    if rest.is_empty() {
        return Ok(back.is_empty());
    }
    if is_refused(alloc, rest, refused)? {
        return Ok(false);
    }
    for at in 0..rest.len() {
        if starts_at(alloc, asked, rest, back, at, refused)? {
            return Ok(true);
        }
    }
    refused.insert(set_of(alloc, rest)?)?;
    Ok(false)
}

// Whether it is one that begins with the kid at this place. The kid's number of steps says where its part ends.
#[cycle(deciding)]
fn starts_at(
    alloc: Global,
    asked: &Asked<'_>,
    rest: &[(u32, &Node)],
    back: &[ActionId],
    at: usize,
    refused: &mut Refused,
) -> Result<bool, NoMemory>
    requires within { at ≤ length rest.now }
    requires remains { Remains asked.now.kids.now asked.now.list.now (placed rest.now) back.now }
    requires refused { AreRefused asked.now.kids.now asked.now.order.now asked.now.list.now refused.old }
    ensures answer { IfOk result (λ told. IsTrue told ↔ StartsAt asked.now.order.now (placed rest.now) back.now at) }
    ensures refused { OnOk result (AreRefused asked.now.kids.now asked.now.order.now asked.now.list.now refused.new) }
{
    let (before, from) = rest.split_at(at);
    let Some((first, after)) = from.split_first() else {
        return Ok(false);
    };
    let steps = first.1.steps() as usize;
    if steps > back.len() {
        return Ok(false);
    }
    let (own, others) = back.split_at(steps);
    let fits = linearises(alloc, first.1, own)?;
    if !fits {
        return Ok(false);
    }
    if !is_first(asked.order, first.0, rest) {
        return Ok(false);
    }
    let left = joined(alloc, before, after)?;
    kids_linearise(alloc, asked, &left, others, refused)
}

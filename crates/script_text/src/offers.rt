ghost use Rattle.std.specs.Cmp.Lexicographic.{pointwise};
ghost use Rattle.std.specs.Prelude.{◌≡◌, ◌<◌, ◌^◌, [], length, nat_eq, IfOk};
ghost use Rattle.bd_tree.specs.Tree.{listed_of, nodes_of};
ghost use Rattle.script_text.specs.Lines.{words};
ghost use Rattle.script_text.specs.Reading.{Gives};
ghost use Rattle.script_text.specs.Whole.{ids_at, ids_until, lean_at, offer_at, pairs_at, rebuild_at, replace_at, start_at, tighten_at, well_formed_at};

use crate::names::Names;
use crate::nodes::{id_at, kids_until, misfit, pair_at, root_at};
use crate::readers::{key_at, list_at, shape, word_at};
use crate::words::{after_key, is_same, next_word};
use bd_base::{ActionId, FromItems, IdList, Items, NoMemory, NodeId, PairList, TextErr};
use bd_merge::{Lean, Window};
use bd_tree::{Misfit, Node, Tree};
use plan_core::Offer;
use std::alloc::Global;

/// The tree that the plan starts from, as the one node of the line.
#[tactic(auto, unfolding(crate::specs::Whole::start_at))]
pub fn start_at(
    alloc: Global,
    names: &Names,
    plan: &[ActionId],
    place: u32,
    line: &[u8],
) -> Result<Tree, TextErr>
    requires { length (words line.now) < 2 ^ 32 }
    ensures { Gives (λ t. t) result (start_at names.now plan.now place (words line.now)) }
{
    let root = root_at(alloc, names, place, line)?;
    let tree = well_formed_at(alloc, place, root)?;
    if !lists(alloc, &tree, plan)? {
        return Err(misfit(place));
    }
    Ok(tree)
}

// The tree with this root.
fn well_formed_at(alloc: Global, place: u32, root: Node) -> Result<Tree, TextErr>
    requires { nodes_of root < 2 ^ 32 }
    ensures { Gives (λ t. t) result (well_formed_at place root) }
{
    match Tree::new(alloc, root) {
        Ok(tree) => Ok(tree),
        Err(why) => {
            if why == Misfit::NoMemory {
                Err(TextErr::NoMemory)
            } else {
                Err(misfit(place))
            }
        }
    }
}

fn is_same_list(list: &[ActionId], other: &[ActionId]) -> bool
    ensures { result ≡ pointwise nat_eq list.now other.now }
{
    list == other
}

// Whether the tree's listed linearisation is the plan.
fn lists(alloc: Global, tree: &Tree, plan: &[ActionId]) -> Result<bool, NoMemory>
    ensures { IfOk result (λ same. same ≡ pointwise nat_eq (listed_of tree.now) plan.now) }
{
    Ok(is_same_list(tree.listed(alloc)?.as_slice(), plan))
}

fn lean_at(place: u32, word: &[u8]) -> Result<Lean, TextErr>
    ensures { Gives (λ l. l) result (lean_at place word.now) }
{
    if is_same(word, b"early") {
        return Ok(Lean::Early);
    }
    if is_same(word, b"late") {
        return Ok(Lean::Late);
    }
    Err(shape(place))
}

#[tactic(auto, unfolding(crate::specs::Whole::replace_at))]
fn replace_at(alloc: Global, names: &Names, place: u32, line: &[u8]) -> Result<Offer, TextErr>
    ensures { Gives (λ o. o) result (replace_at names.now place (words line.now)) }
{
    let (word, rest) = word_at(place, line)?;
    let block = id_at(alloc, place, word)?;
    let (word, rest) = word_at(place, rest)?;
    let lean = lean_at(place, word)?;
    let (kids, rest) = kids_until(alloc, names, place, rest)?;
    let actions = list_at(alloc, names, place, rest)?;
    let kids = Items::of(kids);
    let window = Window { block, kids, lean };
    Ok(Offer::Replace { window, actions })
}

// The ids up to a key, and what follows it.
fn ids_until<'a>(
    alloc: Global,
    place: u32,
    key: &[u8],
    line: &'a [u8],
) -> Result<(Vec<NodeId>, &'a [u8]), TextErr>
    ensures { Gives (λ p. (p.0.items, words p.1.now)) result (ids_until place key.now [] (words line.now)) }
{
    let mut ids = Vec::new(alloc);
    let mut rest = line;
    while let Some((word, after)) = next_word(rest) {
        if is_same(word, key) {
            return Ok((ids, after));
        }
        ids.push(id_at(alloc, place, word)?)?;
        rest = after;
    }
    Err(shape(place))
}

// The ids that follow.
fn ids_at(alloc: Global, place: u32, line: &[u8]) -> Result<IdList, TextErr>
    ensures { Gives (λ s. s) result (ids_at place [] (words line.now)) }
{
    let mut ids = Vec::new(alloc);
    let mut rest = line;
    while let Some((word, after)) = next_word(rest) {
        ids.push(id_at(alloc, place, word)?)?;
        rest = after;
    }
    Ok(Items::of(ids))
}

#[tactic(auto, unfolding(crate::specs::Whole::tighten_at))]
fn tighten_at(alloc: Global, place: u32, line: &[u8]) -> Result<Offer, TextErr>
    ensures { Gives (λ o. o) result (tighten_at place (words line.now)) }
{
    let (word, rest) = word_at(place, line)?;
    let block = id_at(alloc, place, word)?;
    let rest = key_at(place, b"left", rest)?;
    let (left, rest) = ids_until(alloc, place, b"right", rest)?;
    let right = ids_at(alloc, place, rest)?;
    let left = Items::of(left);
    Ok(Offer::Tighten { block, left, right })
}

// The pairs that follow.
fn pairs_at(alloc: Global, place: u32, line: &[u8]) -> Result<Vec<(u32, u32)>, TextErr>
    ensures { Gives (λ v. v.items) result (pairs_at place [] (words line.now)) }
{
    let mut pairs = Vec::new(alloc);
    let mut rest = line;
    while let Some((word, after)) = next_word(rest) {
        pairs.push(pair_at(alloc, place, word)?)?;
        rest = after;
    }
    Ok(pairs)
}

fn rebuild_at(alloc: Global, place: u32, line: &[u8]) -> Result<Offer, TextErr>
    ensures { Gives (λ o. o) result (rebuild_at place (words line.now)) }
{
    let pairs = pairs_at(alloc, place, line)?;
    let order = PairList::of(alloc, &pairs)?;
    Ok(Offer::Rebuild { order })
}

/// The offer that a line is, if it is one.
pub fn offer_at(
    alloc: Global,
    names: &Names,
    place: u32,
    line: &[u8],
) -> Result<Option<Offer>, TextErr>
    ensures { Gives (λ o. o) result (offer_at names.now place (words line.now)) }
{
    if let Some(rest) = after_key(line, b"replace") {
        return Ok(Some(replace_at(alloc, names, place, rest)?));
    }
    if let Some(rest) = after_key(line, b"tighten") {
        return Ok(Some(tighten_at(alloc, place, rest)?));
    }
    if let Some(rest) = after_key(line, b"rebuild") {
        return Ok(Some(rebuild_at(alloc, place, rest)?));
    }
    Ok(None)
}

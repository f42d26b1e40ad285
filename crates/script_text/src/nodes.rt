// The nodes of a line, read word by word.
ghost use Rattle.std.specs.Prelude.{◌≡◌, ◌≤◌, None, length, IfOk};
ghost use Rattle.bd_tree.specs.Tree.{nodes_of};
ghost use Rattle.script_text.specs.Left.{nest_of, open_of};
ghost use Rattle.script_text.specs.Lines.{words};
ghost use Rattle.script_text.specs.Nodes.{id_at, second_at, pair_at, empty_block, no_nodes, is_flat, add_kid, opened, node_behind, node_at, closed, pairs_in, read_in, read_word, kids_until, only, is_done, root_at};
ghost use Rattle.script_text.specs.Reading.{Gives, misfit};

use crate::names::Names;
use crate::readers::{known_at, number_at, shape};
use crate::words::{is_same, less_at, mark_at, next_word};
use bd_base::{ActionId, Cause, FromItems, Items, NoMemory, NodeId, PairList, TextErr};
use bd_tree::Node;
use std::alloc::Global;

// No more blocks than this are open at once.
const MOST_OPEN: usize = 64;

/// A block that is open: its id, its kids so far, and its pairs so far once the bar was read.
#[derive(Drop)]
pub struct Level {
    id: NodeId,
    kids: Vec<Node>,
    pairs: Option<Vec<(u32, u32)>>,
}

/// The innermost block that is open, and those around it, the nearest one last; with none around it, it stands for the
/// line itself.
#[derive(Drop)]
pub struct Levels {
    inner: Level,
    outer: Vec<Level>,
}

/// What the line says can't be a part of a tree.
pub fn misfit(place: u32) -> TextErr
    ensures { result ≡ misfit place }
{
    TextErr::At {
        place,
        cause: Cause::Misfit,
    }
}

/// The id that digits are.
pub fn id_at(alloc: Global, place: u32, word: &[u8]) -> Result<NodeId, TextErr>
    ensures { Gives (λ n. n) result (id_at place word.now) }
{
    Ok(NodeId(number_at(alloc, 4_294_967_295, place, word)?))
}

fn position_at(alloc: Global, place: u32, word: &[u8]) -> Result<u32, TextErr>
    ensures { Gives (λ n. n) result (id_at place word.now) }
{
    Ok(number_at(alloc, 4_294_967_295, place, word)? as u32)
}

fn second_at(alloc: Global, place: u32, rest: &[u8]) -> Result<u32, TextErr>
    ensures { Gives (λ n. n) result (second_at place rest.now) }
{
    match rest.split_first() {
        None => Err(shape(place)),
        Some((_, digits)) => position_at(alloc, place, digits),
    }
}

/// The pair that a word is.
#[tactic(auto, unfolding(crate::specs::Nodes::pair_at))]
pub fn pair_at(alloc: Global, place: u32, word: &[u8]) -> Result<(u32, u32), TextErr>
    ensures { Gives (λ p. p) result (pair_at place word.now) }
{
    let (digits, rest) = word.split_at(less_at(word));
    let first = position_at(alloc, place, digits)?;
    let second = second_at(alloc, place, rest)?;
    Ok((first, second))
}

fn empty_block(alloc: Global, id: NodeId) -> Level
    ensures { open_of result ≡ empty_block id }
{
    Level {
        id,
        kids: Vec::new(alloc),
        pairs: None,
    }
}

impl Levels {
    // Before the first node of a line.
    fn new(alloc: Global) -> Levels
        ensures { nest_of result ≡ no_nodes }
    {
        Levels {
            inner: empty_block(alloc, NodeId(0)),
            outer: Vec::new(alloc),
        }
    }

    // Whether no block is open.
    fn is_flat(&self) -> bool
        ensures { result ≡ is_flat (nest_of self.now) }
    {
        self.outer.is_empty()
    }
}

// A block opens.
fn opened(
    alloc: Global,
    place: u32,
    id: NodeId,
    rest: &[u8],
    nest: Levels,
) -> Result<Levels, TextErr>
    ensures { Gives nest_of result (opened place id rest.now (nest_of nest)) }
{
    if nest.outer.len() >= MOST_OPEN {
        return Err(misfit(place));
    }
    if !rest.is_empty() {
        return Err(shape(place));
    }
    let Levels { inner, mut outer } = nest;
    outer.push(inner)?;
    Ok(Levels {
        inner: empty_block(alloc, id),
        outer,
    })
}

// A node is complete.
fn with_kid(node: Node, nest: Levels) -> Result<Levels, NoMemory>
    ensures { IfOk result (λ n. nest_of n ≡ add_kid node (nest_of nest)) }
{
    let Levels { mut inner, outer } = nest;
    inner.kids.push(node)?;
    Ok(Levels { inner, outer })
}

// What the bytes from the mark on say of the node with the id.
fn node_behind(
    alloc: Global,
    names: &Names,
    place: u32,
    id: NodeId,
    rest: &[u8],
    nest: Levels,
) -> Result<Levels, TextErr>
    ensures { Gives nest_of result (node_behind names.now place id rest.now (nest_of nest)) }
{
    match rest.split_first() {
        None => Err(shape(place)),
        Some((mark, name)) => {
            if *mark == b':' {
                let action = ActionId(known_at(alloc, names, place, name)?);
                Ok(with_kid(Node::Step { id, action }, nest)?)
            } else {
                opened(alloc, place, id, name, nest)
            }
        }
    }
}

// The word of a step, or of a block that opens.
#[tactic(auto, unfolding(crate::specs::Nodes::node_at))]
fn node_at(
    alloc: Global,
    names: &Names,
    place: u32,
    word: &[u8],
    nest: Levels,
) -> Result<Levels, TextErr>
    ensures { Gives nest_of result (node_at names.now place word.now (nest_of nest)) }
{
    let (digits, rest) = word.split_at(mark_at(word));
    let id = id_at(alloc, place, digits)?;
    node_behind(alloc, names, place, id, rest, nest)
}

// The innermost block ends.
fn closed(alloc: Global, place: u32, pairs: &[(u32, u32)], nest: Levels) -> Result<Levels, TextErr>
    ensures { Gives nest_of result (closed place pairs.now (nest_of nest)) }
{
    let Levels { inner, mut outer } = nest;
    match outer.pop() {
        None => Err(shape(place)),
        Some(around) => {
            let node = Node::Block {
                id: inner.id,
                kids: Items::of(inner.kids),
                order: PairList::of(alloc, pairs)?,
            };
            Ok(with_kid(
                node,
                Levels {
                    inner: around,
                    outer,
                },
            )?)
        }
    }
}

// What a word says in a block whose bar wasn't read, or in the line itself.
fn read_node(
    alloc: Global,
    names: &Names,
    place: u32,
    word: &[u8],
    nest: Levels,
) -> Result<Levels, TextErr>
    ensures { Gives nest_of result (read_in names.now place word.now (nest_of nest) None) }
{
    if nest.is_flat() || !is_same(word, b"|") {
        return node_at(alloc, names, place, word, nest);
    }
    let Levels { mut inner, outer } = nest;
    inner.pairs = Some(Vec::new(alloc));
    Ok(Levels { inner, outer })
}

// What a word says behind the bar of a block.
fn read_pair(
    alloc: Global,
    place: u32,
    word: &[u8],
    mut pairs: Vec<(u32, u32)>,
    nest: Levels,
) -> Result<Levels, TextErr>
    ensures { Gives nest_of result (pairs_in place word.now (nest_of nest) pairs.items) }
{
    if is_same(word, b"}") {
        return closed(alloc, place, &pairs, nest);
    }
    pairs.push(pair_at(alloc, place, word)?)?;
    let Levels { mut inner, outer } = nest;
    inner.pairs = Some(pairs);
    Ok(Levels { inner, outer })
}

fn read_word(
    alloc: Global,
    names: &Names,
    place: u32,
    word: &[u8],
    nest: Levels,
) -> Result<Levels, TextErr>
    ensures { Gives nest_of result (read_word names.now place word.now (nest_of nest)) }
{
    let Levels { inner, outer } = nest;
    let Level { id, kids, pairs } = inner;
    let inner = Level {
        id,
        kids,
        pairs: None,
    };
    let nest = Levels { inner, outer };
    match pairs {
        None => read_node(alloc, names, place, word, nest),
        Some(pairs) => read_pair(alloc, place, word, pairs, nest),
    }
}

/// The nodes up to `with`, and what follows it.
pub fn kids_until<'a>(
    alloc: Global,
    names: &Names,
    place: u32,
    line: &'a [u8],
) -> Result<(Vec<Node>, &'a [u8]), TextErr>
    ensures { Gives (λ p. (p.0.items, words p.1.now)) result (kids_until names.now place no_nodes (words line.now)) }
{
    let mut nest = Levels::new(alloc);
    let mut rest = line;
    while let Some((word, after)) = next_word(rest) {
        if nest.is_flat() && is_same(word, b"with") {
            return Ok((nest.inner.kids, after));
        }
        nest = read_word(alloc, names, place, word, nest)?;
        rest = after;
    }
    Err(shape(place))
}

// The one node of the line.
fn only(place: u32, mut kids: Vec<Node>) -> Result<Node, TextErr>
    ensures { Gives (λ n. n) result (only place kids.items) }
{
    if kids.len() != 1 {
        return Err(shape(place));
    }
    match kids.pop() {
        None => Err(shape(place)),
        Some(node) => Ok(node),
    }
}

/// The one node that a line is.
pub fn root_at(alloc: Global, names: &Names, place: u32, line: &[u8]) -> Result<Node, TextErr>
    ensures root { Gives (λ n. n) result (root_at names.now place no_nodes (words line.now)) }
    ensures few { IfOk result (λ n. nodes_of n ≤ length (words line.now)) }
{
    read_root(alloc, names, place, line)
}

fn read_root(alloc: Global, names: &Names, place: u32, line: &[u8]) -> Result<Node, TextErr>
    ensures { Gives (λ n. n) result (root_at names.now place no_nodes (words line.now)) }
{
    let mut nest = Levels::new(alloc);
    let mut rest = line;
    while let Some((word, after)) = next_word(rest) {
        if nest.is_flat() && !nest.inner.kids.is_empty() {
            return Err(shape(place));
        }
        nest = read_word(alloc, names, place, word, nest)?;
        rest = after;
    }
    if !nest.is_flat() {
        return Err(shape(place));
    }
    only(place, nest.inner.kids)
}

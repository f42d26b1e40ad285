ghost use Rattle.std.specs.Prelude.{◌≡◌, ◌==◌, ◌&&◌, not, codes};
ghost use Rattle.std.specs.Str.{bytes_eq};
ghost use Rattle.std.specs.List.{list_all};
ghost use Rattle.pddl_form.specs.Fault.{Gives, shape};
ghost use Rattle.pddl_form.specs.Trees.{place_at, word_at, list_at, begins, is_seen, is_name, is_variable, unless_odd, must, name_at, variable_at, is_word, key_at, headed_by, head_at, end_at, first_at};
ghost use Rattle.pddl_form.specs.Sight.{named_of, headed_of};

use bd_base::{Cause, TextErr};
use pddl_lex::Sexp;

/// A word with its place.
#[derive(Clone, Copy, Debug)]
pub struct Named<'a> {
    pub place: u32,
    pub text: &'a [u8],
}

/// A list with a word as its head: its place, the head, and the items behind it.
#[derive(Clone, Copy, Debug)]
pub struct Headed<'a> {
    pub place: u32,
    pub head: Named<'a>,
    pub items: &'a [Sexp],
}

/// What stands at the place is not of its form.
pub fn shape(place: u32) -> TextErr
    ensures { result ≡ shape place }
{
    TextErr::At {
        place,
        cause: Cause::Shape,
    }
}

/// The test must hold.
pub fn must(fine: bool, place: u32) -> Result<(), TextErr>
    ensures { Gives (λ _. tt) result (must fine place) }
{
    if fine { Ok(()) } else { Err(shape(place)) }
}

pub fn place_at(tree: &Sexp) -> u32
    ensures { result ≡ place_at tree.now }
{
    match tree {
        Sexp::Word { place, .. } => *place,
        Sexp::List { place, .. } => *place,
    }
}

/// The word that stands where only one may.
pub fn word_at(tree: &Sexp) -> Result<Named<'_>, TextErr>
    ensures { Gives named_of result (word_at tree.now) }
{
    match tree {
        Sexp::Word { place, text } => Ok(Named {
            place: *place,
            text: text.as_slice(),
        }),
        Sexp::List { place, .. } => Err(shape(*place)),
    }
}

/// The list that stands where only one may.
pub fn list_at(tree: &Sexp) -> Result<(u32, &[Sexp]), TextErr>
    ensures { Gives (λ l. (l.0, l.1.now)) result (list_at tree.now) }
{
    match tree {
        Sexp::Word { place, .. } => Err(shape(*place)),
        Sexp::List { place, items } => Ok((*place, items.as_slice())),
    }
}

/// Whether a word begins with the byte.
pub fn begins(b: u8, word: &[u8]) -> bool
    ensures { result ≡ begins b word.now }
{
    match word.split_first() {
        None => false,
        Some((first, _)) => *first == b,
    }
}

pub fn is_same(word: &[u8], other: &[u8]) -> bool
    ensures { result ≡ bytes_eq word.now other.now }
{
    word == other
}

fn are_seen(word: &[u8]) -> bool
    ensures { result ≡ list_all is_seen word.now }
{
    word.iter().all(|b| *b > 32 && *b < 127)
}

/// Whether the word is no variable, no keyword and no `-`.
pub fn is_name(word: &[u8]) -> bool
    ensures { result ≡ is_name word.now }
{
    match word.split_first() {
        None => false,
        Some((first, _)) => {
            are_seen(word) && *first != b'?' && *first != b':' && !is_same(word, b"-")
        }
    }
}

fn is_variable(word: &[u8]) -> bool
    ensures { result ≡ is_variable word.now }
{
    match word.split_first() {
        None => false,
        Some((first, rest)) => *first == b'?' && !rest.is_empty(),
    }
}

/// The word, unless it is not of its form.
pub fn unless_odd(fine: bool, word: Named<'_>) -> Result<Named<'_>, TextErr>
    ensures { Gives named_of result (unless_odd fine (named_of word.entry)) }
{
    if fine {
        Ok(word)
    } else {
        Err(shape(word.place))
    }
}

pub fn name_at(tree: &Sexp) -> Result<Named<'_>, TextErr>
    ensures { Gives named_of result (name_at tree.now) }
{
    let word = word_at(tree)?;
    unless_odd(is_name(word.text), word)
}

pub fn variable_at(tree: &Sexp) -> Result<Named<'_>, TextErr>
    ensures { Gives named_of result (variable_at tree.now) }
{
    let word = word_at(tree)?;
    unless_odd(is_variable(word.text), word)
}

/// Whether it is that word.
pub fn is_word(key: &[u8], tree: &Sexp) -> bool
    ensures { result ≡ is_word key.now tree.now }
{
    match tree {
        Sexp::Word { text, .. } => is_same(text.as_slice(), key),
        Sexp::List { .. } => false,
    }
}

pub fn headed_by(place: u32, items: &[Sexp]) -> Result<Headed<'_>, TextErr>
    ensures { Gives headed_of result (headed_by place items.now) }
{
    match items.split_first() {
        None => Err(shape(place)),
        Some((head, items)) => {
            let head = word_at(head)?;
            Ok(Headed { place, head, items })
        }
    }
}

/// The list with a head that stands where only one may.
pub fn head_at(tree: &Sexp) -> Result<Headed<'_>, TextErr>
    ensures { Gives headed_of result (head_at tree.now) }
{
    let (place, items) = list_at(tree)?;
    headed_by(place, items)
}

/// Nothing more stands in a list.
pub fn end_at(items: &[Sexp]) -> Result<(), TextErr>
    ensures { Gives (λ _. tt) result (end_at items.now) }
{
    match items.split_first() {
        None => Ok(()),
        Some((item, _)) => Err(shape(place_at(item))),
    }
}

/// The next item of the list at the place, and those behind it.
pub fn first_at(place: u32, items: &[Sexp]) -> Result<(&Sexp, &[Sexp]), TextErr>
    ensures { Gives (λ p. (p.0.now, p.1.now)) result (first_at place items.now) }
{
    match items.split_first() {
        None => Err(shape(place)),
        Some(found) => Ok(found),
    }
}

ghost use Rattle.std.specs.Prelude.{◌≡◌, ◌<◌, ◌≤◌, ◌^◌, ◌+◌, ◌∷◌, ◌++◌, [], length, IfOk, OnOk};
ghost use Rattle.script_text.specs.Lines.{words};
ghost use Rattle.script_text.specs.Reading.{Gives, Fails, name_at, known_at, number_at, stop_number, stop_at, set_at, set_until, list_at, list_until, end_at, declared_at, word_at, key_at, fact_at, action_at, shape};

use crate::names::Names;
use crate::words::{after_key, is_number, name_in, next_word, value_of};
use bd_base::{
    ActList, ActionId, Cause, FactId, FactSet, FromItems, Items, NoMemory, Text, TextErr,
};
use bd_task::Action;
use std::alloc::Global;

/// The line is not of its form.
pub fn shape(place: u32) -> TextErr
    ensures { result ≡ shape place }
{
    TextErr::At {
        place,
        cause: Cause::Shape,
    }
}

fn name_at(place: u32, word: &[u8]) -> Result<&[u8], TextErr>
    ensures { Gives (λ s. s.now) result (name_at place word.now) }
{
    match name_in(word) {
        None => Err(shape(place)),
        Some(name) => Ok(name),
    }
}

pub fn known_at(alloc: Global, names: &Names, place: u32, word: &[u8]) -> Result<u32, TextErr>
    ensures { Gives (λ n. n) result (known_at names.now place word.now) }
{
    let name = name_at(place, word)?;
    match names.place(name) {
        None => {
            let cause = Cause::Unknown(Text::from_slice(alloc, word)?);
            Err(TextErr::At { place, cause })
        }
        Some(i) => Ok(i),
    }
}

pub fn number_at(alloc: Global, most: u64, place: u32, word: &[u8]) -> Result<u64, TextErr>
    requires { most < 2 ^ 40 }
    ensures number { Gives (λ n. n) result (number_at most place word.now) }
    ensures small { IfOk result (λ n. n ≤ most) }
{
    if !is_number(word) {
        return Err(shape(place));
    }
    match value_of(word, most) {
        None => {
            let cause = Cause::BadNumber(Text::from_slice(alloc, word)?);
            Err(TextErr::At { place, cause })
        }
        Some(number) => Ok(number),
    }
}

fn stop_number(alloc: Global, place: u32, word: &[u8]) -> Result<u32, TextErr>
    ensures { Gives (λ n. n) result (stop_number place word.now) }
{
    let number = number_at(alloc, 1_000_000, place, word)?;
    if number == 0 {
        let cause = Cause::BadNumber(Text::from_slice(alloc, word)?);
        return Err(TextErr::At { place, cause });
    }
    Ok(number as u32)
}

pub fn word_at(place: u32, line: &[u8]) -> Result<(&[u8], &[u8]), TextErr>
    ensures { Gives (λ p. (p.0.now, words p.1.now)) result (word_at place (words line.now)) }
{
    match next_word(line) {
        None => Err(shape(place)),
        Some(found) => Ok(found),
    }
}

pub fn key_at<'a>(place: u32, key: &[u8], line: &'a [u8]) -> Result<&'a [u8], TextErr>
    ensures { Gives (λ s. words s.now) result (key_at place key.now (words line.now)) }
{
    match after_key(line, key) {
        None => Err(shape(place)),
        Some(rest) => Ok(rest),
    }
}

pub fn end_at(place: u32, line: &[u8]) -> Result<(), TextErr>
    ensures { Gives (λ _. tt) result (end_at place (words line.now)) }
{
    match next_word(line) {
        None => Ok(()),
        Some(_) => Err(shape(place)),
    }
}

pub fn stop_at(alloc: Global, place: u32, line: &[u8]) -> Result<u32, TextErr>
    ensures { Gives (λ n. n) result (stop_at place (words line.now)) }
{
    let (word, rest) = word_at(place, line)?;
    let stop = stop_number(alloc, place, word)?;
    end_at(place, rest)?;
    Ok(stop)
}

fn fact_list_at(
    alloc: Global,
    names: &Names,
    place: u32,
    line: &[u8],
) -> Result<Vec<FactId>, TextErr>
    ensures { Gives (λ v. v.items) result (list_at names.now place [] (words line.now)) }
{
    let mut list = Vec::new(alloc);
    let mut rest = line;
    while let Some((word, after)) = next_word(rest) {
        list.push(FactId(known_at(alloc, names, place, word)?))?;
        rest = after;
    }
    Ok(list)
}

pub fn set_at(alloc: Global, names: &Names, place: u32, line: &[u8]) -> Result<FactSet, TextErr>
    ensures { Gives (λ s. s) result (set_at names.now place (words line.now)) }
{
    let list = fact_list_at(alloc, names, place, line)?;
    Ok(FactSet::of(list)?)
}

fn declared_at<'a>(
    alloc: Global,
    names: &mut Names<'a>,
    place: u32,
    word: &'a [u8],
) -> Result<&'a [u8], TextErr>
    requires { length names.old + 1 < 2 ^ 32 }
    ensures declared { Gives (λ s. (s.now, names.new)) result (declared_at names.old place word.now) }
    ensures grown { OnOk result (length names.new ≤ length names.old + 1) }
{
    let name = name_at(place, word)?;
    if names.declare(name)? {
        return Ok(name);
    }
    let cause = Cause::Clash(Text::from_slice(alloc, word)?);
    Err(TextErr::At { place, cause })
}

#[tactic(auto, unfolding(crate::specs::Reading::fact_at))]
pub fn fact_at<'a>(
    alloc: Global,
    names: &mut Names<'a>,
    place: u32,
    line: &'a [u8],
) -> Result<(), TextErr>
    requires { length names.old + 1 < 2 ^ 32 }
    ensures fact { Gives (λ _. names.new) result (fact_at names.old place (words line.now)) }
    ensures grown { OnOk result (length names.new ≤ length names.old + 1) }
{
    let (word, rest) = word_at(place, line)?;
    declared_at(alloc, names, place, word)?;
    end_at(place, rest)?;
    Ok(())
}

fn list_until<'a>(
    alloc: Global,
    names: &Names,
    place: u32,
    key: &[u8],
    line: &'a [u8],
) -> Result<(Vec<FactId>, &'a [u8]), TextErr>
    ensures { Gives (λ p. (p.0.items, words p.1.now)) result (list_until names.now place key.now [] (words line.now)) }
{
    let mut list = Vec::new(alloc);
    let mut rest = line;
    while let Some((word, after)) = next_word(rest) {
        if word == key {
            return Ok((list, after));
        }
        list.push(FactId(known_at(alloc, names, place, word)?))?;
        rest = after;
    }
    Err(shape(place))
}

fn set_until<'a>(
    alloc: Global,
    names: &Names,
    place: u32,
    key: &[u8],
    line: &'a [u8],
) -> Result<(FactSet, &'a [u8]), TextErr>
    ensures { Gives (λ p. (p.0, words p.1.now)) result (set_until names.now place key.now (words line.now)) }
{
    let (list, rest) = list_until(alloc, names, place, key, line)?;
    Ok((FactSet::of(list)?, rest))
}

pub fn list_at(alloc: Global, names: &Names, place: u32, line: &[u8]) -> Result<ActList, TextErr>
    ensures { Gives (λ s. s) result (list_at names.now place [] (words line.now)) }
{
    let mut list = Vec::new(alloc);
    let mut rest = line;
    while let Some((word, after)) = next_word(rest) {
        list.push(ActionId(known_at(alloc, names, place, word)?))?;
        rest = after;
    }
    Ok(Items::of(list))
}

#[tactic(auto, unfolding(crate::specs::Reading::action_at))]
pub fn action_at<'a>(
    alloc: Global,
    facts: &Names,
    names: &mut Names<'a>,
    place: u32,
    line: &'a [u8],
) -> Result<Action, TextErr>
    requires { length names.old + 1 < 2 ^ 32 }
    ensures action { Gives (λ a. (a, names.new)) result (action_at facts.now names.old place (words line.now)) }
    ensures grown { OnOk result (length names.new ≤ length names.old + 1) }
{
    let (word, rest) = word_at(place, line)?;
    let name = declared_at(alloc, names, place, word)?;
    let (word, rest) = word_at(place, rest)?;
    let cost = number_at(alloc, 1_000_000_000, place, word)?;
    let rest = key_at(place, b"pre", rest)?;
    let (pre, rest) = set_until(alloc, facts, place, b"add", rest)?;
    let (add, rest) = set_until(alloc, facts, place, b"del", rest)?;
    let mut del = set_at(alloc, facts, place, rest)?;
    del.minus(&add);
    let name = Text::from_slice(alloc, name)?;
    Ok(Action {
        name,
        cost,
        pre,
        add,
        del,
    })
}

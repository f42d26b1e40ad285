ghost use Rattle.std.specs.Prelude.{◌≡◌, ◌++◌, ◌<◌, IfOk, length};
ghost use Rattle.bd_task.specs.Valid.{step_lacks, goal_lacks};
ghost use Rattle.bd_top.specs.Prepared.{IsBrokenLine, HasFact};
ghost use Rattle.bd_top.specs.Texts.{invalid_line, refused_line, over_line, unread_line, cause_text, file_text, limit_text, unread_text, with_word};

use crate::File;
use bd_base::{Cause, FactId, FromItems, Items, Limit, NoMemory, Text};
use bd_task::Task;
use run_texts::{push_fact, push_number};
use seq_check::Broken;
use std::alloc::Global;

// The note for a plan whose action at a place, from 1, lacks a fact.
fn step_note(alloc: Global, task: &Task, at: u32, fact: FactId) -> Result<Text, NoMemory>
    requires { fact < length task.now.facts }
    ensures { IfOk result (λ text. text ≡ invalid_line task.now (step_lacks at fact)) }
{
    let mut text = Vec::from_slice(alloc, b"plan invalid: step ")?;
    push_number(&mut text, u64::from(at))?;
    text.extend_from_slice(b" needs ")?;
    push_fact(&mut text, task, fact)?;
    text.extend_from_slice(b"\n")?;
    Ok(Items::of(text))
}

// The note for a plan at whose end a goal fact lacks.
fn goal_note(alloc: Global, task: &Task, fact: FactId) -> Result<Text, NoMemory>
    requires { fact < length task.now.facts }
    ensures { IfOk result (λ text. text ≡ invalid_line task.now (goal_lacks fact)) }
{
    let mut text = Vec::from_slice(alloc, b"plan invalid: goal ")?;
    push_fact(&mut text, task, fact)?;
    text.extend_from_slice(b"\n")?;
    Ok(Items::of(text))
}

/// The note for the first break of a plan.
pub fn broken_note(alloc: Global, task: &Task, broken: &Broken) -> Result<Text, NoMemory>
    requires { HasFact (length task.now.facts) broken.now }
    ensures { IfOk result (λ text. IsBrokenLine task.now broken.now text) }
{
    match broken {
        Broken::Step { at, fact } => step_note(alloc, task, *at, *fact),
        Broken::Goal { fact } => goal_note(alloc, task, *fact),
        Broken::NoMemory => Err(NoMemory),
    }
}

fn file_text(file: File) -> &'static [u8]
    ensures { result.now ≡ file_text file }
{
    match file {
        File::Domain => b"domain",
        File::Problem => b"problem",
        File::Plan => b"plan",
        File::Script => b"script",
    }
}

fn push_word(text: &mut Vec<u8>, name: &[u8], word: &Text) -> Result<(), NoMemory>
    ensures { IfOk result (λ _. text.new.items ≡ text.old.items ++ with_word name.now word.now) }
{
    text.extend_from_slice(name)?;
    text.extend_from_slice(b" ")?;
    text.extend_from_slice(word.as_slice())?;
    Ok(())
}

fn push_cause(text: &mut Vec<u8>, cause: &Cause) -> Result<(), NoMemory>
    ensures { IfOk result (λ _. text.new.items ≡ text.old.items ++ cause_text cause.now) }
{
    match cause {
        Cause::Unsupported(word) => return push_word(text, b"Unsupported", word),
        Cause::Unknown(word) => return push_word(text, b"Unknown", word),
        Cause::Clash(word) => return push_word(text, b"Clash", word),
        Cause::Missing(word) => return push_word(text, b"Missing", word),
        Cause::Arity(word) => return push_word(text, b"Arity", word),
        Cause::BadNumber(word) => return push_word(text, b"BadNumber", word),
        Cause::Bad => text.extend_from_slice(b"Bad")?,
        Cause::Unclosed => text.extend_from_slice(b"Unclosed")?,
        Cause::Extra => text.extend_from_slice(b"Extra")?,
        Cause::TooDeep => text.extend_from_slice(b"TooDeep")?,
        Cause::Shape => text.extend_from_slice(b"Shape")?,
        Cause::NoAction => text.extend_from_slice(b"NoAction")?,
        Cause::NoCost => text.extend_from_slice(b"NoCost")?,
        Cause::Misfit => text.extend_from_slice(b"Misfit")?,
        Cause::Unsound => text.extend_from_slice(b"Unsound")?,
    }
    Ok(())
}

/// The note for a text that is none of its format.
pub fn refused_note(alloc: Global, file: File, place: u32, cause: &Cause) -> Result<Text, NoMemory>
    ensures { IfOk result (λ text. text ≡ refused_line file place cause.now) }
{
    let mut text = Vec::from_slice(alloc, file_text(file))?;
    text.extend_from_slice(b": ")?;
    push_number(&mut text, u64::from(place))?;
    text.extend_from_slice(b": ")?;
    push_cause(&mut text, cause)?;
    text.extend_from_slice(b"\n")?;
    Ok(Items::of(text))
}

fn limit_text(limit: Limit) -> &'static [u8]
    ensures { result.now ≡ limit_text limit }
{
    match limit {
        Limit::Text => b"text",
        Limit::Parameters => b"parameters",
        Limit::Objects => b"objects",
        Limit::Facts => b"facts",
        Limit::Actions => b"actions",
        Limit::Steps => b"steps",
        Limit::Offers => b"offers",
    }
}

/// The note for a count that passes its limit.
pub fn over_note(alloc: Global, limit: Limit, count: u64) -> Result<Text, NoMemory>
    ensures { IfOk result (λ text. text ≡ over_line limit count) }
{
    let mut text = Vec::from_slice(alloc, b"over limit: ")?;
    text.extend_from_slice(limit_text(limit))?;
    text.extend_from_slice(b" ")?;
    push_number(&mut text, count)?;
    text.extend_from_slice(b"\n")?;
    Ok(Items::of(text))
}

fn unread_text(missing: bool) -> &'static [u8]
    ensures { result.now ≡ unread_text missing }
{
    if missing { b"missing" } else { b"cannot read" }
}

/// The note for a text that couldn't be read.
pub fn unread_note(alloc: Global, name: &[u8], missing: bool) -> Result<Text, NoMemory>
    ensures { IfOk result (λ text. text ≡ unread_line name.now missing) }
{
    let mut text = Vec::from_slice(alloc, name)?;
    text.extend_from_slice(b": ")?;
    text.extend_from_slice(unread_text(missing))?;
    text.extend_from_slice(b"\n")?;
    Ok(Items::of(text))
}

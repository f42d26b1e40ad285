ghost use Rattle.std.specs.Prelude.{◌≡◌, ◌++◌, ◌<◌, ℕ, IfOk, OnOk, codes, decimal, length};
ghost use Rattle.bd_links.specs.Faults.{fact_of};
ghost use Rattle.plan_core.specs.Replies.{TellsFact};
ghost use Rattle.run_texts.specs.Texts.{fault_text, refusal_text, reply_line};

use crate::writing::{push_fact, push_number};
use bd_base::{FromItems, Items, NoMemory, Text};
use bd_links::Fault;
use bd_task::Task;
use plan_core::Refusal;
use std::alloc::Global;

fn push_title(text: &mut Vec<u8>, title: &[u8]) -> Result<(), NoMemory>
    ensures { OnOk result (text.new.items ≡ text.old.items ++ title.now) }
{
    text.extend_from_slice(title)?;
    Ok(())
}

// A title and a number.
fn push_one(text: &mut Vec<u8>, title: &[u8], number: u64) -> Result<(), NoMemory>
    ensures { OnOk result (text.new.items ≡ text.old.items ++ title.now ++ decimal number) }
{
    text.extend_from_slice(title)?;
    push_number(text, number)
}

// A title and two numbers.
fn push_two(text: &mut Vec<u8>, title: &[u8], first: u64, second: u64) -> Result<(), NoMemory>
    ensures { OnOk result (text.new.items ≡ text.old.items ++ title.now ++ decimal first ++ codes " " ++ decimal second) }
{
    push_one(text, title, first)?;
    text.extend_from_slice(b" ")?;
    push_number(text, second)
}

fn push_fault(text: &mut Vec<u8>, task: &Task, fault: &Fault) -> Result<(), NoMemory>
    requires { fact_of fault.now < length task.now.facts }
    ensures { OnOk result (text.new.items ≡ text.old.items ++ fault_text task.now fault.now) }
{
    match fault {
        Fault::Inside { block, child, fact } => {
            push_two(text, b"Inside ", block.0, child.0)?;
            text.extend_from_slice(b" ")?;
            push_fact(text, task, *fact)
        }
        Fault::Need { fact } => {
            text.extend_from_slice(b"Need ")?;
            push_fact(text, task, *fact)
        }
        Fault::Goal { fact } => {
            text.extend_from_slice(b"Goal ")?;
            push_fact(text, task, *fact)
        }
    }
}

// A refusal by its number, its name and its fields.
fn push_refusal(text: &mut Vec<u8>, task: &Task, why: &Refusal) -> Result<(), NoMemory>
    requires { TellsFact (length task.now.facts) why.now }
    ensures { OnOk result (text.new.items ≡ text.old.items ++ refusal_text task.now why.now) }
{
    match why {
        Refusal::Closed { replaced, entries } => push_two(text, b"1 Closed ", *replaced, *entries),
        Refusal::NoAction { number } => push_one(text, b"2 NoAction ", u64::from(*number)),
        Refusal::Gone => push_title(text, b"3 Gone"),
        Refusal::Split => push_title(text, b"4 Split"),
        Refusal::NotCheaper { old, new } => push_two(text, b"5 NotCheaper ", *old, *new),
        Refusal::TooLong { steps } => push_one(text, b"6 TooLong ", *steps),
        Refusal::Unlinked(fault) => {
            push_title(text, b"7 Unlinked ")?;
            push_fault(text, task, fault)
        }
        Refusal::Between => push_title(text, b"8 Between"),
        Refusal::TooDeep { depth } => push_one(text, b"9 TooDeep ", *depth),
        Refusal::NoGain { old, new } => push_two(text, b"10 NoGain ", *old, *new),
        Refusal::Idle => push_title(text, b"11 Idle"),
        Refusal::BadOrder { i, j } => {
            push_two(text, b"12 BadOrder ", u64::from(*i), u64::from(*j))
        }
        Refusal::NoMemory => Ok(()),
    }
}

/// The line that says why the offer with this number, from 1, is refused. Want of memory has none.
pub fn reply_text(alloc: Global, task: &Task, number: u32, why: &Refusal) -> Result<Text, NoMemory>
    requires { TellsFact (length task.now.facts) why.now }
    ensures { IfOk result (λ text. text ≡ reply_line task.now number why.now) }
{
    let mut text = Vec::from_slice(alloc, b"offer ")?;
    push_number(&mut text, u64::from(number))?;
    text.extend_from_slice(b": refused ")?;
    push_refusal(&mut text, task, why)?;
    text.extend_from_slice(b"\n")?;
    Ok(Items::of(text))
}

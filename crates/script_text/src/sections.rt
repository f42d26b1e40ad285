ghost use Rattle.std.specs.Prelude.{◌≡◌, ◌<◌, ◌≤◌, ◌^◌, ◌+◌, ◌∷◌, ◌++◌, [], length, IfOk, All, codes, List, map, ℕ};
ghost use Rattle.script_text.specs.Lines.{words, worded};
ghost use Rattle.script_text.specs.Left.{left, rest_of, task_of, script_of};
ghost use Rattle.script_text.specs.Reading.{Gives, Fails, facts_at, actions_at, line_at, head_at, set_line, plan_line, stop_line, no_more};
ghost use Rattle.script_text.specs.Whole.{offers_at, tail_at, start_line, rest_at, script_at};
ghost use Rattle.script_text.specs.Limits.{over_of, Answers, Spelled};
ghost use Rattle.script_text.specs.Spells.{SpellsScript};
ghost use Rattle.script_text.specs.declared.script.Script.{Script};
ghost use Rattle.script_text.specs.Spells.{AreNew};
ghost use Rattle.script_text.specs.Range.{HasActionsBelow, StartsBy};
ghost use Rattle.bd_task.specs.TaskView.{IsTask};
ghost use Rattle.plan_core.specs.Replies.{IsLent};

use crate::lines::{Lines, first_line};
use crate::names::Names;
use crate::offers::{offer_at, start_at};
use crate::readers::{action_at, end_at, fact_at, key_at, list_at, set_at, shape, stop_at};
use crate::script::Script;
use crate::words::after_key;
use bd_base::{ActList, ActionId, FactSet, FromItems, Items, Limit, NoMemory, TextErr};
use bd_task::{Action, Task};
use bd_tree::Tree;
use plan_core::Offer;
use std::alloc::Global;

fn facts_at<'a>(alloc: Global, start: Lines<'a>) -> Result<(Names<'a>, Lines<'a>), TextErr>
    requires { 0 < start.number }
    ensures facts { Gives (λ p. (p.0, left p.1)) result (facts_at [] start.entry.number (worded start.entry.rest.now)) }
    ensures later { IfOk result (λ p. 0 < p.1.number) }
{
    let mut names = Names::new(alloc);
    let mut at = start;
    while let Some((line, after)) = at.next() {
        match after_key(line, b"fact") {
            None => return Ok((names, at)),
            Some(rest) => fact_at(alloc, &mut names, at.number, rest)?,
        }
        at = after;
    }
    Ok((names, at))
}

fn line_at<'a>(key: &[u8], at: Lines<'a>) -> Result<(&'a [u8], Lines<'a>), TextErr>
    ensures line { Gives (λ p. (words p.0.now, left p.1)) result (line_at key.now (left at.entry)) }
    ensures next { IfOk result (λ p. p.1.number ≡ at.entry.number + 1) }
{
    match at.next() {
        None => Err(shape(at.number)),
        Some((line, after)) => Ok((key_at(at.number, key, line)?, after)),
    }
}

#[derive(Drop)]
struct Actions<'a> {
    actions: Vec<Action>,
    names: Names<'a>,
}

fn actions_at<'a>(
    alloc: Global,
    facts: &Names,
    start: Lines<'a>,
) -> Result<(Actions<'a>, Lines<'a>), TextErr>
    requires { 0 < start.number }
    ensures actions { Gives (λ p. ((p.0.actions.items, p.0.names), left p.1)) result (actions_at facts.now [] [] start.entry.number (worded start.entry.rest.now)) }
{
    let mut names = Names::new(alloc);
    let mut actions = Vec::new(alloc);
    let mut at = start;
    while let Some((line, after)) = at.next() {
        match after_key(line, b"action") {
            None => return Ok((Actions { actions, names }, at)),
            Some(rest) => actions.push(action_at(alloc, facts, &mut names, at.number, rest)?)?,
        }
        at = after;
    }
    Ok((Actions { actions, names }, at))
}

fn head_at(text: &[u8]) -> Result<Lines<'_>, TextErr>
    requires { length text.now < 2 ^ 32 }
    ensures head { Gives left result (head_at (worded text.now)) }
    ensures second { IfOk result (λ l. l.number ≡ 2) }
{
    match first_line(text) {
        None => Err(shape(1)),
        Some((line, rest)) => {
            let version = key_at(1, b"bdpo-script", line)?;
            let nothing = key_at(1, b"1", version)?;
            end_at(1, nothing)?;
            Ok(Lines { rest, number: 2 })
        }
    }
}

fn set_line<'a>(
    alloc: Global,
    key: &[u8],
    facts: &Names,
    at: Lines<'a>,
) -> Result<(FactSet, Lines<'a>), TextErr>
    ensures { Gives (λ p. (p.0, left p.1)) result (set_line key.now facts.now (left at.entry)) }
{
    let (line, after) = line_at(key, at)?;
    Ok((set_at(alloc, facts, at.number, line)?, after))
}

fn plan_line<'a>(
    alloc: Global,
    names: &Names,
    at: Lines<'a>,
) -> Result<(ActList, Lines<'a>), TextErr>
    ensures { Gives (λ p. (p.0, left p.1)) result (plan_line names.now (left at.entry)) }
{
    let (line, after) = line_at(b"plan", at)?;
    Ok((list_at(alloc, names, at.number, line)?, after))
}

fn no_more(at: Lines) -> Result<(), TextErr>
    ensures { Gives (λ _. tt) result (no_more (left at.entry)) }
{
    match at.next() {
        None => Ok(()),
        Some(_) => Err(shape(at.number)),
    }
}

fn stop_line(alloc: Global, at: Lines<'_>) -> Result<(u32, Lines<'_>), TextErr>
    ensures { Gives (λ p. (p.0, left p.1)) result (stop_line (left at.entry)) }
{
    match at.next() {
        None => Ok((1_000_000, at)),
        Some((line, after)) => match after_key(line, b"stop") {
            None => Ok((1_000_000, at)),
            Some(rest) => Ok((stop_at(alloc, at.number, rest)?, after)),
        },
    }
}

fn offers_at<'a>(
    alloc: Global,
    names: &Names,
    start: Lines<'a>,
) -> Result<(Vec<Offer>, Lines<'a>), TextErr>
    ensures { Gives (λ p. (p.0.items, left p.1)) result (offers_at names.now [] start.entry.number (worded start.entry.rest.now)) }
{
    let mut offers = Vec::new(alloc);
    let mut at = start;
    while let Some((line, after)) = at.next() {
        match offer_at(alloc, names, at.number, line)? {
            None => return Ok((offers, at)),
            Some(offer) => offers.push(offer)?,
        }
        at = after;
    }
    Ok((offers, at))
}

#[tactic(auto, unfolding(crate::specs::Whole::tail_at))]
fn tail_at(at: Lines) -> Result<(), TextErr>
    ensures { Gives (λ _. tt) result (tail_at (left at.entry)) }
{
    let (line, after) = line_at(b"end", at)?;
    end_at(at.number, line)?;
    no_more(after)
}

// The start tree with the number of its line, where there is one.
fn start_line<'a>(
    alloc: Global,
    names: &Names,
    plan: &[ActionId],
    at: Lines<'a>,
) -> Result<((Option<Tree>, u32), Lines<'a>), TextErr>
    ensures { Gives (λ p. ((p.0.0, p.0.1), left p.1)) result (start_line names.now plan.now (left at.entry)) }
{
    match at.next() {
        None => Ok(((None, 0), at)),
        Some((line, after)) => match after_key(line, b"start") {
            None => Ok(((None, 0), at)),
            Some(rest) => {
                let tree = start_at(alloc, names, plan, at.number, rest)?;
                Ok(((Some(tree), at.number), after))
            }
        },
    }
}

/// What stands behind the plan.
#[derive(Drop)]
struct After {
    start: Option<Tree>,
    start_line: u32,
    stop: u32,
    offers: Vec<Offer>,
}

#[tactic(auto, unfolding(crate::specs::Whole::rest_at))]
fn rest_at(alloc: Global, names: &Names, plan: &[ActionId], at: Lines) -> Result<After, TextErr>
    ensures { Gives rest_of result (rest_at names.now plan.now (left at.entry)) }
{
    let ((start, start_line), at) = start_line(alloc, names, plan, at)?;
    let (stop, at) = stop_line(alloc, at)?;
    let (offers, at) = offers_at(alloc, names, at)?;
    tail_at(at)?;
    Ok(After {
        start,
        start_line,
        stop,
        offers,
    })
}

/// What a script says, before its counts are judged.
#[derive(Drop)]
struct Parts<'a> {
    facts: Names<'a>,
    actions: Vec<Action>,
    init: FactSet,
    goal: FactSet,
    plan: ActList,
    after: After,
}

#[tactic(auto, unfolding(crate::specs::Whole::script_at))]
fn script_at<'a>(alloc: Global, text: &'a [u8]) -> Result<Parts<'a>, TextErr>
    requires { length text.now < 2 ^ 32 }
    ensures { Gives script_of result (script_at (worded text.now)) }
{
    let at = head_at(text)?;
    let (facts, at) = facts_at(alloc, at)?;
    let (found, at) = actions_at(alloc, &facts, at)?;
    let (init, at) = set_line(alloc, b"init", &facts, at)?;
    let (goal, at) = set_line(alloc, b"goal", &facts, at)?;
    let (plan, at) = plan_line(alloc, &found.names, at)?;
    let after = rest_at(alloc, &found.names, plan.as_slice(), at)?;
    let Actions { actions, names: _ } = found;
    Ok(Parts {
        facts,
        actions,
        init,
        goal,
        plan,
        after,
    })
}

/// The first count that passes its limit, and the limit plus one.
fn first_over(parts: &Parts) -> Option<(Limit, u64)>
    ensures { result ≡ over_of (script_of parts.now) }
{
    if parts.facts.len() > 262_144 {
        return Some((Limit::Facts, 262_145));
    }
    if parts.actions.len() > 1_000_000 {
        return Some((Limit::Actions, 1_000_001));
    }
    if parts.plan.len() > 2_000 {
        return Some((Limit::Steps, 2_001));
    }
    if parts.after.offers.len() > 1_000_000 {
        return Some((Limit::Offers, 1_000_001));
    }
    None
}

fn script_from(alloc: Global, parts: Parts) -> Result<Script, NoMemory>
    requires { IsTask (task_of parts) }
    ensures { IfOk result (λ s. s ≡ script_of parts.entry) }
{
    let names = parts.facts.texts(alloc)?;
    Ok(Script {
        task: Task::new(names, parts.actions, parts.init, parts.goal),
        plan: parts.plan,
        start: parts.after.start,
        start_line: parts.after.start_line,
        stop: parts.after.stop,
        offers: Items::of(parts.after.offers),
    })
}

fn read_within(alloc: Global, text: &[u8]) -> Result<Script, TextErr>
    requires { length text.now < 2 ^ 32 }
    ensures { Answers result (script_at (worded text.now)) }
{
    let parts = script_at(alloc, text)?;
    match first_over(&parts) {
        None => Ok(script_from(alloc, parts)?),
        Some((limit, count)) => Err(TextErr::Over { limit, count }),
    }
}

/// The script that a text spells.
pub fn read_script(alloc: Global, text: &[u8]) -> Result<Script, TextErr>
    requires { length text.now < 2 ^ 32 }
    // Ok exactly where the text spells a script within the limits, Over exactly where it spells one
    // beyond them, and a place and cause exactly where it spells none.
    ensures spelled { Spelled text.now result }
    // Which place and cause it is.
    ensures first { Answers result (script_at (worded text.now)) }
    // What the callers need of it.
    ensures in_range { IfOk result (λ s. All (λ a. a < length s.task.actions) s.plan) }
    ensures few { IfOk result (λ s. length s.plan ≤ 2_000) }
    ensures stops { IfOk result (λ s. (0 < s.stop) × (s.stop ≤ 1_000_000)) }
    ensures start { IfOk result (λ s. StartsBy (length s.task.actions) (length text.now) s.plan s.start) }
    ensures offers_in_range { IfOk result (λ s. All (λ o. HasActionsBelow (length s.task.actions) o) s.offers) }
    ensures few_offers { IfOk result (λ s. length s.offers ≤ 1_000_000) }
    ensures offers_lent { IfOk result (λ s. All IsLent s.offers) }
    ensures distinct { IfOk result (λ s. AreNew [] s.task.facts × AreNew [] (map (λ a. a.name) s.task.actions)) }
{
    read_within(alloc, text)
}

/// No text spells two scripts.
pub fn one_script()
    ensures { (text : List ℕ) (s t : Script) → SpellsScript text s → SpellsScript text t → s ≡ t }
{}

// The lines of a block's orderings: of each pair with nothing between, and of each of its reasons.
ghost use Rattle.std.specs.Prelude.{◌≡◌, ◌++◌, Some, length, slice_get, OnOk};
ghost use Rattle.bd_tree.specs.Misfit.{leads_to};
ghost use Rattle.bd_report.specs.Range.{AreChildrenIn, AreReasonsIn, IsChildIn};
ghost use Rattle.bd_report.specs.TreeText.{order_lines, pair_lines, reason_lines, two_lines};

use crate::lines::{push_bare, push_ordering};
use bd_base::{NoMemory, NodeId, PairList};
use bd_links::Child;
use bd_reason::{Reason, reasons_between};
use bd_task::Task;
use std::alloc::Global;

// Whether i is before some position that is before j.
#[tactic(auto, using(crate::proofs::LeadLemmas::leads_is))]
fn leads_to(order: &PairList, i: u32, j: u32) -> bool
    ensures { result ≡ leads_to order.now (i, j) }
{
    for k in order.after(i).iter() {
        if order.has(k, j) {
            return true;
        }
    }
    false
}

// A line for each reason, and one line where there is none.
fn push_reasons(
    text: &mut Vec<u8>,
    task: &Task,
    margin: &[u8],
    i: NodeId,
    j: NodeId,
    reasons: &[Reason],
) -> Result<(), NoMemory>
    requires { AreReasonsIn (length task.now.facts) reasons.now }
    ensures { OnOk result (text.new.items ≡ text.old.items ++ reason_lines task.now margin.now i j reasons.now) }
{
    if reasons.is_empty() {
        return push_bare(text, margin, i, j);
    }
    for reason in reasons {
        push_ordering(text, task, margin, i, j, reason)?;
    }
    Ok(())
}

// The lines of two kids that are ordered.
fn push_two(
    alloc: Global,
    text: &mut Vec<u8>,
    task: &Task,
    margin: &[u8],
    first: &Child<'_>,
    second: &Child<'_>,
) -> Result<(), NoMemory>
    requires { IsChildIn (length task.now.facts) first.now }
    ensures { OnOk result (text.new.items ≡ text.old.items ++ two_lines task.now margin.now (Some first.now) (Some second.now)) }
{
    let reasons = reasons_between(alloc, first, second)?;
    push_reasons(text, task, margin, first.id(), second.id(), &reasons)
}

// The same of the kids at two places.
fn push_places(
    alloc: Global,
    text: &mut Vec<u8>,
    task: &Task,
    margin: &[u8],
    kids: &[Child<'_>],
    i: u32,
    j: u32,
) -> Result<(), NoMemory>
    requires { AreChildrenIn (length task.now.facts) kids.now }
    ensures { OnOk result (text.new.items ≡ text.old.items ++ two_lines task.now margin.now (slice_get kids.now i) (slice_get kids.now j)) }
{
    match kids.get(i as usize) {
        None => Ok(()),
        Some(first) => match kids.get(j as usize) {
            None => Ok(()),
            Some(second) => push_two(alloc, text, task, margin, first, second),
        },
    }
}

// The same of a pair of the order, if nothing is between.
fn push_pair(
    alloc: Global,
    text: &mut Vec<u8>,
    task: &Task,
    margin: &[u8],
    kids: &[Child<'_>],
    order: &PairList,
    pair: (u32, u32),
) -> Result<(), NoMemory>
    requires { AreChildrenIn (length task.now.facts) kids.now }
    ensures { OnOk result (text.new.items ≡ text.old.items ++ pair_lines task.now margin.now kids.now order.now pair) }
{
    if leads_to(order, pair.0, pair.1) {
        return Ok(());
    }
    push_places(alloc, text, task, margin, kids, pair.0, pair.1)
}

/// The lines of the orderings of a block with these kids.
pub fn push_orderings(
    alloc: Global,
    text: &mut Vec<u8>,
    task: &Task,
    margin: &[u8],
    kids: &[Child<'_>],
    order: &PairList,
) -> Result<(), NoMemory>
    requires { AreChildrenIn (length task.now.facts) kids.now }
    ensures { OnOk result (text.new.items ≡ text.old.items ++ order_lines task.now margin.now kids.now order.now) }
{
    for pair in order.iter() {
        push_pair(alloc, text, task, margin, kids, order, pair)?;
    }
    Ok(())
}

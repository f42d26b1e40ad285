ghost use Rattle.std.specs.List.{filter, list_all};
ghost use Rattle.std.specs.Option.{option_copied};
ghost use Rattle.std.specs.Prelude.{◌≡◌, ◌++◌, length, map, true, IfOk, IsTrue, OnOk};
ghost use Rattle.bd_base.specs.Facts.{has};
ghost use Rattle.bd_links.specs.Sound.{are_below, effects_of};
ghost use Rattle.bd_reason.specs.Reasons.{kid_with, reasons_if, reasons_in, reasons_of};
ghost use Rattle.bd_reason.specs.declared.reason.Reason.TheVariants.{PC, CD, DP};

use crate::Reason;
use bd_base::{FactSet, NoMemory, NodeId};
use bd_links::{Child, as_child};
use bd_task::Task;
use bd_tree::Node;
use std::alloc::Global;

/// The reasons for which kid i of a block is before kid j, by their ids: what i gives and j needs, what i needs and j
/// deletes, and what i deletes and j gives, each by rising fact. Only the effects of these two are made.
pub fn reasons(
    alloc: Global,
    task: &Task,
    block: &Node,
    i: NodeId,
    j: NodeId,
) -> Result<Vec<Reason>, NoMemory>
    requires { IsTrue (are_below (length task.now.actions) block.now) }
    ensures { IfOk result (λ v. v.items ≡ reasons_in task.now.actions block.now i j) }
{
    match block {
        Node::Step { .. } => Ok(Vec::new(alloc)),
        Node::Block { kids, .. } => reasons_among(alloc, task, kids.as_slice(), i, j),
    }
}

// The same of the kids of a block.
fn reasons_among(
    alloc: Global,
    task: &Task,
    kids: &[Node],
    i: NodeId,
    j: NodeId,
) -> Result<Vec<Reason>, NoMemory>
    requires { list_all (λ b. b) (map (are_below (length task.now.actions)) kids.now) ≡ true }
    ensures { IfOk result (λ v. v.items ≡ reasons_if task.now.actions (kid_with i kids.now) (kid_with j kids.now)) }
{
    match (find_kid(kids, i), find_kid(kids, j)) {
        (Some(first), Some(second)) => reasons_of_kids(alloc, task, first, second),
        _ => Ok(Vec::new(alloc)),
    }
}

// The reasons of two nodes.
fn reasons_of_kids(
    alloc: Global,
    task: &Task,
    first: &Node,
    second: &Node,
) -> Result<Vec<Reason>, NoMemory>
    requires first { IsTrue (are_below (length task.now.actions) first.now) }
    requires second { IsTrue (are_below (length task.now.actions) second.now) }
    ensures { IfOk result (λ v. v.items ≡ reasons_of (effects_of task.now.actions first.now) (effects_of task.now.actions second.now)) }
{
    let from = as_child(alloc, task, first)?;
    let to = as_child(alloc, task, second)?;
    reasons_between(alloc, &from, &to)
}

// The kid with the id.
fn find_kid(kids: &[Node], id: NodeId) -> Option<&Node>
    ensures { option_copied result ≡ kid_with id kids.now }
{
    kids.iter().find(|kid| kid.id() == id)
}

/// The reasons for which the first child is before the second.
pub fn reasons_between(
    alloc: Global,
    from: &Child<'_>,
    to: &Child<'_>,
) -> Result<Vec<Reason>, NoMemory>
    ensures { IfOk result (λ v. v.items ≡ reasons_of from.now.effects to.now.effects) }
{
    let mut list = Vec::new(alloc);
    put_causes(&mut list, from.add(), to.need())?;
    put_threats(&mut list, from.need(), to.del())?;
    put_restorings(&mut list, from.del(), to.add())?;
    Ok(list)
}

// Puts in that the first gives what the second needs.
fn put_causes(list: &mut Vec<Reason>, given: &FactSet, needed: &FactSet) -> Result<(), NoMemory>
    ensures { OnOk result (list.new.items ≡ list.old.items ++ map PC (filter (has needed.now) given.now)) }
{
    for p in given.iter() {
        if needed.has(p) {
            list.push(Reason::PC(p))?;
        }
    }
    Ok(())
}

// Puts in that the first needs what the second deletes.
fn put_threats(list: &mut Vec<Reason>, needed: &FactSet, deleted: &FactSet) -> Result<(), NoMemory>
    ensures { OnOk result (list.new.items ≡ list.old.items ++ map CD (filter (has deleted.now) needed.now)) }
{
    for p in needed.iter() {
        if deleted.has(p) {
            list.push(Reason::CD(p))?;
        }
    }
    Ok(())
}

// Puts in that the first deletes what the second gives.
fn put_restorings(
    list: &mut Vec<Reason>,
    deleted: &FactSet,
    given: &FactSet,
) -> Result<(), NoMemory>
    ensures { OnOk result (list.new.items ≡ list.old.items ++ map DP (filter (has given.now) deleted.now)) }
{
    for p in deleted.iter() {
        if given.has(p) {
            list.push(Reason::DP(p))?;
        }
    }
    Ok(())
}

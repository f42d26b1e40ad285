// The effects of a block, as sets.
ghost use Rattle.std.specs.Prelude.{◌≡◌, not, filter, find, None, IfOk};
ghost use Rattle.std.specs.List.{enumerate_from};
ghost use Rattle.bd_base.specs.Facts.{plus};
ghost use Rattle.bd_links.specs.Effects.{all_facts, block_effects};
ghost use Rattle.bd_links.specs.Faults.{block_fault};
ghost use Rattle.bd_links.specs.Judged.{Judges};
ghost use Rattle.bd_links.specs.Rows.{Tells, linked_by, safe_by};

use crate::links::{all_later, is_given, is_linked};
use crate::parts::{Child, Effects, Stop, Touches};
use crate::touches::touches_of;
use bd_base::{FactId, FactSet, NoMemory, NodeId, PairList};
use std::alloc::Global;

// Adds the facts that kid j needs and isn't linked for.
fn need_unlinked(
    alloc: Global,
    order: &PairList,
    touches: &Touches,
    j: usize,
    facts: &FactSet,
    need: &mut FactSet,
) -> Result<(), NoMemory>
    ensures { IfOk result (λ _. need.new ≡ plus need.old (filter (λ p. not (linked_by order.now touches.now j p)) facts.now)) }
{
    for p in facts.iter() {
        if !is_linked(order, touches, j, p) {
            need.insert(alloc, p)?;
        }
    }
    Ok(())
}

fn needs_of_block(
    alloc: Global,
    order: &PairList,
    touches: &Touches,
    kids: &[Child<'_>],
) -> Result<FactSet, NoMemory>
    requires { Tells touches.now (enumerate_from 0 kids.now) }
    ensures { IfOk result (λ s. s ≡ (block_effects order.now (enumerate_from 0 kids.now)).need) }
{
    let mut need = FactSet::new();
    for (j, kid) in kids.iter().enumerate() {
        need_unlinked(alloc, order, touches, j, kid.need(), &mut need)?;
    }
    Ok(need)
}

// The least of the facts that kid j isn't safe for. Where there is none, those that it isn't linked for are
// added.
fn judge_needs(
    alloc: Global,
    order: &PairList,
    touches: &Touches,
    j: usize,
    facts: &FactSet,
    need: &mut FactSet,
) -> Result<Option<FactId>, NoMemory>
    ensures told { IfOk result (λ f. f ≡ find (λ p. not (safe_by order.now touches.now j p)) facts.now) }
    ensures need { IfOk result (λ f. f ≡ None → need.new ≡ plus need.old (filter (λ p. not (linked_by order.now touches.now j p)) facts.now)) }
{
    for p in facts.iter() {
        if !is_linked(order, touches, j, p) {
            if !all_later(order, touches, j, p) {
                return Ok(Some(p));
            }
            need.insert(alloc, p)?;
        }
    }
    Ok(None)
}

// What a block needs, or its first fault.
fn judged_needs(
    alloc: Global,
    block: NodeId,
    order: &PairList,
    touches: &Touches,
    kids: &[Child<'_>],
) -> Result<FactSet, Stop>
    requires { Tells touches.now (enumerate_from 0 kids.now) }
    ensures { Judges (block_fault block order.now (enumerate_from 0 kids.now)) (block_effects order.now (enumerate_from 0 kids.now)).need result }
{
    let mut need = FactSet::new();
    for (j, kid) in kids.iter().enumerate() {
        let found = judge_needs(alloc, order, touches, j, kid.need(), &mut need)?;
        match found {
            Some(fact) => {
                return Err(Stop::inside(block, kid.id(), fact));
            }
            None => {}
        }
    }
    Ok(need)
}

/// The facts that the kids give.
pub fn adds_of_all(alloc: Global, kids: &[Child<'_>]) -> Result<FactSet, NoMemory>
    ensures { IfOk result (λ s. s ≡ all_facts (λ e. e.add) (enumerate_from 0 kids.now)) }
{
    let mut s = FactSet::new();
    for kid in kids {
        s.join(alloc, kid.add())?;
    }
    Ok(s)
}

fn adds_of_block(
    alloc: Global,
    order: &PairList,
    touches: &Touches,
    kids: &[Child<'_>],
) -> Result<FactSet, NoMemory>
    requires { Tells touches.now (enumerate_from 0 kids.now) }
    ensures { IfOk result (λ s. s ≡ (block_effects order.now (enumerate_from 0 kids.now)).add) }
{
    let facts = adds_of_all(alloc, kids)?;
    let mut kept = FactSet::new();
    for f in facts.iter() {
        if is_given(order, touches, f) {
            kept.insert(alloc, f)?;
        }
    }
    Ok(kept)
}

/// The facts that the kids delete.
pub fn dels_of_all(alloc: Global, kids: &[Child<'_>]) -> Result<FactSet, NoMemory>
    ensures { IfOk result (λ s. s ≡ all_facts (λ e. e.del) (enumerate_from 0 kids.now)) }
{
    let mut s = FactSet::new();
    for kid in kids {
        s.join(alloc, kid.del())?;
    }
    Ok(s)
}

// The effects of a block with these needs: it deletes what a kid deletes, and it doesn't give.
fn effects_with(
    alloc: Global,
    order: &PairList,
    touches: &Touches,
    kids: &[Child<'_>],
    need: FactSet,
) -> Result<Effects, NoMemory>
    requires touches { Tells touches.now (enumerate_from 0 kids.now) }
    requires need { need ≡ (block_effects order.now (enumerate_from 0 kids.now)).need }
    ensures { IfOk result (λ e. e ≡ block_effects order.now (enumerate_from 0 kids.now)) }
{
    let add = adds_of_block(alloc, order, touches, kids)?;
    let mut del = dels_of_all(alloc, kids)?;
    del.minus(&add);
    Ok(Effects { need, add, del })
}

/// What a block of these kids needs, gives and deletes, by its links.
pub fn effects_of_links(
    alloc: Global,
    order: &PairList,
    kids: &[Child<'_>],
) -> Result<Effects, NoMemory>
    ensures { IfOk result (λ e. e ≡ block_effects order.now (enumerate_from 0 kids.now)) }
{
    let touches = touches_of(alloc, kids)?;
    let need = needs_of_block(alloc, order, &touches, kids)?;
    effects_with(alloc, order, &touches, kids, need)
}

/// A block's effects or its first fault, by its links.
pub fn judge_links(
    alloc: Global,
    block: NodeId,
    order: &PairList,
    kids: &[Child<'_>],
) -> Result<Effects, Stop>
    ensures { Judges (block_fault block order.now (enumerate_from 0 kids.now)) (block_effects order.now (enumerate_from 0 kids.now)) result }
{
    let touches = touches_of(alloc, kids)?;
    let need = judged_needs(alloc, block, order, &touches, kids)?;
    Ok(effects_with(alloc, order, &touches, kids, need)?)
}

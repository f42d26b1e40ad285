// Kids that run in turn, each before all later ones: one pass in place of a test for each pair.
ghost use Rattle.std.specs.Prelude.{◌≡◌, not, filter, find, IfOk};
ghost use Rattle.bd_base.specs.Facts.{has, plus};
ghost use Rattle.bd_links.specs.InTurn.{no_effects, turn, turns, turns_fault};
ghost use Rattle.bd_links.specs.Judged.{Judges};

use crate::parts::{Child, Effects, Stop};
use bd_base::{FactId, FactSet, NoMemory, NodeId};
use std::alloc::Global;

fn nothing() -> Effects
    ensures { result ≡ no_effects }
{
    Effects {
        need: FactSet::new(),
        add: FactSet::new(),
        del: FactSet::new(),
    }
}

// Adds the wanted facts that weren't given.
fn need_more(
    alloc: Global,
    need: &mut FactSet,
    given: &FactSet,
    wanted: &FactSet,
) -> Result<(), NoMemory>
    ensures { IfOk result (λ _. need.new ≡ plus need.old (filter (λ p. not (has given.now p)) wanted.now)) }
{
    for p in wanted.iter() {
        if !given.has(p) {
            need.insert(alloc, p)?;
        }
    }
    Ok(())
}

// The effects so far, and then the kid's.
fn take_turn(alloc: Global, e: &mut Effects, kid: &Child<'_>) -> Result<(), NoMemory>
    ensures { IfOk result (λ _. e.new ≡ turn e.old kid.now.effects) }
{
    need_more(alloc, &mut e.need, &e.add, kid.need())?;
    e.add.minus(kid.del());
    e.add.join(alloc, kid.add())?;
    e.del.join(alloc, kid.del())?;
    e.del.minus(kid.add());
    Ok(())
}

/// The effects of kids that run in turn.
pub fn effects_in_turn(alloc: Global, kids: &[Child<'_>]) -> Result<Effects, NoMemory>
    ensures { IfOk result (λ e. e ≡ turns no_effects kids.now) }
{
    let mut e = nothing();
    for kid in kids {
        take_turn(alloc, &mut e, kid)?;
    }
    Ok(e)
}

// The least of the facts that is in the set.
fn first_among(facts: &FactSet, s: &FactSet) -> Option<FactId>
    ensures { result ≡ find (has s.now) facts.now }
{
    for p in facts.iter() {
        if s.has(p) {
            return Some(p);
        }
    }
    None
}

/// The effects of kids that run in turn, or their first fault.
pub fn judge_in_turn(alloc: Global, block: NodeId, kids: &[Child<'_>]) -> Result<Effects, Stop>
    ensures { Judges (turns_fault block no_effects kids.now) (turns no_effects kids.now) result }
{
    let mut e = nothing();
    for kid in kids {
        match first_among(kid.need(), &e.del) {
            Some(fact) => {
                return Err(Stop::inside(block, kid.id(), fact));
            }
            None => take_turn(alloc, &mut e, kid)?,
        }
    }
    Ok(e)
}

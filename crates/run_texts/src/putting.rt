// What a run puts to its sinks.
ghost use Rattle.std.specs.Prelude.{◌≡◌, ◌≤◌, ℕ, List, IfOk};
ghost use Rattle.plan_core.specs.Law.{IsLawful};
ghost use Rattle.run_texts.specs.Taken.{Puts};
ghost use Rattle.run_texts.specs.Texts.{entry_text};

use crate::better::better_text;
use bd_base::{NoMemory, Sink, Text};
use plan_core::{Core, Offer};
use std::alloc::Global;

/// Why a run stopped before its end.
#[derive(Clone, Copy, Debug, PartialEq, Eq)]
pub enum Stop {
    /// A sink failed.
    WriteFault,
    /// Memory was wanting.
    NoMemory,
}

/// Puts a text, where there was memory for it.
pub fn put_text<S: Sink>(sink: &mut S, text: Result<Text, NoMemory>) -> Result<(), Stop>
    ensures put { (t : List ℕ) → IfOk text (λ made. made ≡ t) → Puts t (record { before = S.told sink.old; after = S.told sink.new; faults = S.faults sink.old; faults_after = S.faults sink.new }) result }
    ensures later { S.faults sink.old ≤ S.faults sink.new }
{
    match text {
        Err(NoMemory) => Err(Stop::NoMemory),
        Ok(text) => match sink.put(text.as_slice()) {
            Ok(()) => Ok(()),
            Err(_) => Err(Stop::WriteFault),
        },
    }
}

/// Puts what the offer puts that the core has just taken: a replacement the plan of the core's tree, which is better than
/// the one before.
pub fn put_entry<S: Sink>(
    alloc: Global,
    core: &Core,
    offer: &Offer,
    place: u64,
    out: &mut S,
) -> Result<(), Stop>
    ensures lawful { IsLawful core.now }
    ensures put { Puts (entry_text core.now.task place offer.now core.now.tree) (record { before = S.told out.old; after = S.told out.new; faults = S.faults out.old; faults_after = S.faults out.new }) result }
    ensures later { S.faults out.old ≤ S.faults out.new }
{
    let tree = core.tree();
    match offer {
        Offer::Replace { .. } => put_text(out, better_text(alloc, core.task(), place, tree)),
        Offer::Tighten { .. } => Ok(()),
        Offer::Rebuild { .. } => Ok(()),
    }
}

// A turn by one worker: a rebuild where one is due, all gains, and a round over the family.
ghost use Rattle.std.specs.Prelude.{◌≡◌, ◌<◌, ◌≤◌, false, None, length, IfErr, IfOk};
ghost use Rattle.bd_tight.specs.Candidates.{IsTight};
ghost use Rattle.plan_core.specs.Core.{CoreView, is_replacement};
ghost use Rattle.plan_rebuild.specs.Grown.{Adds, Grows};
ghost use Rattle.plan_rebuild.specs.Rebuilds.{GrowsRightly, closed};
ghost use Rattle.bd_workers.specs.Inner.{AreTrue, IsLeft, end_of};
ghost use Rattle.bd_workers.specs.Turn.{IsEnd, ends_in_replacement};

use crate::keeping::Kept;
use crate::parts::{Setup, Turn};
use crate::rounds::pieces_of;
use bd_base::NoMemory;
use bd_pieces::{End, Piece, Proposer};
use bd_window::FamilyWalk;
use plan_core::{Core, Offer};
use plan_rebuild::{rebuild, tighten};
use std::alloc::Global;

// A round over the family of a core that is open and tight.
fn round<P: Proposer>(
    alloc: Global,
    core: &mut Core,
    setup: &Setup,
    proposer: &mut P,
    kept: &mut Kept,
) -> Result<Vec<Piece>, NoMemory>
    requires few { length core.old.task.facts ≤ 262_144 }
    requires free { closed core.old ≡ false }
    requires tight { IsTight core.old.task core.old.tree setup.now.span }
    requires kept { AreTrue core.old.task setup.now.nodes kept.old }
    ensures kept { AreTrue core.old.task setup.now.nodes kept.new }
    ensures adds { Adds is_replacement core.old core.new }
    ensures left { IfOk result (λ ps. (before : CoreView) → Grows before core.old → IsLeft before setup.now core.new ps.items) }
{
    core.keeps();
    let tree = core.tree().try_copy(alloc)?;
    let mut walk = FamilyWalk::of(alloc, &tree, setup.width)?;
    let pieces = pieces_of(alloc, core, &mut walk, setup.nodes, proposer, kept)?;
    core.keeps();
    Ok(pieces)
}

// The three steps of a turn; the pieces are those of its round, and none where the core is closed before it.
fn pieces_of_turn<P: Proposer>(
    alloc: Global,
    core: &mut Core,
    setup: &Setup,
    proposer: &mut P,
    kept: &mut Kept,
) -> Result<Vec<Piece>, NoMemory>
    requires few { length core.old.task.facts ≤ 262_144 }
    requires kept { AreTrue core.old.task setup.now.nodes kept.old }
    ensures kept { AreTrue core.old.task setup.now.nodes kept.new }
    ensures step { GrowsRightly core.old core.new }
    ensures left { IfOk result (λ ps. IsLeft core.old setup.now core.new ps.items) }
{
    if core.closed() {
        return Ok(Vec::new(alloc));
    }
    rebuild(alloc, core)?;
    tighten(alloc, core, setup.span)?;
    if core.closed() {
        return Ok(Vec::new(alloc));
    }
    round(alloc, core, setup, proposer, kept)
}

fn is_replacement(offer: &Offer) -> bool
    ensures { result ≡ is_replacement offer.now }
{
    match offer {
        Offer::Replace { .. } => true,
        Offer::Tighten { .. } => false,
        Offer::Rebuild { .. } => false,
    }
}

// Whether the last of the entries is a replacement.
fn ends_in_replacement(history: &[Offer]) -> bool
    ensures { result ≡ ends_in_replacement history.now }
{
    let mut last = false;
    for offer in history {
        last = is_replacement(offer);
    }
    last
}

// How a turn ended whose core had so many entries before.
fn end_of(core: &Core, from: usize) -> Option<End>
    requires { from ≤ length core.now.history }
    ensures { result ≡ end_of from core.now }
{
    if core.closed() {
        return Some(End::Closed);
    }
    let (_, added) = core.history().split_at(from);
    if ends_in_replacement(added) {
        None
    } else {
        Some(End::Dry)
    }
}

// The same, unless memory was wanting.
fn told_end(core: &Core, from: usize, pieces: &Result<Vec<Piece>, NoMemory>) -> Option<End>
    requires { from ≤ length core.now.history }
    ensures ends { IfOk pieces.now (λ _. result ≡ end_of from core.now) }
    ensures memory { IfErr pieces.now (λ _. result ≡ None) }
{
    match pieces {
        Ok(_) => end_of(core, from),
        Err(_) => None,
    }
}

// One turn, with this proposer and these verdicts.
pub(crate) fn turn_with<P: Proposer>(
    alloc: Global,
    core: Core,
    setup: &Setup,
    proposer: &mut P,
    kept: &mut Kept,
) -> Turn
    requires few { length core.task.facts ≤ 262_144 }
    requires kept { AreTrue core.task setup.now.nodes kept.old }
    ensures kept { AreTrue core.task setup.now.nodes kept.new }
    ensures step { GrowsRightly core result.core }
    ensures ends { IfOk result.pieces (λ ps. IsEnd core setup.now result.core ps.items result.end) }
    ensures memory { IfErr result.pieces (λ _. result.end ≡ None) }
{
    let mut core = core;
    let from = core.history().len();
    let pieces = pieces_of_turn(alloc, &mut core, setup, proposer, kept);
    let end = told_end(&core, from, &pieces);
    Turn { core, pieces, end }
}

/// One turn by one worker, the first of the crew: a rebuild where one is due, all gains, and a round over the family. The core is
/// always given back, also where memory was wanting; then there are no pieces and there is no end. The task has at most 262,144
/// facts.
pub fn turn_alone<P: Proposer>(alloc: Global, core: Core, setup: &Setup, crew: &mut [P]) -> Turn
    requires few { length core.task.facts ≤ 262_144 }
    requires crew { 0 < length crew.old }
    ensures step { GrowsRightly core result.core }
    ensures ends { IfOk result.pieces (λ ps. IsEnd core setup.now result.core ps.items result.end) }
    ensures memory { IfErr result.pieces (λ _. result.end ≡ None) }
{
    let mut kept = Kept::new(alloc);
    turn_with(alloc, core, setup, &mut crew[0], &mut kept)
}

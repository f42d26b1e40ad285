// A round by one worker: each window is looked at in turn, and what is found for it is offered.
ghost use Rattle.std.specs.Prelude.{◌≡◌, ◌<◌, ◌≤◌, true, false, [], length, IfOk, OnOk};
ghost use Rattle.bd_merge.specs.Stands.{Stands};
ghost use Rattle.bd_merge.specs.declared.standing.Found.TheVariants.{At};
ghost use Rattle.bd_subtask.specs.Law.{Fits};
ghost use Rattle.plan_core.specs.Core.{is_replacement};
ghost use Rattle.plan_rebuild.specs.Grown.{Adds};
ghost use Rattle.bd_workers.specs.Inner.{AreTrue, Shows, Walks};
ghost use Rattle.bd_workers.specs.Round.{ArePieces, IsPiece, IsRound, IsVerdictOn, RepliesTo};

use crate::keeping::Kept;
use crate::looking::{View, verdict_of};
use crate::offering::{offer_proposal, reply_to_found};
use crate::parts::{Round, Setup};
use crate::windows::{Listed, Windows};
use bd_base::NoMemory;
use bd_merge::{Found, Window, stands};
use bd_pieces::{Piece, Proposer, Refused, Verdict, What};
use bd_search::Kind;
use bd_subtask::Posing;
use bd_task::Task;
use plan_core::Core;
use std::alloc::Global;

// Offers what the proposer has for the window.
fn propose<P: Proposer>(
    alloc: Global,
    core: &mut Core,
    window: &Window,
    verdict: &Verdict,
    proposer: &mut P,
) -> Result<(), NoMemory>
    requires few { length core.old.task.facts ≤ 262_144 }
    requires fits { Fits core.old.task verdict.now.sub }
    ensures { Adds is_replacement core.old core.new }
{
    match proposer.propose(alloc, core.task(), &verdict.sub)? {
        None => Ok(()),
        Some(list) => offer_proposal(alloc, core, window, list.as_slice()),
    }
}

// The reply to what was found for the window, if a list was found; after a spent budget the proposer is asked.
fn reply_of<P: Proposer>(
    alloc: Global,
    core: &mut Core,
    window: &Window,
    verdict: &Verdict,
    nodes: u32,
    proposer: &mut P,
) -> Result<Option<Result<u64, Refused>>, NoMemory>
    requires stands { Stands core.old.tree window.now At }
    requires few { length core.old.task.facts ≤ 262_144 }
    requires holds { IsVerdictOn core.old.task core.old.tree window.now nodes verdict.now }
    requires fits { Fits core.old.task verdict.now.sub }
    ensures adds { Adds is_replacement core.old core.new }
    ensures reply { IfOk result (λ reply. RepliesTo core.new (length core.old.history) window.now verdict.now.kind reply) }
{
    match &verdict.kind {
        Kind::Found(list) => {
            let reply = reply_to_found(alloc, core, window, list.as_slice())?;
            Ok(Some(reply))
        }
        Kind::Exhausted => Ok(None),
        Kind::Spent { .. } => {
            propose(alloc, core, window, verdict, proposer)?;
            Ok(None)
        }
    }
}

// What becomes of a window that stands.
fn judged<P: Proposer>(
    alloc: Global,
    core: &mut Core,
    view: &View<'_>,
    window: &Window,
    proposer: &mut P,
    kept: &mut Kept,
) -> Result<Piece, NoMemory>
    requires stands { Stands core.old.tree window.now At }
    requires few { length core.old.task.facts ≤ 262_144 }
    requires shows { Shows view.now core.old }
    requires kept { AreTrue core.old.task view.now.nodes kept.old }
    ensures adds { Adds is_replacement core.old core.new }
    ensures kept { AreTrue core.old.task view.now.nodes kept.new }
    ensures piece { IfOk result (λ p. IsPiece core.old core.new view.now.nodes window.now p) }
{
    core.keeps();
    let place = core.history().len() as u64;
    let verdict = verdict_of(alloc, core, view, window, kept)?;
    let reply = reply_of(alloc, core, window, &verdict, view.nodes, proposer)?;
    Ok(Piece {
        place,
        what: What::Judged { verdict, reply },
    })
}

// What becomes of a window: it is skipped where it doesn't stand in the core's tree.
fn piece_of<P: Proposer>(
    alloc: Global,
    core: &mut Core,
    view: &View<'_>,
    window: &Window,
    proposer: &mut P,
    kept: &mut Kept,
) -> Result<Piece, NoMemory>
    requires few { length core.old.task.facts ≤ 262_144 }
    requires shows { Shows view.now core.old }
    requires kept { AreTrue core.old.task view.now.nodes kept.old }
    ensures adds { Adds is_replacement core.old core.new }
    ensures kept { AreTrue core.old.task view.now.nodes kept.new }
    ensures piece { IfOk result (λ p. IsPiece core.old core.new view.now.nodes window.now p) }
{
    core.keeps();
    let place = core.history().len() as u64;
    match stands(core.tree(), window) {
        Found::At => judged(alloc, core, view, window, proposer, kept),
        Found::Gone => Ok(Piece {
            place,
            what: What::Skipped(Found::Gone),
        }),
        Found::Split => Ok(Piece {
            place,
            what: What::Skipped(Found::Split),
        }),
    }
}

// The same, and whether the history has grown; else the core is the same.
fn step<P: Proposer>(
    alloc: Global,
    core: &mut Core,
    view: &View<'_>,
    window: &Window,
    proposer: &mut P,
    kept: &mut Kept,
) -> Result<(Piece, bool), NoMemory>
    requires few { length core.old.task.facts ≤ 262_144 }
    requires shows { Shows view.now core.old }
    requires kept { AreTrue core.old.task view.now.nodes kept.old }
    ensures adds { Adds is_replacement core.old core.new }
    ensures kept { AreTrue core.old.task view.now.nodes kept.new }
    ensures piece { IfOk result (λ r. IsPiece core.old core.new view.now.nodes window.now r.0) }
    ensures same { IfOk result (λ r. r.1 ≡ false → core.new ≡ core.old) }
{
    core.keeps();
    let before = core.history().len();
    let piece = piece_of(alloc, core, view, window, proposer, kept)?;
    core.keeps();
    let grown = core.history().len() > before;
    Ok((piece, grown))
}

// Looks at the windows until the history has grown or none is left, and puts a piece for each. It tells whether the history
// has grown.
fn put_pieces<W: Windows, P: Proposer>(
    alloc: Global,
    core: &mut Core,
    view: &View<'_>,
    windows: &mut W,
    proposer: &mut P,
    kept: &mut Kept,
    pieces: &mut Vec<Piece>,
) -> Result<bool, NoMemory>
    requires few { length core.old.task.facts ≤ 262_144 }
    requires shows { Shows view.now core.old }
    requires kept { AreTrue core.old.task view.now.nodes kept.old }
    ensures adds { Adds is_replacement core.old core.new }
    ensures kept { AreTrue core.old.task view.now.nodes kept.new }
    ensures walks { OnOk result (Walks core.old core.new view.now.nodes (W.left windows.old) (W.left windows.new) pieces.old.items pieces.new.items) }
    ensures fewer { IfOk result (λ grown. grown ≡ true → length (W.left windows.new) < length (W.left windows.old)) }
    ensures none { IfOk result (λ grown. grown ≡ false → W.left windows.new ≡ []) }
{
    while let Some(window) = windows.give(alloc)? {
        let (piece, grown) = step(alloc, core, view, &window, proposer, kept)?;
        pieces.push(piece)?;
        if grown {
            return Ok(true);
        }
    }
    Ok(false)
}

// The same, by a view of the core's tree.
fn put_next<W: Windows, P: Proposer>(
    alloc: Global,
    core: &mut Core,
    task: &Task,
    windows: &mut W,
    nodes: u32,
    proposer: &mut P,
    kept: &mut Kept,
    pieces: &mut Vec<Piece>,
) -> Result<bool, NoMemory>
    requires few { length core.old.task.facts ≤ 262_144 }
    requires task { task.now ≡ core.old.task }
    requires kept { AreTrue core.old.task nodes kept.old }
    ensures adds { Adds is_replacement core.old core.new }
    ensures kept { AreTrue core.old.task nodes kept.new }
    ensures walks { OnOk result (Walks core.old core.new nodes (W.left windows.old) (W.left windows.new) pieces.old.items pieces.new.items) }
    ensures fewer { IfOk result (λ grown. grown ≡ true → length (W.left windows.new) < length (W.left windows.old)) }
    ensures none { IfOk result (λ grown. grown ≡ false → W.left windows.new ≡ []) }
{
    core.keeps();
    let tree = core.tree().try_copy(alloc)?;
    let posing = Posing::of(alloc, task, &tree)?;
    let view = View {
        task,
        posing,
        nodes,
    };
    put_pieces(alloc, core, &view, windows, proposer, kept, pieces)
}

// A piece for each window, in their order, by a copy of the core's task.
fn put_all<W: Windows, P: Proposer>(
    alloc: Global,
    core: &mut Core,
    task: &Task,
    windows: &mut W,
    nodes: u32,
    proposer: &mut P,
    kept: &mut Kept,
) -> Result<Vec<Piece>, NoMemory>
    requires few { length core.old.task.facts ≤ 262_144 }
    requires task { task.now ≡ core.old.task }
    requires kept { AreTrue core.old.task nodes kept.old }
    ensures adds { Adds is_replacement core.old core.new }
    ensures kept { AreTrue core.old.task nodes kept.new }
    ensures pieces { IfOk result (λ ps. ArePieces core.old core.new nodes (W.left windows.old) ps.items) }
{
    let mut pieces = Vec::new(alloc);
    while put_next(
        alloc,
        core,
        task,
        windows,
        nodes,
        proposer,
        kept,
        &mut pieces,
    )? {}
    Ok(pieces)
}

// A piece for each window, in their order.
pub(crate) fn pieces_of<W: Windows, P: Proposer>(
    alloc: Global,
    core: &mut Core,
    windows: &mut W,
    nodes: u32,
    proposer: &mut P,
    kept: &mut Kept,
) -> Result<Vec<Piece>, NoMemory>
    requires few { length core.old.task.facts ≤ 262_144 }
    requires kept { AreTrue core.old.task nodes kept.old }
    ensures adds { Adds is_replacement core.old core.new }
    ensures kept { AreTrue core.old.task nodes kept.new }
    ensures pieces { IfOk result (λ ps. ArePieces core.old core.new nodes (W.left windows.old) ps.items) }
{
    let task = core.task().try_copy(alloc)?;
    put_all(alloc, core, &task, windows, nodes, proposer, kept)
}

/// A round over the windows by one worker, the first of the crew. The core is always given back; where pieces are given, there is
/// one for each window, in their order, and each is true at its place. Where memory was wanting there are none. The task has at
/// most 262,144 facts.
pub fn round_alone<P: Proposer>(
    alloc: Global,
    core: Core,
    windows: &[Window],
    setup: &Setup,
    crew: &mut [P],
) -> Round
    requires few { length core.task.facts ≤ 262_144 }
    requires crew { 0 < length crew.old }
    ensures adds { Adds is_replacement core result.core }
    ensures pieces { IfOk result.pieces (λ ps. IsRound core windows.now setup.now.nodes result.core ps.items) }
{
    let mut core = core;
    let mut kept = Kept::new(alloc);
    let mut listed = Listed { rest: windows };
    let pieces = pieces_of(
        alloc,
        &mut core,
        &mut listed,
        setup.nodes,
        &mut crew[0],
        &mut kept,
    );
    Round { core, pieces }
}

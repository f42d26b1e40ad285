// Turns one after another.
ghost use Rattle.std.specs.Prelude.{◌≡◌, ◌<◌, ◌≤◌, None, length, IfErr, IfOk};
ghost use Rattle.plan_rebuild.specs.Rebuilds.{GrowsRightly};
ghost use Rattle.bd_workers.specs.Inner.{goes_on};
ghost use Rattle.bd_workers.specs.Turn.{IsOver};

use crate::keeping::Kept;
use crate::parts::{Setup, Turn};
use crate::turns::turn_with;
use bd_pieces::Proposer;
use plan_core::Core;
use std::alloc::Global;

// Whether another turn follows.
fn goes_on(turn: &Turn) -> bool
    ensures { result ≡ goes_on turn.now.pieces turn.now.end }
{
    match &turn.pieces {
        Ok(_) => turn.end.is_none(),
        Err(_) => false,
    }
}

/// Turns by one worker, the first of the crew, until one ends dry or closed, or memory is wanting: then there are no pieces and
/// there is no end. The pieces are those of the last turn. The core is always given back. The task has at most 262,144 facts.
pub fn improved<P: Proposer>(alloc: Global, core: Core, setup: &Setup, crew: &mut [P]) -> Turn
    requires few { length core.task.facts ≤ 262_144 }
    requires crew { 0 < length crew.old }
    ensures step { GrowsRightly core result.core }
    ensures ends { IfOk result.pieces (λ ps. IsOver setup.now result.core ps.items result.end) }
    ensures memory { IfErr result.pieces (λ _. result.end ≡ None) }
{
    let proposer = &mut crew[0];
    let mut kept = Kept::new(alloc);
    let mut turn = turn_with(alloc, core, setup, proposer, &mut kept);
    while goes_on(&turn) {
        turn = turn_with(alloc, turn.core, setup, proposer, &mut kept);
    }
    turn
}

// A run of turns, and what is told of it.
ghost use Rattle.std.specs.Prelude.{◌≡◌, ◌<◌, ◌≤◌, All, Err, None, [], length, IfErr, IfOk, OnOk};
ghost use Rattle.bd_task.specs.Valid.{IsValid};
ghost use Rattle.plan_core.specs.Law.{IsLawful};
ghost use Rattle.plan_rebuild.specs.Rebuilds.{GrowsRightly};
ghost use Rattle.run_texts.specs.Texts.{betters_of};
ghost use Rattle.run_texts.specs.declared.putting.Stop.TheVariants.{WriteFault};
ghost use Rattle.bd_workers.specs.Turn.{IsOver};
ghost use Rattle.bd_workers.specs.declared.parts.Setup.{Setup};
ghost use Rattle.plan_improve.specs.Improved.{EndsSo, IsImproved, TellsBetter};
ghost use Rattle.plan_improve.specs.Inner.{StepsSo, TellsOn, goes_on};

use crate::opening::{opened, opened_twice};
use crate::putting::put_betters;
use bd_base::{ActionId, NoMemory, Sink};
use bd_pieces::{End, Piece, Proposer};
use bd_task::Task;
use bd_workers::{Setup, Turn, improved, turn_alone};
use plan_core::Core;
use run_texts::Stop;
use std::alloc::Global;

/// What a run of turns came to.
#[derive(Drop)]
pub struct Improvement {
    /// The core after the last turn.
    pub core: Core,
    /// The pieces of the last round; none where the run was stopped.
    pub pieces: Vec<Piece>,
    /// How the run ended; no end where it was stopped.
    pub end: Option<End>,
    /// What stopped the run, if anything did.
    pub told: Result<(), Stop>,
}

// A run that was stopped.
fn stopped(alloc: Global, core: Core, why: Stop) -> Improvement
    ensures core { result.core ≡ core }
    ensures pieces { result.pieces.items ≡ [] }
    ensures end { result.end ≡ None }
    ensures told { result.told ≡ Err why }
{
    Improvement {
        core,
        pieces: Vec::new(alloc),
        end: None,
        told: Err(why),
    }
}

// One turn, and behind it the better plans that it found.
fn step<P: Proposer, S: Sink>(
    alloc: Global,
    core: Core,
    follower: &mut Core,
    setup: &Setup,
    crew: &mut [P],
    out: &mut S,
) -> Improvement
    requires few { length core.task.facts ≤ 262_144 }
    requires crew { 0 < length crew.old }
    requires same { follower.old ≡ core }
    ensures step { GrowsRightly core result.core }
    ensures ends { StepsSo core setup.now result.core result.pieces.items result.end result.told }
    ensures same { OnOk result.told (follower.new ≡ result.core) }
    ensures told { TellsOn (betters_of core) (betters_of result.core) (record { before = S.told out.old; after = S.told out.new; faults = S.faults out.old; faults_after = S.faults out.new }) result.told }
    ensures later { S.faults out.old ≤ S.faults out.new }
{
    let Turn { core, pieces, end } = turn_alone(alloc, core, setup, crew);
    match pieces {
        Err(NoMemory) => stopped(alloc, core, Stop::NoMemory),
        Ok(pieces) => match put_betters(alloc, &core, follower, out) {
            Err(why) => stopped(alloc, core, why),
            Ok(()) => Improvement {
                core,
                pieces,
                end,
                told: Ok(()),
            },
        },
    }
}

// Whether another turn follows.
fn goes_on(run: &Improvement) -> bool
    ensures { result ≡ goes_on run.now.told run.now.end }
{
    match run.told {
        Ok(()) => run.end.is_none(),
        Err(_) => false,
    }
}

// Turns until one ends, or the run is stopped.
fn turns<P: Proposer, S: Sink>(
    alloc: Global,
    core: Core,
    follower: Core,
    setup: &Setup,
    crew: &mut [P],
    out: &mut S,
) -> Improvement
    requires few { length core.task.facts ≤ 262_144 }
    requires crew { 0 < length crew.old }
    requires same { follower ≡ core }
    ensures step { GrowsRightly core result.core }
    ensures ends { EndsSo setup.now result.core result.pieces.items result.end result.told }
    ensures told { TellsOn (betters_of core) (betters_of result.core) (record { before = S.told out.old; after = S.told out.new; faults = S.faults out.old; faults_after = S.faults out.new }) result.told }
    ensures later { S.faults out.old ≤ S.faults out.new }
    ensures lawful { IsLawful result.core }
{
    let mut follower = follower;
    let mut run = step(alloc, core, &mut follower, setup, crew, out);
    while goes_on(&run) {
        run = step(alloc, run.core, &mut follower, setup, crew, out);
    }
    let _ = run.core.tree();
    run
}

/// Improves a valid plan by turns of one worker, the first of the crew, until one ends dry or closed; behind each turn the better
/// plans that it found are put, each with its place and its cost. A sink's fault and want of memory stop the run behind the turn:
/// it is kept as it then is, without an end. The answer is `NoMemory` where memory was wanting before the first turn.
pub fn improve<P: Proposer, S: Sink>(
    alloc: Global,
    task: Task,
    plan: &[ActionId],
    stop: u32,
    setup: &Setup,
    crew: &mut [P],
    out: &mut S,
) -> Result<Improvement, NoMemory>
    requires in_range { All (λ a. a < length task.actions) plan.now }
    requires short { length plan.now ≤ 2_000 }
    requires valid { IsValid task plan.now }
    requires stops { (0 < stop) × (stop ≤ 1_000_000) }
    requires few { length task.facts ≤ 262_144 }
    requires crew { 0 < length crew.old }
    ensures run { IfOk result (λ run. IsImproved task plan.now stop run.core) }
    ensures ends { IfOk result (λ run. EndsSo setup.now run.core run.pieces.items run.end run.told) }
    ensures told { IfOk result (λ run. TellsBetter run.core (record { before = S.told out.old; after = S.told out.new; faults = S.faults out.old; faults_after = S.faults out.new }) run.told) }
    ensures silent { IfErr result (λ _. S.told out.new ≡ S.told out.old) }
    ensures later { S.faults out.old ≤ S.faults out.new }
{
    let (core, follower) = opened_twice(alloc, task, plan, stop)?;
    Ok(turns(alloc, core, follower, setup, crew, out))
}

// A run of turns of which nothing was to be put.
fn untold(alloc: Global, turn: Turn) -> Improvement
    ensures core { result.core ≡ turn.core }
    ensures ends { (setup : Setup) → IfOk turn.pieces (λ ps. IsOver setup turn.core ps.items turn.end) → EndsSo setup result.core result.pieces.items result.end result.told }
    ensures unfailing { result.told ≡ Err WriteFault → ⊥ }
    ensures lawful { IsLawful result.core }
{
    let Turn { core, pieces, end } = turn;
    let _ = core.tree();
    match pieces {
        Err(NoMemory) => stopped(alloc, core, Stop::NoMemory),
        Ok(pieces) => Improvement {
            core,
            pieces,
            end,
            told: Ok(()),
        },
    }
}

/// The same without a sink: nothing is put, and want of memory alone stops the run.
pub fn improve_quietly<P: Proposer>(
    alloc: Global,
    task: Task,
    plan: &[ActionId],
    stop: u32,
    setup: &Setup,
    crew: &mut [P],
) -> Result<Improvement, NoMemory>
    requires in_range { All (λ a. a < length task.actions) plan.now }
    requires short { length plan.now ≤ 2_000 }
    requires valid { IsValid task plan.now }
    requires stops { (0 < stop) × (stop ≤ 1_000_000) }
    requires few { length task.facts ≤ 262_144 }
    requires crew { 0 < length crew.old }
    ensures run { IfOk result (λ run. IsImproved task plan.now stop run.core) }
    ensures ends { IfOk result (λ run. EndsSo setup.now run.core run.pieces.items run.end run.told) }
    ensures unfailing { IfOk result (λ run. run.told ≡ Err WriteFault → ⊥) }
{
    let core = opened(alloc, task, plan, stop)?;
    Ok(untold(alloc, improved(alloc, core, setup, crew)))
}

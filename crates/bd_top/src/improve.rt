// The command `improve`: a valid plan is improved by turns, each better plan is put, and then the summary.
ghost use Rattle.std.specs.Prelude.{◌≡◌, ◌≤◌, length};
ghost use Rattle.command_words.specs.Range.{AreNumbersInRange};
ghost use Rattle.plan_core.specs.Law.{IsPrintable};
ghost use Rattle.bd_top.specs.Deorder.{IsKnown};
ghost use Rattle.bd_top.specs.Improve.{TellsImproved, improved_record, pieces_told, setup_of};

use crate::alone::finished;
use crate::status::{Ended, Status};
use bd_base::{ActList, FromItems, Items, Sink};
use bd_pieces::{End, Greedy, Piece};
use bd_task::Task;
use bd_workers::Setup;
use command_words::Numbers;
use plan_core::Core;
use plan_improve::{Improvement, improve};
use run_texts::RunRecord;
use std::alloc::Global;

/// What turns go by.
pub(crate) fn setup_of(numbers: &Numbers) -> Setup
    ensures { result ≡ setup_of numbers.now }
{
    Setup {
        workers: numbers.workers,
        nodes: numbers.nodes,
        width: numbers.width,
        span: numbers.span,
    }
}

/// The pieces of the last round, where the run ended dry; else none are told.
pub(crate) fn pieces_told(alloc: Global, pieces: Vec<Piece>, end: &Option<End>) -> Vec<Piece>
    ensures { result.items ≡ pieces_told end.now pieces.items }
{
    match end {
        Some(End::Dry) => pieces,
        _ => Vec::new(alloc),
    }
}

/// The record of a core that turns led to.
pub(crate) fn improved_record(
    alloc: Global,
    core: Core,
    pieces: Vec<Piece>,
    end: Option<End>,
) -> RunRecord
    ensures recorded { result ≡ improved_record core pieces.items end }
    ensures start { IsPrintable result.task result.start }
    ensures tree { IsPrintable result.task result.tree }
{
    let (task, start, history, tree) = core.into_parts();
    RunRecord {
        task,
        start,
        history: Items::of(history),
        tree,
        pieces: Items::of(pieces),
        replies: Items::of(Vec::new(alloc)),
        end,
    }
}

/// Improves a valid plan by turns of one worker, however many are asked for, and puts each better plan behind the turn that found
/// it; then the summary.
pub(crate) fn put_improved<S: Sink>(
    alloc: Global,
    task: Task,
    plan: ActList,
    numbers: &Numbers,
    out: &mut S,
) -> Ended
    requires known { IsKnown task plan }
    requires few { length task.facts ≤ 262_144 }
    requires ranges { AreNumbersInRange numbers.now }
    ensures { TellsImproved task plan numbers.now (record { before = S.told out.old; after = S.told out.new; faults = S.faults out.old; faults_after = S.faults out.new }) result.status result.run }
{
    let setup = setup_of(numbers);
    let mut crew = [Greedy::new()];
    match improve(
        alloc,
        task,
        plan.as_slice(),
        numbers.stop,
        &setup,
        &mut crew,
        out,
    ) {
        Err(_) => Ended {
            status: Status::NoMemory,
            run: None,
        },
        Ok(made) => {
            let Improvement {
                core,
                pieces,
                end,
                told,
            } = made;
            let pieces = pieces_told(alloc, pieces, &end);
            let run = improved_record(alloc, core, pieces, end);
            finished(alloc, told, run, out)
        }
    }
}

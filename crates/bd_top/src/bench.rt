// The command `bench`: the plan of generated errands is improved, and the summary alone is put.
ghost use Rattle.std.specs.Prelude.{◌≡◌, ◌≤◌, length};
ghost use Rattle.bd_top.specs.Bench.{TellsSummary, default_numbers};
ghost use Rattle.bd_top.specs.Deorder.{IsKnown};

use crate::alone::finished;
use crate::improve::{improved_record, pieces_told, setup_of};
use crate::status::{Ended, Status};
use bd_base::{ActList, Sink};
use bd_pieces::Greedy;
use bd_task::Task;
use command_words::Numbers;
use plan_improve::{Improvement, improve_quietly};
use std::alloc::Global;

// The numbers that a plan is improved by where the words tell none.
fn default_numbers() -> Numbers
    ensures { result ≡ default_numbers }
{
    Numbers {
        workers: 1,
        nodes: 500,
        width: 6,
        span: 12,
        stop: 1_000_000,
    }
}

/// Improves a valid plan by the default numbers, and puts the summary alone.
pub(crate) fn put_summary<S: Sink>(alloc: Global, task: Task, plan: ActList, out: &mut S) -> Ended
    requires known { IsKnown task plan }
    requires few { length task.facts ≤ 262_144 }
    ensures { TellsSummary task plan (record { before = S.told out.old; after = S.told out.new; faults = S.faults out.old; faults_after = S.faults out.new }) result.status result.run }
{
    let numbers = default_numbers();
    let setup = setup_of(&numbers);
    let mut crew = [Greedy::new()];
    match improve_quietly(
        alloc,
        task,
        plan.as_slice(),
        numbers.stop,
        &setup,
        &mut crew,
    ) {
        Err(_) => Ended {
            status: Status::NoMemory,
            run: None,
        },
        Ok(made) => {
            let Improvement {
                core,
                pieces,
                end,
                told,
            } = made;
            let pieces = pieces_told(alloc, pieces, &end);
            let run = improved_record(alloc, core, pieces, end);
            finished(alloc, told, run, out)
        }
    }
}

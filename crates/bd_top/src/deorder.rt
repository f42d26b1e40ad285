// The command `deorder`: a valid plan is deordered, its tree is tightened, and the tree's text is put.
ghost use Rattle.std.specs.Prelude.{◌≡◌, ℕ, List};
ghost use Rattle.bd_task.specs.TaskView.{TaskView};
ghost use Rattle.plan_core.specs.Law.{IsPrintable};
ghost use Rattle.bd_top.specs.Deorder.{IsKnown, Loosens, TellsTree, tight_record};

use crate::alone::status_of;
use crate::status::{Ended, Status};
use bd_base::{ActList, FromItems, Items, Sink};
use bd_pieces::End;
use bd_report::tree_text;
use bd_task::Task;
use plan_core::Core;
use plan_loosen::loosened;
use run_texts::{RunRecord, put_text};
use std::alloc::Global;

// The record of a core whose tree is tight.
fn tight_record(alloc: Global, core: Core) -> RunRecord
    ensures recorded { result ≡ tight_record core }
    ensures tree { IsPrintable result.task result.tree }
{
    let (task, start, history, tree) = core.into_parts();
    RunRecord {
        task,
        start,
        history: Items::of(history),
        tree,
        pieces: Items::of(Vec::new(alloc)),
        replies: Items::of(Vec::new(alloc)),
        end: Some(End::Tight),
    }
}

// Puts the text of a run's tree.
fn put_tree<S: Sink>(alloc: Global, run: RunRecord, out: &mut S) -> Ended
    requires { IsPrintable run.task run.tree }
    ensures { (task : TaskView) (list : List ℕ) (span : ℕ) → Loosens task list span run → TellsTree task list span (record { before = S.told out.old; after = S.told out.new; faults = S.faults out.old; faults_after = S.faults out.new }) result.status result.run }
{
    let text = tree_text(alloc, &run.task, &run.tree);
    let status = status_of(put_text(out, text));
    Ended {
        status,
        run: Some(run),
    }
}

/// Deorders a valid plan, takes gains until its tree is tight at the span, and puts the tree's text.
pub(crate) fn put_loosened<S: Sink>(
    alloc: Global,
    task: Task,
    plan: ActList,
    span: u32,
    out: &mut S,
) -> Ended
    requires { IsKnown task plan }
    ensures { TellsTree task plan span (record { before = S.told out.old; after = S.told out.new; faults = S.faults out.old; faults_after = S.faults out.new }) result.status result.run }
{
    match loosened(alloc, task, plan.as_slice(), span) {
        Ok(core) => put_tree(alloc, tight_record(alloc, core), out),
        Err(_) => Ended {
            status: Status::NoMemory,
            run: None,
        },
    }
}

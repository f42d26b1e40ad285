// What is said of a window in a core's tree.
ghost use Rattle.std.specs.Prelude.{◌≡◌, ◌≤◌, length, IfOk};
ghost use Rattle.bd_merge.specs.Stands.{Stands};
ghost use Rattle.bd_merge.specs.declared.standing.Found.TheVariants.{At};
ghost use Rattle.bd_pieces.specs.Verdict.{IsTrueOf};
ghost use Rattle.bd_subtask.specs.Law.{Fits};
ghost use Rattle.bd_workers.specs.Inner.{AreTrue, Shows};
ghost use Rattle.bd_workers.specs.Round.{IsVerdictOn};

use crate::keeping::Kept;
use bd_base::NoMemory;
use bd_merge::Window;
use bd_pieces::{Verdict, search};
use bd_subtask::{Posing, SubTask};
use bd_task::Task;
use plan_core::Core;
use std::alloc::Global;

/// A core's task and tree, as they are seen while its history stays, and how many states a search closes at most.
#[derive(Drop)]
pub(crate) struct View<'a> {
    pub task: &'a Task,
    pub posing: Posing<'a>,
    pub nodes: u32,
}

// What a search says of a subtask. It is kept.
fn searched(
    alloc: Global,
    view: &View<'_>,
    sub: &SubTask,
    kept: &mut Kept,
) -> Result<Verdict, NoMemory>
    requires fits { Fits view.now.task.now sub.now }
    requires few { length view.now.task.now.facts ≤ 262_144 }
    requires kept { AreTrue view.now.task.now view.now.nodes kept.old }
    ensures kept { AreTrue view.now.task.now view.now.nodes kept.new }
    ensures same { IfOk result (λ v. v.sub ≡ sub.now) }
    ensures holds { IfOk result (λ v. IsTrueOf view.now.task.now sub.now view.now.nodes v.kind) }
{
    let verdict = search(alloc, view.task, sub, view.nodes)?;
    kept.keep(alloc, &verdict)?;
    Ok(verdict)
}

// What is said of the window: what was said of an equal subtask, if that is kept, and else what a search says.
pub(crate) fn verdict_of(
    alloc: Global,
    core: &Core,
    view: &View<'_>,
    window: &Window,
    kept: &mut Kept,
) -> Result<Verdict, NoMemory>
    requires stands { Stands core.now.tree window.now At }
    requires few { length core.now.task.facts ≤ 262_144 }
    requires shows { Shows view.now core.now }
    requires kept { AreTrue core.now.task view.now.nodes kept.old }
    ensures kept { AreTrue core.now.task view.now.nodes kept.new }
    ensures holds { IfOk result (λ v. IsVerdictOn core.now.task core.now.tree window.now view.now.nodes v) }
    ensures fits { IfOk result (λ v. Fits core.now.task v.sub) }
{
    core.keeps();
    let sub = view.posing.subtask(alloc, window)?;
    match kept.kind_of(alloc, &sub)? {
        Some(kind) => Ok(Verdict { sub, kind }),
        None => searched(alloc, view, &sub, kept),
    }
}

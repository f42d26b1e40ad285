ghost use Rattle.std.specs.Prelude.{◌≡◌, ◌<◌, ◌≤◌, All, length, IfOk};
ghost use Rattle.bd_task.specs.Valid.{IsValid};
ghost use Rattle.plan_loosen.specs.Loosened.{IsLoosened};

use crate::opening::opened;
use bd_base::{ActionId, NoMemory};
use bd_task::Task;
use plan_core::Core;
use plan_rebuild::tighten;
use std::alloc::Global;

/// A core whose tree is tight at the span: it opened on a deordered tree of the valid list, and each entry of its
/// history is a tightening.
pub fn loosened(alloc: Global, task: Task, list: &[ActionId], span: u32) -> Result<Core, NoMemory>
    requires in_range { All (λ a. a < length task.actions) list.now }
    requires few { length list.now ≤ 2_000 }
    requires valid { IsValid task list.now }
    ensures { IfOk result (λ core. IsLoosened task list.now span core) }
{
    let mut core = opened(alloc, task, list)?;
    tighten(alloc, &mut core, span)?;
    let _ = core.tree();
    Ok(core)
}

// Cores that open on the deordered tree of a list.
ghost use Rattle.std.specs.Prelude.{◌≡◌, ◌<◌, ◌≤◌, All, length, IfOk};
ghost use Rattle.bd_task.specs.Valid.{IsValid};
ghost use Rattle.bd_deorder.specs.Deordered.{IsDeordered};
ghost use Rattle.bd_links.specs.Sound.{IsSound};
ghost use Rattle.plan_core.specs.Core.{opening};
ghost use Rattle.plan_core.specs.Law.{MayBegin};
ghost use Rattle.plan_improve.specs.Inner.{IsOpened};

use bd_base::{ActionId, NoMemory};
use bd_deorder::deorder;
use bd_task::Task;
use bd_tree::Tree;
use plan_core::{BeginErr, Core};
use seq_check::Broken;
use std::alloc::Global;

// The deordered tree of a valid list.
fn deordered(alloc: Global, task: &Task, list: &[ActionId]) -> Result<Tree, NoMemory>
    requires in_range { All (λ a. a < length task.now.actions) list.now }
    requires short { length list.now ≤ 2_000 }
    requires valid { IsValid task.now list.now }
    ensures { IfOk result (λ tree. IsDeordered task.now list.now tree) }
{
    match deorder(alloc, task, list) {
        Ok(tree) => Ok(tree),
        Err(Broken::NoMemory) => Err(NoMemory),
        // The list is valid.
        Err(Broken::Step { .. }) => {
            prove!(false);
            Err(NoMemory)
        }
        Err(Broken::Goal { .. }) => {
            prove!(false);
            Err(NoMemory)
        }
    }
}

// A core that opens on a sound tree.
fn begun(alloc: Global, task: Task, start: Tree, stop: u32) -> Result<Core, NoMemory>
    requires may { MayBegin task start }
    requires sound { IsSound task start }
    requires stops { (0 < stop) × (stop ≤ 1_000_000) }
    ensures { IfOk result (λ core. core ≡ opening task start stop) }
{
    match Core::begin(alloc, task, start, stop) {
        Ok(core) => Ok(core),
        Err(BeginErr::NoMemory) => Err(NoMemory),
        // The tree is sound.
        Err(BeginErr::Unsound(_)) => {
            prove!(false);
            Err(NoMemory)
        }
    }
}

// The same on copies.
fn begun_on(alloc: Global, task: &Task, start: &Tree, stop: u32) -> Result<Core, NoMemory>
    requires may { MayBegin task.now start.now }
    requires sound { IsSound task.now start.now }
    requires stops { (0 < stop) × (stop ≤ 1_000_000) }
    ensures { IfOk result (λ core. core ≡ opening task.now start.now stop) }
{
    let task = task.try_copy(alloc)?;
    let start = start.try_copy(alloc)?;
    begun(alloc, task, start, stop)
}

/// A core that opens on the deordered tree of a valid list.
pub(crate) fn opened(
    alloc: Global,
    task: Task,
    list: &[ActionId],
    stop: u32,
) -> Result<Core, NoMemory>
    requires in_range { All (λ a. a < length task.actions) list.now }
    requires short { length list.now ≤ 2_000 }
    requires valid { IsValid task list.now }
    requires stops { (0 < stop) × (stop ≤ 1_000_000) }
    ensures { IfOk result (λ core. IsOpened task list.now stop core) }
{
    let start = deordered(alloc, &task, list)?;
    begun(alloc, task, start, stop)
}

/// Two such cores: one that takes offers, and one that follows it.
pub(crate) fn opened_twice(
    alloc: Global,
    task: Task,
    list: &[ActionId],
    stop: u32,
) -> Result<(Core, Core), NoMemory>
    requires in_range { All (λ a. a < length task.actions) list.now }
    requires short { length list.now ≤ 2_000 }
    requires valid { IsValid task list.now }
    requires stops { (0 < stop) × (stop ≤ 1_000_000) }
    ensures opened { IfOk result (λ both. IsOpened task list.now stop both.0) }
    ensures same { IfOk result (λ both. both.1 ≡ both.0) }
{
    let start = deordered(alloc, &task, list)?;
    let follower = begun_on(alloc, &task, &start, stop)?;
    let core = begun(alloc, task, start, stop)?;
    Ok((core, follower))
}

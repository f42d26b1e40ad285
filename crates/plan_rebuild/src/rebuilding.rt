// A rebuild by the deordered listed plan.
ghost use Rattle.std.specs.Prelude.{◌≡◌, ◌<◌, ◌≤◌, All, false, length, IfOk, OnErr, OnOk};
ghost use Rattle.bd_task.specs.Valid.{IsValid};
ghost use Rattle.bd_deorder.specs.Deordered.{IsDeordered};
ghost use Rattle.plan_core.specs.Core.{is_due};
ghost use Rattle.plan_rebuild.specs.Rebuilds.{GrowsRightly, closed};
ghost use Rattle.plan_rebuild.specs.Taking.{RebuildsRightly};

use crate::taking::take;
use bd_base::{ActionId, NoMemory, PairList};
use bd_deorder::deorder;
use bd_task::Task;
use bd_tree::{Node, Tree};
use plan_core::{Core, Offer};
use seq_check::Broken;
use std::alloc::Global;

// The deordered tree of a valid list.
fn deordered(alloc: Global, task: &Task, list: &[ActionId]) -> Result<Tree, NoMemory>
    requires in_range { All (λ a. a < length task.now.actions) list.now }
    requires few { length list.now ≤ 4_096 }
    requires valid { IsValid task.now list.now }
    ensures { IfOk result (λ tree. IsDeordered task.now list.now tree) }
{
    match deorder(alloc, task, list) {
        Ok(tree) => Ok(tree),
        Err(Broken::NoMemory) => Err(NoMemory),
        // The list is valid.
        Err(Broken::Step { .. }) => {
            prove!(false);
            Err(NoMemory)
        }
        Err(Broken::Goal { .. }) => {
            prove!(false);
            Err(NoMemory)
        }
    }
}

// The order of the listed plan's deordered tree: it is one of the core's steps.
fn looser_order(alloc: Global, core: &Core) -> Result<PairList, NoMemory>
    ensures { IfOk result (λ order. RebuildsRightly core.now.task core.now.tree order) }
{
    core.keeps();
    let list = core.tree().listed(alloc)?;
    let tree = deordered(alloc, core.task(), list.as_slice())?;
    match tree.root() {
        Node::Block { order, .. } => order.try_copy(alloc),
        // The root is a block.
        Node::Step { .. } => {
            prove!(false);
            Err(NoMemory)
        }
    }
}

/// Rebuilds the core's tree where a rebuild is due, by the order that deordering gives for its listed plan. It is refused for want
/// of memory alone, and then the core is as before.
pub fn rebuild(alloc: Global, core: &mut Core) -> Result<(), NoMemory>
    requires { closed core.old ≡ false }
    ensures grows { GrowsRightly core.old core.new }
    ensures rebuilt { OnOk result (is_due core.new.history ≡ false) }
    ensures err { OnErr result (core.new ≡ core.old) }
{
    core.keeps();
    if !core.due() {
        return Ok(());
    }
    let order = looser_order(alloc, core)?;
    let offer = Offer::Rebuild { order };
    take(alloc, core, &offer)
}

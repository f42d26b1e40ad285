// Flat trees out of valid lists.
ghost use Rattle.std.specs.Prelude.{◌≡◌, ◌+◌, ◌<◌, ◌^◌, length, All, IfOk};
ghost use Rattle.bd_task.specs.Valid.{IsValid, first_break};
ghost use Rattle.bd_tree.specs.declared.node.Node.{Block};
ghost use Rattle.bd_tree.specs.Chain.{steps_from};
ghost use Rattle.bd_deorder.specs.Deordered.{Answers, IsDeordered, IsInRange};
ghost use Rattle.bd_deorder.specs.Direct.{children_of};

use crate::closing::{close_rows, order_of};
use crate::direct::direct_rows;
use bd_base::{ActionId, FromItems, Items, NoMemory, NodeId, PairList};
use bd_links::{Child, touches_of};
use bd_task::Task;
use bd_tree::{Node, Tree};
use seq_check::{Broken, validate};
use std::alloc::Global;

// The steps of a list with their effects, which their actions lend.
fn children_of<'a>(
    alloc: Global,
    task: &'a Task,
    list: &[ActionId],
) -> Result<Vec<Child<'a>>, NoMemory>
    requires in_range { All (λ a. a < length task.now.actions) list.now }
    requires short { length list.now + 1 < 2 ^ 32 }
    ensures { IfOk result (λ kids. kids.items ≡ children_of task.now.actions 1 list.now) }
{
    let mut kids = Vec::new(alloc);
    let mut id = 1;
    for action in list {
        kids.push(Child::of_step(NodeId(id), task.action(*action)))?;
        id += 1;
    }
    Ok(kids)
}

// A block of the steps of a list, with this order.
fn flat_root(alloc: Global, list: &[ActionId], order: PairList) -> Result<Node, NoMemory>
    requires { length list.now + 1 < 2 ^ 32 }
    ensures { IfOk result (λ root. root ≡ Block 0 (steps_from 1 list.now) order) }
{
    let mut kids = Vec::new(alloc);
    let mut id = 1;
    for action in list {
        kids.push(Node::Step {
            id: NodeId(id),
            action: *action,
        })?;
        id += 1;
    }
    Ok(Node::Block {
        id: NodeId(0),
        kids: Items::of(kids),
        order,
    })
}

// The order of the direct pairs of a valid list.
fn order_for(alloc: Global, task: &Task, list: &[ActionId]) -> Result<PairList, NoMemory>
    requires in_range { All (λ a. a < length task.now.actions) list.now }
    requires short { length list.now + 1 < 2 ^ 32 }
    requires valid { IsValid task.now list.now }
    ensures { IfOk result (λ order. IsDeordered task.now list.now (Block 0 (steps_from 1 list.now) order)) }
{
    let kids = children_of(alloc, task, list)?;
    let touches = touches_of(alloc, &kids)?;
    let mut rows = direct_rows(alloc, task.init(), task.goal(), &touches, &kids)?;
    close_rows(alloc, &mut rows)?;
    order_of(alloc, &rows)
}

// The tree of a valid list.
fn loosened(alloc: Global, task: &Task, list: &[ActionId]) -> Result<Tree, NoMemory>
    requires in_range { All (λ a. a < length task.now.actions) list.now }
    requires short { length list.now + 1 < 2 ^ 32 }
    requires valid { IsValid task.now list.now }
    ensures { IfOk result (λ tree. IsDeordered task.now list.now tree) }
{
    let order = order_for(alloc, task, list)?;
    let root = flat_root(alloc, list, order)?;
    Ok(Tree::of(root))
}

/// The flat tree of a valid list, or the list's first break exactly where it isn't valid: its steps stand as listed,
/// with the ids 1, 2 and so on; it is sound; and each pair with nothing between has a reason.
pub fn deorder(alloc: Global, task: &Task, list: &[ActionId]) -> Result<Tree, Broken>
    requires in_range { All (λ a. a < length task.now.actions) list.now }
    requires short { length list.now + 1 < 2 ^ 32 }
    ensures answer { Answers task.now list.now (first_break task.now list.now) result }
    // What a break names is a fact of the task and a place of the list.
    ensures told { IsInRange (length task.now.facts) (length list.now) result }
{
    match validate(alloc, task, list) {
        Err(broken) => Err(broken),
        Ok(_) => match loosened(alloc, task, list) {
            Err(_) => Err(Broken::NoMemory),
            Ok(tree) => Ok(tree),
        },
    }
}

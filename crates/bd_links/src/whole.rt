ghost use Rattle.std.specs.Prelude.{◌≡◌, ◌<◌, ◌≤◌, ◌*◌, ◌^◌, length, IfOk, IsTrue};
ghost use Rattle.bd_task.specs.Valid.{cost_of};
ghost use Rattle.bd_tree.specs.Tree.{nodes_of, listed_of};
ghost use Rattle.bd_links.specs.Sound.{child_of, effects_of, are_below};

use crate::blocks::effects_of_block;
use crate::parts::{Child, Effects};
use bd_base::NoMemory;
use bd_task::Task;
use bd_tree::Node;
use std::alloc::Global;

/// A node's id and effects.
pub fn as_child<'a>(alloc: Global, task: &'a Task, node: &Node) -> Result<Child<'a>, NoMemory>
    requires { IsTrue (are_below (length task.now.actions) node.now) }
    ensures { IfOk result (λ c. c ≡ child_of task.now.actions node.now) }
{
    match node {
        Node::Step { id, action } => Ok(Child::of_step(*id, task.action(*action))),
        Node::Block { id, kids, order } => {
            let mut children = Vec::new(alloc);
            for kid in kids.as_slice() {
                children.push(as_child(alloc, task, kid)?)?;
            }
            let effects = effects_of_block(alloc, order, &children)?;
            Ok(Child::of_effects(*id, effects))
        }
    }
}

/// What a node needs, gives and deletes.
pub fn effects(alloc: Global, task: &Task, node: &Node) -> Result<Effects, NoMemory>
    requires { IsTrue (are_below (length task.now.actions) node.now) }
    ensures { IfOk result (λ e. e ≡ effects_of task.now.actions node.now) }
{
    as_child(alloc, task, node)?.into_effects(alloc)
}

/// Whether each action of the node is one of the task's.
pub fn actions_fit(task: &Task, node: &Node) -> bool
    ensures { result ≡ are_below (length task.now.actions) node.now }
{
    match node {
        Node::Step { action, .. } => action.0 < task.actions(),
        Node::Block { kids, .. } => {
            for kid in kids.as_slice() {
                if !actions_fit(task, kid) {
                    return false;
                }
            }
            true
        }
    }
}

/// The sum of the costs of the node's steps.
pub fn node_cost(task: &Task, node: &Node) -> u64
    requires in_range { IsTrue (are_below (length task.now.actions) node.now) }
    requires small { nodes_of node.now < 2 ^ 32 }
    ensures cost { result ≡ cost_of task.now (listed_of node.now) }
    ensures at_most { result ≤ 1_000_000_000 * nodes_of node.now }
{
    match node {
        Node::Step { action, .. } => task.action(*action).cost,
        Node::Block { kids, .. } => {
            let mut sum = 0;
            for kid in kids.as_slice() {
                sum += node_cost(task, kid);
            }
            sum
        }
    }
}

ghost use Rattle.std.specs.Prelude.{◌≡◌, ◌++◌, ◌<◌, IfOk, OnOk, IsTrue, length};
ghost use Rattle.bd_links.specs.Sound.{are_below};
ghost use Rattle.bd_tree.specs.Tree.{listed_of};
ghost use Rattle.plan_core.specs.Law.{IsPrintable};
ghost use Rattle.run_texts.specs.Texts.{better_of, plan_lines};

use crate::writing::{push_counted, push_name};
use bd_base::{FromItems, Items, NoMemory, Text};
use bd_links::node_cost;
use bd_task::Task;
use bd_tree::{Node, Tree};
use std::alloc::Global;

/// The plan that a tree lists, an action a line, between the lines of its place and of its cost.
pub fn better_text(alloc: Global, task: &Task, place: u64, tree: &Tree) -> Result<Text, NoMemory>
    requires { IsPrintable task.now tree.now }
    ensures { IfOk result (λ text. text ≡ better_of task.now place tree.now) }
{
    let mut text = Vec::new(alloc);
    push_counted(&mut text, b"; place ", place)?;
    push_steps(&mut text, task, tree.root())?;
    push_counted(&mut text, b"; cost = ", node_cost(task, tree.root()))?;
    Ok(Items::of(text))
}

// The actions of the node's steps, in their listing, a line each.
fn push_steps(text: &mut Vec<u8>, task: &Task, node: &Node) -> Result<(), NoMemory>
    requires { IsTrue (are_below (length task.now.actions) node.now) }
    ensures { OnOk result (text.new.items ≡ text.old.items ++ plan_lines task.now (listed_of node.now)) }
{
    match node {
        Node::Step { action, .. } => {
            push_name(text, task.action(*action).name.as_slice())?;
            text.extend_from_slice(b"\n")?;
        }
        Node::Block { kids, .. } => {
            for kid in kids.as_slice() {
                push_steps(text, task, kid)?;
            }
        }
    }
    Ok(())
}

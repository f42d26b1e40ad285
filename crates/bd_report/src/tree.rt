// The text of a tree, node by node.
ghost use Rattle.std.specs.Prelude.{◌≡◌, ◌++◌, [], length, map, true, IfOk, IsTrue, OnOk};
ghost use Rattle.std.specs.List.{list_all};
ghost use Rattle.bd_links.specs.Sound.{are_below, child_of};
ghost use Rattle.bd_report.specs.Range.{AreChildrenIn};
ghost use Rattle.bd_report.specs.TreeText.{inner, node_lines, order_lines, tree_lines};

use crate::lines::{push_block, push_step};
use crate::orderings::push_orderings;
use bd_base::{FromItems, Items, NoMemory, PairList, Text};
use bd_links::{Child, as_child};
use bd_task::Task;
use bd_tree::{Node, Tree};
use std::alloc::Global;

// The kids with their effects, whose facts are the task's.
fn children_of<'a>(alloc: Global, task: &'a Task, kids: &[Node]) -> Result<Vec<Child<'a>>, NoMemory>
    requires { list_all (λ b. b) (map (are_below (length task.now.actions)) kids.now) ≡ true }
    ensures children { IfOk result (λ v. v.items ≡ map (child_of task.now.actions) kids.now) }
    ensures within { IfOk result (λ v. AreChildrenIn (length task.now.facts) v.items) }
{
    // It tells the conditions that the task meets.
    let _init = task.init();
    let mut all = Vec::new(alloc);
    for kid in kids {
        all.push(as_child(alloc, task, kid)?)?;
    }
    Ok(all)
}

// The margin of what stands in a block.
fn inner(alloc: Global, margin: &[u8]) -> Result<Vec<u8>, NoMemory>
    ensures { IfOk result (λ v. v.items ≡ inner margin.now) }
{
    let mut bytes = Vec::from_slice(alloc, margin)?;
    bytes.extend_from_slice(b"  ")?;
    Ok(bytes)
}

// The lines of the orderings of a block.
fn push_order(
    alloc: Global,
    text: &mut Vec<u8>,
    task: &Task,
    margin: &[u8],
    kids: &[Node],
    order: &PairList,
) -> Result<(), NoMemory>
    requires { list_all (λ b. b) (map (are_below (length task.now.actions)) kids.now) ≡ true }
    ensures { OnOk result (text.new.items ≡ text.old.items ++ order_lines task.now margin.now (map (child_of task.now.actions) kids.now) order.now) }
{
    let children = children_of(alloc, task, kids)?;
    push_orderings(alloc, text, task, margin, &children, order)
}

// The lines of a node, each behind the margin.
fn push_node(
    alloc: Global,
    text: &mut Vec<u8>,
    task: &Task,
    margin: &[u8],
    node: &Node,
) -> Result<(), NoMemory>
    requires { IsTrue (are_below (length task.now.actions) node.now) }
    ensures { OnOk result (text.new.items ≡ text.old.items ++ node_lines task.now node.now margin.now) }
{
    match node {
        Node::Step { id, action } => push_step(text, task, margin, *id, *action),
        Node::Block { id, kids, order } => {
            push_block(text, margin, *id)?;
            let deeper = inner(alloc, margin)?;
            for kid in kids.as_slice() {
                push_node(alloc, text, task, &deeper, kid)?;
            }
            push_order(alloc, text, task, &deeper, kids.as_slice(), order)
        }
    }
}

/// The text of a tree: a line for each block and step, and behind a block's kids one for each reason of each ordering
/// with nothing between. docs/formats.md has its form.
pub fn tree_text(alloc: Global, task: &Task, tree: &Tree) -> Result<Text, NoMemory>
    requires { IsTrue (are_below (length task.now.actions) tree.now) }
    ensures { IfOk result (λ text. text ≡ tree_lines task.now tree.now) }
{
    let mut text = Vec::new(alloc);
    push_node(alloc, &mut text, task, &[], tree.root())?;
    Ok(Items::of(text))
}

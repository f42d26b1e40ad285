// How a rebuild is judged, and the tree that it makes.
ghost use Rattle.std.specs.Prelude.{◌≡◌, ◌++◌, None, length, IfErr, IfOk, OnOk};
ghost use Rattle.bd_tree.specs.Misfit.{order_misfit};
ghost use Rattle.bd_tree.specs.Tree.{steps_of};
ghost use Rattle.plan_core.specs.Rebuilt.{leaves_of, rebuilt};
ghost use Rattle.plan_core.specs.Replies.{IsOpen, Judges, TellsFact, TestsRebuild};
ghost use Rattle.plan_core.specs.declared.offer.Offer.TheVariants.{Rebuild};

use crate::{Core, Refusal};
use bd_base::{FromItems, Items, NoMemory, NodeId, PairList};
use bd_links::check;
use bd_tree::{Node, Tree, order_misfit};
use std::alloc::Global;

// Puts the steps of the node at the end of the list, as they are listed, with their ids. After an error the list may have
// got a part of them.
fn put_steps(node: &Node, steps: &mut Vec<Node>) -> Result<(), NoMemory>
    ensures { OnOk result (steps.new.items ≡ steps.old.items ++ leaves_of node.now) }
{
    match node {
        Node::Step { id, action } => {
            steps.push(Node::Step {
                id: *id,
                action: *action,
            })?;
        }
        Node::Block { kids, .. } => {
            for kid in kids.as_slice() {
                put_steps(kid, steps)?;
            }
        }
    }
    Ok(())
}

// The tree whose root has the steps as its kids, as they are listed, in this order.
pub(crate) fn rebuilt(alloc: Global, tree: &Tree, order: &PairList) -> Result<Tree, NoMemory>
    requires { order_misfit (steps_of tree.now) order.now ≡ None }
    ensures { IfOk result (λ t. t ≡ rebuilt tree.now order.now) }
{
    let mut kids = Vec::new(alloc);
    put_steps(tree.root(), &mut kids)?;
    let order = order.try_copy(alloc)?;
    Ok(Tree::of(Node::Block {
        id: NodeId(0),
        kids: Items::of(kids),
        order,
    }))
}

impl Core {
    // Whether the rebuild is refused before a tree is made.
    fn test_rebuild(&self, alloc: Global, order: &PairList) -> Result<(), Refusal>
        requires { IsOpen self.now }
        ensures tests { TestsRebuild self.now order.now result }
        ensures fact { IfErr result (λ why. TellsFact (length self.now.task.facts) why) }
    {
        if !self.due() {
            return Err(Refusal::Idle);
        }
        match order_misfit(alloc, order, self.tree().steps())? {
            Some((i, j)) => Err(Refusal::BadOrder { i, j }),
            None => Ok(()),
        }
    }

    // The rebuilt tree, or why the rebuild is refused.
    pub(crate) fn judge_rebuild(&self, alloc: Global, order: &PairList) -> Result<Tree, Refusal>
        requires { IsOpen self.now }
        ensures judges { Judges self.now (Rebuild order.now) result }
        ensures fact { IfErr result (λ why. TellsFact (length self.now.task.facts) why) }
    {
        self.keeps();
        self.test_rebuild(alloc, order)?;
        let tree = rebuilt(alloc, self.tree(), order)?;
        match check(alloc, self.task(), &tree)? {
            Some(fault) => Err(Refusal::Unlinked(fault)),
            None => Ok(tree),
        }
    }
}

// How a tightening is judged: the tests of its refusals, each in its turn.
ghost use Rattle.std.specs.Prelude.{◌≡◌, ◌<◌, ◌^◌, length, IfErr};
ghost use Rattle.bd_tree.specs.Tree.{nodes_of};
ghost use Rattle.plan_core.specs.Replies.{IsOpen, Judges, Makes, TellsFact, TestsTree};
ghost use Rattle.plan_core.specs.declared.offer.Offer.TheVariants.{Tighten};

use crate::sides::{grouped_sides, has_sides, unordered_sides};
use crate::{Core, Refusal};
use bd_base::NodeId;
use bd_links::check;
use bd_tree::{MAX_DEPTH, Tree};
use std::alloc::Global;

impl Core {
    // The tree in which the two sides are unordered, or why they can't be.
    fn make_tightened(
        &self,
        alloc: Global,
        block: NodeId,
        left: &[NodeId],
        right: &[NodeId],
    ) -> Result<Tree, Refusal>
        requires { IsOpen self.now }
        ensures makes { Makes self.now block left.now right.now result }
        ensures fact { IfErr result (λ why. TellsFact (length self.now.task.facts) why) }
    {
        self.keeps();
        let tree = self.tree();
        let next = self.next();
        if !has_sides(tree, block, left, right) {
            return Err(Refusal::Gone);
        }
        match grouped_sides(alloc, tree, next, block, left, right)? {
            None => Err(Refusal::Between),
            Some(both) => Ok(unordered_sides(alloc, &both, next, block, left, right)?),
        }
    }

    // Whether the new tree is too deep, or has as many ordered pairs as the old one.
    fn test_tightened(&self, tree: &Tree) -> Result<(), Refusal>
        requires { nodes_of tree.now < 2 ^ 32 }
        ensures tests { TestsTree self.now tree.now result }
        ensures fact { IfErr result (λ why. TellsFact (length self.now.task.facts) why) }
    {
        let depth = tree.depth();
        if depth > MAX_DEPTH {
            return Err(Refusal::TooDeep {
                depth: depth as u64,
            });
        }
        let old = self.tree().pairs();
        let new = tree.pairs();
        if new >= old {
            return Err(Refusal::NoGain { old, new });
        }
        Ok(())
    }

    // The tightened tree, or why the tightening is refused.
    pub(crate) fn judge_tightening(
        &self,
        alloc: Global,
        block: NodeId,
        left: &[NodeId],
        right: &[NodeId],
    ) -> Result<Tree, Refusal>
        requires { IsOpen self.now }
        ensures judges { Judges self.now (Tighten block left.now right.now) result }
        ensures fact { IfErr result (λ why. TellsFact (length self.now.task.facts) why) }
    {
        self.keeps();
        let tree = self.make_tightened(alloc, block, left, right)?;
        self.test_tightened(&tree)?;
        match check(alloc, self.task(), &tree)? {
            Some(fault) => Err(Refusal::Unlinked(fault)),
            None => Ok(tree),
        }
    }
}

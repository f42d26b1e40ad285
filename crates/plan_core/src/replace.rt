// How a replacement is judged: the tests of its refusals, each in its turn.
ghost use Rattle.std.specs.Prelude.{◌≡◌, ◌<◌, ◌^◌, true, length, map, IfErr};
ghost use Rattle.std.specs.List.{list_all};
ghost use Rattle.bd_links.specs.Sound.{are_below};
ghost use Rattle.bd_task.specs.Valid.{cost_of};
ghost use Rattle.bd_tree.specs.Tree.{nodes_of, steps_of, listed_of, total, joined};
ghost use Rattle.plan_core.specs.Replies.{IsOpen, AreKnown, IsAt, IsCheaper, Judges, TellsFact, TestsReplace, unknown_of};
ghost use Rattle.plan_core.specs.declared.offer.Offer.TheVariants.{Replace};

use crate::{Core, Refusal};
use bd_base::ActionId;
use bd_links::{check, node_cost};
use bd_merge::{Found, Window, merged, stands};
use bd_task::Task;
use bd_tree::{Node, Tree};
use std::alloc::Global;

// The first number that isn't below the count.
fn first_unknown(count: u32, list: &[ActionId]) -> Option<u32>
    ensures { result ≡ unknown_of count list.now }
{
    for action in list {
        if action.0 >= count {
            return Some(action.0);
        }
    }
    None
}

// What the nodes' steps cost together.
fn cost_among(task: &Task, nodes: &[Node]) -> u64
    requires in_range { list_all (λ b. b) (map (are_below (length task.now.actions)) nodes.now) ≡ true }
    requires few { total (map nodes_of nodes.now) < 2 ^ 32 }
    ensures { result ≡ cost_of task.now (joined (map listed_of nodes.now)) }
{
    let mut sum = 0;
    for node in nodes {
        sum += node_cost(task, node);
    }
    sum
}

// How many steps the nodes have together.
fn steps_among(nodes: &[Node]) -> u64
    requires { total (map steps_of nodes.now) < 2 ^ 32 }
    ensures { result ≡ total (map steps_of nodes.now) }
{
    let mut sum = 0;
    for node in nodes {
        sum += node.steps() as u64;
    }
    sum
}

impl Core {
    // Whether the replacement is refused before a tree is merged.
    fn test_replacement(&self, window: &Window, list: &[ActionId]) -> Result<(), Refusal>
        requires open { IsOpen self.now }
        requires few { length list.now < 2 ^ 32 }
        ensures tests { TestsReplace self.now window.now list.now result }
        ensures fact { IfErr result (λ why. TellsFact (length self.now.task.facts) why) }
    {
        self.keeps();
        if let Some(number) = first_unknown(self.task().actions(), list) {
            return Err(Refusal::NoAction { number });
        }
        match stands(self.tree(), window) {
            Found::Gone => return Err(Refusal::Gone),
            Found::Split => return Err(Refusal::Split),
            Found::At => {}
        }
        let old = cost_among(self.task(), window.kids.as_slice());
        let new = self.task().cost(list);
        if new >= old {
            return Err(Refusal::NotCheaper { old, new });
        }
        let kept = self.tree().steps() as u64 - steps_among(window.kids.as_slice());
        let steps = kept + list.len() as u64;
        if steps > 4_096 {
            return Err(Refusal::TooLong { steps });
        }
        Ok(())
    }

    // The merged tree, or why the replacement is refused.
    pub(crate) fn judge_replacement(
        &self,
        alloc: Global,
        window: &Window,
        list: &[ActionId],
    ) -> Result<Tree, Refusal>
        requires open { IsOpen self.now }
        requires few { length list.now < 2 ^ 32 }
        ensures judges { Judges self.now (Replace window.now list.now) result }
        ensures fact { IfErr result (λ why. TellsFact (length self.now.task.facts) why) }
    {
        self.keeps();
        self.test_replacement(window, list)?;
        let tree = merged(alloc, self.tree(), window, list, self.next())?;
        match check(alloc, self.task(), &tree)? {
            Some(fault) => Err(Refusal::Unlinked(fault)),
            None => Ok(tree),
        }
    }
}

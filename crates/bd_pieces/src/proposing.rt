ghost use Rattle.std.specs.Prelude.{◌≡◌, ◌≤◌, true, length, IfOk};
ghost use Rattle.bd_greedy.specs.Proposal.{IsProposal};
ghost use Rattle.bd_task.specs.TaskView.{are_apart};
ghost use Rattle.bd_subtask.specs.Compiled.{IsOf};
ghost use Rattle.bd_pieces.specs.Proposal.{IsProposalFor};

use bd_base::{ActList, NoMemory};
use bd_greedy::propose;
use bd_heur::{ActionIndex, Join};
use bd_subtask::{SubTask, compile};
use bd_task::Task;
use bd_values::CoreStates;
use std::alloc::Global;

/// Proposes lists for subtasks. It promises nothing of a list, which is judged where it is offered.
pub trait Proposer {
    /// A list for the subtask, if it has one.
    fn propose(
        &mut self,
        alloc: Global,
        task: &Task,
        sub: &SubTask,
    ) -> Result<Option<ActList>, NoMemory>
        requires of { IsOf task.now sub.now }
        requires apart { are_apart sub.now.make sub.now.keep ≡ true }
        requires few { length task.now.facts ≤ 262_144 };
}

/// A proposer that follows `h_add` over the compiled subtask. Its lists solve the subtask, and need not be cheap.
#[derive(Clone, Copy, Debug)]
pub struct Greedy;

impl Greedy {
    /// The proposer. It takes no memory.
    pub fn new() -> Greedy {
        Greedy
    }
}

/// How many values are kept at most, over all core states.
const KEPT_VALUES: u32 = 4_194_304;

// A proposal for a task, by values of its own.
fn proposal_for(alloc: Global, task: &Task) -> Result<Option<ActList>, NoMemory>
    ensures { IfOk result (λ list. IsProposal task.now list) }
{
    let index = ActionIndex::of(alloc, task)?;
    let slots = (KEPT_VALUES / (task.facts() + 1)).min(16_384);
    let mut states = CoreStates::new(alloc, Join::Sum, task, slots)?;
    propose(alloc, task, &index, &mut states)
}

impl Proposer for Greedy {
    #[tactic(auto, using(crate::proofs::SubtaskLemmas::proposal_tells))]
    fn propose(
        &mut self,
        alloc: Global,
        task: &Task,
        sub: &SubTask,
    ) -> Result<Option<ActList>, NoMemory>
        requires of { IsOf task.now sub.now }
        requires apart { are_apart sub.now.make sub.now.keep ≡ true }
        requires few { length task.now.facts ≤ 262_144 }
        ensures { IfOk result (λ list. IsProposalFor task.now sub.now list) }
    {
        let compiled = compile(alloc, task, sub)?;
        let list = proposal_for(alloc, &compiled)?;
        Ok(list)
    }
}

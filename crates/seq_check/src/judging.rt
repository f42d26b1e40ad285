ghost use Rattle.std.specs.Prelude.{◌≡◌, ◌↔◌, ℕ, ◌<◌, ◌^◌, length, None, IfOk, IfSome, All};
ghost use Rattle.bd_task.specs.TaskView.{AreBelow};
ghost use Rattle.bd_task.specs.Run.{lacking};
ghost use Rattle.bd_task.specs.Valid.{first_break, cost_of, IsValid};
ghost use Rattle.seq_check.specs.Answers.{Answers, IsOkOrNoMemory, IsInRange};
ghost use Rattle.seq_check.specs.declared.judging.Broken.TheVariants.{NoMemory as OutOfMemory};

use bd_base::{ActionId, FactId, FactSet, NoMemory};
use bd_task::Task;
use std::alloc::Global;

/// The first break of a list.
#[derive(Clone, Copy, Debug, PartialEq, Eq)]
pub enum Broken {
    /// The action at this place, from 1, can't run; `fact` is the least precondition that lacks.
    Step { at: u32, fact: FactId },
    /// All actions run, and `fact` is the least goal fact that lacks in the end.
    Goal { fact: FactId },
    /// Memory was wanting: nothing is said of the list.
    NoMemory,
}

impl From<NoMemory> for Broken {
    ghost from_gives = { λ _ e. e ≡ OutOfMemory };

    fn from(_: NoMemory) -> Self {
        Broken::NoMemory
    }
}

fn first_lacking(facts: &FactSet, s: &FactSet) -> Option<FactId>
    ensures first { result ≡ lacking facts.now s.now }
    ensures below { (n : ℕ) → AreBelow n facts.now → IfSome result (λ f. f < n) }
{
    for f in facts.iter() {
        if !s.has(f) {
            return Some(f);
        }
    }
    None
}

// The first break of a list, or its cost.
fn judge(alloc: Global, task: &Task, list: &[ActionId]) -> Result<u64, Broken>
    requires in_range { All (λ a. a < length task.now.actions) list.now }
    requires short { length list.now < 2 ^ 32 }
    ensures answer { Answers (first_break task.now list.now) (cost_of task.now list.now) result }
    ensures told { IsInRange (length task.now.facts) (length list.now) result }
{
    let mut s = task.init().try_copy(alloc)?;
    let mut cost = 0u64;
    for (i, a) in list.iter().enumerate() {
        let action = task.action(*a);
        match first_lacking(&action.pre, &s) {
            Some(fact) => {
                return Err(Broken::Step {
                    at: i as u32 + 1,
                    fact,
                });
            }
            None => {}
        }
        task.step(alloc, &mut s, *a)?;
        cost += action.cost;
    }
    match first_lacking(task.goal(), &s) {
        None => Ok(cost),
        Some(fact) => Err(Broken::Goal { fact }),
    }
}

/// The cost of a valid list, or its first break.
pub fn validate(alloc: Global, task: &Task, list: &[ActionId]) -> Result<u64, Broken>
    requires in_range { All (λ a. a < length task.now.actions) list.now }
    requires short { length list.now < 2 ^ 32 }
    // The cost, exactly where nothing breaks, and else the first break.
    ensures answer { Answers (first_break task.now list.now) (cost_of task.now list.now) result }
    // Nothing breaks exactly where the list is valid, whatever is answered.
    ensures unbroken { (first_break task.now list.now ≡ None) ↔ IsValid task.now list.now }
    // The answer by the run of the list.
    ensures valid { IfOk result (λ _. IsValid task.now list.now) }
    ensures complete { IsValid task.now list.now → IsOkOrNoMemory result }
    // What is named is a fact of the task and a place of the list.
    ensures told { IsInRange (length task.now.facts) (length list.now) result }
{
    judge(alloc, task, list)
}

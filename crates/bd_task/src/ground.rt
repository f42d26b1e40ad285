ghost use Rattle.std.specs.Prelude.{◌≡◌, ◌<◌, ◌≤◌, ◌^◌, length, Some, IfOk, OnErr, All, slice_get, vec_len};
ghost use Rattle.bd_base.specs.Facts.{IsRising, minus, plus};
ghost use Rattle.bd_task.specs.TaskView.{AreBelow, HasRisingSets, IsAction, IsTask};
ghost use Rattle.bd_task.specs.Run.{Steps, step_by};
ghost use Rattle.bd_task.specs.Valid.{cost_of};

use bd_base::{ActionId, FactId, FactSet, FromItems, Items, NoMemory, Text};
use std::alloc::Global;
use std::marker::Model;

/// What an action needs, makes true and makes false, and what it costs.
#[derive(Debug, Drop)]
pub struct Action {
    pub name: Text,
    pub cost: u64,
    pub pre: FactSet,
    pub add: FactSet,
    pub del: FactSet,
}

impl Action {
    /// The same action.
    pub fn try_copy(&self, alloc: Global) -> Result<Action, NoMemory>
        ensures { IfOk result (λ copy. copy ≡ self.now) }
    {
        Ok(Action {
            name: Text::from_slice(alloc, self.name.as_slice())?,
            cost: self.cost,
            pre: self.pre.try_copy(alloc)?,
            add: self.add.try_copy(alloc)?,
            del: self.del.try_copy(alloc)?,
        })
    }
}

/// A ground task. Facts and actions are numbered from 0 in the order of their lists.
#[derive(Debug, Drop)]
pub struct Task {
    facts: Vec<Text>,
    actions: Vec<Action>,
    init: FactSet,
    goal: FactSet,
}

impl Model for Task {
    ghost use Rattle.bd_task.specs.TaskView.{TaskView, IsTask};

    ghost Value = { TaskView };

    ghost view = { λ t. record { facts = t.facts.items; actions = t.actions.items; init = t.init; goal = t.goal } };

    ghost invariant = { λ t. IsTask (record { facts = t.facts.items; actions = t.actions.items; init = t.init; goal = t.goal }) };
}

impl Task {
    /// The task of these parts. It takes no memory.
    pub fn new(facts: Vec<Text>, actions: Vec<Action>, init: FactSet, goal: FactSet) -> Task
        requires { IsTask (record { facts = facts.items; actions = actions.items; init = init; goal = goal }) }
        ensures { result ≡ record { facts = facts.items; actions = actions.items; init = init; goal = goal } }
    {
        Task {
            facts,
            actions,
            init,
            goal,
        }
    }

    /// A fact's name, without parentheses.
    pub fn fact_name(&self, f: FactId) -> &[u8]
        requires { f < length self.now.facts }
        ensures { slice_get self.now.facts f ≡ Some result.now }
    {
        self.facts[f.0 as usize].as_slice()
    }

    /// An action, whose facts are in range and whose cost is at most 1,000,000,000.
    pub fn action(&self, a: ActionId) -> &Action
        requires { a < length self.now.actions }
        ensures action { slice_get self.now.actions a ≡ Some result.now }
        ensures fits { IsAction (length self.now.facts) result.now }
        ensures rising { HasRisingSets result.now }
    {
        let action = &self.actions[a.0 as usize];
        rises(&action.pre);
        rises(&action.add);
        rises(&action.del);
        action
    }

    /// How many facts it has: at most 524,288.
    pub fn facts(&self) -> u32
        ensures count { result ≡ length self.now.facts }
        ensures few { result ≤ 524_288 }
    {
        self.facts.len() as u32
    }

    /// How many actions it has: at most 1,000,000.
    pub fn actions(&self) -> u32
        ensures count { result ≡ length self.now.actions }
        ensures few { result ≤ 1_000_000 }
    {
        self.actions.len() as u32
    }

    /// The facts that are true at the start. Its caller also learns the conditions that each task meets.
    pub fn init(&self) -> &FactSet
        ensures set { result.now ≡ self.now.init }
        ensures fits { AreBelow (length self.now.facts) result.now }
        ensures rising { IsRising result.now }
        ensures task { IsTask self.now }
    {
        rises(&self.init);
        &self.init
    }

    /// The facts that are to be true at the end.
    pub fn goal(&self) -> &FactSet
        ensures set { result.now ≡ self.now.goal }
        ensures fits { AreBelow (length self.now.facts) result.now }
        ensures rising { IsRising result.now }
    {
        rises(&self.goal);
        &self.goal
    }

    /// Runs an action in a state, and tells whether it ran: then the state is the next one, and else it
    /// stays. It is false exactly where a precondition lacks.
    pub fn step(&self, alloc: Global, s: &mut FactSet, a: ActionId) -> Result<bool, NoMemory>
        requires { a < length self.now.actions }
        ensures ok { IfOk result (λ ran. Steps (step_by (slice_get self.now.actions a) s.old) ran s.old s.new) }
        ensures err { OnErr result (s.new ≡ s.old) }
    {
        let action = self.action(a);
        if !action.pre.subset(s) {
            return Ok(false);
        }
        let mut next = s.try_copy(alloc)?;
        next.minus(&action.del);
        next.join(alloc, &action.add)?;
        *s = next;
        Ok(true)
    }

    /// The sum of the costs of a list's actions.
    pub fn cost(&self, list: &[ActionId]) -> u64
        requires in_range { All (λ a. a < length self.now.actions) list.now }
        requires short { length list.now < 2 ^ 32 }
        ensures { result ≡ cost_of self.now list.now }
    {
        let mut sum = 0u64;
        for (i, a) in list.iter().enumerate() {
            sum += self.action(*a).cost;
        }
        sum
    }

    /// The same task.
    pub fn try_copy(&self, alloc: Global) -> Result<Task, NoMemory>
        ensures { IfOk result (λ copy. copy ≡ self.now) }
    {
        Ok(Task {
            facts: copies_of_names(alloc, &self.facts)?,
            actions: copies_of_actions(alloc, &self.actions)?,
            init: self.init.try_copy(alloc)?,
            goal: self.goal.try_copy(alloc)?,
        })
    }
}

// What every set of facts keeps, which the walk through it tells; it does nothing.
fn rises(set: &FactSet)
    ensures { IsRising set.now }
{
    let _walk = set.iter();
}

fn copies_of_names(alloc: Global, names: &[Text]) -> Result<Vec<Text>, NoMemory>
    ensures { IfOk result (λ copies. copies.items ≡ names.now) }
{
    let mut copies = Vec::new(alloc);
    for name in names {
        copies.push(Text::from_slice(alloc, name.as_slice())?)?;
    }
    Ok(copies)
}

fn copies_of_actions(alloc: Global, actions: &[Action]) -> Result<Vec<Action>, NoMemory>
    ensures { IfOk result (λ copies. copies.items ≡ actions.now) }
{
    let mut copies = Vec::new(alloc);
    for action in actions {
        copies.push(action.try_copy(alloc)?)?;
    }
    Ok(copies)
}

use crate::runs::cost_of_run;
use crate::walk::{Reached, least, walk, within};
use bd_base::NoMemory;
use bd_heur::{ActionIndex, Join};
use bd_search::{Kind, search};
use bd_task::Task;
use bd_values::CoreStates;
use std::alloc::Global;
use std::fmt;
use std::fmt::{Display, Formatter};

/// What the search says.
#[derive(Clone, Copy)]
enum Verdict {
    /// The cost of a list that was run to the goal.
    Found(u64),
    /// A list was found that doesn't run to the goal.
    Broken,
    Exhausted,
    Spent(u64),
}

impl Display for Verdict {
    fn fmt<W: fmt::Write>(&self, f: &mut Formatter<W>) -> fmt::Result {
        match *self {
            Verdict::Found(cost) => write!(f, "found {cost}"),
            Verdict::Broken => write!(f, "found a list that doesn't run"),
            Verdict::Exhausted => write!(f, "exhausted"),
            Verdict::Spent(floor) => write!(f, "spent {floor}"),
        }
    }
}

/// What the search says of a case, and what the walk finds.
#[derive(Clone, Copy)]
pub struct Judged {
    verdict: Verdict,
    least: Option<u64>,
    within: Option<u64>,
}

impl Display for Judged {
    fn fmt<W: fmt::Write>(&self, f: &mut Formatter<W>) -> fmt::Result {
        match self.least {
            None => write!(f, "{}; least none", self.verdict)?,
            Some(cost) => write!(f, "{}; least {cost}", self.verdict)?,
        }
        match self.within {
            None => Ok(()),
            Some(count) => write!(f, ", within {count}"),
        }
    }
}

// What the search says of a task, with room for so few core states that they are dropped now and then.
fn verdict_of(alloc: Global, task: &Task, bound: u64, nodes: u32) -> Result<Verdict, NoMemory> {
    let index = ActionIndex::of(alloc, task)?;
    let mut states = CoreStates::new(alloc, Join::Greatest, task, 7)?;
    match search(alloc, task, &index, &mut states, bound, nodes)? {
        Kind::Found(list) => match cost_of_run(alloc, task, list.as_slice())? {
            None => Ok(Verdict::Broken),
            Some(cost) => Ok(Verdict::Found(cost)),
        },
        Kind::Exhausted => Ok(Verdict::Exhausted),
        Kind::Spent { floor, nodes: _ } => Ok(Verdict::Spent(floor)),
    }
}

// How many states are reached at a cost of at most a floor.
fn within_floor(verdict: Verdict, reached: &[Reached]) -> Option<u64> {
    match verdict {
        Verdict::Spent(floor) => Some(within(reached, floor)),
        _ => None,
    }
}

/// What the search says of a case, and what the walk finds; none where there are too many states.
pub fn judge(
    alloc: Global,
    task: &Task,
    bound: u64,
    nodes: u32,
) -> Result<Option<Judged>, NoMemory> {
    let Some(reached) = walk(alloc, task)? else {
        return Ok(None);
    };
    let verdict = verdict_of(alloc, task, bound, nodes)?;
    Ok(Some(Judged {
        verdict,
        least: least(task, &reached),
        within: within_floor(verdict, &reached),
    }))
}

use crate::runs::cost_of_run;
use bd_base::NoMemory;
use bd_greedy::propose;
use bd_heur::{ActionIndex, Join, h_add, h_max};
use bd_task::Task;
use bd_values::CoreStates;
use std::alloc::Global;
use std::fmt;
use std::fmt::{Display, Formatter};

/// What is proposed.
#[derive(Clone, Copy)]
enum Proposed {
    Nothing,
    List,
    /// A list that doesn't run to the goal.
    Broken,
}

impl Display for Proposed {
    fn fmt<W: fmt::Write>(&self, f: &mut Formatter<W>) -> fmt::Result {
        match *self {
            Proposed::Nothing => write!(f, "no list"),
            Proposed::List => write!(f, "a list"),
            Proposed::Broken => write!(f, "a list that doesn't run"),
        }
    }
}

/// The values of the initial set, and what is proposed.
#[derive(Clone, Copy)]
pub struct Values {
    greatest: Option<u64>,
    sum: Option<u64>,
    proposed: Proposed,
}

impl Display for Values {
    fn fmt<W: fmt::Write>(&self, f: &mut Formatter<W>) -> fmt::Result {
        match self.greatest {
            None => write!(f, "h_max none")?,
            Some(value) => write!(f, "h_max {value}")?,
        }
        match self.sum {
            None => write!(f, ", h_add none")?,
            Some(value) => write!(f, ", h_add {value}")?,
        }
        write!(f, "; {}", self.proposed)
    }
}

fn proposal_of(alloc: Global, task: &Task) -> Result<Proposed, NoMemory> {
    let index = ActionIndex::of(alloc, task)?;
    let mut states = CoreStates::new(alloc, Join::Sum, task, 64)?;
    let Some(list) = propose(alloc, task, &index, &mut states)? else {
        return Ok(Proposed::Nothing);
    };
    match cost_of_run(alloc, task, list.as_slice())? {
        None => Ok(Proposed::Broken),
        Some(_) => Ok(Proposed::List),
    }
}

/// The values of a task's initial set, and what is proposed.
pub fn values_of(alloc: Global, task: &Task) -> Result<Values, NoMemory> {
    Ok(Values {
        greatest: h_max(alloc, task, task.init())?,
        sum: h_add(alloc, task, task.init())?,
        proposed: proposal_of(alloc, task)?,
    })
}

// Sums over the windows of a family.
ghost use Rattle.std.specs.Prelude.{◌<◌, ◌^◌, length, IsTrue};
ghost use Rattle.bd_tree.specs.Tree.{nodes_of};
ghost use Rattle.bd_links.specs.Sound.{are_below};
ghost use Rattle.bd_subtask.specs.Law.{Fits};

use crate::WIDTH;
use bd_base::NoMemory;
use bd_merge::Window;
use bd_subtask::{Posing, SubTask, compile, subtask};
use bd_task::Task;
use bd_tree::Tree;
use bd_window::FamilyWalk;
use std::alloc::Global;
use std::fmt;
use std::fmt::{Display, Formatter};

/// The greatest number of facts of a task that is compiled.
const MOST_FACTS: u32 = 262_144;

/// Sums over the windows of a family.
#[derive(Clone, Copy, Debug)]
pub struct Sums {
    /// How many windows there are.
    pub windows: u64,
    kids: u64,
    init: u64,
    goal: u64,
    make: u64,
    keep: u64,
    bound: u64,
    facts: u64,
}

const NOTHING: Sums = Sums {
    windows: 0,
    kids: 0,
    init: 0,
    goal: 0,
    make: 0,
    keep: 0,
    bound: 0,
    facts: 0,
};

impl Sums {
    // With one window more, whose compiled subtask has so many facts.
    fn with(self, window: &Window, sub: &SubTask, facts: u32) -> Sums {
        Sums {
            windows: self.windows.saturating_add(1),
            kids: self
                .kids
                .saturating_add(window.kids.as_slice().len() as u64),
            init: self.init.saturating_add(sub.init.len() as u64),
            goal: self.goal.saturating_add(sub.goal.len() as u64),
            make: self.make.saturating_add(sub.make.len() as u64),
            keep: self.keep.saturating_add(sub.keep.len() as u64),
            bound: self.bound.saturating_add(sub.bound),
            facts: self.facts.saturating_add(facts as u64),
        }
    }
}

impl Display for Sums {
    fn fmt<W: fmt::Write>(&self, f: &mut Formatter<W>) -> fmt::Result {
        write!(
            f,
            "windows {} kids {} init {}",
            self.windows, self.kids, self.init
        )?;
        write!(f, " goal {} make {}", self.goal, self.make)?;
        write!(
            f,
            " keep {} bound {} facts {}",
            self.keep, self.bound, self.facts
        )
    }
}

// How many facts the compiled subtask has.
fn compiled_facts(alloc: Global, task: &Task, sub: &SubTask) -> Result<u32, NoMemory>
    requires { Fits task.now sub.now }
{
    if task.facts() > MOST_FACTS {
        return Ok(0);
    }
    Ok(compile(alloc, task, sub)?.facts())
}

/// The sums over the family of a tree.
pub fn walk_sums(alloc: Global, task: &Task, tree: &Tree) -> Result<Sums, NoMemory>
    requires below { IsTrue (are_below (length task.now.actions) tree.now) }
    requires few { nodes_of tree.now < 2 ^ 32 }
{
    let posing = Posing::of(alloc, task, tree)?;
    let mut walk = FamilyWalk::of(alloc, tree, WIDTH)?;
    let mut sums = NOTHING;
    for _ in 0..u64::MAX {
        let given = walk.next(alloc)?;
        match given {
            None => return Ok(sums),
            Some(window) => {
                let sub = posing.subtask(alloc, &window)?;
                let own = subtask(alloc, task, tree, &window)?;
                sums = sums.with(&window, &sub, compiled_facts(alloc, task, &own)?);
            }
        }
    }
    Ok(sums)
}

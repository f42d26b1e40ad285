// The subtasks of a small family, one by one.
ghost use Rattle.std.specs.Prelude.{◌<◌, ◌^◌, length, IsTrue};
ghost use Rattle.bd_tree.specs.Tree.{nodes_of};
ghost use Rattle.bd_links.specs.Sound.{are_below};

use crate::WIDTH;
use bd_base::{FactSet, NoMemory};
use bd_merge::{Lean, Window};
use bd_subtask::{Posing, SubTask};
use bd_task::Task;
use bd_tree::Tree;
use bd_window::FamilyWalk;
use std::alloc::Global;
use std::fmt;
use std::fmt::{Display, Formatter};

/// A window and its subtask.
#[derive(Debug, Drop)]
pub struct Told {
    window: Window,
    sub: SubTask,
}

// The numbers of a set's facts, each behind a space.
fn put_facts<W: fmt::Write>(f: &mut Formatter<W>, facts: &FactSet) -> fmt::Result {
    for fact in facts.iter() {
        write!(f, " {}", fact.0)?;
    }
    Ok(())
}

// The block, the lean, and the ids of the carried kids.
fn put_window<W: fmt::Write>(f: &mut Formatter<W>, window: &Window) -> fmt::Result {
    write!(f, "  {}", window.block.0)?;
    match window.lean {
        Lean::Early => write!(f, " early")?,
        Lean::Late => write!(f, " late")?,
    }
    for kid in window.kids.as_slice() {
        write!(f, " {}", kid.id().0)?;
    }
    Ok(())
}

impl Display for Told {
    fn fmt<W: fmt::Write>(&self, f: &mut Formatter<W>) -> fmt::Result {
        put_window(f, &self.window)?;
        write!(f, ": init")?;
        put_facts(f, &self.sub.init)?;
        write!(f, " goal")?;
        put_facts(f, &self.sub.goal)?;
        write!(f, " make")?;
        put_facts(f, &self.sub.make)?;
        write!(f, " keep")?;
        put_facts(f, &self.sub.keep)?;
        write!(f, " bound {}", self.sub.bound)
    }
}

/// The windows of a family and their subtasks, in the family's order.
pub fn listing(alloc: Global, task: &Task, tree: &Tree) -> Result<Vec<Told>, NoMemory>
    requires below { IsTrue (are_below (length task.now.actions) tree.now) }
    requires few { nodes_of tree.now < 2 ^ 32 }
{
    let posing = Posing::of(alloc, task, tree)?;
    let mut walk = FamilyWalk::of(alloc, tree, WIDTH)?;
    let mut told = Vec::new(alloc);
    for _ in 0..u64::MAX {
        let given = walk.next(alloc)?;
        match given {
            None => return Ok(told),
            Some(window) => {
                let sub = posing.subtask(alloc, &window)?;
                told.push(Told { window, sub })?;
            }
        }
    }
    Ok(told)
}

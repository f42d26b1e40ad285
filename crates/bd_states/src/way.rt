ghost use Rattle.std.specs.Prelude.{◌≡◌, Some, length, IfOk};
ghost use Rattle.bd_task.specs.TaskView.{TaskView};
ghost use Rattle.bd_states.specs.Entries.{IsFrom};
ghost use Rattle.bd_states.specs.Ways.{IsWay, AreLinked};

use crate::entry::Entry;
use bd_base::{ActList, ActionId, FromItems, Items, NoMemory};
use bd_task::Task;
use std::alloc::Global;

/// The actions of the way from the start to an entry, along the origins of closed entries.
pub fn way_to(
    alloc: Global,
    task: &Task,
    closed: &[Entry],
    entry: &Entry,
) -> Result<ActList, NoMemory>
    requires { AreLinked task.now closed.now entry.now }
    ensures { IfOk result (λ list. IsWay task.now entry.now list) }
{
    let mut list = Vec::new(alloc);
    let mut at = entry;
    while let Some(origin) = at.from {
        list.push(origin.action)?;
        at = &closed[origin.place];
    }
    list.reverse();
    Ok(ActList::of(list))
}

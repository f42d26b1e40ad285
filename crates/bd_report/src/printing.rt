ghost use Rattle.std.specs.Prelude.{◌≤◌, length, IsTrue};
ghost use Rattle.bd_links.specs.Sound.{are_below};
ghost use Rattle.bd_report.specs.Printed.{Prints};
ghost use Rattle.bd_report.specs.TreeText.{tree_lines};

use crate::tree::tree_text;
use bd_base::Sink;
use bd_task::Task;
use bd_tree::Tree;
use std::alloc::Global;

/// Why a tree's text was not put: memory was wanting, and nothing was put, or the put failed, and the sink has taken a
/// first part of it.
#[derive(Clone, Copy, Debug, PartialEq, Eq)]
pub enum Unprinted {
    NoMemory,
    Failed,
}

/// Puts the text of a tree.
pub fn print_tree<S: Sink>(
    alloc: Global,
    sink: &mut S,
    task: &Task,
    tree: &Tree,
) -> Result<(), Unprinted>
    requires { IsTrue (are_below (length task.now.actions) tree.now) }
    ensures prints { Prints (record { before = S.told sink.old; after = S.told sink.new; faults = S.faults sink.old; faults_after = S.faults sink.new }) (tree_lines task.now tree.now) result }
    ensures later { S.faults sink.old ≤ S.faults sink.new }
{
    match tree_text(alloc, task, tree) {
        Err(_) => Err(Unprinted::NoMemory),
        Ok(text) => match sink.put(text.as_slice()) {
            Ok(()) => Ok(()),
            Err(_) => Err(Unprinted::Failed),
        },
    }
}

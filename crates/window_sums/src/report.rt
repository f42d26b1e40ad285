// What is told of a script.
ghost use Rattle.std.specs.Prelude.{◌<◌, ◌^◌, length};
ghost use Rattle.bd_tree.specs.Tree.{nodes_of};

use crate::listing::{Told, listing};
use crate::sums::{Sums, walk_sums};
use bd_base::NoMemory;
use bd_links::actions_fit;
use bd_task::Task;
use bd_tree::Tree;
use script_text::read_script;
use std::alloc::Global;

/// The greatest number of windows that are listed.
const LISTED: u64 = 30;

/// The sums over a family, and its windows where they are few.
#[derive(Drop)]
pub struct Report {
    pub sums: Sums,
    pub listed: Vec<Told>,
}

// The report of a tree; none where an action isn't the task's.
fn tree_report(alloc: Global, task: &Task, tree: &Tree) -> Result<Option<Report>, NoMemory>
    requires { nodes_of tree.now < 2 ^ 32 }
{
    if !actions_fit(task, tree.root()) {
        return Ok(None);
    }
    let sums = walk_sums(alloc, task, tree)?;
    if sums.windows > LISTED {
        let listed = Vec::new(alloc);
        return Ok(Some(Report { sums, listed }));
    }
    let listed = listing(alloc, task, tree)?;
    Ok(Some(Report { sums, listed }))
}

/// The report of a script's start tree; none where the text is no script.
pub fn script_report(alloc: Global, text: &[u8]) -> Result<Option<Report>, NoMemory>
    requires { length text.now < 2 ^ 32 }
{
    match read_script(alloc, text) {
        Err(_) => Ok(None),
        Ok(script) => match &script.start {
            Some(tree) => tree_report(alloc, &script.task, tree),
            None => tree_report(
                alloc,
                &script.task,
                &Tree::chain(alloc, script.plan.as_slice())?,
            ),
        },
    }
}

// Windows that are looked at one after another.
ghost use Rattle.std.specs.Prelude.{◌≡◌, IfOk};
ghost use Rattle.bd_window.specs.Family.{Comes};

use bd_base::{FromItems, Items, NoMemory};
use bd_merge::Window;
use bd_tree::{Node, NodeList};
use bd_window::FamilyWalk;
use std::alloc::Global;

// Windows that come one at a time.
pub(crate) trait Windows {
    ghost use Rattle.std.specs.Prelude.{List};
    ghost use Rattle.bd_merge.specs.declared.window.Window.{Window};

    // Those that are still to come.
    ghost left: { Self → List Window };

    // The next window, or none at the end.
    fn give(&mut self, alloc: Global) -> Result<Option<Window>, NoMemory>
        ensures { IfOk result (λ given. Comes given (left self.old) (left self.new)) };
}

impl<'a> Windows for FamilyWalk<'a> {
    ghost left = { λ ws. ws };

    fn give(&mut self, alloc: Global) -> Result<Option<Window>, NoMemory> {
        self.next(alloc)
    }
}

fn copies_of(alloc: Global, nodes: &[Node]) -> Result<NodeList, NoMemory>
    ensures { IfOk result (λ copies. copies ≡ nodes.now) }
{
    let mut copies = Vec::new(alloc);
    for node in nodes {
        copies.push(node.try_copy(alloc)?)?;
    }
    Ok(Items::of(copies))
}

// The same window.
pub(crate) fn copy_of(alloc: Global, window: &Window) -> Result<Window, NoMemory>
    ensures { IfOk result (λ copy. copy ≡ window.now) }
{
    Ok(Window {
        block: window.block,
        kids: copies_of(alloc, window.kids.as_slice())?,
        lean: window.lean,
    })
}

// The windows of a list, each of which is copied as it comes.
#[derive(Drop)]
pub(crate) struct Listed<'a> {
    pub rest: &'a [Window],
}

impl<'a> Windows for Listed<'a> {
    ghost left = { λ l. l.rest.now };

    fn give(&mut self, alloc: Global) -> Result<Option<Window>, NoMemory> {
        match self.rest.split_first() {
            None => Ok(None),
            Some((first, rest)) => {
                let window = copy_of(alloc, first)?;
                self.rest = rest;
                Ok(Some(window))
            }
        }
    }
}

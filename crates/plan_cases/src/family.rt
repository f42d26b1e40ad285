// The family of windows of small trees, and the walk through it.
ghost use Rattle.std.specs.Prelude.{◌<◌, IfOk};
ghost use Rattle.bd_tree.specs.Tree.{nodes_of};

use bd_base::{ActionId, NoMemory};
use bd_tree::Tree;
use bd_window::{FamilyWalk, family};
use std::alloc::Global;
use std::test::Fail;

// The chain of two steps.
fn two_steps(alloc: Global) -> Result<Tree, NoMemory>
    ensures { IfOk result (λ t. nodes_of t < 100) }
{
    Tree::chain(alloc, &[ActionId(0), ActionId(1)])
}

// How many windows the family of the chain has at a width.
fn windows_at(alloc: Global, width: u32) -> Result<usize, NoMemory> {
    let tree = two_steps(alloc)?;
    Ok(family(alloc, &tree, width)?.len())
}

// Each of the two steps, and both, early and late.
#[test]
fn family_of_a_chain_of_two_steps(rt: HostRuntime) -> Result<(), Fail> {
    assert_eq!(rt; windows_at(rt.alloc(), 6)?, 6);
    assert_eq!(rt; windows_at(rt.alloc(), 1)?, 4);
    assert_eq!(rt; windows_at(rt.alloc(), 0)?, 0);
    Ok(())
}

// How many windows the walk gives, and how many kids they carry.
fn walked(alloc: Global) -> Result<(u32, usize), NoMemory> {
    let tree = two_steps(alloc)?;
    let mut walk = FamilyWalk::of(alloc, &tree, 2)?;
    let mut windows: u32 = 0;
    let mut kids: usize = 0;
    for _ in 0..10 {
        if let Some(window) = walk.next(alloc)? {
            windows = windows.saturating_add(1);
            kids = kids.saturating_add(window.kids.as_slice().len());
        }
    }
    Ok((windows, kids))
}

#[test]
fn a_walk_gives_as_many(rt: HostRuntime) -> Result<(), Fail> {
    let (windows, kids) = walked(rt.alloc())?;
    assert_eq!(rt; windows, 6);
    assert_eq!(rt; kids, 8);
    Ok(())
}

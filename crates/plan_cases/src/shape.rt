// Each call that takes memory once where there is enough, on trees whose shapes are worked by hand.
use crate::made::{block, step};
use bd_base::{ActionId, NoMemory, NodeId};
use bd_shape::{can_group, can_unorder, group, hull, restrict, unorder};
use bd_tree::{Node, Tree};
use std::alloc::Global;
use std::test::Fail;

// The chain of n steps, each with its id as its action.
fn chain(alloc: Global, n: u32) -> Result<Tree, NoMemory> {
    let mut list = Vec::new(alloc);
    for id in 1..n.min(100) + 1 {
        list.push(ActionId(id))?;
    }
    if list.len() > 100 {
        return Err(NoMemory);
    }
    Tree::chain(alloc, &list)
}

// A block of steps with these ids, each with its id as its action.
fn of_steps(alloc: Global, id: u64, steps: &[u32], pairs: &[(u32, u32)]) -> Result<Node, NoMemory> {
    let mut kids = Vec::new(alloc);
    for n in steps {
        kids.push(step(*n as u64, *n))?;
    }
    block(alloc, id, kids, pairs)
}

// The tree with kids of the root grouped, if they may be.
fn grouped(
    alloc: Global,
    tree: &Tree,
    kids: &[NodeId],
    fresh: u64,
) -> Result<Option<Tree>, NoMemory> {
    if tree.top_id().0 < fresh && can_group(tree, NodeId(0), kids) {
        return Ok(Some(group(alloc, tree, NodeId(0), kids, NodeId(fresh))?));
    }
    Ok(None)
}

// Block 7 has the first two steps of a chain of five, block 8 the next two, and the last step comes after both.
fn halves(alloc: Global) -> Result<Node, NoMemory> {
    let first = of_steps(alloc, 7, &[1, 2], &[(0, 1)])?;
    let second = of_steps(alloc, 8, &[3, 4], &[(0, 1)])?;
    block(
        alloc,
        0,
        vec![in alloc; first, second, step(5, 5)]?,
        &[(0, 2), (1, 2)],
    )
}

fn parted(alloc: Global, tree: &Tree) -> Result<Option<Tree>, NoMemory> {
    let Some(first) = grouped(alloc, tree, &[NodeId(2), NodeId(1)], 7)? else {
        return Ok(None);
    };
    let Some(second) = grouped(alloc, &first, &[NodeId(3), NodeId(4)], 8)? else {
        return Ok(None);
    };
    if can_unorder(&second, NodeId(0), NodeId(7), NodeId(8)) {
        return Ok(Some(unorder(alloc, &second, NodeId(0), NodeId(7), NodeId(8))?));
    }
    Ok(None)
}

#[test]
fn a_chain_is_parted(rt: HostRuntime) -> Result<(), Fail> {
    let alloc = rt.alloc();
    let parted = parted(alloc, &chain(alloc, 5)?)?;
    let wanted = halves(alloc)?;
    assert!(rt; parted.is_some_and(|tree| tree.root().same(&wanted)));
    Ok(())
}

#[test]
fn a_block_is_restricted(rt: HostRuntime) -> Result<(), Fail> {
    let alloc = rt.alloc();
    let all = of_steps(alloc, 9, &[1, 2, 3, 4], &[(0, 1), (0, 3), (1, 3)])?;
    let part = restrict(alloc, &all, &[NodeId(4), NodeId(2), NodeId(3)])?;
    assert!(rt; part.same(&of_steps(alloc, 9, &[2, 3, 4], &[(0, 2)])?));
    Ok(())
}

#[test]
fn a_hull_has_the_kids_between(rt: HostRuntime) -> Result<(), Fail> {
    let alloc = rt.alloc();
    let tree = chain(alloc, 4)?;
    let hull = hull(alloc, tree.root(), NodeId(4), NodeId(2))?;
    let wanted = [NodeId(2), NodeId(3), NodeId(4)];
    assert_eq!(rt; hull.as_slice(), wanted.as_slice());
    Ok(())
}

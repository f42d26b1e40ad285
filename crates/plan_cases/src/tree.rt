// Each call that takes memory once where there is enough, on trees whose values are worked by hand.
ghost use Rattle.std.specs.Prelude.{◌<◌, ◌^◌, IfOk};
ghost use Rattle.bd_tree.specs.Tree.{nodes_of};

use crate::made::{block, step};
use bd_base::{ActionId, NoMemory, NodeId, PairList};
use bd_tree::{Misfit, Node, Tree, is_convex, order_misfit};
use std::alloc::Global;
use std::test::Fail;

// A block of two steps that aren't ordered, and behind it one of two steps that are.
fn two_blocks(alloc: Global) -> Result<Node, NoMemory> {
    let first = block(alloc, 1, vec![in alloc; step(2, 5), step(3, 6)]?, &[])?;
    let second = block(alloc, 4, vec![in alloc; step(5, 6), step(6, 8)]?, &[(0, 1)])?;
    block(alloc, 0, vec![in alloc; first, second]?, &[(0, 1)])
}

// The tree with this root, where it has few nodes.
fn tree_of(alloc: Global, root: Node) -> Result<Tree, Misfit>
    ensures { IfOk result (λ t. nodes_of t < 2 ^ 32) }
{
    if root.nodes() >= 1 << 32 {
        return Err(Misfit::NoMemory);
    }
    Tree::new(alloc, root)
}

fn actions(alloc: Global, list: &[u32]) -> Result<Vec<ActionId>, NoMemory> {
    let mut actions = Vec::new(alloc);
    for a in list {
        actions.push(ActionId(*a))?;
    }
    Ok(actions)
}

#[test]
fn a_tree_is_made_and_counted(rt: HostRuntime) -> Result<(), Fail> {
    let alloc = rt.alloc();
    let tree = tree_of(alloc, two_blocks(alloc)?).map_err(|_| "no tree")?;
    assert_eq!(rt; tree.nodes(), 7);
    assert_eq!(rt; tree.steps(), 4);
    assert_eq!(rt; tree.depth(), 3);
    assert_eq!(rt; tree.pairs(), 5);
    assert_eq!(rt; tree.top_id(), NodeId(6));
    Ok(())
}

#[test]
fn a_tree_is_copied_and_listed(rt: HostRuntime) -> Result<(), Fail> {
    let alloc = rt.alloc();
    let node = two_blocks(alloc)?;
    let tree = tree_of(alloc, node.try_copy(alloc)?).map_err(|_| "no tree")?;
    let copy = tree.try_copy(alloc)?;
    assert!(rt; node.same(copy.root()));
    let list = copy.listed(alloc)?;
    assert_eq!(rt; list.as_slice(), actions(alloc, &[5, 6, 6, 8])?.as_slice());
    Ok(())
}

// The list's second 6 may only be the step of the first block, so a kid that fits first must be given back.
#[test]
fn lists_are_decided(rt: HostRuntime) -> Result<(), Fail> {
    let alloc = rt.alloc();
    let tree = tree_of(alloc, two_blocks(alloc)?).map_err(|_| "no tree")?;
    assert!(rt; tree.is_linearisation(alloc, &actions(alloc, &[6, 5, 6, 8])?)?);
    assert!(rt; !tree.is_linearisation(alloc, &actions(alloc, &[6, 6, 5, 8])?)?);
    assert!(rt; !tree.is_linearisation(alloc, &actions(alloc, &[5, 6, 8, 6])?)?);
    Ok(())
}

#[test]
fn a_chain_is_made(rt: HostRuntime) -> Result<(), Fail> {
    let alloc = rt.alloc();
    let tree = Tree::chain(alloc, &[ActionId(7), ActionId(7), ActionId(9)])?;
    assert_eq!(rt; tree.nodes(), 4);
    assert!(rt; is_convex(tree.root(), &[NodeId(3), NodeId(2)]));
    assert!(rt; !is_convex(tree.root(), &[NodeId(1), NodeId(3)]));
    Ok(())
}

#[test]
fn an_order_of_few_and_of_many_kids_tells_its_gap(rt: HostRuntime) -> Result<(), Fail> {
    let alloc = rt.alloc();
    let few = PairList::of(alloc, &[(0, 1), (1, 2), (2, 3)])?;
    assert_eq!(rt; order_misfit(alloc, &few, 4), Ok(Some((0, 2))));
    let many = PairList::of(alloc, &[(0, 1), (0, 9000), (1, 9000)])?;
    assert_eq!(rt; order_misfit(alloc, &many, 9001), Ok(None));
    Ok(())
}

// Windows that stand and are merged, on trees whose merged trees are worked by hand.
ghost use Rattle.std.specs.Prelude.{◌+◌, ◌<◌, ◌^◌, length, IfOk};
ghost use Rattle.bd_tree.specs.Tree.{greatest, ids_of, nodes_of};

use crate::made::{block, step, steps};
use bd_base::{ActionId, FromItems, Items, NoMemory, NodeId};
use bd_merge::{Found, Lean, Window, merged, stands};
use bd_tree::{Misfit, Node, Tree};
use std::alloc::Global;
use std::test::Fail;

// A root of block 1 and a step after it. The block has three steps, of which the first is before the second.
fn nested(alloc: Global, kids: &[(u64, u32)], pairs: &[(u32, u32)]) -> Result<Node, NoMemory> {
    let inner = block(alloc, 1, steps(alloc, kids)?, pairs)?;
    block(alloc, 0, vec![in alloc; inner, step(5, 14)]?, &[(0, 1)])
}

// The tree with this root, where it has few nodes and ids below 6.
fn tree_of(alloc: Global, root: Node) -> Result<Tree, Misfit>
    ensures nodes { IfOk result (λ t. nodes_of t < 100) }
    ensures top { IfOk result (λ t. greatest (ids_of t) < 6) }
{
    if root.nodes() >= 100 || root.top_id().0 >= 6 {
        return Err(Misfit::NoMemory);
    }
    Tree::new(alloc, root)
}

fn window(alloc: Global, kids: &[(u64, u32)], lean: Lean) -> Result<Window, NoMemory> {
    Ok(Window {
        block: NodeId(1),
        kids: Items::of(steps(alloc, kids)?),
        lean,
    })
}

// Whether the window stands, and the tree merged with the list, with ids from 6 on, has that root.
fn merges_to(
    alloc: Global,
    tree: &Tree,
    window: &Window,
    list: &[ActionId],
    root: &Node,
) -> Result<bool, NoMemory>
    requires few { nodes_of tree.now + length list.now < 2 ^ 32 }
    requires top { greatest (ids_of tree.now) < 6 }
{
    match stands(tree, window) {
        Found::At => {
            let tree = merged(alloc, tree, window, list, NodeId(6))?;
            Ok(tree.root().same(root))
        }
        _ => Ok(false),
    }
}

#[test]
fn a_window_stands_in_any_order_of_its_kids(rt: HostRuntime) -> Result<(), Fail> {
    let alloc = rt.alloc();
    let root = nested(
        alloc,
        &[(2, 10), (3, 11), (4, 12)],
        &[(0, 1), (0, 2), (1, 2)],
    )?;
    let tree = tree_of(alloc, root).map_err(|_| "no tree")?;
    for kids in [[(2, 10), (3, 11)], [(4, 12), (3, 11)]] {
        assert_eq!(rt;
            stands(&tree, &window(alloc, &kids, Lean::Late)?),
            Found::At
        );
    }
    let apart = window(alloc, &[(2, 10), (4, 12)], Lean::Late)?;
    assert_eq!(rt; stands(&tree, &apart), Found::Split);
    let twice = window(alloc, &[(3, 11), (3, 11)], Lean::Late)?;
    assert_eq!(rt; stands(&tree, &twice), Found::Gone);
    Ok(())
}

// The kid that is ordered with none goes in front of an early window.
#[test]
fn an_early_window_is_merged(rt: HostRuntime) -> Result<(), Fail> {
    let alloc = rt.alloc();
    let root = nested(alloc, &[(2, 10), (3, 11), (4, 12)], &[(0, 1)])?;
    let tree = tree_of(alloc, root).map_err(|_| "no tree")?;
    let window = window(alloc, &[(3, 11)], Lean::Early)?;
    let kids = [(2, 10), (4, 12), (6, 20), (7, 21)];
    let wanted = nested(alloc, &kids, &[(0, 2), (0, 3), (1, 2), (1, 3), (2, 3)])?;
    let list = [ActionId(20), ActionId(21)];
    assert!(rt; merges_to(alloc, &tree, &window, &list, &wanted)?);
    Ok(())
}

// It goes behind a late one.
#[test]
fn a_late_window_is_merged(rt: HostRuntime) -> Result<(), Fail> {
    let alloc = rt.alloc();
    let root = nested(alloc, &[(2, 10), (3, 11), (4, 12)], &[(0, 1)])?;
    let tree = tree_of(alloc, root).map_err(|_| "no tree")?;
    let window = window(alloc, &[(3, 11)], Lean::Late)?;
    let wanted = nested(
        alloc,
        &[(2, 10), (6, 20), (4, 12)],
        &[(0, 1), (0, 2), (1, 2)],
    )?;
    assert!(rt; merges_to(alloc, &tree, &window, &[ActionId(20)], &wanted)?);
    Ok(())
}

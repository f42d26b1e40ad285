ghost use Rattle.std.specs.Prelude.{◌≡◌, ◌↔◌, ◌&&◌, ◌==◌, [], ◌∷◌, not, length, IsTrue};
ghost use Rattle.bd_base.specs.Facts.{is_subset};
ghost use Rattle.bd_tree.specs.Convex.{is_convex_in};
ghost use Rattle.bd_shape.specs.Grouped.{CanGroup};
ghost use Rattle.bd_shape.specs.Hull.{has_between};
ghost use Rattle.bd_shape.specs.Kids.{are_kids, kid_ids};
ghost use Rattle.bd_shape.specs.Unordered.{CanUnorder};

use crate::{are_kids, are_members, has_between};
use bd_base::NodeId;
use bd_tree::{Node, Tree, is_convex};

/// Whether the kids may be grouped: they are kids of the block, at least one, none twice, and convex. It takes no
/// memory.
pub fn can_group(tree: &Tree, block: NodeId, kids: &[NodeId]) -> bool
    ensures { IsTrue result ↔ CanGroup tree.now block kids.now }
{
    match tree.find(block) {
        None => false,
        Some(node) => groups(node, kids),
    }
}

/// Whether kid i may be unordered from kid j: they are different kids of the block, and no kid is after i and
/// before j. It takes no memory.
pub fn can_unorder(tree: &Tree, block: NodeId, i: NodeId, j: NodeId) -> bool
    ensures { IsTrue result ↔ CanUnorder tree.now block i j }
{
    match tree.find(block) {
        None => false,
        Some(node) => unorders(node, i, j),
    }
}

// The same of the block itself.
fn groups(block: &Node, kids: &[NodeId]) -> bool
    ensures { result ≡ (not (length kids.now == 0) && are_kids block.now kids.now && is_convex_in block.now kids.now) }
{
    !kids.is_empty() && are_kids(block, kids) && is_convex(block, kids)
}

fn unorders(block: &Node, i: NodeId, j: NodeId) -> bool
    ensures { result ≡ (not (i == j) && is_subset (i ∷ j ∷ []) (kid_ids block.now) && not (has_between block.now i j)) }
{
    i != j && are_members(block, &[i, j]) && !has_between(block, i, j)
}

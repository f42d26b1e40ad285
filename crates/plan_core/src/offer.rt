ghost use Rattle.std.specs.Prelude.{◌≡◌, [], ◌∷◌, count_by, IfOk};
ghost use Rattle.plan_core.specs.Core.{new_ids, is_rebuild, is_replacement, is_tightening, due_after};

use crate::sides::count_taken;
use bd_base::{ActList, FromItems, IdList, Items, NoMemory, NodeId, PairList};
use bd_merge::Window;
use bd_tree::{Node, NodeList};
use std::alloc::Global;

/// What may be offered to the core.
#[derive(Debug, Drop)]
pub enum Offer {
    /// The window's kids are replaced by steps of these actions, in a chain.
    Replace {
        window: Window,
        actions: ActList,
    },
    /// Kids of a block are grouped on the left and on the right, and the two groups are unordered.
    Tighten {
        block: NodeId,
        left: IdList,
        right: IdList,
    },
    /// The steps become the kids of the root as they are listed, with this order.
    Rebuild {
        order: PairList,
    },
}

impl Offer {
    // Whether it is a replacement.
    pub(crate) fn is_replacement(&self) -> bool
        ensures { result ≡ is_replacement self.now }
    {
        match self {
            Offer::Replace { .. } => true,
            Offer::Tighten { .. } => false,
            Offer::Rebuild { .. } => false,
        }
    }

    // Whether it is a tightening.
    pub(crate) fn is_tightening(&self) -> bool
        ensures { result ≡ is_tightening self.now }
    {
        match self {
            Offer::Replace { .. } => false,
            Offer::Tighten { .. } => true,
            Offer::Rebuild { .. } => false,
        }
    }

    // Whether it is a rebuild.
    pub(crate) fn is_rebuild(&self) -> bool
        ensures { result ≡ is_rebuild self.now }
    {
        match self {
            Offer::Replace { .. } => false,
            Offer::Tighten { .. } => false,
            Offer::Rebuild { .. } => true,
        }
    }

    // By how many it raises the count of replacements.
    pub(crate) fn replaced(&self) -> u64
        ensures { result ≡ count_by is_replacement (self.now ∷ []) }
    {
        match self {
            Offer::Replace { .. } => 1,
            Offer::Tighten { .. } => 0,
            Offer::Rebuild { .. } => 0,
        }
    }

    // How many ids it takes where it is accepted.
    pub(crate) fn new_ids(&self) -> u64
        ensures { result ≡ new_ids self.now }
    {
        match self {
            Offer::Replace { actions, .. } => actions.as_slice().len() as u64,
            Offer::Tighten { left, right, .. } => {
                count_taken(left.as_slice()) + count_taken(right.as_slice())
            }
            Offer::Rebuild { .. } => 0,
        }
    }

    // Whether a rebuild is due behind it, by whether one was due before it.
    pub(crate) fn leaves_due(&self, due: bool) -> bool
        ensures { result ≡ due_after due (self.now ∷ []) }
    {
        match self {
            Offer::Replace { .. } => true,
            Offer::Tighten { .. } => due,
            Offer::Rebuild { .. } => false,
        }
    }

    /// The same offer.
    pub fn try_copy(&self, alloc: Global) -> Result<Offer, NoMemory>
        ensures { IfOk result (λ copy. copy ≡ self.now) }
    {
        match self {
            Offer::Replace { window, actions } => Ok(Offer::Replace {
                window: Window {
                    block: window.block,
                    kids: copies_of(alloc, window.kids.as_slice())?,
                    lean: window.lean,
                },
                actions: ActList::from_slice(alloc, actions.as_slice())?,
            }),
            Offer::Tighten { block, left, right } => Ok(Offer::Tighten {
                block: *block,
                left: IdList::from_slice(alloc, left.as_slice())?,
                right: IdList::from_slice(alloc, right.as_slice())?,
            }),
            Offer::Rebuild { order } => Ok(Offer::Rebuild {
                order: order.try_copy(alloc)?,
            }),
        }
    }
}

fn copies_of(alloc: Global, nodes: &[Node]) -> Result<NodeList, NoMemory>
    ensures { IfOk result (λ copies. copies ≡ nodes.now) }
{
    let mut copies = Vec::new(alloc);
    for node in nodes {
        copies.push(node.try_copy(alloc)?)?;
    }
    Ok(Items::of(copies))
}

use bd_base::{IdList, NodeId};

/// Two sides of a block, the left one before the right one: each is a kid by itself or the hull of two kids, and has the
/// kids' ids in the block's listing.
#[derive(Debug, Drop)]
pub struct Gain {
    pub block: NodeId,
    pub left: IdList,
    pub right: IdList,
}

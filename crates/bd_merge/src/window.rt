use bd_base::NodeId;
use bd_tree::NodeList;

/// On which side of a window the kids stand that are ordered with none of its members.
#[derive(Clone, Copy, Debug, PartialEq, Eq)]
pub enum Lean {
    /// Before it: only the kids after some member come after the window.
    Early,
    /// After it: only the kids before some member come before the window.
    Late,
}

/// Some kids of a block, carried as copies, and where the other kids go.
#[derive(Debug, Drop)]
pub struct Window {
    pub block: NodeId,
    pub kids: NodeList,
    pub lean: Lean,
}

use bd_base::Items;
use bd_pieces::{End, Piece};
use bd_task::Task;
use bd_tree::Tree;
use plan_core::{Offer, Refusal};

/// What an offer came to: its place in the history, from 1, or why it is refused.
pub type Reply = Result<u64, Refusal>;

/// What a run did: from which tree, by which accepted offers, to which tree.
#[derive(Debug, Drop)]
pub struct RunRecord {
    pub task: Task,
    pub start: Tree,
    pub history: Items<Offer>,
    pub tree: Tree,
    /// The pieces of the last round, in the order of their windows, where the run ended dry; else none.
    pub pieces: Items<Piece>,
    /// One for each offer of a script that was made, in their order, the last of them perhaps without its text.
    pub replies: Items<Reply>,
    /// `None` where a sink's fault or want of memory stopped the run before its end.
    pub end: Option<End>,
}

use bd_search::Kind;
use bd_subtask::SubTask;

/// What a search says of a subtask, with the subtask that it was lent.
#[derive(Debug, Drop)]
pub struct Verdict {
    pub sub: SubTask,
    pub kind: Kind,
}

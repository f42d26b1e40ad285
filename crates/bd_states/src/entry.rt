use bd_base::{ActionId, FactSet};

/// The closed entry before another, by its place among those that are closed, and the action between them.
#[derive(Clone, Copy, Debug)]
pub struct Origin {
    pub place: usize,
    pub action: ActionId,
}

/// A state with the cost of a way to it, its heuristic value, the total by which open entries are ordered,
/// and where it came from: nothing at the start.
#[derive(Debug, Drop)]
pub struct Entry {
    pub state: FactSet,
    pub cost: u64,
    pub value: u64,
    pub total: u64,
    pub from: Option<Origin>,
}

use bd_base::NoMemory;
use bd_pieces::{End, Piece};
use plan_core::Core;

/// What a round or a turn goes by: how many workers there are, how many states a search closes at most, how many kids a window
/// of the family carries at most, and how many kids each side of a gain has at most.
#[derive(Clone, Copy, Debug)]
pub struct Setup {
    pub workers: u32,
    pub nodes: u32,
    pub width: u32,
    pub span: u32,
}

/// The core after a round, and a piece for each window.
#[derive(Drop)]
pub struct Round {
    pub core: Core,
    pub pieces: Result<Vec<Piece>, NoMemory>,
}

/// The core after a turn, the pieces of its round, and how it ended; no end where it goes on.
#[derive(Drop)]
pub struct Turn {
    pub core: Core,
    pub pieces: Result<Vec<Piece>, NoMemory>,
    pub end: Option<End>,
}

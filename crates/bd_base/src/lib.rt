//! What every crate of bdpo speaks in: numbers of facts, actions and nodes, lists, sets of facts, lists of
//! pairs, and the outside as traits.
//!
//! It knows no other crate of the repository. It promises that a `FactSet` is the strictly rising list of
//! its facts after every call, that `OwnedRow` is the rising list of its positions, that `Items` and `PairList`
//! are the lists that they were made of, and that a shelf or a sink answers an error only where its trait says:
//! where it tells so, or a count rose in the call, or memory was wanting. A text that a shelf tells is never
//! missing.
//! No clause shows how sets and pairs are stored: they are walked by `iter` and asked by `has`. Both are
//! words of 64 bits: a set as plain words or as the words that aren't 0, and pairs that rise as rows, one for
//! each first position; other pairs stand as they were given.
#![tactic(auto)]

mod cells;
mod facts;
mod forms;
mod ids;
mod items;
mod owned_row;
mod pairs;
mod places;
mod row;
mod row_building;
mod rows;
mod shelf;
mod sink;
mod spans;
mod text_err;
mod word_sets;

pub use facts::{FactSet, Facts};
pub use ids::{ActionId, FactId, NoMemory, NodeId};
pub use items::{FromItems, Items};
pub use owned_row::OwnedRow;
pub use pairs::{PairList, Pairs};
pub use row::{Row, RowPlaces};
pub use shelf::{DirShelf, MemShelf, Shelf, ShelfErr};
pub use sink::{Failed, MemSink, Sink, StreamSink};
pub use text_err::{Cause, Limit, TextErr};

/// A list of actions.
pub type ActList = Items<ActionId>;

/// A list of ids.
pub type IdList = Items<NodeId>;

/// A list of bytes.
pub type Text = Items<u8>;

#[cfg(test)]
mod tests;

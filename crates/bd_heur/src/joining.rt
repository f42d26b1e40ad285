ghost use Rattle.std.specs.Prelude.{◌≡◌, Some};
ghost use Rattle.bd_heur.specs.Relaxed.{joined, value_of_all, after_cost};
ghost use Rattle.bd_heur.specs.Tables.{value_in};

use crate::Join;
use crate::index::ActionRow;
use bd_base::{FactId, FactSet};

fn join_numbers(join: Join, a: u64, b: u64) -> u64
    ensures { Some result ≡ joined join (Some a) (Some b) }
{
    match join {
        Join::Greatest => a.max(b),
        Join::Sum => a.saturating_add(b),
    }
}

/// Two values joined: none where one is none.
pub fn joined(join: Join, a: Option<u64>, b: Option<u64>) -> Option<u64>
    ensures { result ≡ joined join a b }
{
    match a {
        None => None,
        Some(x) => match b {
            None => None,
            Some(y) => Some(join_numbers(join, x, y)),
        },
    }
}

/// The value of a fact in a table: none past its end.
pub fn value_at(table: &[Option<u64>], p: FactId) -> Option<u64>
    ensures { result ≡ value_in table.now p }
{
    match table.get(p.0 as usize) {
        None => None,
        Some(value) => *value,
    }
}

/// The values of the facts of a set joined.
pub(crate) fn value_of_all(join: Join, table: &[Option<u64>], facts: &FactSet) -> Option<u64>
    ensures { result ≡ value_of_all join (value_in table.now) (Some 0) facts.now }
{
    let mut value = Some(0);
    for p in facts.iter() {
        value = joined(join, value, value_at(table, p));
    }
    value
}

// The values of the facts of a list joined.
fn value_of_list(join: Join, table: &[Option<u64>], facts: &[FactId]) -> Option<u64>
    ensures { result ≡ value_of_all join (value_in table.now) (Some 0) facts.now }
{
    let mut value = Some(0);
    for p in facts {
        value = joined(join, value, value_at(table, *p));
    }
    value
}

/// The value of what an action adds.
pub(crate) fn value_by(join: Join, table: &[Option<u64>], row: &ActionRow) -> Option<u64>
    ensures { result ≡ after_cost row.now.cost (value_of_all join (value_in table.now) (Some 0) row.now.pre.items) }
{
    match value_of_list(join, table, &row.pre) {
        None => None,
        Some(value) => Some(row.cost.saturating_add(value)),
    }
}

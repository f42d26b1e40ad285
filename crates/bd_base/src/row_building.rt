// Rows made of pairs in order.
ghost use Rattle.std.specs.Prelude.{◌≡◌, ◌+◌, ◌<◌, ◌≤◌, ◌++◌, ◌∷◌, [], true, length, IfOk, IfSome};
ghost use Rattle.bd_base.specs.Bits.{row_of};
ghost use Rattle.bd_base.specs.Pairs.{total_order};
ghost use Rattle.bd_base.specs.Rows.{pairs_with};

use crate::NoMemory;
use crate::places::{fill_run, push_place};
use crate::rows::{ROW_LIMIT, Rows};
use crate::word_sets::clear_word;
use std::alloc::Global;
use std::marker::Model;

/// Rows in the making: those that are done, and the words of row `at`; seen as their pairs.
#[derive(Drop)]
struct Builder {
    rows: Rows,
    at: u32,
    row: Vec<u64>,
}

impl Model for Builder {
    ghost use Rattle.std.specs.Prelude.{List, ℕ, ◌≤◌, ◌++◌, length};
    ghost use Rattle.bd_base.specs.Bits.{row_of};
    ghost use Rattle.bd_base.specs.Rows.{pairs_with};

    ghost Value = { List (ℕ × ℕ) };

    ghost view = { λ b. b.rows ++ pairs_with b.at (row_of 0 b.row.items) };

    ghost invariant = { λ b. length b.row.items ≤ 128 };
}

// Puts a row's words to the rows, and empties it; false where it isn't behind them.
fn end_row(rows: &mut Rows, at: u32, row: &mut Vec<u64>) -> Result<bool, NoMemory>
    requires { length row.old.items ≤ 128 }
    ensures took { IfOk result (λ took. took ≡ true → rows.new ≡ rows.old ++ pairs_with at (row_of 0 row.old.items)) }
    ensures empty { IfOk result (λ took. took ≡ true → row.new.items ≡ []) }
    ensures short { length row.new.items ≤ 128 }
{
    if !rows.push_row(at, row)? {
        return Ok(false);
    }
    row.clear();
    Ok(true)
}

impl Builder {
    fn new(alloc: Global) -> Builder
        ensures { result ≡ [] }
    {
        Builder {
            rows: Rows::new(alloc),
            at: 0,
            row: Vec::new(alloc),
        }
    }

    // Puts in a pair that is behind all others; false where it isn't, or where a row can't hold it.
    fn push(&mut self, i: u32, j: u32) -> Result<bool, NoMemory>
        ensures { IfOk result (λ took. took ≡ true → self.new ≡ self.old ++ (i, j) ∷ []) }
    {
        if i >= j || j >= ROW_LIMIT {
            return Ok(false);
        }
        if i == self.at {
            return push_place(&mut self.row, j);
        }
        if !end_row(&mut self.rows, self.at, &mut self.row)? {
            return Ok(false);
        }
        self.at = i;
        push_place(&mut self.row, j)
    }

    fn finish(self) -> Result<Option<Rows>, NoMemory>
        ensures { IfOk result (λ made. IfSome made (λ rows. rows ≡ self)) }
    {
        let Builder { mut rows, at, row } = self;
        if !rows.push_row(at, &row)? {
            return Ok(None);
        }
        Ok(Some(rows))
    }
}

/// The rows of pairs, if the pairs rise strictly, and each is i < j < 8192.
pub(crate) fn rows_of(alloc: Global, pairs: &[(u32, u32)]) -> Result<Option<Rows>, NoMemory>
    ensures { IfOk result (λ made. IfSome made (λ rows. rows ≡ pairs.now)) }
{
    let mut builder = Builder::new(alloc);
    for p in pairs {
        if !builder.push(p.0, p.1)? {
            return Ok(None);
        }
    }
    builder.finish()
}

/// The rows of the order of n positions in which each is before all later ones.
pub(crate) fn total_rows(alloc: Global, n: u32) -> Result<Option<Rows>, NoMemory>
    requires { n ≤ 8192 }
    ensures { IfOk result (λ made. IfSome made (λ rows. rows ≡ total_order n)) }
{
    let before_last = n.saturating_sub(1);
    let mut row = Vec::new(alloc);
    let mut rows = Rows::with_room(alloc, before_last, (n + 63) / 64)?;
    fill_run(&mut row, n.min(1), n)?;
    for i in 0..before_last {
        if !rows.push_row(i, &row)? {
            return Ok(None);
        }
        let next = i + 1;
        clear_word(&mut row, next as usize / 64, 1 << (next % 64));
    }
    Ok(Some(rows))
}

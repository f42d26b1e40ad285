// An order of less than 8192 positions as rows of words: row i holds the positions that i is before.
ghost use Rattle.std.specs.Prelude.{◌≡◌, ◌↔◌, ℕ, ◌+◌, ◌-◌, ◌*◌, ◌<◌, ◌≤◌, ◌++◌, ◌∷◌, [], List, true, false, max, map, length, IfOk, IfSome, OnOk, IsTrue, slice_get};
ghost use Rattle.bd_base.specs.Bits.{row_of};
ghost use Rattle.bd_base.specs.Facts.{plus, remove_fact};
ghost use Rattle.bd_base.specs.Pairs.{after_of, before_of, have_rising_pairs, is_before, total_order, without_pair};
ghost use Rattle.bd_base.specs.Rows.{AreInTurn, AreSpans, IsApart, pairs_of, pairs_with, words_at};

use crate::NoMemory;
use crate::owned_row::OwnedRow;
use crate::places::{Places, are_above, count_places, has_place, is_run, trimmed};
use crate::spans::{
    Span, add_row, clear_place, cut_row, drop_first_rows, drop_last_rows, first_with, part_of,
};
use crate::word_sets::clear_word;
use std::alloc::Global;
use std::marker::Model;

/// No position of an order that is stored as rows is as large as this.
pub(crate) const ROW_LIMIT: u32 = 8192;

/// No row has more words than these.
const ROW_WORDS: usize = 128;

/// The rows from the first on; seen as their pairs.
#[derive(Debug, Drop)]
pub(crate) struct Rows {
    first: u32,
    spans: Vec<Span>,
    words: Vec<u64>,
}

impl Model for Rows {
    ghost use Rattle.std.specs.Prelude.{List, ℕ, ◌+◌, ◌≤◌, length};
    ghost use Rattle.bd_base.specs.Rows.{AreInTurn, AreSpans, pairs_of};

    ghost Value = { List (ℕ × ℕ) };

    ghost view = { λ r. pairs_of r.words.items r.first r.spans.items };

    ghost invariant = { λ r. (r.first + length r.spans.items ≤ 8192) × AreSpans (length r.words.items) r.spans.items × AreInTurn 0 r.spans.items };
}

impl Rows {
    /// No rows.
    pub(crate) fn new(alloc: Global) -> Rows
        ensures { result ≡ [] }
    {
        Rows {
            first: 0,
            spans: Vec::new(alloc),
            words: Vec::new(alloc),
        }
    }

    /// No rows, with room for some, each of so many words.
    pub(crate) fn with_room(alloc: Global, rows: u32, width: u32) -> Result<Rows, NoMemory>
        requires { (rows ≤ 8192) × (width ≤ 128) }
        ensures { IfOk result (λ made. made ≡ []) }
    {
        Ok(Rows {
            first: 0,
            spans: Vec::with_capacity(alloc, rows as usize)?,
            words: Vec::with_capacity(alloc, rows as usize * width as usize)?,
        })
    }

    /// How many pairs they have.
    pub(crate) fn len(&self) -> usize
        ensures { result ≡ length self.now }
    {
        let mut n = 0;
        for span in &self.spans {
            n += count_places(part_of(&self.words, *span));
        }
        n
    }

    /// The pair at a place from 0.
    pub(crate) fn at(&self, k: usize) -> Option<(u32, u32)>
        ensures { result ≡ slice_get self.now k }
    {
        let mut left = k;
        for p in self.iter() {
            if left == 0 {
                return Some(p);
            }
            left -= 1;
        }
        None
    }

    /// Puts in the pairs of i with the positions of words, where row i is behind all rows; false where it
    /// isn't. A row without words is left out.
    pub(crate) fn push_row(&mut self, i: u32, row: &[u64]) -> Result<bool, NoMemory>
        requires { length row.now ≤ 128 }
        ensures took { IfOk result (λ took. took ≡ true → self.new ≡ self.old ++ pairs_with i (row_of 0 row.now)) }
        ensures left { IfOk result (λ took. took ≡ false → self.new ≡ self.old) }
    {
        if row.is_empty() {
            return Ok(true);
        }
        if i >= ROW_LIMIT {
            return Ok(false);
        }
        let first = first_with(self.first, &self.spans, i);
        if i < first {
            return Ok(false);
        }
        let at = (i - first) as usize;
        if at < self.spans.len() {
            return Ok(false);
        }
        self.first = first;
        add_row(&mut self.spans, &mut self.words, at, row)?;
        Ok(true)
    }

    /// Puts in the pairs of i with the positions of words, where they rise and stand behind all others; false
    /// where they don't, or where rows can't hold them. A row has no words behind its last position.
    pub(crate) fn put_words(&mut self, i: u32, words: &[u64]) -> Result<bool, NoMemory>
        ensures took { IfOk result (λ took. took ≡ true → self.new ≡ self.old ++ pairs_with i (row_of 0 words.now)) }
        ensures left { IfOk result (λ took. took ≡ false → self.new ≡ self.old) }
    {
        let row = trimmed(words);
        if row.len() > ROW_WORDS {
            return Ok(false);
        }
        if i < ROW_LIMIT && !are_above(row, i) {
            return Ok(false);
        }
        self.push_row(i, row)
    }

    // No rows, with the room that these take.
    fn with_same_room(&self, alloc: Global) -> Result<Rows, NoMemory>
        ensures { IfOk result (λ made. made ≡ []) }
    {
        Ok(Rows {
            first: 0,
            spans: Vec::with_capacity(alloc, self.spans.len())?,
            words: Vec::with_capacity(alloc, self.words.len())?,
        })
    }

    // Puts in the pairs of a row but one, where the row is behind all rows; false where it isn't.
    fn push_without(
        &mut self,
        alloc: Global,
        at: u32,
        row: &[u64],
        pair: (u32, u32),
    ) -> Result<bool, NoMemory>
        requires { length row.now ≤ 128 }
        ensures { IfOk result (λ took. took ≡ true → self.new ≡ self.old ++ without_pair pair.0 pair.1 (pairs_with at (row_of 0 row.now))) }
    {
        if at != pair.0 {
            return self.push_row(at, row);
        }
        let mut left = Vec::from_slice(alloc, row)?;
        clear_word(&mut left, pair.1 as usize / 64, 1 << (pair.1 % 64));
        self.push_row(at, trimmed(&left))
    }

    /// The rows without a pair, if they can be made.
    pub(crate) fn without(&self, alloc: Global, i: u32, j: u32) -> Result<Option<Rows>, NoMemory>
        ensures { IfOk result (λ made. IfSome made (λ rows. rows ≡ without_pair i j self.now)) }
    {
        let mut rows = self.with_same_room(alloc)?;
        for (k, span) in self.spans.iter().enumerate() {
            let row = part_of(&self.words, *span);
            if !rows.push_without(alloc, self.first + k as u32, row, (i, j))? {
                return Ok(None);
            }
        }
        Ok(Some(rows))
    }

    /// Takes a pair out. It takes no memory, and touches one word. Rows are kept from the first to the last that
    /// isn't empty, each no longer than its last pair.
    pub(crate) fn remove(&mut self, i: u32, j: u32)
        ensures { self.new ≡ without_pair i j self.old }
    {
        self.clear(i, j);
        self.trim(i);
    }

    // Takes a pair out of its row's words.
    fn clear(&mut self, i: u32, j: u32)
        ensures { self.new ≡ without_pair i j self.old }
    {
        if i < self.first {
            return;
        }
        let k = (i - self.first) as usize;
        if k < self.spans.len() {
            clear_place(&mut self.words, self.spans[k], j);
        }
    }

    // Cuts the words behind the last position of row i, and the rows at both ends that have no words.
    fn trim(&mut self, i: u32)
        ensures { self.new ≡ self.old }
    {
        if i < self.first {
            return;
        }
        let k = (i - self.first) as usize;
        if k < self.spans.len() {
            cut_row(&self.words, &mut self.spans, k);
            drop_last_rows(&mut self.spans);
            self.first = drop_first_rows(self.first, &mut self.spans);
        }
    }

    /// Whether each pair has its smaller position first.
    pub(crate) fn rises(&self) -> bool
        ensures { result ≡ have_rising_pairs self.now }
    {
        for (k, span) in self.spans.iter().enumerate() {
            if !are_above(part_of(&self.words, *span), self.first + k as u32) {
                return false;
            }
        }
        true
    }

    /// The words of the positions that i is before.
    pub(crate) fn row(&self, i: u32) -> &[u64]
        ensures row { row_of 0 result.now ≡ after_of self.now i }
        ensures short { length result.now ≤ 128 }
    {
        if i < self.first {
            return &[];
        }
        match self.spans.get((i - self.first) as usize) {
            None => &[],
            Some(span) => part_of(&self.words, *span),
        }
    }

    /// Whether i is before j.
    pub(crate) fn has(&self, i: u32, j: u32) -> bool
        ensures { result ≡ is_before self.now i j }
    {
        has_place(self.row(i), j)
    }

    /// Whether they are the order of n positions in which each is before all later ones.
    pub(crate) fn is_total(&self, n: usize) -> bool
        ensures { IsTrue result ↔ self.now ≡ total_order n }
    {
        let stored = self.first + self.spans.len() as u32;
        if n > ROW_LIMIT as usize + 1 {
            return false;
        }
        let end = n as u32;
        for i in 0..end.max(stored) {
            if !is_run(self.row(i), end.min(i + 1), end) {
                return false;
            }
        }
        true
    }

    /// The set of the positions that are before j.
    pub(crate) fn before(&self, alloc: Global, j: u32) -> Result<OwnedRow, NoMemory>
        ensures { IfOk result (λ row. row ≡ plus [] (before_of self.now j)) }
    {
        let mut row = OwnedRow::new(alloc);
        let end = self.first + self.spans.len() as u32;
        for i in 0..end {
            if self.has(i, j) {
                row.put(i)?;
            }
        }
        Ok(row)
    }

    /// The same rows.
    pub(crate) fn try_copy(&self, alloc: Global) -> Result<Rows, NoMemory>
        ensures { IfOk result (λ copy. copy ≡ self.now) }
    {
        Ok(Rows {
            first: self.first,
            spans: Vec::from_slice(alloc, &self.spans)?,
            words: Vec::from_slice(alloc, &self.words)?,
        })
    }

    /// The pairs in order. It takes no memory.
    pub(crate) fn iter(&self) -> RowPairs<'_>
        ensures { result ≡ self.now }
    {
        match self.spans.split_first() {
            None => RowPairs {
                at: 0,
                row: Places::new(&[]),
                spans: &[],
                words: &self.words,
            },
            Some((span, spans)) => RowPairs {
                at: self.first,
                row: Places::new(part_of(&self.words, *span)),
                spans,
                words: &self.words,
            },
        }
    }
}

/// A walk through the pairs of rows; seen as those that are left.
#[derive(Debug, Drop)]
pub(crate) struct RowPairs<'a> {
    at: u32,
    row: Places<'a>,
    spans: &'a [Span],
    words: &'a [u64],
}

impl<'a> Model for RowPairs<'a> {
    ghost use Rattle.std.specs.Prelude.{List, ℕ, ◌+◌, ◌≤◌, ◌++◌, length};
    ghost use Rattle.bd_base.specs.Rows.{AreSpans, pairs_of, pairs_with};

    ghost Value = { List (ℕ × ℕ) };

    ghost view = { λ s. pairs_with s.at s.row ++ pairs_of s.words.now (s.at + 1) s.spans.now };

    ghost invariant = { λ s. (s.at + length s.spans.now ≤ 8192) × AreSpans (length s.words.now) s.spans.now };
}

impl<'a> Iterator for RowPairs<'a> {
    type Item = (u32, u32);

    ghost use Rattle.std.specs.Iterator.{YieldsFirst, item_count};

    ghost next_gives = { YieldsFirst (λ s. s) };

    ghost remaining = { item_count (λ s. s) };

    fn next(&mut self) -> Option<(u32, u32)> {
        loop {
            if let Some(j) = self.row.next() {
                return Some((self.at, j));
            }
            let Some((span, spans)) = self.spans.split_first() else {
                return None;
            };
            self.at += 1;
            self.row = Places::new(part_of(self.words, *span));
            self.spans = spans;
        }
    }
}

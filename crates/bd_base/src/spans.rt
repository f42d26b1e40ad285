// Where the rows of an order lie among its words: row by row, one behind another.
ghost use Rattle.std.specs.Prelude.{◌≡◌, ℕ, ◌+◌, ◌<◌, ◌≤◌, ◌++◌, List, max, length, OnOk};
ghost use Rattle.bd_base.specs.Bits.{row_of};
ghost use Rattle.bd_base.specs.Facts.{remove_fact};
ghost use Rattle.bd_base.specs.Rows.{AreInTurn, AreSpans, IsApart, pairs_of, pairs_with, words_at};

use crate::NoMemory;
use crate::places::trimmed;

/// Where a row's words lie among all words.
#[derive(Clone, Copy, Debug)]
pub(crate) struct Span {
    pub(crate) start: usize,
    pub(crate) end: usize,
}

// Adds rows without a position until there are n.
fn pass_rows(spans: &mut Vec<Span>, n: usize) -> Result<(), NoMemory>
    ensures same { (words : List ℕ) (i : ℕ) → pairs_of words i spans.new.items ≡ pairs_of words i spans.old.items }
    ensures fits { (size : ℕ) → AreSpans size spans.old.items → AreSpans size spans.new.items }
    ensures in_turn { (from : ℕ) → AreInTurn from spans.old.items → AreInTurn from spans.new.items }
    ensures few { length spans.new.items ≤ max (length spans.old.items) n }
    ensures many { OnOk result (n ≤ length spans.new.items) }
{
    while spans.len() < n {
        spans.push(Span { start: 0, end: 0 })?;
    }
    Ok(())
}

/// Puts in a row behind all rows, as the one at a place.
pub(crate) fn add_row(
    spans: &mut Vec<Span>,
    words: &mut Vec<u64>,
    at: usize,
    row: &[u64],
) -> Result<(), NoMemory>
    requires behind { length spans.old.items ≤ at }
    requires fits { AreSpans (length words.old.items) spans.old.items }
    requires in_turn { AreInTurn 0 spans.old.items }
    requires short { length row.now ≤ 128 }
    ensures fits { AreSpans (length words.new.items) spans.new.items }
    ensures in_turn { AreInTurn 0 spans.new.items }
    ensures few { length spans.new.items ≤ at + 1 }
    ensures added { OnOk result ((i : ℕ) → pairs_of words.new.items i spans.new.items ≡ pairs_of words.old.items i spans.old.items ++ pairs_with (i + at) (row_of 0 row.now)) }
{
    pass_rows(spans, at)?;
    let start = words.len();
    words.extend_from_slice(row)?;
    spans.push(Span {
        start,
        end: start + row.len(),
    })?;
    Ok(())
}

/// The number of the first row, where row i comes: that of the rows that are there.
pub(crate) fn first_with(first: u32, spans: &[Span], i: u32) -> u32
    requires { (first + length spans.now ≤ 8192) × (i < 8192) }
    ensures same { (words : List ℕ) → pairs_of words result spans.now ≡ pairs_of words first spans.now }
    ensures few { result + length spans.now ≤ 8192 }
{
    if spans.is_empty() { i } else { first }
}

/// The words of a row.
pub(crate) fn part_of(words: &[u64], span: Span) -> &[u64]
    requires { (span.start ≤ span.end) × (span.end ≤ length words.now) × (span.end ≤ span.start + 128) }
    ensures value { result.now ≡ words_at words.now span }
    ensures short { length result.now ≤ 128 }
{
    &words[span.start..span.end]
}

/// Takes a position out of the words of a row.
pub(crate) fn clear_place(words: &mut Vec<u64>, span: Span, j: u32)
    requires { (span.start ≤ span.end) × (span.end ≤ length words.old.items) }
    ensures len { length words.new.items ≡ length words.old.items }
    ensures cleared { row_of 0 (words_at words.new.items span) ≡ remove_fact j (row_of 0 (words_at words.old.items span)) }
    ensures others { (other : Span) → (span.start < span.end → IsApart span other) → words_at words.new.items other ≡ words_at words.old.items other }
{
    let at = j as usize / 64;
    if at < span.end - span.start {
        let left = words[span.start + at] & !(1 << (j % 64));
        words[span.start + at] = left;
    }
}

// The row without the words behind its last position.
fn shortened(words: &[u64], span: Span) -> Span
    requires { (span.start ≤ span.end) × (span.end ≤ length words.now) × (span.end ≤ span.start + 128) }
    ensures same { row_of 0 (words_at words.now result) ≡ row_of 0 (words_at words.now span) }
    ensures start { result.start ≡ span.start }
    ensures end { (result.start ≤ result.end) × (result.end ≤ span.end) }
{
    let row = trimmed(part_of(words, span));
    Span {
        start: span.start,
        end: span.start + row.len(),
    }
}

/// Takes the words behind its last position from row k.
pub(crate) fn cut_row(words: &[u64], spans: &mut Vec<Span>, k: usize)
    requires there { k < length spans.old.items }
    requires fits { AreSpans (length words.now) spans.old.items }
    ensures same { (i : ℕ) → pairs_of words.now i spans.new.items ≡ pairs_of words.now i spans.old.items }
    ensures fits { AreSpans (length words.now) spans.new.items }
    ensures in_turn { (from : ℕ) → AreInTurn from spans.old.items → AreInTurn from spans.new.items }
    ensures len { length spans.new.items ≡ length spans.old.items }
{
    let row = spans[k];
    let cut = shortened(words, row);
    spans[k] = cut;
}

/// Takes out the last rows that have no words.
pub(crate) fn drop_last_rows(spans: &mut Vec<Span>)
    ensures same { (words : List ℕ) (i : ℕ) → pairs_of words i spans.new.items ≡ pairs_of words i spans.old.items }
    ensures fits { (size : ℕ) → AreSpans size spans.old.items → AreSpans size spans.new.items }
    ensures in_turn { (from : ℕ) → AreInTurn from spans.old.items → AreInTurn from spans.new.items }
    ensures few { length spans.new.items ≤ length spans.old.items }
{
    while spans.len() > 0 {
        let row = spans[spans.len() - 1];
        if row.start < row.end {
            return;
        }
        spans.pop();
    }
}

/// Takes out the first rows that have no words, and gives the number of the row that is first then.
pub(crate) fn drop_first_rows(first: u32, spans: &mut Vec<Span>) -> u32
    requires { first + length spans.old.items ≤ 8192 }
    ensures same { (words : List ℕ) → pairs_of words result spans.new.items ≡ pairs_of words first spans.old.items }
    ensures fits { (size : ℕ) → AreSpans size spans.old.items → AreSpans size spans.new.items }
    ensures in_turn { AreInTurn 0 spans.old.items → AreInTurn 0 spans.new.items }
    ensures few { result + length spans.new.items ≤ 8192 }
{
    let mut at = first;
    while !spans.is_empty() {
        let row = spans[0];
        if row.start < row.end {
            return at;
        }
        spans.remove(0);
        at += 1;
    }
    at
}

ghost use Rattle.std.specs.Prelude.{◌≡◌, ◌↔◌, [], true, false, ◌+◌, ◌-◌, ◌<◌, ◌++◌, map, IfOk, OnOk, IsTrue, slice_get, length};
ghost use Rattle.bd_base.specs.Facts.{plus};
ghost use Rattle.bd_base.specs.Pairs.{after_of, before_each, before_of, have_rising_pairs, is_before, is_closed, total_order, without_pair};
ghost use Rattle.bd_base.specs.Rows.{pairs_with};

use crate::NoMemory;
use crate::owned_row::OwnedRow;
use crate::row::Row;
use crate::row_building::{rows_of, total_rows};
use crate::rows::{ROW_LIMIT, RowPairs, Rows};
use std::alloc::Global;
use std::marker::Model;

/// How pairs are stored: as rows of words where they rise strictly and each is i < j < 8192, and else as
/// they stand.
#[derive(Debug, Drop)]
enum Form {
    Listed(Vec<(u32, u32)>),
    InRows(Rows),
}

/// A list of pairs of positions, seen as that list. As an order, the pair `(i, j)` says that position
/// i is before position j.
#[derive(Debug, Drop)]
pub struct PairList {
    form: Form,
}

impl Model for PairList {
    ghost use Rattle.std.specs.Prelude.{List, ℕ};

    ghost Value = { List (ℕ × ℕ) };

    ghost use Rattle.bd_base.specs.PairList.{pairs_in};

    ghost view = { λ p. pairs_in p.form };
}

impl PairList {
    /// No pairs. It takes no memory.
    pub fn new(alloc: Global) -> PairList
        ensures { result ≡ [] }
    {
        PairList {
            form: Form::InRows(Rows::new(alloc)),
        }
    }

    /// The list of these pairs, as they stand.
    pub fn of(alloc: Global, pairs: &[(u32, u32)]) -> Result<PairList, NoMemory>
        ensures { IfOk result (λ p. p ≡ pairs.now) }
    {
        let form = match rows_of(alloc, pairs)? {
            None => Form::Listed(Vec::from_slice(alloc, pairs)?),
            Some(rows) => Form::InRows(rows),
        };
        Ok(PairList { form })
    }

    /// The order of n positions in which each is before all later ones.
    pub fn total(alloc: Global, n: u32) -> Result<PairList, NoMemory>
        ensures { IfOk result (λ p. p ≡ total_order n) }
    {
        if n <= ROW_LIMIT {
            if let Some(rows) = total_rows(alloc, n)? {
                return Ok(PairList {
                    form: Form::InRows(rows),
                });
            }
        }
        Ok(PairList {
            form: Form::Listed(total_pairs(alloc, n)?),
        })
    }

    /// Adds the pairs of i with the positions of a row, behind all others. After an error some of them may be in.
    /// Where both are stored as words, and the row comes behind all rows with positions above i, it takes memory for
    /// the row's own words alone.
    pub fn put_row(&mut self, alloc: Global, i: u32, row: &Row<'_>) -> Result<(), NoMemory>
        ensures { OnOk result (self.new ≡ self.old ++ map (λ j. (i, j)) row.now) }
    {
        match &mut self.form {
            Form::Listed(pairs) => push_places(pairs, i, row),
            Form::InRows(rows) => {
                if !put_in_rows(rows, i, row)? {
                    *self = listed_with(alloc, rows, i, row)?;
                }
                Ok(())
            }
        }
    }

    /// The same list without the pair, wherever it stands. Rows are copied a word at a time.
    pub fn without(&self, alloc: Global, i: u32, j: u32) -> Result<PairList, NoMemory>
        ensures { IfOk result (λ p. p ≡ without_pair i j self.now) }
    {
        if let Form::InRows(rows) = &self.form {
            if let Some(rows) = rows.without(alloc, i, j)? {
                return Ok(PairList {
                    form: Form::InRows(rows),
                });
            }
        }
        walk_without(alloc, self, i, j)
    }

    /// Takes a pair out, wherever it stands. It takes no memory; where the pairs are stored as rows it touches one word.
    pub fn remove(&mut self, i: u32, j: u32)
        ensures { self.new ≡ without_pair i j self.old }
    {
        match &mut self.form {
            Form::Listed(pairs) => pairs.retain(|p| !(p.0 == i && p.1 == j)),
            Form::InRows(rows) => rows.remove(i, j),
        }
    }

    /// Whether each pair has its smaller position first.
    pub fn rises(&self) -> bool
        ensures { result ≡ have_rising_pairs self.now }
    {
        match &self.form {
            Form::Listed(pairs) => pairs.iter().all(|p| p.0 < p.1),
            Form::InRows(rows) => rows.rises(),
        }
    }

    /// How many pairs it has.
    pub fn len(&self) -> usize
        ensures { result ≡ length self.now }
    {
        match &self.form {
            Form::Listed(pairs) => pairs.len(),
            Form::InRows(rows) => rows.len(),
        }
    }

    /// The pair at a place from 0.
    pub fn at(&self, k: usize) -> Option<(u32, u32)>
        ensures { result ≡ slice_get self.now k }
    {
        match &self.form {
            Form::Listed(pairs) => pairs.get(k).copied(),
            Form::InRows(rows) => rows.at(k),
        }
    }

    /// Whether the pair is in the list: as an order, whether i is before j.
    pub fn has(&self, i: u32, j: u32) -> bool
        ensures { result ≡ is_before self.now i j }
    {
        match &self.form {
            Form::Listed(pairs) => pairs.iter().any(|p| p.0 == i && p.1 == j),
            Form::InRows(rows) => rows.has(i, j),
        }
    }

    /// The positions that i is before, in the order of the pairs. It takes no memory.
    pub fn after(&self, i: u32) -> Row<'_>
        ensures { result ≡ after_of self.now i }
    {
        match &self.form {
            Form::Listed(pairs) => Row::of_pairs(pairs, i),
            Form::InRows(rows) => Row::of_words(rows.row(i)),
        }
    }

    /// The set of the positions that are before j.
    pub fn before(&self, alloc: Global, j: u32) -> Result<OwnedRow, NoMemory>
        ensures { IfOk result (λ row. row ≡ plus [] (before_of self.now j)) }
    {
        match &self.form {
            Form::Listed(_) => walk_before(alloc, self, j),
            Form::InRows(rows) => rows.before(alloc, j),
        }
    }

    /// Whether i is before k wherever i is before some j and j is before k.
    pub fn is_closed(&self) -> bool
        ensures { result ≡ is_closed self.now }
    {
        for p in self.iter() {
            if !self.after(p.1).within(&self.after(p.0)) {
                return false;
            }
        }
        true
    }

    /// Whether it is the order of n positions in which each is before all later ones.
    pub fn is_total(&self, n: usize) -> bool
        ensures { IsTrue result ↔ self.now ≡ total_order n }
    {
        match &self.form {
            Form::Listed(_) => walk_is_total(self, n),
            Form::InRows(rows) => rows.is_total(n),
        }
    }

    // Whether it is stored as rows of words.
    #[cfg(test)]
    pub(crate) fn is_in_rows(&self) -> bool {
        matches!(&self.form, Form::InRows(_))
    }

    /// The pairs as they stand. It takes no memory.
    pub fn iter(&self) -> Pairs<'_>
        ensures { result ≡ self.now }
    {
        let walk = match &self.form {
            Form::Listed(pairs) => Walk::Listed(pairs.as_slice()),
            Form::InRows(rows) => Walk::InRows(rows.iter()),
        };
        Pairs { walk }
    }

    /// The same list.
    pub fn try_copy(&self, alloc: Global) -> Result<PairList, NoMemory>
        ensures { IfOk result (λ p. p ≡ self.now) }
    {
        let form = match &self.form {
            Form::Listed(pairs) => Form::Listed(Vec::from_slice(alloc, pairs)?),
            Form::InRows(rows) => Form::InRows(rows.try_copy(alloc)?),
        };
        Ok(PairList { form })
    }
}

// The list of these pairs.
fn made_of(alloc: Global, pairs: Vec<(u32, u32)>) -> Result<PairList, NoMemory>
    ensures { IfOk result (λ p. p ≡ pairs.items) }
{
    let form = match rows_of(alloc, &pairs)? {
        None => Form::Listed(pairs),
        Some(rows) => Form::InRows(rows),
    };
    Ok(PairList { form })
}

// Puts in the pairs of i with the positions of a row, where they can be a row behind all rows; false where they can't.
fn put_in_rows(rows: &mut Rows, i: u32, row: &Row<'_>) -> Result<bool, NoMemory>
    ensures took { IfOk result (λ took. took ≡ true → rows.new ≡ rows.old ++ pairs_with i row.now) }
    ensures left { IfOk result (λ took. took ≡ false → rows.new ≡ rows.old) }
{
    match row.words() {
        None => Ok(false),
        Some(words) => rows.put_words(i, words),
    }
}

// Adds the pairs of i with the positions of a row.
fn push_places(pairs: &mut Vec<(u32, u32)>, i: u32, row: &Row<'_>) -> Result<(), NoMemory>
    ensures { OnOk result (pairs.new.items ≡ pairs.old.items ++ pairs_with i row.now) }
{
    for j in row.iter() {
        pairs.push((i, j))?;
    }
    Ok(())
}

// The list of the pairs of rows, and of i with the positions of a row behind them, pair by pair.
fn listed_with(alloc: Global, rows: &Rows, i: u32, row: &Row<'_>) -> Result<PairList, NoMemory>
    ensures { IfOk result (λ p. p ≡ rows.now ++ pairs_with i row.now) }
{
    let mut pairs = Vec::new(alloc);
    for p in rows.iter() {
        pairs.push(p)?;
    }
    push_places(&mut pairs, i, row)?;
    made_of(alloc, pairs)
}

// The same list without the pair, pair by pair.
fn walk_without(alloc: Global, order: &PairList, i: u32, j: u32) -> Result<PairList, NoMemory>
    ensures { IfOk result (λ p. p ≡ without_pair i j order.now) }
{
    let mut pairs = Vec::new(alloc);
    for p in order.iter() {
        if !(p.0 == i && p.1 == j) {
            pairs.push(p)?;
        }
    }
    made_of(alloc, pairs)
}

// The set of the positions that are before j, pair by pair.
fn walk_before(alloc: Global, order: &PairList, j: u32) -> Result<OwnedRow, NoMemory>
    ensures { IfOk result (λ row. row ≡ plus [] (before_of order.now j)) }
{
    let mut row = OwnedRow::new(alloc);
    for p in order.iter() {
        if p.1 == j {
            row.put(p.0)?;
        }
    }
    Ok(row)
}

// Whether the order of n positions puts each before all later ones, pair by pair.
fn walk_is_total(order: &PairList, n: usize) -> bool
    ensures { IsTrue result ↔ order.now ≡ total_order n }
{
    let mut i = 0;
    let mut j = 1;
    for p in order.iter() {
        if j >= n || p.0 as usize != i || p.1 as usize != j {
            return false;
        }
        j += 1;
        if j == n {
            i += 1;
            j = i + 1;
        }
    }
    j >= n
}

// The pairs of the order of n positions in which each is before all later ones.
fn total_pairs(alloc: Global, n: u32) -> Result<Vec<(u32, u32)>, NoMemory>
    ensures { IfOk result (λ pairs. pairs.items ≡ total_order n) }
{
    let mut pairs = Vec::new(alloc);
    for i in 0..n {
        push_row(&mut pairs, i, n)?;
    }
    Ok(pairs)
}

// Adds the pairs of i with all later positions below n.
fn push_row(pairs: &mut Vec<(u32, u32)>, i: u32, n: u32) -> Result<(), NoMemory>
    requires { i < n }
    ensures { OnOk result (pairs.new.items ≡ pairs.old.items ++ before_each i (i + 1) (n - (i + 1))) }
{
    for j in i + 1..n {
        pairs.push((i, j))?;
    }
    Ok(())
}

#[derive(Debug, Drop)]
enum Walk<'a> {
    Listed(&'a [(u32, u32)]),
    InRows(RowPairs<'a>),
}

/// A walk through a list of pairs; seen as the pairs that are left.
#[derive(Debug, Drop)]
pub struct Pairs<'a> {
    walk: Walk<'a>,
}

impl<'a> Model for Pairs<'a> {
    ghost use Rattle.std.specs.Prelude.{List, ℕ};

    ghost Value = { List (ℕ × ℕ) };

    ghost use Rattle.bd_base.specs.PairList.{pairs_left};

    ghost view = { λ s. pairs_left s.walk };
}

impl<'a> Iterator for Pairs<'a> {
    type Item = (u32, u32);

    ghost use Rattle.std.specs.Iterator.{YieldsFirst, item_count};

    ghost next_gives = { YieldsFirst (λ s. s) };

    ghost remaining = { item_count (λ s. s) };

    fn next(&mut self) -> Option<(u32, u32)> {
        match &mut self.walk {
            Walk::Listed(left) => {
                let (first, rest) = left.split_first()?;
                *left = rest;
                Some(*first)
            }
            Walk::InRows(rows) => rows.next(),
        }
    }
}

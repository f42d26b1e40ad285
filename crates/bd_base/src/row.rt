// The positions that one position is before.
ghost use Rattle.std.specs.Int.{bit_at};
ghost use Rattle.std.specs.Prelude.{◌≡◌, ℕ, ◌+◌, ◌*◌, ◌<◌, ◌^◌, ◌==◌, ◌≤◌, ◌∷◌, [], length, count_by, IfSome, MatchOption};
ghost use Rattle.bd_base.specs.Bits.{row_of};
ghost use Rattle.bd_base.specs.Facts.{has, is_subset};
ghost use Rattle.bd_base.specs.Pairs.{after_of, is_before};

use crate::places::{Places, count_places, has_place};
use crate::word_sets::{word_at, words_within};
use std::marker::Model;

#[derive(Debug, Drop)]
enum Form<'a> {
    Words(&'a [u64]),
    Listed(&'a [(u32, u32)], u32),
}

/// The positions that one position is before, in the order of the pairs: rising, where the pairs rise.
/// Seen as their list. It takes no memory.
#[derive(Debug, Drop)]
pub struct Row<'a> {
    form: Form<'a>,
}

impl<'a> Model for Row<'a> {
    ghost use Rattle.std.specs.Prelude.{List, ℕ};

    ghost Value = { List ℕ };

    ghost use Rattle.bd_base.specs.Row.{IsRow, places_in};

    ghost view = { λ s. places_in s.form };

    ghost invariant = { λ s. IsRow s.form };
}

impl<'a> Row<'a> {
    pub(crate) fn of_words(words: &'a [u64]) -> Row<'a>
        requires { length words.now ≤ 2 ^ 26 }
        ensures { result ≡ row_of 0 words.now }
    {
        Row {
            form: Form::Words(words),
        }
    }

    pub(crate) fn of_pairs(pairs: &'a [(u32, u32)], i: u32) -> Row<'a>
        ensures { result ≡ after_of pairs.now i }
    {
        Row {
            form: Form::Listed(pairs, i),
        }
    }

    /// The positions. It takes no memory.
    pub fn iter(&self) -> RowPlaces<'a>
        ensures { result ≡ self.now }
    {
        let walk = match &self.form {
            Form::Words(words) => Walk::Words(Places::new(words)),
            Form::Listed(pairs, i) => Walk::Listed(pairs, *i),
        };
        RowPlaces { walk }
    }

    /// How many positions it has. A row that is stored as words counts them a word at a time.
    pub fn len(&self) -> usize
        ensures { result ≡ length self.now }
    {
        match &self.form {
            Form::Words(words) => count_places(words),
            Form::Listed(pairs, i) => count_after(pairs, *i),
        }
    }

    /// Whether the position is in the row.
    pub fn has(&self, at: u32) -> bool
        ensures { result ≡ has self.now at }
    {
        match &self.form {
            Form::Words(words) => has_place(words, at),
            Form::Listed(pairs, i) => has_pair(pairs, *i, at),
        }
    }

    /// Whether each position of the row is in the other.
    pub fn within(&self, of: &Row<'_>) -> bool
        ensures { result ≡ is_subset self.now of.now }
    {
        if let (Form::Words(words), Form::Words(others)) = (&self.form, &of.form) {
            return words_within(words, others);
        }
        self.walks_within(of)
    }

    /// The words of the positions, where it is stored as words.
    pub(crate) fn words(&self) -> Option<&'a [u64]>
        ensures { IfSome result (λ words. (row_of 0 words.now ≡ self.now) × (length words.now ≤ 2 ^ 26)) }
    {
        match &self.form {
            Form::Words(words) => Some(words),
            Form::Listed(_, _) => None,
        }
    }

    /// The word of the 64 positions from 64 n on.
    pub(crate) fn word(&self, n: u32) -> u64
        requires { n < 2 ^ 26 }
        ensures { (b : ℕ) → b < 64 → has self.now (64 * n + b) ≡ (bit_at result b == 1) }
    {
        match &self.form {
            Form::Words(words) => word_at(words, n as usize),
            Form::Listed(_, _) => self.tested_word(n),
        }
    }

    // The same, position by position.
    fn tested_word(&self, n: u32) -> u64
        requires { n < 2 ^ 26 }
        ensures { (b : ℕ) → b < 64 → has self.now (64 * n + b) ≡ (bit_at result b == 1) }
    {
        let mut word = 0;
        for b in 0..64 {
            if self.has(64 * n + b) {
                word |= 1 << b;
            }
        }
        word
    }

    // Whether each position of the row is in the other, position by position.
    fn walks_within(&self, of: &Row<'_>) -> bool
        ensures { result ≡ is_subset self.now of.now }
    {
        for at in self.iter() {
            if !of.has(at) {
                return false;
            }
        }
        true
    }
}

#[derive(Debug, Drop)]
enum Walk<'a> {
    Words(Places<'a>),
    Listed(&'a [(u32, u32)], u32),
}

/// A walk through a row; seen as the positions that are left.
#[derive(Debug, Drop)]
pub struct RowPlaces<'a> {
    walk: Walk<'a>,
}

impl<'a> Model for RowPlaces<'a> {
    ghost use Rattle.std.specs.Prelude.{List, ℕ};

    ghost Value = { List ℕ };

    ghost use Rattle.bd_base.specs.Row.{places_left};

    ghost view = { λ s. places_left s.walk };
}

impl<'a> Iterator for RowPlaces<'a> {
    type Item = u32;

    ghost use Rattle.std.specs.Iterator.{YieldsFirst, item_count};

    ghost next_gives = { YieldsFirst (λ s. s) };

    ghost remaining = { item_count (λ s. s) };

    fn next(&mut self) -> Option<u32> {
        match &mut self.walk {
            Walk::Words(places) => places.next(),
            Walk::Listed(left, i) => {
                let (at, rest) = first_after(left, *i)?;
                *left = rest;
                Some(at)
            }
        }
    }
}

fn has_pair(pairs: &[(u32, u32)], i: u32, j: u32) -> bool
    ensures { result ≡ is_before pairs.now i j }
{
    pairs.iter().any(|p| p.0 == i && p.1 == j)
}

// How many positions i is before, pair by pair.
fn count_after(pairs: &[(u32, u32)], i: u32) -> usize
    ensures { result ≡ count_by (λ p. p.0 == i) pairs.now }
{
    pairs.iter().filter(|p| p.0 == i).count()
}

// The first position that i is before, and the pairs behind that pair.
fn first_after(pairs: &[(u32, u32)], i: u32) -> Option<(u32, &[(u32, u32)])>
    ensures { MatchOption result (after_of pairs.now i ≡ []) (λ r. after_of pairs.now i ≡ r.0 ∷ after_of r.1.now i) }
{
    let mut left = pairs;
    while let Some((first, rest)) = left.split_first() {
        if first.0 == i {
            return Some((first.1, rest));
        }
        left = rest;
    }
    None
}

// Positions as the set bits of words: word w has the positions from 64 w on.
ghost use Rattle.std.specs.List.{list_all};
ghost use Rattle.std.specs.Prelude.{◌≡◌, ◌↔◌, ℕ, ◌+◌, ◌-◌, ◌*◌, ◌/◌, ◌<◌, ◌≤◌, ◌^◌, ◌++◌, ◌∷◌, [], true, min, max, length, take, nat_lt, count_ones, IfOk, OnOk, IsTrue};
ghost use Rattle.bd_base.specs.Bits.{bits_of, row_of, upto};
ghost use Rattle.bd_base.specs.Facts.{has};

use crate::NoMemory;
use std::marker::Model;

/// Whether the words hold the position.
pub(crate) fn has_place(words: &[u64], at: u32) -> bool
    ensures { result ≡ has (row_of 0 words.now) at }
{
    match words.get(at as usize / 64) {
        None => false,
        Some(word) => word >> (at % 64) & 1 == 1,
    }
}

/// How many bits of a word are set.
pub(crate) fn ones_of(word: u64) -> usize
    ensures ones { result ≡ count_ones word }
    ensures few { result ≤ 64 }
    ensures fits { word < 2 ^ 64 }
{
    word.count_ones() as usize
}

/// How many positions the words hold.
pub(crate) fn count_places(words: &[u64]) -> usize
    requires { length words.now ≤ 2 ^ 26 }
    ensures counted { result ≡ length (row_of 0 words.now) }
    ensures few { result ≤ 64 * length words.now }
{
    let mut n = 0;
    for word in words {
        n += word.count_ones() as usize;
    }
    n
}

/// Adds words without a position until there are n.
pub(crate) fn widen(words: &mut Vec<u64>, n: usize) -> Result<(), NoMemory>
    ensures same { row_of 0 words.new.items ≡ row_of 0 words.old.items }
    ensures len { OnOk result (length words.new.items ≡ max (length words.old.items) n) }
    ensures short { length words.new.items ≤ max (length words.old.items) n }
{
    while words.len() < n {
        words.push(0)?;
    }
    Ok(())
}

/// Puts in a position that is above all others; false where it isn't.
pub(crate) fn push_place(words: &mut Vec<u64>, at: u32) -> Result<bool, NoMemory>
    ensures took { IfOk result (λ took. took ≡ true → row_of 0 words.new.items ≡ row_of 0 words.old.items ++ at ∷ []) }
    ensures short { length words.new.items ≤ max (length words.old.items) (at / 64 + 1) }
{
    let place = at as usize / 64;
    if place + 1 < words.len() {
        return Ok(false);
    }
    widen(words, place + 1)?;
    let word = words[place];
    if word >> (at % 64) != 0 {
        return Ok(false);
    }
    words[place] = word | 1 << (at % 64);
    Ok(true)
}

/// The word of the 64 positions from base on that has those that are at least `from` and below `to`.
pub(crate) fn run_word(base: u32, from: u32, to: u32) -> u64
    ensures { bits_of base result ≡ upto (max base from) (min (base + 64) to - max base from) }
{
    let low = from.saturating_sub(base);
    let high = to.saturating_sub(base).min(64);
    if low >= high {
        return 0;
    }
    u64::MAX << low & u64::MAX >> (64 - high)
}

/// Whether each position that the words hold is above another.
pub(crate) fn are_above(words: &[u64], at: u32) -> bool
    requires { (length words.now ≤ 128) × (at < 8192) }
    ensures { result ≡ list_all (nat_lt at) (row_of 0 words.now) }
{
    for (w, word) in words.iter().enumerate() {
        if run_word(64 * w as u32, 0, at + 1) & *word != 0 {
            return false;
        }
    }
    true
}

/// The words without the empty ones at the end.
pub(crate) fn trimmed(words: &[u64]) -> &[u64]
    ensures same { row_of 0 result.now ≡ row_of 0 words.now }
    ensures short { length result.now ≤ length words.now }
    ensures part { result.now ≡ take (length result.now) words.now }
{
    let mut kept = words;
    while let Some((last, rest)) = kept.split_last() {
        if *last != 0 {
            return kept;
        }
        kept = rest;
    }
    kept
}

/// Makes the words hold the positions that are at least `from` and below `to`.
pub(crate) fn fill_run(words: &mut Vec<u64>, from: u32, to: u32) -> Result<(), NoMemory>
    requires small { to ≤ 8192 }
    requires order { from ≤ to }
    ensures { OnOk result (row_of 0 words.new.items ≡ upto from (to - from) × (length words.new.items ≤ 128)) }
{
    words.clear();
    for w in 0..(to + 63) / 64 {
        words.push(run_word(64 * w, from, to))?;
    }
    Ok(())
}

/// Whether the words hold the positions that are at least `from` and below `to`, and no others.
pub(crate) fn is_run(words: &[u64], from: u32, to: u32) -> bool
    requires short { length words.now ≤ 128 }
    requires small { to ≤ 8193 }
    requires order { from ≤ to }
    ensures { IsTrue result ↔ row_of 0 words.now ≡ upto from (to - from) }
{
    for (w, word) in words.iter().enumerate() {
        if *word != run_word(64 * w as u32, from, to) {
            return false;
        }
    }
    from == to || to as usize <= 64 * words.len()
}

/// A walk through the positions of words; seen as those that are left.
#[derive(Debug, Drop)]
pub struct Places<'a> {
    base: u32,
    left: u64,
    rest: &'a [u64],
}

impl<'a> Model for Places<'a> {
    ghost use Rattle.std.specs.Prelude.{List, ℕ, ◌+◌, ◌*◌, ◌^◌, ◌≤◌, ◌++◌, length};
    ghost use Rattle.bd_base.specs.Bits.{bits_of, row_of};

    ghost Value = { List ℕ };

    ghost view = { λ s. bits_of s.base s.left ++ row_of (s.base + 64) s.rest.now };

    ghost invariant = { λ s. s.base + 64 * (length s.rest.now + 1) ≤ 2 ^ 32 };
}

impl<'a> Places<'a> {
    /// The walk through all positions of the words.
    pub(crate) fn new(words: &'a [u64]) -> Places<'a>
        requires { 64 * length words.now ≤ 2 ^ 32 }
        ensures { result ≡ row_of 0 words.now }
    {
        match words.split_first() {
            None => Places {
                base: 0,
                left: 0,
                rest: words,
            },
            Some((first, rest)) => Places {
                base: 0,
                left: *first,
                rest,
            },
        }
    }
}

impl<'a> Iterator for Places<'a> {
    type Item = u32;

    ghost use Rattle.std.specs.Iterator.{YieldsFirst, item_count};

    ghost next_gives = { YieldsFirst (λ s. s) };

    ghost remaining = { item_count (λ s. s) };

    fn next(&mut self) -> Option<u32> {
        while self.left == 0 {
            let Some((first, rest)) = self.rest.split_first() else {
                return None;
            };
            self.base += 64;
            self.left = *first;
            self.rest = rest;
        }
        let bit = self.left.trailing_zeros();
        self.left &= self.left - 1;
        Some(self.base + bit)
    }
}

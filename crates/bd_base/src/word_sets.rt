// Sets of facts as words from word 0 on: word n has the facts from 64 n on.
ghost use Rattle.std.specs.List.{list_any};
ghost use Rattle.std.specs.Prelude.{◌≡◌, ◌+◌, ◌-◌, ◌*◌, ◌<◌, ◌≤◌, ◌^◌, true, max, length, slice_index, IfOk, OnOk};
ghost use Rattle.bd_base.specs.Bits.{bits_of, row_of, upto};
ghost use Rattle.bd_base.specs.Facts.{has, is_subset, plus, minus};

use crate::NoMemory;
use crate::places::{run_word, widen};

/// How many words aren't 0.
pub(crate) fn used(words: &[u64]) -> usize
    ensures { result ≤ length words.now }
{
    let mut n = 0;
    for word in words {
        if *word != 0 {
            n += 1;
        }
    }
    n
}

/// Whether words that get the facts of others too, and grow by it, are at most twice as many as those that aren't 0.
/// The last of the others isn't 0.
pub(crate) fn stay_dense(words: &[u64], others: &[u64]) -> bool {
    if others.len() <= words.len() {
        return true;
    }
    let mut n = 0;
    for (at, word) in others.iter().enumerate() {
        if word_at(words, at) | *word != 0 {
            n += 1;
        }
    }
    (others.len() - 1) / 2 < n
}

/// Puts in the facts of a word.
pub(crate) fn put_word(words: &mut Vec<u64>, n: usize, word: u64)
    requires { n < length words.old.items }
    ensures put { row_of 0 words.new.items ≡ plus (row_of 0 words.old.items) (bits_of (64 * n) word) }
    ensures len { length words.new.items ≡ length words.old.items }
{
    let joined = words[n] | word;
    words[n] = joined;
}

/// Takes out the facts of a word.
pub(crate) fn clear_word(words: &mut Vec<u64>, n: usize, word: u64)
    ensures cleared { row_of 0 words.new.items ≡ minus (row_of 0 words.old.items) (bits_of (64 * n) word) }
    ensures len { length words.new.items ≡ length words.old.items }
{
    if n >= words.len() {
        return;
    }
    let left = words[n] & !word;
    words[n] = left;
}

/// Makes room for word n, where the words then are at most twice as many as those that aren't 0, when
/// word n is one of them; false where they would be more.
pub(crate) fn make_room(words: &mut Vec<u64>, n: usize) -> Result<bool, NoMemory>
    requires { n < 2 ^ 26 }
    ensures same { row_of 0 words.new.items ≡ row_of 0 words.old.items }
    ensures room { IfOk result (λ made. made ≡ true → n < length words.new.items) }
    ensures short { length words.new.items ≤ max (length words.old.items) (n + 1) }
{
    if n < words.len() {
        return Ok(true);
    }
    if n / 2 > used(words) {
        return Ok(false);
    }
    widen(words, n + 1)?;
    Ok(true)
}

/// Puts in the facts of as many words.
pub(crate) fn put_words(words: &mut Vec<u64>, others: &[u64])
    requires { length others.now ≤ length words.old.items }
    ensures put { row_of 0 words.new.items ≡ plus (row_of 0 words.old.items) (row_of 0 others.now) }
    ensures len { length words.new.items ≡ length words.old.items }
{
    for (n, word) in others.iter().enumerate() {
        put_word(words, n, *word);
    }
}

/// Puts in the facts that are at least `from` and below `to`.
pub(crate) fn put_run(words: &mut Vec<u64>, from: u32, to: u32)
    requires order { from ≤ to }
    requires room { to ≤ 64 * length words.old.items }
    ensures put { row_of 0 words.new.items ≡ plus (row_of 0 words.old.items) (upto from (to - from)) }
    ensures len { length words.new.items ≡ length words.old.items }
{
    for w in from / 64..to.div_ceil(64) {
        put_word(words, w as usize, run_word(64 * w, from, to));
    }
}

/// Takes out the facts of words.
pub(crate) fn clear_words(words: &mut Vec<u64>, others: &[u64])
    ensures cleared { row_of 0 words.new.items ≡ minus (row_of 0 words.old.items) (row_of 0 others.now) }
    ensures len { length words.new.items ≡ length words.old.items }
{
    for (n, word) in others.iter().enumerate() {
        clear_word(words, n, *word);
    }
}

/// Word n, or 0 where there is none.
pub(crate) fn word_at(words: &[u64], n: usize) -> u64
    ensures { result ≡ slice_index words.now n }
{
    match words.get(n) {
        None => 0,
        Some(word) => *word,
    }
}

/// Whether the others have a fact of the words.
pub(crate) fn meet(words: &[u64], others: &[u64]) -> bool
    ensures { result ≡ list_any (has (row_of 0 others.now)) (row_of 0 words.now) }
{
    for (n, word) in words.iter().enumerate() {
        if word_at(others, n) & *word != 0 {
            return true;
        }
    }
    false
}

/// Whether the others have all facts of the words.
pub(crate) fn words_within(words: &[u64], others: &[u64]) -> bool
    ensures { result ≡ is_subset (row_of 0 words.now) (row_of 0 others.now) }
{
    for (n, word) in words.iter().enumerate() {
        if !word_at(others, n) & *word != 0 {
            return false;
        }
    }
    true
}

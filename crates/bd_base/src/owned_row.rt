// Sets of positions as words of their own.
ghost use Rattle.std.specs.List.{filter};
ghost use Rattle.std.specs.Prelude.{◌≡◌, ◌-◌, ◌≤◌, ◌<◌, ◌^◌, [], length, OnOk, OnErr, IfOk};
ghost use Rattle.bd_base.specs.Bits.{row_of, upto};
ghost use Rattle.bd_base.specs.Facts.{IsRising, has, insert_fact, plus};

use crate::NoMemory;
use crate::places::widen;
use crate::row::Row;
use crate::word_sets::{put_run, put_word, put_words};
use std::alloc::Global;
use std::marker::Model;

/// A set of positions, seen as their rising list.
#[derive(Debug, Drop)]
pub struct OwnedRow {
    words: Vec<u64>,
}

impl Model for OwnedRow {
    ghost use Rattle.std.specs.Prelude.{List, ℕ, ◌≤◌, ◌^◌, length};
    ghost use Rattle.bd_base.specs.Bits.{row_of};

    ghost Value = { List ℕ };

    ghost view = { λ s. row_of 0 s.words.items };

    ghost invariant = { λ s. length s.words.items ≤ 2 ^ 26 };
}

impl OwnedRow {
    /// No position. It takes no memory.
    pub fn new(alloc: Global) -> OwnedRow
        ensures { result ≡ [] }
    {
        OwnedRow {
            words: Vec::new(alloc),
        }
    }

    /// Puts the position in.
    pub fn put(&mut self, at: u32) -> Result<(), NoMemory>
        ensures ok { OnOk result (self.new ≡ insert_fact at self.old) }
        ensures err { OnErr result (self.new ≡ self.old) }
    {
        let n = at as usize / 64;
        widen(&mut self.words, n + 1)?;
        put_word(&mut self.words, n, 1 << (at % 64));
        Ok(())
    }

    /// Puts in the positions of a row. After an error some may be in.
    pub fn join(&mut self, of: &Row<'_>) -> Result<(), NoMemory>
        ensures { OnOk result (self.new ≡ plus self.old of.now) }
    {
        match of.words() {
            Some(words) => self.put_row(words),
            None => self.put_each(of),
        }
    }

    /// Puts in the positions that are at least `from` and below `to`. After an error some may be in.
    pub fn put_run(&mut self, from: u32, to: u32) -> Result<(), NoMemory>
        ensures { OnOk result (self.new ≡ plus self.old (upto from (to - from))) }
    {
        if from >= to {
            return Ok(());
        }
        widen(&mut self.words, to.div_ceil(64) as usize)?;
        put_run(&mut self.words, from, to);
        Ok(())
    }

    /// The set with the positions of a row.
    pub fn with(&self, alloc: Global, of: &Row<'_>) -> Result<OwnedRow, NoMemory>
        ensures { IfOk result (λ row. row ≡ plus self.now of.now) }
    {
        let mut row = self.try_copy(alloc)?;
        row.join(of)?;
        Ok(row)
    }

    // Puts in the positions of words. After an error some may be in.
    fn put_row(&mut self, words: &[u64]) -> Result<(), NoMemory>
        requires { length words.now ≤ 2 ^ 26 }
        ensures { OnOk result (self.new ≡ plus self.old (row_of 0 words.now)) }
    {
        widen(&mut self.words, words.len())?;
        put_words(&mut self.words, words);
        Ok(())
    }

    // Puts in the positions of a row, one by one. After an error some may be in.
    fn put_each(&mut self, of: &Row<'_>) -> Result<(), NoMemory>
        ensures { OnOk result (self.new ≡ plus self.old of.now) }
    {
        for at in of.iter() {
            self.put(at)?;
        }
        Ok(())
    }

    /// Keeps the positions that a row has too. It takes no memory.
    pub fn meet(&mut self, of: &Row<'_>)
        ensures { self.new ≡ filter (has of.now) self.old }
    {
        meet_row(&mut self.words, of);
    }

    /// The same set.
    pub fn try_copy(&self, alloc: Global) -> Result<OwnedRow, NoMemory>
        ensures { IfOk result (λ row. row ≡ self.now) }
    {
        Ok(OwnedRow {
            words: Vec::from_slice(alloc, &self.words)?,
        })
    }

    /// The positions as a row. It takes no memory.
    pub fn row(&self) -> Row<'_>
        ensures row { result ≡ self.now }
        ensures rising { IsRising self.now }
    {
        Row::of_words(&self.words)
    }
}

// Keeps the positions of words that a row has too.
fn meet_row(words: &mut Vec<u64>, of: &Row<'_>)
    requires { length words.old.items ≤ 2 ^ 26 }
    ensures kept { row_of 0 words.new.items ≡ filter (has of.now) (row_of 0 words.old.items) }
    ensures len { length words.new.items ≡ length words.old.items }
{
    for n in 0..words.len() {
        let kept = words[n] & of.word(n as u32);
        words[n] = kept;
    }
}

ghost use Rattle.std.specs.Int.{bit_at};
ghost use Rattle.std.specs.List.{list_any};
ghost use Rattle.std.specs.Prelude.{◌≡◌, ℕ, ◌+◌, ◌==◌, ◌*◌, ◌<◌, ◌≤◌, ◌^◌, [], length, not, true, false, OnOk, OnErr, IfOk};
ghost use Rattle.bd_base.specs.Bits.{bits_of, row_of};
ghost use Rattle.bd_base.specs.Cells.{AreCells, cells_of};
ghost use Rattle.bd_base.specs.FactSet.{IsStored, facts_of};
ghost use Rattle.bd_base.specs.Facts.{IsRising, has, insert_fact, remove_fact, is_subset, plus, minus};

use crate::cells::{
    Cell, CellFacts, are_dense, cells_from, cells_meet, clear_all_words, clear_cell, count_cells,
    has_cell, put_cell, word_of, words_from,
};
use crate::forms::{Form, cells_of_facts, copy_of_cells, copy_of_words, join_in_place};
use crate::places::{Places, count_places, has_place};
use crate::word_sets::{clear_word, clear_words, make_room, meet, put_word, word_at};
use crate::{FactId, NoMemory};
use std::alloc::Global;
use std::marker::Model;

/// A set of facts, seen as their numbers, strictly rising.
#[derive(Debug, Drop)]
pub struct FactSet {
    form: Form,
}

impl Model for FactSet {
    ghost use Rattle.std.specs.Prelude.{List, ℕ};

    ghost Value = { List ℕ };

    ghost use Rattle.bd_base.specs.FactSet.{facts_of, IsStored};

    ghost view = { λ s. facts_of s.form };

    ghost invariant = { λ s. IsStored s.form };
}

impl FactSet {
    /// The empty set. It takes no memory.
    pub fn new() -> FactSet
        ensures { result ≡ [] }
    {
        FactSet { form: Form::Empty }
    }

    /// The set of the facts of a list, in any order and with repeats. The list is sorted once.
    pub fn of(mut items: Vec<FactId>) -> Result<FactSet, NoMemory>
        ensures { IfOk result (λ set. set ≡ plus [] items.items) }
    {
        items.sort()?;
        let alloc = *items.allocator();
        let mut set = FactSet {
            form: Form::Numbered(cells_of_facts(alloc, &items)?),
        };
        set.settle(alloc);
        Ok(set)
    }

    /// The facts, rising. It takes no memory.
    pub fn iter(&self) -> Facts<'_>
        ensures items { result ≡ self.now }
        ensures rising { IsRising self.now }
    {
        let walk = match &self.form {
            Form::Empty => Walk::Plain(Places::new(&[])),
            Form::Plain(words) => Walk::Plain(Places::new(words)),
            Form::Numbered(cells) => Walk::Numbered(CellFacts::new(cells)),
        };
        Facts { walk }
    }

    /// How many facts it has.
    pub fn len(&self) -> usize
        ensures { result ≡ length self.now }
    {
        match &self.form {
            Form::Empty => 0,
            Form::Plain(words) => count_places(words),
            Form::Numbered(cells) => count_cells(cells),
        }
    }

    /// Whether the fact is in the set.
    pub fn has(&self, f: FactId) -> bool
        ensures { result ≡ has self.now f }
    {
        match &self.form {
            Form::Empty => false,
            Form::Plain(words) => has_place(words, f.0),
            Form::Numbered(cells) => has_cell(cells, f.0),
        }
    }

    /// Whether each fact of the set is in the other.
    pub fn subset(&self, of: &FactSet) -> bool
        ensures { result ≡ is_subset self.now of.now }
    {
        match &self.form {
            Form::Empty => true,
            Form::Plain(words) => of.has_words(words),
            Form::Numbered(cells) => of.has_cells(cells),
        }
    }

    /// Puts the fact in, and tells whether it was new.
    pub fn insert(&mut self, alloc: Global, f: FactId) -> Result<bool, NoMemory>
        ensures told { IfOk result (λ added. added ≡ not (has self.old f)) }
        ensures ok { OnOk result (self.new ≡ insert_fact f self.old) }
        ensures err { OnErr result (self.new ≡ self.old) }
    {
        let added = !self.has(f);
        self.put(alloc, f.0 / 64, 1 << (f.0 % 64))?;
        Ok(added)
    }

    /// Takes the fact out, and tells whether it was there.
    pub fn remove(&mut self, f: FactId) -> bool
        ensures told { result ≡ has self.old f }
        ensures removed { self.new ≡ remove_fact f self.old }
    {
        let removed = self.has(f);
        self.clear(f.0 / 64, 1 << (f.0 % 64));
        removed
    }

    /// The same set.
    pub fn try_copy(&self, alloc: Global) -> Result<FactSet, NoMemory>
        ensures { IfOk result (λ copy. copy ≡ self.now) }
    {
        let form = match &self.form {
            Form::Empty => Form::Empty,
            Form::Plain(words) => copy_of_words(alloc, words)?,
            Form::Numbered(cells) => copy_of_cells(alloc, cells)?,
        };
        Ok(FactSet { form })
    }

    /// Puts in the facts of another set. Want of memory leaves the set as it was.
    pub fn join(&mut self, alloc: Global, of: &FactSet) -> Result<(), NoMemory>
        ensures ok { OnOk result (self.new ≡ plus self.old of.now) }
        ensures err { OnErr result (self.new ≡ self.old) }
    {
        if join_in_place(&mut self.form, &of.form)? {
            return Ok(());
        }
        let joined = self.joined(alloc, of)?;
        *self = joined;
        Ok(())
    }

    /// Takes out the facts of another set. It takes no memory.
    pub fn minus(&mut self, of: &FactSet)
        ensures { self.new ≡ minus self.old of.now }
    {
        match &of.form {
            Form::Empty => {}
            Form::Plain(words) => self.clear_words(words),
            Form::Numbered(cells) => self.clear_cells(cells),
        }
    }

    /// Whether the two sets share a fact. It takes no memory.
    pub fn meets(&self, of: &FactSet) -> bool
        ensures { result ≡ list_any (has of.now) self.now }
    {
        match &self.form {
            Form::Empty => false,
            Form::Plain(words) => of.meets_words(words),
            Form::Numbered(cells) => of.meets_cells(cells),
        }
    }

    // The facts of this set and another.
    fn joined(&self, alloc: Global, of: &FactSet) -> Result<FactSet, NoMemory>
        ensures { IfOk result (λ set. set ≡ plus self.now of.now) }
    {
        let _ = &of.form;
        match &self.form {
            Form::Empty => of.try_copy(alloc),
            Form::Plain(words) => of.with_words(alloc, words),
            Form::Numbered(cells) => of.with_cells(alloc, cells),
        }
    }

    // The set with the facts of words.
    fn with_words(&self, alloc: Global, words: &[u64]) -> Result<FactSet, NoMemory>
        requires { length words.now ≤ 2 ^ 26 }
        ensures { IfOk result (λ set. set ≡ plus self.now (row_of 0 words.now)) }
    {
        let mut set = self.try_copy(alloc)?;
        for (n, word) in words.iter().enumerate() {
            set.put(alloc, n as u32, *word)?;
        }
        Ok(set)
    }

    // The set with the facts of cells.
    fn with_cells(&self, alloc: Global, cells: &[Cell]) -> Result<FactSet, NoMemory>
        requires { AreCells 0 (2 ^ 26) cells.now }
        ensures { IfOk result (λ set. set ≡ plus self.now (cells_of cells.now)) }
    {
        let mut set = self.try_copy(alloc)?;
        for cell in cells {
            set.put(alloc, cell.number, cell.word)?;
        }
        Ok(set)
    }

    // Takes out the facts of words.
    fn clear_words(&mut self, words: &[u64])
        requires { length words.now ≤ 2 ^ 26 }
        ensures { self.new ≡ minus self.old (row_of 0 words.now) }
    {
        match &mut self.form {
            Form::Empty => return,
            Form::Plain(own) => clear_words(own, words),
            Form::Numbered(own) => clear_all_words(own, words),
        }
    }

    // Takes out the facts of cells.
    fn clear_cells(&mut self, cells: &[Cell])
        ensures { self.new ≡ minus self.old (cells_of cells.now) }
    {
        for cell in cells {
            self.clear(cell.number, cell.word);
        }
    }

    // The word of a number.
    fn word(&self, number: u32) -> u64
        ensures { (b : ℕ) → b < 64 → has self.now (64 * number + b) ≡ (bit_at result b == 1) }
    {
        match &self.form {
            Form::Empty => 0,
            Form::Plain(words) => word_at(words, number as usize),
            Form::Numbered(cells) => word_of(cells, number),
        }
    }

    // Whether the set has all facts of the words.
    fn has_words(&self, words: &[u64]) -> bool
        requires { length words.now ≤ 2 ^ 26 }
        ensures { result ≡ is_subset (row_of 0 words.now) self.now }
    {
        for (n, word) in words.iter().enumerate() {
            if !self.word(n as u32) & *word != 0 {
                return false;
            }
        }
        true
    }

    // Whether the set has all facts of the cells.
    fn has_cells(&self, cells: &[Cell]) -> bool
        ensures { result ≡ is_subset (cells_of cells.now) self.now }
    {
        for cell in cells {
            if !self.word(cell.number) & cell.word != 0 {
                return false;
            }
        }
        true
    }

    // Whether the set has a fact of the words.
    fn meets_words(&self, words: &[u64]) -> bool
        requires { length words.now ≤ 2 ^ 26 }
        ensures { result ≡ list_any (has self.now) (row_of 0 words.now) }
    {
        match &self.form {
            Form::Empty => false,
            Form::Plain(own) => meet(words, own),
            Form::Numbered(own) => cells_meet(own, words),
        }
    }

    // Whether it is stored as plain words.
    #[cfg(test)]
    pub(crate) fn is_plain(&self) -> bool {
        matches!(&self.form, Form::Plain(_))
    }

    // Whether the set has a fact of the cells.
    fn meets_cells(&self, cells: &[Cell]) -> bool
        ensures { result ≡ list_any (has self.now) (cells_of cells.now) }
    {
        for cell in cells {
            if self.word(cell.number) & cell.word != 0 {
                return true;
            }
        }
        false
    }

    // Puts in the facts of a word.
    fn put(&mut self, alloc: Global, number: u32, word: u64) -> Result<(), NoMemory>
        requires { number < 2 ^ 26 }
        ensures ok { OnOk result (self.new ≡ plus self.old (bits_of (64 * number) word)) }
        ensures err { OnErr result (self.new ≡ self.old) }
    {
        if word == 0 {
            return Ok(());
        }
        match &mut self.form {
            Form::Empty => {
                let mut cells = Vec::new(alloc);
                put_cell(&mut cells, number, word)?;
                self.form = Form::Numbered(cells);
            }
            Form::Plain(words) => {
                if make_room(words, number as usize)? {
                    put_word(words, number as usize, word);
                    return Ok(());
                }
                let mut cells = cells_from(alloc, words)?;
                put_cell(&mut cells, number, word)?;
                self.form = Form::Numbered(cells);
            }
            Form::Numbered(cells) => put_cell(cells, number, word)?,
        }
        self.settle(alloc);
        Ok(())
    }

    // Takes out the facts of a word.
    fn clear(&mut self, number: u32, word: u64)
        ensures { self.new ≡ minus self.old (bits_of (64 * number) word) }
    {
        match &mut self.form {
            Form::Empty => return,
            Form::Plain(words) => clear_word(words, number as usize, word),
            Form::Numbered(cells) => clear_cell(cells, number, word),
        }
    }

    // Goes over to plain words where they are at most twice as many, and memory isn't wanting.
    fn settle(&mut self, alloc: Global)
        ensures { self.new ≡ self.old }
    {
        let Form::Numbered(cells) = &self.form else {
            return;
        };
        if !are_dense(cells) {
            return;
        }
        let Ok(words) = words_from(alloc, cells) else {
            return;
        };
        self.form = Form::Plain(words);
    }
}

#[derive(Debug, Drop)]
enum Walk<'a> {
    Plain(Places<'a>),
    Numbered(CellFacts<'a>),
}

/// A walk through a set's facts, rising; seen as the facts that are left.
#[derive(Debug, Drop)]
pub struct Facts<'a> {
    walk: Walk<'a>,
}

impl<'a> Model for Facts<'a> {
    ghost use Rattle.std.specs.Prelude.{List, ℕ};

    ghost Value = { List ℕ };

    ghost use Rattle.bd_base.specs.FactSet.{facts_left};

    ghost view = { λ s. facts_left s.walk };
}

impl<'a> Iterator for Facts<'a> {
    type Item = FactId;

    ghost use Rattle.std.specs.Iterator.{YieldsFirst, item_count};

    ghost next_gives = { YieldsFirst (λ s. s) };

    ghost remaining = { item_count (λ s. s) };

    fn next(&mut self) -> Option<FactId> {
        match &mut self.walk {
            Walk::Plain(places) => Some(FactId(places.next()?)),
            Walk::Numbered(facts) => Some(FactId(facts.next()?)),
        }
    }
}

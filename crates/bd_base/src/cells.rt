// Facts as words that aren't 0, each with its number: word n has the facts from 64 n on.
ghost use Rattle.std.specs.Prelude.{◌≡◌, ◌+◌, ◌*◌, ◌<◌, ◌≤◌, ◌^◌, ℕ, true, length, IfOk, MatchResult, OnOk, OnErr};
ghost use Rattle.std.specs.List.{list_any, slice_index_or};
ghost use Rattle.bd_base.specs.Bits.{bits_of, row_of};
ghost use Rattle.bd_base.specs.Cells.{AreCells, HasCell, LacksCell, cells_of, word_in};
ghost use Rattle.bd_base.specs.Facts.{has, plus, minus};
ghost use Rattle.bd_base.specs.declared.cells.Cell.{Cell};

use crate::NoMemory;
use crate::places::{ones_of, widen};
use crate::word_sets::{put_word, word_at};
use std::alloc::Global;
use std::marker::Model;

/// A word of facts, with its number.
#[derive(Clone, Copy, Debug)]
pub struct Cell {
    pub(crate) number: u32,
    pub(crate) word: u64,
}

// How many cells have a lower number.
fn place_of(cells: &[Cell], number: u32) -> usize
    requires { AreCells 0 (2 ^ 26) cells.now }
    ensures within { result ≤ length cells.now }
    ensures below { (k : ℕ) (d : Cell) → k < result → (slice_index_or cells.now k d).number < number }
    ensures above { (k : ℕ) (d : Cell) → result ≤ k → k < length cells.now → number ≤ (slice_index_or cells.now k d).number }
{
    let mut low = 0;
    let mut high = cells.len();
    while low < high {
        let middle = low + (high - low) / 2;
        if cells[middle].number < number {
            low = middle + 1;
        } else {
            high = middle;
        }
    }
    low
}

// The place of the cell with a number, or where it would be put in.
fn find(cells: &[Cell], number: u32) -> Result<usize, usize>
    requires { AreCells 0 (2 ^ 26) cells.now }
    ensures { MatchResult result (HasCell number cells.now) (LacksCell number cells.now) }
{
    let place = place_of(cells, number);
    if place == cells.len() || cells[place].number != number {
        return Err(place);
    }
    Ok(place)
}

/// The word of a number, or 0.
pub(crate) fn word_of(cells: &[Cell], number: u32) -> u64
    requires { AreCells 0 (2 ^ 26) cells.now }
    ensures { result ≡ word_in cells.now number }
{
    match find(cells, number) {
        Ok(place) => cells[place].word,
        Err(_) => 0,
    }
}

/// Whether the cells have the fact.
pub(crate) fn has_cell(cells: &[Cell], fact: u32) -> bool
    requires { AreCells 0 (2 ^ 26) cells.now }
    ensures { result ≡ has (cells_of cells.now) fact }
{
    word_of(cells, fact / 64) >> (fact % 64) & 1 == 1
}

/// How many facts the cells have.
pub(crate) fn count_cells(cells: &[Cell]) -> usize
    requires { AreCells 0 (2 ^ 26) cells.now }
    ensures { result ≡ length (cells_of cells.now) }
{
    let mut n = 0;
    for cell in cells {
        n += ones_of(cell.word);
    }
    n
}

/// Whether plain words would be at most twice as many as the cells.
pub(crate) fn are_dense(cells: &[Cell]) -> bool {
    match cells.last() {
        None => false,
        Some(last) => last.number as usize / 2 < cells.len(),
    }
}

/// Puts in the facts of a word.
pub(crate) fn put_cell(cells: &mut Vec<Cell>, number: u32, word: u64) -> Result<(), NoMemory>
    requires low { number < 2 ^ 26 }
    requires cells { AreCells 0 (2 ^ 26) cells.old.items }
    ensures ok { OnOk result (cells_of cells.new.items ≡ plus (cells_of cells.old.items) (bits_of (64 * number) word)) }
    ensures err { OnErr result (cells.new.items ≡ cells.old.items) }
    ensures cells { AreCells 0 (2 ^ 26) cells.new.items }
{
    match find(cells, number) {
        Ok(place) => {
            let word = cells[place].word | word;
            cells[place] = Cell { number, word };
            Ok(())
        }
        Err(place) => {
            cells.insert(place, Cell { number, word })?;
            Ok(())
        }
    }
}

/// Takes out the facts of a word.
pub(crate) fn clear_cell(cells: &mut Vec<Cell>, number: u32, word: u64)
    requires { AreCells 0 (2 ^ 26) cells.old.items }
    ensures cleared { cells_of cells.new.items ≡ minus (cells_of cells.old.items) (bits_of (64 * number) word) }
    ensures cells { AreCells 0 (2 ^ 26) cells.new.items }
{
    let Ok(place) = find(cells, number) else {
        return;
    };
    let word = cells[place].word & !word;
    if word == 0 {
        cells.remove(place);
    } else {
        cells[place] = Cell { number, word };
    }
}

/// The cells of words from word 0 on.
pub(crate) fn cells_from(alloc: Global, words: &[u64]) -> Result<Vec<Cell>, NoMemory>
    requires { length words.now ≤ 2 ^ 26 }
    ensures { IfOk result (λ cells. (cells_of cells.items ≡ row_of 0 words.now) × AreCells 0 (2 ^ 26) cells.items) }
{
    let mut cells = Vec::new(alloc);
    for (n, word) in words.iter().enumerate() {
        if *word != 0 {
            cells.push(Cell {
                number: n as u32,
                word: *word,
            })?;
        }
    }
    Ok(cells)
}

/// The words of cells, from word 0 on.
pub(crate) fn words_from(alloc: Global, cells: &[Cell]) -> Result<Vec<u64>, NoMemory>
    requires { AreCells 0 (2 ^ 26) cells.now }
    ensures { IfOk result (λ words. (row_of 0 words.items ≡ cells_of cells.now) × (length words.items ≤ 2 ^ 26)) }
{
    let mut words = Vec::new(alloc);
    for cell in cells {
        widen(&mut words, cell.number as usize)?;
        words.push(cell.word)?;
    }
    Ok(words)
}

/// Takes out the facts of plain words.
pub(crate) fn clear_all_words(cells: &mut Vec<Cell>, words: &[u64])
    requires short { length words.now ≤ 2 ^ 26 }
    requires cells { AreCells 0 (2 ^ 26) cells.old.items }
    ensures cleared { cells_of cells.new.items ≡ minus (cells_of cells.old.items) (row_of 0 words.now) }
    ensures cells { AreCells 0 (2 ^ 26) cells.new.items }
{
    for (n, word) in words.iter().enumerate() {
        clear_cell(cells, n as u32, *word);
    }
}

/// Whether each cell's number is below n; false may also be answered where there is no cell.
pub(crate) fn are_within(cells: &[Cell], n: usize) -> bool
    requires { AreCells 0 (2 ^ 26) cells.now }
    ensures { result ≡ true → AreCells 0 n cells.now }
{
    if cells.is_empty() {
        return false;
    }
    let last = cells[cells.len() - 1].number as usize;
    last < n
}

/// Puts the facts of cells into plain words that have room for them.
pub(crate) fn put_cells(words: &mut Vec<u64>, cells: &[Cell])
    requires { AreCells 0 (length words.old.items) cells.now }
    ensures put { row_of 0 words.new.items ≡ plus (row_of 0 words.old.items) (cells_of cells.now) }
    ensures len { length words.new.items ≡ length words.old.items }
{
    for cell in cells {
        put_word(words, cell.number as usize, cell.word);
    }
}

/// Whether the cells have a fact of plain words.
pub(crate) fn cells_meet(cells: &[Cell], words: &[u64]) -> bool
    requires { AreCells 0 (2 ^ 26) cells.now }
    ensures { result ≡ list_any (has (cells_of cells.now)) (row_of 0 words.now) }
{
    for cell in cells {
        if word_at(words, cell.number as usize) & cell.word != 0 {
            return true;
        }
    }
    false
}

/// A walk through the facts of cells; seen as those that are left.
#[derive(Debug, Drop)]
pub struct CellFacts<'a> {
    base: u32,
    left: u64,
    rest: &'a [Cell],
}

impl<'a> Model for CellFacts<'a> {
    ghost use Rattle.std.specs.Prelude.{List, ℕ, ◌+◌, ◌^◌, ◌≤◌, ◌++◌};
    ghost use Rattle.bd_base.specs.Bits.{bits_of};
    ghost use Rattle.bd_base.specs.Cells.{cells_of, AreCells};

    ghost Value = { List ℕ };

    ghost view = { λ s. bits_of s.base s.left ++ cells_of s.rest.now };

    ghost invariant = { λ s. (s.base + 64 ≤ 2 ^ 32) × AreCells 0 (2 ^ 26) s.rest.now };
}

impl<'a> CellFacts<'a> {
    /// The walk through all facts of the cells.
    pub(crate) fn new(cells: &'a [Cell]) -> CellFacts<'a>
        requires { AreCells 0 (2 ^ 26) cells.now }
        ensures { result ≡ cells_of cells.now }
    {
        CellFacts {
            base: 0,
            left: 0,
            rest: cells,
        }
    }
}

impl<'a> Iterator for CellFacts<'a> {
    type Item = u32;

    ghost use Rattle.std.specs.Iterator.{YieldsFirst, item_count};

    ghost next_gives = { YieldsFirst (λ s. s) };

    ghost remaining = { item_count (λ s. s) };

    fn next(&mut self) -> Option<u32> {
        while self.left == 0 {
            let Some((first, rest)) = self.rest.split_first() else {
                return None;
            };
            self.base = 64 * first.number;
            self.left = first.word;
            self.rest = rest;
        }
        let bit = self.left.trailing_zeros();
        self.left &= self.left - 1;
        Some(self.base + bit)
    }
}

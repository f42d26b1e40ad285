// The two forms of a set of facts, and what goes over from one to the other.
ghost use Rattle.std.specs.Prelude.{◌≡◌, ◌≤◌, ◌^◌, [], length, true, false, OnErr, IfOk};
ghost use Rattle.bd_base.specs.Bits.{row_of};
ghost use Rattle.bd_base.specs.Cells.{AreCells, cells_of};
ghost use Rattle.bd_base.specs.FactSet.{IsStored, facts_of};
ghost use Rattle.bd_base.specs.Facts.{plus};

use crate::cells::{Cell, are_dense, are_within, cells_from, put_cell, put_cells, words_from};
use crate::places::{trimmed, widen};
use crate::word_sets::{put_words, stay_dense, used};
use crate::{FactId, NoMemory};
use std::alloc::Global;

/// How facts are stored: as words from fact 0 on, where they are at most twice as many as those that
/// aren't 0, and else as the words that aren't 0, each with its number.
#[derive(Debug, Drop)]
pub(crate) enum Form {
    Empty,
    Plain(Vec<u64>),
    Numbered(Vec<Cell>),
}

/// Puts in another set's facts where plain words have room for them, or get it and are still at most twice as many as
/// those that aren't 0; false where not.
pub(crate) fn join_in_place(form: &mut Form, of: &Form) -> Result<bool, NoMemory>
    requires own { IsStored form.old }
    requires of { IsStored of.now }
    ensures took { IfOk result (λ took. took ≡ true → facts_of form.new ≡ plus (facts_of form.old) (facts_of of.now)) }
    ensures left { IfOk result (λ took. took ≡ false → form.new ≡ form.old) }
    ensures err { OnErr result (facts_of form.new ≡ facts_of form.old) }
    ensures stored { IsStored form.new }
{
    let Form::Plain(words) = form else {
        return Ok(false);
    };
    match of {
        Form::Empty => Ok(true),
        Form::Plain(others) => {
            let others = trimmed(others);
            if !stay_dense(words, others) {
                return Ok(false);
            }
            widen(words, others.len())?;
            put_words(words, others);
            Ok(true)
        }
        Form::Numbered(cells) => {
            if !are_within(cells, words.len()) {
                return Ok(false);
            }
            put_cells(words, cells);
            Ok(true)
        }
    }
}

/// The cells of a list of facts.
pub(crate) fn cells_of_facts(alloc: Global, facts: &[FactId]) -> Result<Vec<Cell>, NoMemory>
    ensures { IfOk result (λ cells. (cells_of cells.items ≡ plus [] facts.now) × AreCells 0 (2 ^ 26) cells.items) }
{
    let mut cells = Vec::new(alloc);
    for f in facts {
        put_cell(&mut cells, f.0 / 64, 1 << (f.0 % 64))?;
    }
    Ok(cells)
}

/// A copy of plain words, in the form that takes less.
pub(crate) fn copy_of_words(alloc: Global, words: &[u64]) -> Result<Form, NoMemory>
    requires { length words.now ≤ 2 ^ 26 }
    ensures { IfOk result (λ form. (facts_of form ≡ row_of 0 words.now) × IsStored form) }
{
    if (words.len() + 1) / 2 > used(words) {
        return Ok(Form::Numbered(cells_from(alloc, words)?));
    }
    Ok(Form::Plain(Vec::from_slice(alloc, words)?))
}

/// A copy of cells, in the form that takes less.
pub(crate) fn copy_of_cells(alloc: Global, cells: &[Cell]) -> Result<Form, NoMemory>
    requires { AreCells 0 (2 ^ 26) cells.now }
    ensures { IfOk result (λ form. (facts_of form ≡ cells_of cells.now) × IsStored form) }
{
    if are_dense(cells) {
        return Ok(Form::Plain(words_from(alloc, cells)?));
    }
    Ok(Form::Numbered(Vec::from_slice(alloc, cells)?))
}

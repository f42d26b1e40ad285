ghost use Rattle.std.specs.Prelude.{◌≡◌, ◌++◌, IfOk, OnOk, count_by};
ghost use Rattle.plan_core.specs.Law.{IsPrintable};
ghost use Rattle.run_texts.specs.Texts.{end_line, is_exhausted, is_found, is_spent, numbered, summary_of, windows_by, windows_line};

use crate::record::RunRecord;
use crate::writing::{push_counted, push_number};
use bd_base::{FromItems, Items, NoMemory, Text};
use bd_links::node_cost;
use bd_pieces::{End, Piece, What};
use bd_search::Kind;
use plan_core::{rebuilds, replacements, tightenings};
use std::alloc::Global;

// Whether nothing cheaper is left in its window.
fn is_exhausted(piece: &Piece) -> bool
    ensures { result ≡ is_exhausted piece.now }
{
    match &piece.what {
        What::Skipped(_) => false,
        What::Judged { verdict, .. } => matches!(&verdict.kind, Kind::Exhausted),
    }
}

fn exhausted(pieces: &[Piece]) -> usize
    ensures { result ≡ count_by is_exhausted pieces.now }
{
    let mut count = 0;
    for piece in pieces {
        if is_exhausted(piece) {
            count += 1;
        }
    }
    count
}

// Whether the budget was spent on its window.
fn is_spent(piece: &Piece) -> bool
    ensures { result ≡ is_spent piece.now }
{
    match &piece.what {
        What::Skipped(_) => false,
        What::Judged { verdict, .. } => matches!(&verdict.kind, Kind::Spent { .. }),
    }
}

fn spent(pieces: &[Piece]) -> usize
    ensures { result ≡ count_by is_spent pieces.now }
{
    let mut count = 0;
    for piece in pieces {
        if is_spent(piece) {
            count += 1;
        }
    }
    count
}

// Whether a list was found for its window.
fn is_found(piece: &Piece) -> bool
    ensures { result ≡ is_found piece.now }
{
    match &piece.what {
        What::Skipped(_) => false,
        What::Judged { verdict, .. } => matches!(&verdict.kind, Kind::Found(_)),
    }
}

fn found(pieces: &[Piece]) -> usize
    ensures { result ≡ count_by is_found pieces.now }
{
    let mut count = 0;
    for piece in pieces {
        if is_found(piece) {
            count += 1;
        }
    }
    count
}

// A title and how many pieces it is of.
fn push_count(text: &mut Vec<u8>, title: &[u8], count: usize) -> Result<(), NoMemory>
    ensures { OnOk result (text.new.items ≡ text.old.items ++ numbered title.now count) }
{
    text.extend_from_slice(title)?;
    push_number(text, count as u64)
}

fn push_windows(text: &mut Vec<u8>, pieces: &[Piece]) -> Result<(), NoMemory>
    ensures { OnOk result (text.new.items ≡ text.old.items ++ windows_line pieces.now) }
{
    push_count(text, b"; windows ", pieces.len())?;
    push_count(text, b" exhausted ", exhausted(pieces))?;
    push_count(text, b" spent ", spent(pieces))?;
    push_count(text, b" long ", found(pieces))?;
    text.extend_from_slice(b"\n")?;
    Ok(())
}

// A run that ended dry tells of its windows.
fn push_windows_by(text: &mut Vec<u8>, end: Option<End>, pieces: &[Piece]) -> Result<(), NoMemory>
    ensures { OnOk result (text.new.items ≡ text.old.items ++ windows_by end pieces.now) }
{
    match end {
        Some(End::Dry) => push_windows(text, pieces)?,
        Some(End::Closed) => {}
        Some(End::Script) => {}
        Some(End::Tight) => {}
        None => {}
    }
    Ok(())
}

fn push_end(text: &mut Vec<u8>, end: Option<End>) -> Result<(), NoMemory>
    ensures { OnOk result (text.new.items ≡ text.old.items ++ end_line end) }
{
    match end {
        None => {}
        Some(End::Dry) => text.extend_from_slice(b"; end dry\n")?,
        Some(End::Closed) => text.extend_from_slice(b"; end closed\n")?,
        Some(End::Script) => text.extend_from_slice(b"; end script\n")?,
        Some(End::Tight) => text.extend_from_slice(b"; end tight\n")?,
    }
    Ok(())
}

/// The lines that sum a run up: the costs of the start tree and of the tree, how many offers of each kind were accepted, where it
/// ended dry how many windows its last round had and what was said of them, and why it ended.
pub fn summary_text(alloc: Global, run: &RunRecord) -> Result<Text, NoMemory>
    requires start { IsPrintable run.now.task run.now.start }
    requires tree { IsPrintable run.now.task run.now.tree }
    ensures { IfOk result (λ text. text ≡ summary_of run.now) }
{
    let mut text = Vec::new(alloc);
    push_counted(
        &mut text,
        b"; start ",
        node_cost(&run.task, run.start.root()),
    )?;
    push_counted(
        &mut text,
        b"; final ",
        node_cost(&run.task, run.tree.root()),
    )?;
    push_counted(
        &mut text,
        b"; replacements ",
        replacements(run.history.as_slice()) as u64,
    )?;
    push_counted(
        &mut text,
        b"; tightenings ",
        tightenings(run.history.as_slice()) as u64,
    )?;
    push_counted(
        &mut text,
        b"; rebuilds ",
        rebuilds(run.history.as_slice()) as u64,
    )?;
    push_windows_by(&mut text, run.end, run.pieces.as_slice())?;
    push_end(&mut text, run.end)?;
    Ok(Items::of(text))
}

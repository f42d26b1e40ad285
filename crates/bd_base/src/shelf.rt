ghost use Rattle.std.specs.Prelude.{◌≡◌, ◌+◌, ◌≤◌, ◌∷◌, [], length, Some, None, List, ℕ, IfOk, OnOk, MatchOption, vec_len};
ghost use Rattle.bd_base.specs.Shelf.{Told, Reads, untold, absent, text, told_of};
ghost use Rattle.bd_base.specs.MemShelf.{MemShelfState, refusal, AnswersBy, after_read};

use crate::Text;
use std::alloc::Global;
use std::fs::OpenOptions;
use std::io::{ErrorKind, Read};
use std::marker::Model;
use std::rt::Files;

/// Why a text isn't given.
#[derive(Clone, Copy, Debug, PartialEq, Eq)]
pub enum ShelfErr {
    /// There is no such text.
    Missing,
    /// The shelf failed.
    Failed,
    /// The text is longer than the call allowed.
    TooBig,
    /// Memory was wanting.
    NoMemory,
}

/// What gives named texts. It may tell which text stands under a name, and it counts its faults and the
/// texts that were too long. No call changes what it tells.
pub trait Shelf {
    ghost use Rattle.std.specs.Prelude.{List, ℕ};
    ghost use Rattle.bd_base.specs.Shelf.{Told, Reads};

    /// What is told of a name.
    ghost tells: { Self → List ℕ → Told };

    /// How often it has failed. The count never falls, and stands still at its type's end.
    ghost faults: { Self → ℕ };

    /// How often a text was too long. The count never falls, and stands still at its type's end.
    ghost longs: { Self → ℕ };

    /// The whole text under a name, of at most `max` bytes.
    fn read(&mut self, alloc: Global, name: &str, max: usize) -> Result<Vec<u8>, ShelfErr>
        ensures told { (n : List ℕ) → tells self.new n ≡ tells self.old n }
        ensures faults { faults self.old ≤ faults self.new }
        ensures longs { longs self.old ≤ longs self.new }
        ensures given { Reads (tells self.old name.now) max (faults self.old) (faults self.new) (longs self.old) (longs self.new) result };
}

/// A shelf in memory, which tells its texts and is exactly its lists; where a name stands twice, the first counts.
/// A call for an absent name answers `Missing`. Else a text that is longer than `max` answers `TooBig`, and one long
/// text more is counted. Else a listed call, counted from 1, answers `Failed`, and one fault more is counted. Every
/// other call gives the text, or finds no memory. Nothing else changes but the count of calls.
#[derive(Drop)]
pub struct MemShelf {
    names: Vec<Text>,
    texts: Vec<Text>,
    fails: Vec<u64>,
    calls: u64,
    faults: u64,
    longs: u64,
}

impl Model for MemShelf {
    ghost use Rattle.bd_base.specs.MemShelf.{MemShelfState};

    ghost Value = { MemShelfState };

    ghost view = { λ s. record { names = s.names.items; texts = s.texts.items; fails = s.fails.items; calls = s.calls; faults = s.faults; longs = s.longs } };
}

impl MemShelf {
    /// The shelf of these texts under these names; `fails` lists the calls that are to fail.
    pub fn new(names: Vec<Text>, texts: Vec<Text>, fails: Vec<u64>) -> MemShelf
        requires { vec_len names ≡ vec_len texts }
        ensures { result ≡ record { names = names.items; texts = texts.items; fails = fails.items; calls = 0; faults = 0; longs = 0 } }
    {
        MemShelf {
            names,
            texts,
            fails,
            calls: 0,
            faults: 0,
            longs: 0,
        }
    }
}

// The text under a name.
fn find_text<'a>(names: &[Text], texts: &'a [Text], name: &[u8]) -> Option<&'a Text>
    ensures { MatchOption result (told_of names.now texts.now name.now ≡ absent) (λ t. told_of names.now texts.now name.now ≡ text t.now) }
{
    for i in 0..names.len() {
        if i >= texts.len() {
            return None;
        }
        if names[i].as_slice() == name {
            return Some(&texts[i]);
        }
    }
    None
}

impl Shelf for MemShelf {
    ghost tells = { λ s n. told_of s.names s.texts n };

    ghost faults = { λ s. s.faults };

    ghost longs = { λ s. s.longs };

    fn read(&mut self, alloc: Global, name: &str, max: usize) -> Result<Vec<u8>, ShelfErr>
        ensures told { (n : List ℕ) → told_of self.new.names self.new.texts n ≡ told_of self.old.names self.old.texts n }
        ensures faults { self.old.faults ≤ self.new.faults }
        ensures longs { self.old.longs ≤ self.new.longs }
        ensures given { Reads (told_of self.old.names self.old.texts name.now) max self.old.faults self.new.faults self.old.longs self.new.longs result }
        ensures answer { AnswersBy (refusal self.old name.now max) result }
        ensures next { self.new ≡ after_read self.old name.now max }
    {
        self.calls = self.calls.saturating_add(1);
        let Some(text) = find_text(&self.names, &self.texts, name.as_bytes()) else {
            return Err(ShelfErr::Missing);
        };
        if text.as_slice().len() > max {
            self.longs = self.longs.saturating_add(1);
            return Err(ShelfErr::TooBig);
        }
        if self.fails.contains(&self.calls) {
            self.faults = self.faults.saturating_add(1);
            return Err(ShelfErr::Failed);
        }
        match Vec::from_slice(alloc, text.as_slice()) {
            Ok(copy) => Ok(copy),
            Err(_) => Err(ShelfErr::NoMemory),
        }
    }
}

/// A shelf over files, by their paths. It tells nothing of what they hold, and counts every error as a
/// fault, a missing file included.
#[derive(Drop)]
pub struct DirShelf<F> {
    files: F,
    faults: u64,
    longs: u64,
}

impl<F: Files> DirShelf<F> {
    /// The shelf over the runtime's files. It takes no memory.
    pub fn new(files: F) -> DirShelf<F>
        ensures faults { result.faults ≡ 0 }
        ensures longs { result.longs ≡ 0 }
    {
        DirShelf {
            files,
            faults: 0,
            longs: 0,
        }
    }
}

// All that the reader has, or an error once that is more than `max` bytes.
fn read_bytes<R: Read>(alloc: Global, file: &mut R, max: usize) -> Result<Vec<u8>, ShelfErr>
    ensures { IfOk result (λ v. length v.items ≤ max) }
{
    let mut bytes = Vec::new(alloc);
    let mut buffer = [0u8; 4096];
    for _ in 0..u64::MAX {
        let Ok(count) = file.read(&mut buffer) else {
            return Err(ShelfErr::Failed);
        };
        if count == 0 {
            return Ok(bytes);
        }
        if count > max - bytes.len() {
            return Err(ShelfErr::TooBig);
        }
        if bytes.extend_from_slice(&buffer[..count]).is_err() {
            return Err(ShelfErr::NoMemory);
        }
    }
    Err(ShelfErr::Failed)
}

impl<F: Files> Shelf for DirShelf<F> {
    ghost tells = { λ s n. untold };

    ghost faults = { λ s. s.faults };

    ghost longs = { λ s. s.longs };

    fn read(&mut self, alloc: Global, name: &str, max: usize) -> Result<Vec<u8>, ShelfErr> {
        let answer = match OpenOptions::new().read(true).open(&self.files, name) {
            Ok(mut file) => read_bytes(alloc, &mut file, max),
            Err(e) if e.kind() == ErrorKind::NotFound => Err(ShelfErr::Missing),
            Err(_) => Err(ShelfErr::Failed),
        };
        match answer {
            Err(ShelfErr::Missing | ShelfErr::Failed) => {
                self.faults = self.faults.saturating_add(1);
            }
            Err(ShelfErr::TooBig) => self.longs = self.longs.saturating_add(1),
            _ => {}
        }
        answer
    }
}

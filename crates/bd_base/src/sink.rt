ghost use Rattle.std.specs.Prelude.{◌≡◌, ◌+◌, ◌≤◌, ◌∷◌, [], length, Some, None, List, ℕ, IfOk, OnOk, OnErr, IsOk, vec_capacity};
ghost use Rattle.bd_base.specs.Causes.{HasCause, TakesPart, appended};
ghost use Rattle.bd_base.specs.MemSink.{MemSinkState, fails_after, next_call, IsReadyFor, after_put};

use crate::NoMemory;
use std::alloc::Global;
use std::io::Write;
use std::marker::Model;

/// A sink couldn't take a piece: a first part of it, perhaps empty, was taken.
#[derive(Clone, Copy, Debug, PartialEq, Eq)]
pub struct Failed;

/// What takes bytes. It may tell which bytes were put, and it counts its faults.
pub trait Sink {
    ghost use Rattle.std.specs.Prelude.{List, ℕ, Option};

    /// The bytes put, where it tells them.
    ghost told: { Self → Option (List ℕ) };

    /// How often it has failed. The count never falls, and stands still at its type's end.
    ghost faults: { Self → ℕ };

    /// Puts a piece behind what was put before. It takes no memory.
    fn put(&mut self, piece: &[u8]) -> Result<(), Failed>
        ensures ok { OnOk result (told self.new ≡ appended (told self.old) piece.now) }
        ensures err { OnErr result (TakesPart (told self.old) (told self.new) piece.now) }
        ensures cause { HasCause (faults self.old) (faults self.new) result };
}

/// A sink over a writer. It tells nothing of what was put; each put ends with a flush, and a write or a
/// flush that fails is a fault.
#[derive(Drop)]
pub struct StreamSink<W> {
    writer: W,
    faults: u64,
}

impl<W: Write> StreamSink<W> {
    /// A sink over the writer. It takes no memory.
    pub fn new(writer: W) -> StreamSink<W>
        ensures { result.faults ≡ 0 }
    {
        StreamSink { writer, faults: 0 }
    }
}

impl<W: Write> Sink for StreamSink<W> {
    ghost told = { λ _. None };

    ghost faults = { λ s. s.faults };

    fn put(&mut self, piece: &[u8]) -> Result<(), Failed> {
        if self.writer.write_all(piece).is_ok() && self.writer.flush().is_ok() {
            return Ok(());
        }
        self.faults = self.faults.saturating_add(1);
        Err(Failed)
    }
}

/// A sink in memory, which is exactly its lists. Its room is reserved when it is made. A call takes its whole piece and
/// answers Ok where it isn't listed and the piece fits in the room that is left. Any other call is a fault, and one
/// fault more is counted: a listed call, counted from 1, takes the listed number of bytes, and another call the whole
/// piece, both no further than the piece and the room go. No other call changes the count of faults.
#[derive(Drop)]
pub struct MemSink {
    written: Vec<u8>,
    room: usize,
    calls: u64,
    fails: Vec<(u64, usize)>,
    faults: u64,
}

impl Model for MemSink {
    ghost use Rattle.std.specs.Prelude.{◌≤◌, vec_len, vec_capacity};
    ghost use Rattle.bd_base.specs.MemSink.{MemSinkState};

    ghost Value = { MemSinkState };

    ghost view = { λ s. record { written = s.written.items; room = s.room; calls = s.calls; fails = s.fails.items; faults = s.faults } };

    ghost invariant = { λ s. (vec_len s.written ≤ s.room) × (s.room ≤ vec_capacity s.written) };
}

impl MemSink {
    /// An empty sink with room for so many bytes; `fails` lists the calls that are to fail.
    pub fn new(alloc: Global, room: usize, fails: Vec<(u64, usize)>) -> Result<MemSink, NoMemory>
        ensures { IfOk result (λ s. s ≡ record { written = []; room = room; calls = 0; fails = fails.items; faults = 0 }) }
    {
        Ok(MemSink {
            written: Vec::with_capacity(alloc, room)?,
            room,
            calls: 0,
            fails,
            faults: 0,
        })
    }

    /// The bytes put.
    pub fn written(&self) -> &[u8]
        ensures { result.now ≡ self.now.written }
    {
        &self.written
    }
}

// How many bytes the call takes before it fails, if it is one of those that fail.
fn taken_at(fails: &[(u64, usize)], call: u64) -> Option<usize>
    ensures { result ≡ fails_after fails.now call }
{
    for f in fails {
        if f.0 == call {
            return Some(f.1);
        }
    }
    None
}

impl Sink for MemSink {
    ghost told = { λ s. Some s.written };

    ghost faults = { λ s. s.faults };

    fn put(&mut self, piece: &[u8]) -> Result<(), Failed>
        ensures ok { OnOk result (Some self.new.written ≡ appended (Some self.old.written) piece.now) }
        ensures err { OnErr result (TakesPart (Some self.old.written) (Some self.new.written) piece.now) }
        ensures cause { HasCause self.old.faults self.new.faults result }
        ensures fine { IsReadyFor self.old piece.now → IsOk result }
        ensures faulty { IsOk result → IsReadyFor self.old piece.now }
        ensures room { self.new.room ≡ self.old.room }
        ensures fails { self.new.fails ≡ self.old.fails }
        ensures calls { self.new.calls ≡ next_call self.old }
        ensures next { self.new ≡ after_put self.old piece.now }
    {
        self.calls = self.calls.saturating_add(1);
        let left = self.room - self.written.len();
        let planned = taken_at(&self.fails, self.calls);
        let taken = planned.unwrap_or(piece.len()).min(piece.len());
        let fits = taken.min(left);
        let stored = self.written.extend_from_slice(&piece[..fits]);
        if stored.is_ok() && planned.is_none() && fits == piece.len() {
            return Ok(());
        }
        self.faults = self.faults.saturating_add(1);
        Err(Failed)
    }
}

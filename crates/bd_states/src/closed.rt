ghost use Rattle.std.specs.Prelude.{◌≡◌, ◌==◌, ◌||◌, nat_eq, true, false, Some, slice_get, IfSome, IfOk, OnOk, OnErr, List, ℕ, [], ◌∷◌, ◌++◌, length};
ghost use Rattle.std.specs.Cmp.Lexicographic.{pointwise};
ghost use Rattle.std.specs.HashSet.{keys as keys_in};
ghost use Rattle.bd_states.specs.Closed.{has_key};
ghost use Rattle.bd_states.specs.Entries.{HasState, IsKnown, states_of};
ghost use Rattle.bd_states.specs.Passed.{Differs};

use crate::entry::Entry;
use bd_base::{FactSet, NoMemory};
use std::alloc::Global;
use std::collections::HashSet;
use std::marker::Model;

// The facts of a state, as a key.
fn key_of(alloc: Global, s: &FactSet) -> Result<Vec<u32>, NoMemory>
    ensures { IfOk result (λ key. key.items ≡ s.now) }
{
    let mut key = Vec::new(alloc);
    for f in s.iter() {
        key.push(f.0)?;
    }
    Ok(key)
}

fn has_key(keys: &HashSet<Vec<u32>>, key: &Vec<u32>) -> bool
    ensures { result ≡ has_key key.now.items (keys_in keys.now) }
{
    keys.contains(key)
}

// Puts in a key that isn't there.
fn put_key(keys: &mut HashSet<Vec<u32>>, key: Vec<u32>) -> Result<(), NoMemory>
    requires { has_key key.items (keys_in keys.old) ≡ false }
    ensures ok { OnOk result ((facts : List ℕ) → has_key facts (keys_in keys.new) ≡ (pointwise nat_eq facts key.items || has_key facts (keys_in keys.old))) }
    ensures err { OnErr result (keys_in keys.new ≡ keys_in keys.old) }
{
    keys.insert(key)?;
    Ok(())
}

// A number for a state.
fn hash_of(s: &FactSet) -> u64 {
    let mut sum = 0u64;
    for f in s.iter() {
        sum = sum.wrapping_mul(1_000_003).wrapping_add(f.0 as u64 + 1);
    }
    sum
}

// The slot of a state among so many.
fn slot_of(s: &FactSet, slots: usize) -> usize {
    if slots == 0 {
        return 0;
    }
    hash_of(s) as usize % slots
}

// The entry that a slot leads to.
fn entry_at<'a>(entries: &'a [Entry], slots: &[usize], slot: usize) -> Option<&'a Entry>
    ensures { IfSome result (λ e. (k : ℕ) × (slice_get entries.now k ≡ Some e.now)) }
{
    match slots.get(slot) {
        None => None,
        Some(place) => entries.get(*place),
    }
}

// Writes a place at a slot.
fn put_hint(slots: &mut Vec<usize>, slot: usize, place: usize) {
    if slot < slots.len() {
        slots[slot] = place;
    }
}

// Whether two states have the same facts.
fn are_same(a: &FactSet, b: &FactSet) -> bool
    ensures { result ≡ true → a.now ≡ b.now }
{
    let _ = a.iter();
    let _ = b.iter();
    if !a.subset(b) {
        return false;
    }
    b.subset(a)
}

/// Entries that are closed, seen as a list in the order in which they were closed. The slots are hints to
/// the places of states: what they lead to is tested.
#[derive(Debug, Drop)]
pub struct ClosedList {
    entries: Vec<Entry>,
    keys: HashSet<Vec<u32>>,
    slots: Vec<usize>,
}

impl Model for ClosedList {
    ghost use Rattle.std.specs.Prelude.{List};
    ghost use Rattle.std.specs.HashSet.{keys as keys_in};
    ghost use Rattle.bd_states.specs.Closed.{AreKeys};
    ghost use Rattle.bd_states.specs.declared.entry.Entry.{Entry};

    ghost Value = { List Entry };

    ghost view = { λ s. s.entries.items };

    ghost invariant = { λ s. AreKeys (keys_in s.keys) s.entries.items };
}

impl ClosedList {
    /// No entries, with room for so many hints.
    pub fn new(alloc: Global, hints: u32) -> Result<ClosedList, NoMemory>
        ensures { IfOk result (λ closed. closed ≡ []) }
    {
        let mut slots = Vec::new(alloc);
        for _ in 0..hints {
            slots.push(usize::MAX)?;
        }
        Ok(ClosedList {
            entries: Vec::new(alloc),
            keys: HashSet::new(alloc),
            slots,
        })
    }

    /// The entries.
    pub fn as_slice(&self) -> &[Entry]
        ensures { result.now ≡ self.now }
    {
        &self.entries
    }

    /// Whether an entry has the state.
    pub fn has(&self, alloc: Global, s: &FactSet) -> Result<bool, NoMemory>
        ensures has { IfOk result (λ b. b ≡ true → HasState s.now self.now) }
        ensures lacks { IfOk result (λ b. b ≡ false → Differs s.now (states_of self.now)) }
    {
        let key = key_of(alloc, s)?;
        Ok(has_key(&self.keys, &key))
    }

    /// Whether the hints lead to an entry with the state at no higher cost. It takes no memory.
    pub fn knows(&self, s: &FactSet, cost: u64) -> bool
        ensures { result ≡ true → IsKnown self.now [] s.now cost }
    {
        let slot = slot_of(s, self.slots.len());
        let Some(entry) = entry_at(&self.entries, &self.slots, slot) else {
            return false;
        };
        if entry.cost > cost {
            return false;
        }
        are_same(&entry.state, s)
    }

    /// Closes an entry whose state no entry has.
    pub fn add(&mut self, alloc: Global, entry: Entry) -> Result<(), NoMemory>
        requires { Differs entry.state (states_of self.old) }
        ensures ok { OnOk result (self.new ≡ self.old ++ entry ∷ []) }
        ensures err { OnErr result (self.new ≡ self.old) }
    {
        let key = key_of(alloc, &entry.state)?;
        let slot = slot_of(&entry.state, self.slots.len());
        let place = self.entries.len();
        self.entries.push(entry)?;
        match put_key(&mut self.keys, key) {
            Ok(()) => {
                put_hint(&mut self.slots, slot, place);
                Ok(())
            }
            Err(e) => {
                self.entries.pop();
                Err(e)
            }
        }
    }
}

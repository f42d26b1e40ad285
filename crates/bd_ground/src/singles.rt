ghost use Rattle.std.specs.Prelude.{◌≡◌, ◌∷◌, ◌+◌, ◌<◌, ◌≤◌, [], length, IfOk, OnOk};
ghost use Rattle.bd_base.specs.Facts.{plus};
ghost use Rattle.bd_ground.specs.Singles.{AreSingles};

use bd_base::{FactId, FactSet, NoMemory};
use std::alloc::Global;

/// The sets of one fact that were made so far, by the fact's number: a copy takes less than a new set.
#[derive(Drop)]
pub struct Singles {
    sets: Vec<Option<FactSet>>,
    ghost single: { AreSingles sets.items },
}

// The set of facts, put in one by one.
fn set_by_each(alloc: Global, ids: &[u32]) -> Result<FactSet, NoMemory>
    ensures { IfOk result (λ set. set ≡ plus [] ids.now) }
{
    let mut set = FactSet::new();
    for n in ids {
        set.insert(alloc, FactId(*n))?;
    }
    Ok(set)
}

// The set of one fact.
fn only(alloc: Global, n: u32) -> Result<FactSet, NoMemory>
    ensures { IfOk result (λ set. set ≡ n ∷ []) }
{
    let mut set = FactSet::new();
    set.insert(alloc, FactId(n))?;
    Ok(set)
}

// Makes room for the set of a fact.
fn widen(sets: &mut Vec<Option<FactSet>>, n: usize) -> Result<(), NoMemory>
    requires { AreSingles sets.old.items }
    ensures singles { AreSingles sets.new.items }
    ensures room { OnOk result (n < length sets.new.items) }
{
    for _ in sets.len()..n.saturating_add(1) {
        sets.push(None)?;
    }
    Ok(())
}

// Keeps the set of a fact.
fn keep(sets: &mut Vec<Option<FactSet>>, n: usize, set: FactSet) -> Result<(), NoMemory>
    requires singles { AreSingles sets.old.items }
    requires set { set ≡ n ∷ [] }
    ensures { AreSingles sets.new.items }
{
    widen(sets, n)?;
    sets[n] = Some(set);
    Ok(())
}

impl Singles {
    pub fn new(alloc: Global) -> Singles {
        Singles {
            sets: Vec::new(alloc),
        }
    }

    // The set of one fact.
    fn single(&mut self, alloc: Global, n: u32) -> Result<FactSet, NoMemory>
        ensures { IfOk result (λ set. set ≡ n ∷ []) }
    {
        if let Some(Some(set)) = self.sets.get(n as usize) {
            return set.try_copy(alloc);
        }
        let set = only(alloc, n)?;
        keep(&mut self.sets, n as usize, set.try_copy(alloc)?)?;
        Ok(set)
    }

    /// The set of facts.
    pub fn set_of(&mut self, alloc: Global, ids: &[u32]) -> Result<FactSet, NoMemory>
        ensures { IfOk result (λ set. set ≡ plus [] ids.now) }
    {
        if ids.len() == 1 {
            return self.single(alloc, ids[0]);
        }
        set_by_each(alloc, ids)
    }
}

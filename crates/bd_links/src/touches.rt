// Which kids of a block give each fact, and which delete it.
ghost use Rattle.std.specs.Prelude.{◌≡◌, ℕ, ◌==◌, ◌++◌, ◌∷◌, [], cond, IfOk, OnOk};
ghost use Rattle.std.specs.List.{enumerate_from};
ghost use Rattle.bd_base.specs.Facts.{has};
ghost use Rattle.bd_links.specs.Rows.{Tells, places_of};

use crate::parts::{Child, Places, Touches};
use bd_base::{FactId, FactSet, NoMemory};
use std::alloc::Global;
use std::collections::HashMap;

// Puts a position behind those of the fact.
fn note(alloc: Global, places: &mut Places, p: FactId, j: usize) -> Result<(), NoMemory>
    ensures { OnOk result ((q : ℕ) → places_of places.new q ≡ places_of places.old q ++ cond (p == q) (j ∷ []) []) }
{
    places.entry(p.0)?.or_insert(Vec::new(alloc)).push(j)?;
    Ok(())
}

// Puts a position behind those of each fact of the set.
fn note_all(alloc: Global, places: &mut Places, facts: &FactSet, j: usize) -> Result<(), NoMemory>
    ensures { OnOk result ((q : ℕ) → places_of places.new q ≡ places_of places.old q ++ cond (has facts.now q) (j ∷ []) []) }
{
    for p in facts.iter() {
        note(alloc, places, p, j)?;
    }
    Ok(())
}

/// The kids that give each fact, and those that delete it.
pub fn touches_of(alloc: Global, kids: &[Child<'_>]) -> Result<Touches, NoMemory>
    ensures { IfOk result (λ t. Tells t (enumerate_from 0 kids.now)) }
{
    let mut gives = HashMap::new(alloc);
    let mut deletes = HashMap::new(alloc);
    for j in (0..kids.len()).rev() {
        note_all(alloc, &mut gives, kids[j].add(), j)?;
        note_all(alloc, &mut deletes, kids[j].del(), j)?;
    }
    Ok(Touches { gives, deletes })
}

// The positions of the fact.
fn places_at(places: &Places, p: FactId) -> &[usize]
    ensures { result.now ≡ places_of places.now p }
{
    match places.get(&p.0) {
        Some(found) => found.as_slice(),
        None => &[],
    }
}

/// The kids that give the fact, the last first.
pub fn givers(touches: &Touches, p: FactId) -> &[usize]
    ensures { result.now ≡ places_of touches.now.gives p }
{
    places_at(&touches.gives, p)
}

/// The kids that delete the fact, the last first.
pub fn deleters(touches: &Touches, p: FactId) -> &[usize]
    ensures { result.now ≡ places_of touches.now.deletes p }
{
    places_at(&touches.deletes, p)
}

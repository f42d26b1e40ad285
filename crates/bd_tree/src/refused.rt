// Sets of kids that were refused.
ghost use Rattle.std.specs.Prelude.{◌≡◌, ◌⊎◌, List, ℕ, IsTrue, OnOk, []};
ghost use Rattle.bd_tree.specs.Deciding.{IsOneOf};

use bd_base::NoMemory;
use std::alloc::Global;
use std::collections::BTreeSet;
use std::marker::Model;

/// Sets of positions; seen as a list of them.
#[derive(Drop)]
pub(crate) struct Refused {
    sets: BTreeSet<Vec<u32>>,
}

impl Model for Refused {
    ghost use Rattle.std.specs.Prelude.{List, ℕ, map};

    ghost Value = { List (List ℕ) };

    ghost view = { λ r. map (λ set. set.items) r.sets.keys };
}

impl Refused {
    pub(crate) fn new(alloc: Global) -> Refused
        ensures { result ≡ [] }
    {
        Refused {
            sets: BTreeSet::new(alloc),
        }
    }

    pub(crate) fn is_empty(&self) -> bool {
        self.sets.is_empty()
    }

    /// Whether the set is one of them.
    pub(crate) fn has(&self, set: &[u32]) -> bool
        ensures { IsTrue result → IsOneOf self.now set.now }
    {
        self.sets.contains(set)
    }

    /// Puts the set in.
    pub(crate) fn insert(&mut self, set: Vec<u32>) -> Result<(), NoMemory>
        ensures { OnOk result ((other : List ℕ) → IsOneOf self.new other → (other ≡ set.items) ⊎ IsOneOf self.old other) }
    {
        self.sets.insert(set)?;
        Ok(())
    }
}

ghost use Rattle.std.specs.Prelude.{◌≡◌, [], ◌∷◌, ◌++◌, not, length, IfOk, cond};
ghost use Rattle.pddl_form.specs.Names.{place_of, is_declared};

use bd_base::NoMemory;
use indexmap::IndexSet;
use std::alloc::Global;
use std::marker::Model;

// No text of at most 16 MiB has as many items.
const MOST_KEYS: usize = 0xffff_fff0;

/// Lists of numbers by their places from 0, each once.
#[derive(Drop)]
pub struct Keys {
    set: IndexSet<Vec<u32>>,
}

impl Model for Keys {
    ghost use Rattle.std.specs.Prelude.{List, ℕ, map};

    ghost Value = { List (List ℕ) };

    ghost view = { λ n. map (λ k. k.items) n.set.keys };

    ghost use Rattle.std.specs.Prelude.{◌<◌, ◌^◌, length};

    ghost invariant = { λ n. length n.set.keys < 2 ^ 32 };
}

impl Keys {
    pub fn new(alloc: Global) -> Keys
        ensures { result ≡ [] }
    {
        Keys {
            set: IndexSet::new(alloc),
        }
    }

    /// Whether the key is new; it stands last then.
    pub fn put(&mut self, key: Vec<u32>) -> Result<bool, NoMemory>
        ensures told { IfOk result (λ added. added ≡ not (is_declared key.items self.old)) }
        ensures ok { IfOk result (λ added. self.new ≡ cond added (self.old ++ key.items ∷ []) self.old) }
    {
        if self.set.len() >= MOST_KEYS {
            return Err(NoMemory);
        }
        let (_, added) = self.set.insert_full(key)?;
        Ok(added)
    }

    /// A key's place.
    pub fn place(&self, key: &[u32]) -> Option<u32>
        ensures { result ≡ place_of key.now self.now }
    {
        match self.set.get_index_of(key) {
            None => None,
            Some(i) => Some(i as u32),
        }
    }
}

ghost use Rattle.std.specs.Prelude.{◌≡◌, [], ◌∷◌, ◌++◌, not, length, IfOk, OnOk, None, cond, ◌+◌, ◌<◌, ◌^◌, ◌≤◌, map};
ghost use Rattle.pddl_form.specs.Names.{place_of, is_declared};

use bd_base::NoMemory;
use indexmap::IndexSet;
use std::alloc::Global;
use std::marker::Model;

// No text of at most 16 MiB has as many names.
const MOST_NAMES: usize = 0xffff_fff0;

/// Names by their places from 0, in the order in which they were declared.
#[derive(Drop)]
pub struct Names<'a> {
    set: IndexSet<&'a [u8]>,
}

impl<'a> Model for Names<'a> {
    ghost use Rattle.std.specs.Prelude.{List, ℕ, map};

    ghost Value = { List (List ℕ) };

    ghost view = { λ n. map (λ k. k.now) n.set.keys };

    ghost use Rattle.std.specs.Prelude.{◌<◌, ◌^◌, length};

    ghost invariant = { λ n. length n.set.keys < 2 ^ 32 };
}

impl<'a> Names<'a> {
    pub fn new(alloc: Global) -> Names<'a>
        ensures { result ≡ [] }
    {
        Names {
            set: IndexSet::new(alloc),
        }
    }

    /// Whether the name is new; it stands last then.
    pub fn declare(&mut self, name: &'a [u8]) -> Result<bool, NoMemory>
        ensures told { IfOk result (λ added. added ≡ not (is_declared name.now self.old)) }
        ensures ok { IfOk result (λ added. self.new ≡ cond added (self.old ++ name.now ∷ []) self.old) }
        ensures grown { OnOk result (length self.new ≤ length self.old + 1) }
    {
        if self.set.len() >= MOST_NAMES {
            return Err(NoMemory);
        }
        let (_, added) = self.set.insert_full(name)?;
        Ok(added)
    }

    /// Puts a name last that none before it has.
    pub fn add(&mut self, name: &'a [u8]) -> Result<(), NoMemory>
        requires { place_of name.now self.old ≡ None }
        ensures { OnOk result (self.new ≡ self.old ++ name.now ∷ []) }
    {
        self.declare(name)?;
        Ok(())
    }

    /// How many names there are.
    pub fn len(&self) -> u32
        ensures { result ≡ length self.now }
    {
        self.set.len() as u32
    }

    /// The names in their order.
    pub fn as_slice(&self) -> &[&'a [u8]]
        ensures { map (λ k. k.now) result.now ≡ self.now }
    {
        self.set.as_slice()
    }

    /// A name's place.
    pub fn place(&self, name: &[u8]) -> Option<u32>
        ensures { result ≡ place_of name.now self.now }
    {
        match self.set.get_index_of(name) {
            None => None,
            Some(i) => Some(i as u32),
        }
    }
}

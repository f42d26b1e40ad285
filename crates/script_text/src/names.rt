ghost use Rattle.std.specs.Prelude.{◌≡◌, [], ◌∷◌, ◌++◌, not, length, IfOk, OnOk, OnErr, cond, ◌+◌, ◌<◌, ◌^◌, ◌≤◌, map};
ghost use Rattle.script_text.specs.Names.{place_of, is_declared};

use bd_base::{NoMemory, Text};
use indexmap::IndexSet;
use std::alloc::Global;
use std::marker::Model;

/// Names by their places from 0, in the order in which they were declared.
#[derive(Drop)]
pub struct Names<'a> {
    set: IndexSet<&'a [u8]>,
}

impl<'a> Model for Names<'a> {
    ghost use Rattle.std.specs.Prelude.{List, ℕ, map};

    ghost Value = { List (List ℕ) };

    ghost view = { λ n. map (λ k. k.now) n.set.keys };

    ghost use Rattle.std.specs.Prelude.{◌<◌, ◌^◌, length};

    ghost invariant = { λ n. length n.set.keys < 2 ^ 32 };
}

impl<'a> Names<'a> {
    pub fn new(alloc: Global) -> Names<'a>
        ensures { result ≡ [] }
    {
        Names {
            set: IndexSet::new(alloc),
        }
    }

    /// Whether the name is new; it stands last then.
    pub fn declare(&mut self, name: &'a [u8]) -> Result<bool, NoMemory>
        requires { length self.old + 1 < 2 ^ 32 }
        ensures told { IfOk result (λ added. added ≡ not (is_declared name.now self.old)) }
        ensures ok { IfOk result (λ added. self.new ≡ cond added (self.old ++ name.now ∷ []) self.old) }
        ensures grown { OnOk result (length self.new ≤ length self.old + 1) }
    {
        let (_, added) = self.set.insert_full(name)?;
        Ok(added)
    }

    /// How many names there are.
    pub fn len(&self) -> usize
        ensures { result ≡ length self.now }
    {
        self.set.len()
    }

    /// A name's place.
    pub fn place(&self, name: &[u8]) -> Option<u32>
        ensures { result ≡ place_of name.now self.now }
    {
        match self.set.get_index_of(name) {
            None => None,
            Some(i) => Some(i as u32),
        }
    }

    /// The names, each in memory of its own.
    pub fn texts(&self, alloc: Global) -> Result<Vec<Text>, NoMemory>
        ensures { IfOk result (λ texts. texts.items ≡ self.now) }
    {
        texts_of(alloc, self.set.as_slice())
    }
}

fn texts_of(alloc: Global, names: &[&[u8]]) -> Result<Vec<Text>, NoMemory>
    ensures { IfOk result (λ texts. texts.items ≡ map (λ k. k.now) names.now) }
{
    let mut texts = Vec::new(alloc);
    for name in names {
        texts.push(Text::from_slice(alloc, name)?)?;
    }
    Ok(texts)
}

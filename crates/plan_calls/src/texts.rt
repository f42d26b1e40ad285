ghost use Rattle.std.specs.Prelude.{◌≡◌, ◌+◌, ◌<◌, ◌≤◌, ◌^◌, [], length, map, cond, Some, None, IfOk, OnErr};
ghost use Rattle.bd_ground.specs.Atoms.{is_among, with_atom, number_of, mentioned_after};
ghost use Rattle.plan_calls.specs.Finding.{call_text};

use bd_base::NoMemory;
use indexmap::IndexSet;
use pddl_types::Call;
use std::alloc::Global;
use std::marker::Model;

/// Texts by their numbers from 0, in the order in which they were put in first.
#[derive(Drop)]
pub struct Texts {
    set: IndexSet<Vec<u8>>,
}

impl Model for Texts {
    ghost use Rattle.std.specs.Prelude.{List, ℕ, map};

    ghost Value = { List (List ℕ) };

    ghost view = { λ t. map (λ k. k.items) t.set.keys };

    ghost use Rattle.std.specs.Prelude.{◌<◌, ◌^◌, length};

    ghost invariant = { λ t. length t.set.keys < 2 ^ 32 };
}

impl Texts {
    pub fn new(alloc: Global) -> Texts
        ensures { result ≡ [] }
    {
        Texts {
            set: IndexSet::new(alloc),
        }
    }

    /// How many texts there are.
    pub fn len(&self) -> usize
        ensures { result ≡ length self.now }
    {
        self.set.len()
    }

    /// The text's number, where it is there.
    pub fn number(&self, text: &[u8]) -> Option<u32>
        ensures { result ≡ cond (is_among text.now self.now) (Some (number_of self.now text.now)) None }
    {
        match self.set.get_index_of(text) {
            None => None,
            Some(i) => Some(i as u32),
        }
    }

    /// Puts a text in.
    pub fn put(&mut self, text: Vec<u8>) -> Result<(), NoMemory>
        requires { length self.old + 1 < 2 ^ 32 }
        ensures ok { IfOk result (λ n. self.new ≡ with_atom text.items self.old) }
    {
        self.set.insert_full(text)?;
        Ok(())
    }
}

/// A call's name and arguments, with a space before each argument.
pub fn text_of(alloc: Global, call: &Call) -> Result<Vec<u8>, NoMemory>
    ensures { IfOk result (λ text. text.items ≡ call_text call.now) }
{
    let mut text = Vec::from_slice(alloc, call.name.as_slice())?;
    for word in call.args.as_slice() {
        text.push(b' ')?;
        text.extend_from_slice(word.as_slice())?;
    }
    Ok(text)
}

/// The texts of calls, each once.
pub fn texts_of(alloc: Global, calls: &[Call]) -> Result<Texts, NoMemory>
    requires { length calls.now < 2 ^ 32 }
    ensures { IfOk result (λ texts. texts ≡ mentioned_after [] (map (λ c. call_text c) calls.now)) }
{
    let mut texts = Texts::new(alloc);
    for call in calls {
        texts.put(text_of(alloc, call)?)?;
    }
    Ok(texts)
}

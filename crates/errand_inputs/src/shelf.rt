// A shelf of the three texts of a sample.
ghost use Rattle.std.specs.Prelude.{◌≡◌, List, ℕ, MatchOption};
ghost use Rattle.bd_base.specs.Shelf.{Told, absent, text};
ghost use Rattle.errand_inputs.specs.Inner.{told_of};

use bd_base::{Shelf, ShelfErr, Text};
use bd_gen::Sample;
use std::alloc::Global;

/// A shelf that tells the texts of a sample by what they are, and never fails.
#[derive(Drop)]
pub(crate) struct SampleShelf {
    pub(crate) sample: Sample,
    pub(crate) longs: u64,
}

// The text of a sample under a name.
fn text_of<'a>(sample: &'a Sample, name: &str) -> Option<&'a Text>
    ensures { MatchOption result (told_of sample.now name.now ≡ absent) (λ t. told_of sample.now name.now ≡ text t.now) }
{
    if name == "domain" {
        Some(&sample.domain)
    } else if name == "problem" {
        Some(&sample.problem)
    } else if name == "plan" {
        Some(&sample.plan)
    } else {
        None
    }
}

impl Shelf for SampleShelf {
    ghost tells = { λ s n. told_of s.sample n };

    ghost faults = { λ s. 0 };

    ghost longs = { λ s. s.longs };

    fn read(&mut self, alloc: Global, name: &str, max: usize) -> Result<Vec<u8>, ShelfErr> {
        let Some(text) = text_of(&self.sample, name) else {
            return Err(ShelfErr::Missing);
        };
        if text.as_slice().len() > max {
            self.longs = self.longs.saturating_add(1);
            return Err(ShelfErr::TooBig);
        }
        match Vec::from_slice(alloc, text.as_slice()) {
            Ok(copy) => Ok(copy),
            Err(_) => Err(ShelfErr::NoMemory),
        }
    }
}

ghost use Rattle.std.specs.Prelude.{◌≡◌, ◌==◌, [], ◌∷◌, MatchOption, OnOk, OnErr};
ghost use Rattle.std.proofs.Common.{rules};
ghost use Rattle.std.specs.BinaryHeap.{heap_items};
ghost use Rattle.std.specs.Cmp.{partial_order_from_own_ties};
ghost use Rattle.std.specs.Cmp.Rules.{comparing};
ghost use Rattle.std.specs.List.Sorted.{IsPermutation};
ghost use Rattle.std.specs.Ordering.{nat_cmp, on, flip_args, as_partial_cmp};
ghost use Rattle.bd_heur.specs.declared.queue.Waiting.{Waiting};

use bd_base::{FactId, NoMemory};
use std::alloc::Global;
use std::cmp::Ordering;
use std::collections::BinaryHeap;
use std::marker::Model;

/// A fact that waits with a value.
#[derive(Clone, Copy, Debug)]
pub(crate) struct Waiting {
    pub(crate) value: u64,
    pub(crate) fact: FactId,
}

impl PartialEq for Waiting {
    ghost eq = { on (λ w. w.value) ◌==◌ };

    ghost laws = { Prim.search (comparing, rules) };

    fn eq(&self, other: &Waiting) -> bool {
        self.value == other.value
    }
}

impl Eq for Waiting {
    ghost laws = { Prim.search (comparing, rules) };
}

impl Ord for Waiting {
    ghost cmp = { flip_args (on (λ w. w.value) nat_cmp) };

    ghost total = { Prim.search (comparing, rules) };

    ghost matches_partial_cmp = { Prim.search (comparing, rules) };

    ghost matches_eq = { Prim.search (comparing, rules) };

    fn cmp(&self, other: &Waiting) -> Ordering {
        other.value.cmp(&self.value)
    }
}

impl PartialOrd for Waiting {
    ghost partial_cmp = { as_partial_cmp (flip_args (on (λ w. w.value) nat_cmp)) };

    ghost laws = { partial_order_from_own_ties (Prim.search (comparing, rules)) (Prim.search (comparing, rules)) };

    fn partial_cmp(&self, other: &Waiting) -> Option<Ordering> {
        Some(self.cmp(other))
    }
}

/// Facts that wait, seen as a list in some order.
#[derive(Debug, Drop)]
pub(crate) struct Queue {
    heap: BinaryHeap<Waiting>,
}

impl Model for Queue {
    ghost use Rattle.std.specs.Prelude.{List};
    ghost use Rattle.std.specs.BinaryHeap.{heap_items};
    ghost use Rattle.bd_heur.specs.declared.queue.Waiting.{Waiting};

    ghost Value = { List Waiting };

    ghost view = { λ s. heap_items s.heap };
}

impl Queue {
    /// No facts.
    pub(crate) fn new(alloc: Global) -> Queue
        ensures { result ≡ [] }
    {
        Queue {
            heap: BinaryHeap::new(alloc),
        }
    }

    /// Puts a fact in.
    pub(crate) fn put(&mut self, waiting: Waiting) -> Result<(), NoMemory>
        ensures { OnOk result (IsPermutation (waiting ∷ self.old) self.new) }
    {
        self.heap.push(waiting)?;
        Ok(())
    }

    /// Takes a fact out, one of the least value.
    pub(crate) fn take(&mut self) -> Option<Waiting>
        ensures { MatchOption result (self.old ≡ []) (λ w. IsPermutation self.old (w ∷ self.new)) }
    {
        self.heap.pop()
    }
}

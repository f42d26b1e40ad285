ghost use Rattle.std.specs.Prelude.{◌≡◌, ◌≤◌, ◌==◌, false, [], ◌∷◌, MatchOption, IfSome, OnOk};
ghost use Rattle.std.proofs.Common.{rules};
ghost use Rattle.std.specs.BinaryHeap.{IsHeap, heap_items};
ghost use Rattle.std.specs.Cmp.{partial_order_from_own_ties};
ghost use Rattle.std.specs.Cmp.Rules.{comparing};
ghost use Rattle.std.specs.List.Sorted.{IsPermutation};
ghost use Rattle.std.specs.Ordering.{nat_cmp, on, flip_args, then_cmp, as_partial_cmp, eq_of_both};
ghost use Rattle.bd_states.specs.Entries.{In};
ghost use Rattle.bd_states.specs.declared.entry.Entry.{Entry};

use crate::entry::Entry;
use bd_base::NoMemory;
use std::alloc::Global;
use std::cmp::Ordering;
use std::collections::BinaryHeap;
use std::marker::Model;

impl PartialEq for Entry {
    ghost eq = { eq_of_both (on (λ e. e.total) ◌==◌) (on (λ e. e.cost) ◌==◌) };

    ghost laws = { Prim.search (comparing, rules) };

    fn eq(&self, other: &Entry) -> bool {
        self.total == other.total && self.cost == other.cost
    }
}

impl Eq for Entry {
    ghost laws = { Prim.search (comparing, rules) };
}

impl Ord for Entry {
    ghost cmp = { then_cmp (flip_args (on (λ e. e.total) nat_cmp)) (on (λ e. e.cost) nat_cmp) };

    ghost total = { Prim.search (comparing, rules) };

    ghost matches_partial_cmp = { Prim.search (comparing, rules) };

    ghost matches_eq = { Prim.search (comparing, rules) };

    fn cmp(&self, other: &Entry) -> Ordering {
        other
            .total
            .cmp(&self.total)
            .then(self.cost.cmp(&other.cost))
    }
}

impl PartialOrd for Entry {
    ghost partial_cmp = { as_partial_cmp (then_cmp (flip_args (on (λ e. e.total) nat_cmp)) (on (λ e. e.cost) nat_cmp)) };

    ghost laws = { partial_order_from_own_ties (Prim.search (comparing, rules)) (Prim.search (comparing, rules)) };

    fn partial_cmp(&self, other: &Entry) -> Option<Ordering> {
        Some(self.cmp(other))
    }
}

/// Entries that are open, seen as a list in some order: the first out is one of the least total, and of
/// those one of the greatest cost.
#[derive(Debug, Drop)]
pub struct OpenList {
    heap: BinaryHeap<Entry>,
}

impl Model for OpenList {
    ghost use Rattle.std.specs.Prelude.{List};
    ghost use Rattle.std.specs.BinaryHeap.{IsHeap, heap_items};
    ghost use Rattle.bd_states.specs.Order.{entry_cmp};
    ghost use Rattle.bd_states.specs.declared.entry.Entry.{Entry};

    ghost Value = { List Entry };

    ghost view = { λ s. heap_items s.heap };

    ghost invariant = { λ s. IsHeap entry_cmp (heap_items s.heap) };
}

impl OpenList {
    /// No entries.
    pub fn new(alloc: Global) -> OpenList
        ensures { result ≡ [] }
    {
        OpenList {
            heap: BinaryHeap::new(alloc),
        }
    }

    /// Puts an entry in.
    pub fn put(&mut self, entry: Entry) -> Result<(), NoMemory>
        ensures { OnOk result (IsPermutation (entry ∷ self.old) self.new) }
    {
        self.heap.push(entry)?;
        Ok(())
    }

    /// Takes an entry of the least total out.
    pub fn take(&mut self) -> Option<Entry>
        ensures taken { MatchOption result (self.old ≡ []) (λ e. IsPermutation self.old (e ∷ self.new)) }
        ensures least { IfSome result (λ e. (x : Entry) → In x self.new → e.total ≤ x.total) }
    {
        self.heap.pop()
    }
}

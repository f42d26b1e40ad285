ghost use Rattle.std.specs.Prelude.{◌≡◌, ◌<◌, ◌==◌, ◌||◌, ℕ, List, map, not, length, slice_get, IfOk};
ghost use Rattle.std.specs.List.{list_all};
ghost use Rattle.bd_ground.specs.Atoms.{filled as filled_by, is_same, is_among};
ghost use Rattle.bd_base.specs.Bits.{upto};
ghost use Rattle.bd_ground.specs.Instances.{things_of, is_met, value_at, stated as stated_by};
ghost use Rattle.bd_ground.specs.Offers.{fitting as fitting_by};
ghost use Rattle.bd_ground.specs.Index.{FindsAll};
ghost use Rattle.bd_ground.specs.Prices.{value_by};
ghost use Rattle.bd_ground.specs.Join.{reach_of_term, reach_of_terms, reach_of_same, last_fits, passes_now};

use crate::atoms::Atoms;
use crate::filling::{fill, filled, is_same};
use crate::index::Index;
use crate::prices::Prices;
use crate::world::{fits, is_static};
use bd_base::NoMemory;
use pddl_types::{Atom, Domain, Problem, Same, Schema, Term};
use std::alloc::Global;

/// What every test of an instance asks: a domain, a problem, the init list's atoms in a table and by an index, the
/// objects of each type, and the values that are given.
#[derive(Drop)]
pub struct World<'a> {
    pub domain: &'a Domain,
    pub problem: &'a Problem,
    pub stated: &'a Atoms,
    pub index: Index<'a>,
    pub fitting: Vec<Vec<u32>>,
    pub prices: Prices,
    ghost fitted: { map (λ xs. xs.items) fitting.items ≡ map (λ k. fitting_by domain.now problem.now k) (upto 0 (length domain.now.types)) },
    ghost states: { (g : List ℕ) → is_among g stated.now ≡ is_among g (stated_by problem.now) },
    ghost finds: { FindsAll index.keys (map (λ r. map (λ g. g.now) r.items) index.rows.items) stated.now },
    ghost priced: { (g : List ℕ) → value_by prices.calls prices.numbers.items g ≡ value_at problem.now.values g },
}

fn reach_of_term(t: Term) -> usize
    ensures { result ≡ reach_of_term t }
{
    match t {
        Term::Param(k) => k as usize + 1,
        Term::Object(_) => 0,
    }
}

fn reach_of_terms(terms: &[Term]) -> usize
    ensures { result ≡ reach_of_terms terms.now }
{
    let mut most = 0;
    for t in terms {
        let reach = reach_of_term(*t);
        if reach > most {
            most = reach;
        }
    }
    most
}

fn reach_of_same(s: Same) -> usize
    ensures { result ≡ reach_of_same s }
{
    let left = reach_of_term(s.left);
    let right = reach_of_term(s.right);
    if left > right { left } else { right }
}

// Whether the equalities hold that the last choice decides.
fn equal_now(list: &[Same], chosen: &[u32]) -> bool
    ensures { result ≡ list_all (λ s. not (reach_of_same s == length chosen.now) || is_same chosen.now s) list.now }
{
    for s in list {
        if reach_of_same(*s) == chosen.len() && !is_same(chosen, *s) {
            return false;
        }
    }
    true
}

// Whether the inequalities hold that the last choice decides.
fn differ_now(list: &[Same], chosen: &[u32]) -> bool
    ensures { result ≡ list_all (λ s. not (reach_of_same s == length chosen.now) || not (is_same chosen.now s)) list.now }
{
    for s in list {
        if reach_of_same(*s) == chosen.len() && is_same(chosen, *s) {
            return false;
        }
    }
    true
}

/// The kind at a place.
pub fn kind_at(kinds: &[u32], k: usize) -> Option<u32>
    ensures { result ≡ slice_get kinds.now k }
{
    kinds.get(k).copied()
}

// Whether the last of the chosen arguments fits its type.
fn last_fits(domain: &Domain, problem: &Problem, kinds: &[u32], chosen: &[u32]) -> bool
    ensures { result ≡ last_fits domain.now.types (things_of domain.now problem.now) kinds.now chosen.now }
{
    match chosen.split_last() {
        None => true,
        Some((o, front)) => match kind_at(kinds, front.len()) {
            None => true,
            Some(kind) => fits(domain, problem, kind, *o),
        },
    }
}

/// The length of an atom's list of numbers that needs no memory.
const CELLS: usize = 8;

impl<'a> World<'a> {
    // The value of a function at objects.
    fn value(&self, g: &[u32]) -> Option<u64>
        ensures { result ≡ value_at self.now.problem.now.values g.now }
    {
        self.prices.value(g)
    }

    // The value of a function with few arguments. It takes no memory.
    fn short_value(&self, args: &[u32], a: &Atom) -> Option<u64>
        requires { length a.now.args < 8 }
        ensures { result ≡ value_at self.now.problem.now.values (filled_by args.now a.now) }
    {
        let mut cells = [0; CELLS];
        fill(args, a, &mut cells);
        self.value(&cells[..a.args.len() + 1])
    }

    /// The value of a function where the parameters stand for these objects.
    pub fn value_of(&self, alloc: Global, args: &[u32], a: &Atom) -> Result<Option<u64>, NoMemory>
        ensures { IfOk result (λ v. v ≡ value_at self.now.problem.now.values (filled_by args.now a.now)) }
    {
        if a.args.len() < CELLS {
            return Ok(self.short_value(args, a));
        }
        let g = filled(alloc, args, a)?;
        Ok(self.value(&g))
    }

    // Whether a short atom is stated. It takes no memory.
    fn is_stated(&self, args: &[u32], a: &Atom) -> bool
        requires { length a.now.args < 8 }
        ensures { result ≡ is_among (filled_by args.now a.now) (stated_by self.now.problem.now) }
    {
        let mut cells = [0; CELLS];
        fill(args, a, &mut cells);
        self.stated.has(&cells[..a.args.len() + 1])
    }

    fn is_met(&self, alloc: Global, args: &[u32], a: &Atom) -> Result<bool, NoMemory>
        ensures { IfOk result (λ b. b ≡ is_met self.now.domain.now self.now.problem.now args.now a.now) }
    {
        if !is_static(self.domain.schemas.as_slice(), a.head) {
            return Ok(true);
        }
        if a.args.len() < CELLS {
            return Ok(self.is_stated(args, a));
        }
        let g = filled(alloc, args, a)?;
        Ok(self.stated.has(&g))
    }

    fn met_now(&self, alloc: Global, list: &[Atom], chosen: &[u32]) -> Result<bool, NoMemory>
        ensures { IfOk result (λ b. b ≡ list_all (λ a. not (reach_of_terms a.args == length chosen.now) || is_met self.now.domain.now self.now.problem.now chosen.now a) list.now) }
    {
        for a in list {
            if reach_of_terms(a.args.as_slice()) == chosen.len()
                && !self.is_met(alloc, chosen, a)?
            {
                return Ok(false);
            }
        }
        Ok(true)
    }

    /// Whether the tests pass that the last choice decides.
    pub fn passes_now(
        &self,
        alloc: Global,
        schema: &Schema,
        chosen: &[u32],
    ) -> Result<bool, NoMemory>
        ensures { IfOk result (λ b. b ≡ passes_now self.now.domain.now self.now.problem.now schema.now chosen.now) }
    {
        if !last_fits(self.domain, self.problem, schema.params.as_slice(), chosen) {
            return Ok(false);
        }
        if !equal_now(schema.equal.as_slice(), chosen) {
            return Ok(false);
        }
        if !differ_now(schema.differ.as_slice(), chosen) {
            return Ok(false);
        }
        self.met_now(alloc, schema.pre.as_slice(), chosen)
    }
}

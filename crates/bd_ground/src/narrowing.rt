ghost use Rattle.std.specs.Prelude.{◌≡◌, ◌+◌, true, length, map, slice_get, Some, IfOk, IfSome};
ghost use Rattle.std.specs.Option.{option_map};
ghost use Rattle.pddl_types.specs.Readable.{IsSchema};
ghost use Rattle.bd_ground.specs.Collect.{IsEnough};
ghost use Rattle.bd_ground.specs.Index.{settled, Covers, Narrows};
ghost use Rattle.bd_ground.specs.Instances.{is_static, things_of};
ghost use Rattle.bd_ground.specs.Offers.{has_param};

use crate::choices::{World, kind_at};
use crate::offers::{allowed_rising, has_param};
use crate::world::is_static;
use bd_base::NoMemory;
use pddl_types::{Atom, Domain, Problem, Schema, Term};
use std::alloc::Global;

// An atom of a precondition, with rows that have each stated atom for which it may still stand.
#[derive(Clone, Copy)]
struct Narrowing<'b, 'a> {
    atom: &'b Atom,
    rows: &'b [&'a [u32]],
}

fn settled(chosen: &[u32], t: Term) -> Option<u32>
    ensures { result ≡ settled chosen.now t }
{
    match t {
        Term::Param(k) => chosen.get(k as usize).copied(),
        Term::Object(o) => Some(o),
    }
}

// How many constants and objects there are.
fn count(domain: &Domain, problem: &Problem) -> usize
    ensures { result ≡ length (things_of domain.now problem.now) }
{
    domain.constants.as_slice().len() + problem.objects.as_slice().len()
}

fn list_at(lists: &[Vec<u32>], k: u32) -> Option<&[u32]>
    ensures { option_map (λ xs. xs.now) result ≡ slice_get (map (λ xs. xs.items) lists.now) k }
{
    match lists.get(k as usize) {
        None => None,
        Some(xs) => Some(xs.as_slice()),
    }
}

// Whether there are fewer rows than those found so far.
fn is_fewer(n: usize, best: &Option<Narrowing>) -> bool {
    match best {
        None => true,
        Some(narrowing) => n < narrowing.rows.len(),
    }
}

impl<'a> World<'a> {
    // Where a term stands for an object already: the stated atoms with its atom's head that have the object there.
    fn rows_at(&self, chosen: &[u32], a: &Atom, k: usize, t: Term) -> Option<&[&'a [u32]]>
        requires { slice_get a.now.args k ≡ Some t }
        ensures { IfSome result (λ rows. Covers self.now.stated.now chosen.now a.now (map (λ g. g.now) rows.now)) }
    {
        if k > 0xffff_ffff {
            return None;
        }
        match settled(chosen, t) {
            None => None,
            Some(o) => Some(self.index.rows(&[a.head, k as u32, o])),
        }
    }

    // The fewer of two lists of rows, where there is a second.
    fn fewer<'b>(
        &'b self,
        chosen: &[u32],
        a: &Atom,
        best: &'b [&'a [u32]],
        rows: Option<&'b [&'a [u32]]>,
    ) -> &'b [&'a [u32]]
        requires best { Covers self.now.stated.now chosen.now a.now (map (λ g. g.now) best.now) }
        requires rows { IfSome rows (λ rows. Covers self.now.stated.now chosen.now a.now (map (λ g. g.now) rows.now)) }
        ensures { Covers self.now.stated.now chosen.now a.now (map (λ g. g.now) result.now) }
    {
        match rows {
            None => best,
            Some(rows) => { if rows.len() < best.len() { rows } else { best } }
        }
    }

    // Stated atoms among which are all that an atom may still stand for: those with its head, or fewer with an object
    // at a place.
    fn rows_for(&self, chosen: &[u32], a: &Atom) -> &[&'a [u32]]
        ensures { Covers self.now.stated.now chosen.now a.now (map (λ g. g.now) result.now) }
    {
        let mut best = self.index.rows(&[a.head]);
        for (k, t) in a.args.as_slice().iter().enumerate() {
            best = self.fewer(chosen, a, best, self.rows_at(chosen, a, k, *t));
        }
        best
    }

    // Whether an atom is static and speaks of the next parameter.
    fn narrows(&self, chosen: &[u32], a: &Atom) -> bool
        ensures fixed { result ≡ true → is_static self.now.domain.now.schemas a.now.head ≡ true }
        ensures speaks { result ≡ true → has_param (length chosen.now) a.now.args ≡ true }
    {
        if chosen.len() > 0xffff_ffff || !has_param(chosen.len() as u32, a.args.as_slice()) {
            return false;
        }
        is_static(self.domain.schemas.as_slice(), a.head)
    }

    // An atom in place of the best so far, where it narrows and has fewer rows.
    fn fewest<'b>(
        &'b self,
        schema: &Schema,
        chosen: &[u32],
        best: Option<Narrowing<'b, 'a>>,
        i: usize,
        a: &'b Atom,
    ) -> Option<Narrowing<'b, 'a>>
        requires best { IfSome best (λ n. Narrows self.now.domain.now self.now.stated.now schema.now chosen.now n.atom.now (map (λ g. g.now) n.rows.now)) }
        requires at { slice_get schema.now.pre i ≡ Some a.now }
        ensures { IfSome result (λ n. Narrows self.now.domain.now self.now.stated.now schema.now chosen.now n.atom.now (map (λ g. g.now) n.rows.now)) }
    {
        if !self.narrows(chosen, a) {
            return best;
        }
        let rows = self.rows_for(chosen, a);
        if is_fewer(rows.len(), &best) {
            Some(Narrowing { atom: a, rows })
        } else {
            best
        }
    }

    // The static atom of the precondition that speaks of the next parameter and has the fewest rows.
    fn narrowest<'b>(&'b self, schema: &'b Schema, chosen: &[u32]) -> Option<Narrowing<'b, 'a>>
        ensures { IfSome result (λ n. Narrows self.now.domain.now self.now.stated.now schema.now chosen.now n.atom.now (map (λ g. g.now) n.rows.now)) }
    {
        let mut best = None;
        for (i, a) in schema.pre.as_slice().iter().enumerate() {
            best = self.fewest(schema, chosen, best, i, a);
        }
        best
    }

    // The objects of the next parameter's type, before those of these kinds.
    fn objects_for(&self, schema: &Schema, kinds: &[u32], chosen: &[u32]) -> &[u32]
        requires schema { IsSchema self.now.domain.now schema.now }
        requires sized { length chosen.now + 1 + length kinds.now ≡ length schema.now.params }
        ensures { IsEnough self.now.domain.now self.now.problem.now schema.now kinds.now chosen.now result.now }
    {
        match kind_at(schema.params.as_slice(), chosen.len()) {
            None => &[],
            Some(kind) => match list_at(&self.fitting, kind) {
                None => &[],
                Some(objects) => objects,
            },
        }
    }

    /// The objects that are worth a try for the next parameter, before those of these kinds: those of its type, or those
    /// that fewer stated atoms allow.
    pub fn offers(
        &self,
        alloc: Global,
        schema: &Schema,
        kinds: &[u32],
        chosen: &[u32],
    ) -> Result<Vec<u32>, NoMemory>
        requires schema { IsSchema self.now.domain.now schema.now }
        requires sized { length chosen.now + 1 + length kinds.now ≡ length schema.now.params }
        ensures { IfOk result (λ xs. IsEnough self.now.domain.now self.now.problem.now schema.now kinds.now chosen.now xs.items) }
    {
        let objects = self.objects_for(schema, kinds, chosen);
        match self.narrowest(schema, chosen) {
            None => Ok(Vec::from_slice(alloc, objects)?),
            Some(n) => {
                if n.rows.len() >= objects.len() {
                    return Ok(Vec::from_slice(alloc, objects)?);
                }
                let all = count(self.domain, self.problem);
                let xs = allowed_rising(alloc, all, chosen, n.atom, n.rows)?;
                Ok(xs)
            }
        }
    }
}

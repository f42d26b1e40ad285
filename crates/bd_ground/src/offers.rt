ghost use Rattle.std.specs.Prelude.{◌≡◌, [], ◌∷◌, map, IfOk};
ghost use Rattle.bd_base.specs.Facts.{plus};
ghost use Rattle.bd_ground.specs.Offers.{could_stand, could_match, has_param, object_at, if_below, allowed_by, allowed};

use bd_base::{FactId, FactSet, NoMemory};
use pddl_types::{Atom, Term};
use std::alloc::Global;

fn could_stand(chosen: &[u32], t: Term, o: u32) -> bool
    ensures { result ≡ could_stand chosen.now t o }
{
    match t {
        Term::Param(k) => k as usize >= chosen.len() || chosen[k as usize] == o,
        Term::Object(c) => c == o,
    }
}

fn could_match(chosen: &[u32], terms: &[Term], objects: &[u32]) -> bool
    ensures { result ≡ could_match chosen.now terms.now objects.now }
{
    match terms.split_first() {
        None => objects.is_empty(),
        Some((t, ts)) => match objects.split_first() {
            None => false,
            Some((o, os)) => could_stand(chosen, *t, *o) && could_match(chosen, ts, os),
        },
    }
}

/// Whether a parameter stands among terms.
pub fn has_param(k: u32, terms: &[Term]) -> bool
    ensures { result ≡ has_param k terms.now }
{
    for t in terms {
        match *t {
            Term::Param(j) => {
                if j == k {
                    return true;
                }
            }
            Term::Object(_) => {}
        }
    }
    false
}

fn is_param(k: usize, t: Term) -> bool
    ensures { result ≡ has_param k (t ∷ []) }
{
    match t {
        Term::Param(j) => j as usize == k,
        Term::Object(_) => false,
    }
}

fn object_at(k: usize, terms: &[Term], objects: &[u32]) -> Option<u32>
    ensures { result ≡ object_at k terms.now objects.now }
{
    match terms.split_first() {
        None => None,
        Some((t, ts)) => match objects.split_first() {
            None => None,
            Some((o, os)) => {
                if is_param(k, *t) {
                    Some(*o)
                } else {
                    object_at(k, ts, os)
                }
            }
        },
    }
}

fn if_below(n: usize, o: Option<u32>) -> Option<u32>
    ensures { result ≡ if_below n o }
{
    match o {
        None => None,
        Some(o) => { if (o as usize) < n { Some(o) } else { None } }
    }
}

fn allowed_by(n: usize, chosen: &[u32], a: &Atom, g: &[u32]) -> Option<u32>
    ensures { result ≡ allowed_by n chosen.now a.now g.now }
{
    match g.split_first() {
        None => None,
        Some((h, os)) => {
            if a.head == *h && could_match(chosen, a.args.as_slice(), os) {
                if_below(n, object_at(chosen.len(), a.args.as_slice(), os))
            } else {
                None
            }
        }
    }
}

// The objects that stated atoms allow for the next parameter, in the order of the atoms.
fn allowed(
    alloc: Global,
    n: usize,
    chosen: &[u32],
    a: &Atom,
    atoms: &[&[u32]],
) -> Result<Vec<FactId>, NoMemory>
    ensures { IfOk result (λ xs. xs.items ≡ allowed n chosen.now a.now (map (λ g. g.now) atoms.now)) }
{
    let mut xs = Vec::new(alloc);
    for g in atoms {
        if let Some(o) = allowed_by(n, chosen, a, g) {
            xs.push(FactId(o))?;
        }
    }
    Ok(xs)
}

/// The objects that stated atoms allow for the next parameter, rising.
pub fn allowed_rising(
    alloc: Global,
    n: usize,
    chosen: &[u32],
    a: &Atom,
    atoms: &[&[u32]],
) -> Result<Vec<u32>, NoMemory>
    ensures { IfOk result (λ xs. xs.items ≡ plus [] (allowed n chosen.now a.now (map (λ g. g.now) atoms.now))) }
{
    let set = FactSet::of(allowed(alloc, n, chosen, a, atoms)?)?;
    let mut xs = Vec::new(alloc);
    for o in set.iter() {
        xs.push(o.0)?;
    }
    Ok(xs)
}

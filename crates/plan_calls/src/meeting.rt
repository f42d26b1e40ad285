// Whether a schema at objects is an instance, without memory.
ghost use Rattle.std.specs.Prelude.{◌≡◌, ◌||◌, not, [], map};
ghost use Rattle.std.specs.List.{list_all};
ghost use Rattle.std.specs.Str.{bytes_eq};
ghost use Rattle.bd_ground.specs.Atoms.{object_of as object_by, filled, filled_all, is_same as is_same_by, same_atom, is_among};
ghost use Rattle.bd_ground.specs.Instances.{things_of, all_fit, is_met, is_instance, value_at, cost_of, stated};

use bd_ground::{fits, is_same, is_static, object_of};
use pddl_types::{Atom, CostTerm, Domain, Given, Problem, Same, Schema, Term};

fn all_fit(domain: &Domain, problem: &Problem, kinds: &[u32], args: &[u32]) -> bool
    ensures { result ≡ all_fit domain.now.types (things_of domain.now problem.now) kinds.now args.now }
{
    match kinds.split_first() {
        None => args.is_empty(),
        Some((kind, kinds)) => match args.split_first() {
            None => false,
            Some((o, args)) => {
                fits(domain, problem, *kind, *o) && all_fit(domain, problem, kinds, args)
            }
        },
    }
}

fn are_equal(list: &[Same], args: &[u32]) -> bool
    ensures { result ≡ list_all (λ s. is_same_by args.now s) list.now }
{
    for s in list {
        if !is_same(args, *s) {
            return false;
        }
    }
    true
}

fn do_differ(list: &[Same], args: &[u32]) -> bool
    ensures { result ≡ list_all (λ s. not (is_same_by args.now s)) list.now }
{
    for s in list {
        if is_same(args, *s) {
            return false;
        }
    }
    true
}

// Whether terms stand for the objects that others, without parameters, do.
fn same_terms(args: &[u32], terms: &[Term], others: &[Term]) -> bool
    ensures { result ≡ bytes_eq (map (object_by args.now) terms.now) (map (object_by []) others.now) }
{
    match terms.split_first() {
        None => others.is_empty(),
        Some((t, terms)) => match others.split_first() {
            None => false,
            Some((u, others)) => {
                object_of(args, *t) == object_of(&[], *u) && same_terms(args, terms, others)
            }
        },
    }
}

fn is_at(args: &[u32], a: &Atom, b: &Atom) -> bool
    ensures { result ≡ same_atom (filled args.now a.now) (filled [] b.now) }
{
    a.head == b.head && same_terms(args, a.args.as_slice(), b.args.as_slice())
}

fn is_stated(list: &[Atom], args: &[u32], a: &Atom) -> bool
    ensures { result ≡ is_among (filled args.now a.now) (filled_all [] list.now) }
{
    for b in list {
        if is_at(args, a, b) {
            return true;
        }
    }
    false
}

fn is_met(domain: &Domain, problem: &Problem, args: &[u32], a: &Atom) -> bool
    ensures { result ≡ is_met domain.now problem.now args.now a.now }
{
    !is_static(domain.schemas.as_slice(), a.head) || is_stated(problem.init.as_slice(), args, a)
}

fn are_met(domain: &Domain, problem: &Problem, args: &[u32], list: &[Atom]) -> bool
    ensures { result ≡ list_all (λ a. is_met domain.now problem.now args.now a) list.now }
{
    for a in list {
        if !is_met(domain, problem, args, a) {
            return false;
        }
    }
    true
}

/// Whether these arguments make an instance of the schema.
pub fn is_instance(domain: &Domain, problem: &Problem, schema: &Schema, args: &[u32]) -> bool
    ensures { result ≡ is_instance domain.now problem.now schema.now args.now }
{
    if !all_fit(domain, problem, schema.params.as_slice(), args) {
        return false;
    }
    if !are_equal(schema.equal.as_slice(), args) {
        return false;
    }
    if !do_differ(schema.differ.as_slice(), args) {
        return false;
    }
    are_met(domain, problem, args, schema.pre.as_slice())
}

fn value_at(values: &[Given], args: &[u32], a: &Atom) -> Option<u64>
    ensures { result ≡ value_at values.now (filled args.now a.now) }
{
    for v in values {
        if is_at(args, a, &v.call) {
            return Some(v.number);
        }
    }
    None
}

/// An instance's cost, or none where its function has no value.
pub fn cost_of(problem: &Problem, schema: &Schema, args: &[u32]) -> Option<u64>
    ensures { result ≡ cost_of problem.now schema.now args.now }
{
    if !problem.metric {
        return Some(1);
    }
    match &schema.cost {
        CostTerm::Absent => Some(0),
        CostTerm::Number(n) => Some(*n),
        CostTerm::Value(a) => value_at(problem.values.as_slice(), args, a),
    }
}

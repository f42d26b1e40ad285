ghost use Rattle.std.specs.Prelude.{◌≡◌, map};
ghost use Rattle.pddl_form.specs.Fault.{Gives};
ghost use Rattle.pddl_domain.specs.Conditions.{none, two_terms, same_at, refused_not, differ_at, condition_in, conditions_at, condition_at};
ghost use Rattle.pddl_form.specs.Reserved.{count_at};
ghost use Rattle.pddl_form.specs.Sight.{headed_of, scope_of, table_of};
ghost use Rattle.pddl_domain.specs.Sight.{condition_of};

use bd_base::TextErr;
use pddl_form::{
    Headed, Scope, Table, atom_at, count_at, first_at, head_at, is_reserved, is_same, parts_into,
    term_at, unsupported,
};
use pddl_lex::Sexp;
use pddl_types::{Atom, Same};
use std::alloc::Global;

/// What a precondition states, in text order.
#[derive(Drop)]
pub struct Condition {
    pub pre: Vec<Atom>,
    pub equal: Vec<Same>,
    pub differ: Vec<Same>,
}

pub fn none(alloc: Global) -> Condition
    ensures { condition_of result ≡ none }
{
    Condition {
        pre: Vec::new(alloc),
        equal: Vec::new(alloc),
        differ: Vec::new(alloc),
    }
}

fn two_terms(
    alloc: Global,
    scope: Scope<'_, '_>,
    place: u32,
    items: &[Sexp],
) -> Result<Same, TextErr>
    ensures { Gives (λ s. s) result (two_terms (scope_of scope.entry) place items.now) }
{
    let (left, rest) = first_at(place, items)?;
    let left = term_at(alloc, scope, left)?;
    let (right, _) = first_at(place, rest)?;
    let right = term_at(alloc, scope, right)?;
    Ok(Same { left, right })
}

fn same_at(alloc: Global, scope: Scope<'_, '_>, list: Headed<'_>) -> Result<Same, TextErr>
    ensures { Gives (λ s. s) result (same_at (scope_of scope.entry) (headed_of list.entry)) }
{
    count_at(alloc, list, 2)?;
    two_terms(alloc, scope, list.place, list.items)
}

// A `not` of another list than an equation.
fn refused_not(alloc: Global, list: Headed<'_>, inner: Headed<'_>) -> Result<(), TextErr>
    ensures { Gives (λ _. tt) result (refused_not (headed_of list.entry) (headed_of inner.entry)) }
{
    if is_same(inner.head.text, b"=") {
        return Ok(());
    }
    if is_reserved(inner.head.text) {
        return unsupported(alloc, inner.place, inner.head.text);
    }
    unsupported(alloc, list.place, list.head.text)
}

#[tactic(auto, unfolding(crate::specs::Conditions::differ_at))]
fn differ_at(alloc: Global, scope: Scope<'_, '_>, list: Headed<'_>) -> Result<Same, TextErr>
    ensures { Gives (λ s. s) result (differ_at (scope_of scope.entry) (headed_of list.entry)) }
{
    count_at(alloc, list, 1)?;
    let (inner, _) = first_at(list.place, list.items)?;
    let inner = head_at(inner)?;
    refused_not(alloc, list, inner)?;
    same_at(alloc, scope, inner)
}

fn condition_in(
    alloc: Global,
    scope: Scope<'_, '_>,
    predicates: &Table<'_>,
    tree: &Sexp,
    condition: Condition,
) -> Result<Condition, TextErr>
    ensures { Gives condition_of result (condition_in (scope_of scope.entry) (table_of predicates.now) tree.now (condition_of condition)) }
{
    let Condition {
        mut pre,
        mut equal,
        mut differ,
    } = condition;
    let list = head_at(tree)?;
    if is_same(list.head.text, b"=") {
        equal.push(same_at(alloc, scope, list)?)?;
    } else if is_same(list.head.text, b"not") {
        differ.push(differ_at(alloc, scope, list)?)?;
    } else {
        pre.push(atom_at(alloc, scope, predicates, list)?)?;
    }
    Ok(Condition { pre, equal, differ })
}

fn conditions_at(
    alloc: Global,
    scope: Scope<'_, '_>,
    predicates: &Table<'_>,
    parts: &[&Sexp],
) -> Result<Condition, TextErr>
    ensures { Gives condition_of result (conditions_at (scope_of scope.entry) (table_of predicates.now) none (map (λ p. p.now) parts.now)) }
{
    let mut condition = none(alloc);
    for part in parts {
        condition = condition_in(alloc, scope, predicates, part, condition)?;
    }
    Ok(condition)
}

/// What a precondition states.
pub fn condition_at(
    alloc: Global,
    scope: Scope<'_, '_>,
    predicates: &Table<'_>,
    tree: &Sexp,
) -> Result<Condition, TextErr>
    ensures { Gives condition_of result (condition_at (scope_of scope.entry) (table_of predicates.now) tree.now) }
{
    let mut parts = Vec::new(alloc);
    parts_into(tree, &mut parts)?;
    conditions_at(alloc, scope, predicates, &parts)
}

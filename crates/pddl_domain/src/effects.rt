ghost use Rattle.std.specs.Prelude.{◌≡◌, map};
ghost use Rattle.pddl_form.specs.Fault.{Gives};
ghost use Rattle.pddl_domain.specs.Effects.{none, not_yet, total_at, amount_at, increase_at, effect_in, effects_at, effect_at};
ghost use Rattle.pddl_form.specs.Terms.{delete_at};
ghost use Rattle.pddl_form.specs.Sight.{headed_of, scope_of, table_of};
ghost use Rattle.pddl_domain.specs.Sight.{effect_of};

use bd_base::{Cause, Text, TextErr};
use pddl_form::{
    Headed, Named, Scope, Table, atom_at, count_at, delete_at, first_at, head_at, head_index,
    headed_by, is_same, number_at, parts_into, unreserved, unsupported,
};
use pddl_lex::Sexp;
use pddl_types::{Atom, CostTerm};
use std::alloc::Global;

/// What an effect states, in text order, and what it adds to the total cost.
#[derive(Drop)]
pub struct Effect {
    pub add: Vec<Atom>,
    pub del: Vec<Atom>,
    pub cost: CostTerm,
}

pub fn none(alloc: Global) -> Effect
    ensures { effect_of result ≡ none }
{
    Effect {
        add: Vec::new(alloc),
        del: Vec::new(alloc),
        cost: CostTerm::Absent,
    }
}

// The cost is increased once at most.
fn not_yet(alloc: Global, list: Headed<'_>, cost: &CostTerm) -> Result<(), TextErr>
    ensures { Gives (λ _. tt) result (not_yet (headed_of list.entry) cost.now) }
{
    match cost {
        CostTerm::Absent => Ok(()),
        CostTerm::Number(_) => {
            let cause = Cause::Clash(Text::from_slice(alloc, list.head.text)?);
            Err(TextErr::At {
                place: list.place,
                cause,
            })
        }
        CostTerm::Value(_) => {
            let cause = Cause::Clash(Text::from_slice(alloc, list.head.text)?);
            Err(TextErr::At {
                place: list.place,
                cause,
            })
        }
    }
}

// Only the total cost is increased.
#[tactic(auto, unfolding(crate::specs::Effects::total_at))]
fn total_at(alloc: Global, functions: &Table<'_>, list: Headed<'_>) -> Result<(), TextErr>
    ensures { Gives (λ _. tt) result (total_at (table_of functions.now) (headed_of list.entry)) }
{
    unreserved(alloc, list)?;
    head_index(alloc, list, functions)?;
    if is_same(list.head.text, b"total-cost") {
        count_at(alloc, list, 0)
    } else {
        unsupported(alloc, list.place, list.head.text)
    }
}

fn amount_at(
    alloc: Global,
    scope: Scope<'_, '_>,
    functions: &Table<'_>,
    tree: &Sexp,
) -> Result<CostTerm, TextErr>
    ensures { Gives (λ c. c) result (amount_at (scope_of scope.entry) (table_of functions.now) tree.now) }
{
    match tree {
        Sexp::Word { place, text } => {
            let word = Named {
                place: *place,
                text: text.as_slice(),
            };
            Ok(CostTerm::Number(number_at(alloc, word)?))
        }
        Sexp::List { place, items } => {
            let list = headed_by(*place, items.as_slice())?;
            Ok(CostTerm::Value(atom_at(alloc, scope, functions, list)?))
        }
    }
}

#[tactic(auto, unfolding(crate::specs::Effects::increase_at))]
fn increase_at(
    alloc: Global,
    scope: Scope<'_, '_>,
    functions: &Table<'_>,
    list: Headed<'_>,
    cost: &CostTerm,
) -> Result<CostTerm, TextErr>
    ensures { Gives (λ c. c) result (increase_at (scope_of scope.entry) (table_of functions.now) (headed_of list.entry) cost.now) }
{
    not_yet(alloc, list, cost)?;
    count_at(alloc, list, 2)?;
    let (total, rest) = first_at(list.place, list.items)?;
    let total = head_at(total)?;
    total_at(alloc, functions, total)?;
    let (amount, _) = first_at(list.place, rest)?;
    amount_at(alloc, scope, functions, amount)
}

fn effect_in(
    alloc: Global,
    scope: Scope<'_, '_>,
    predicates: &Table<'_>,
    functions: &Table<'_>,
    tree: &Sexp,
    effect: Effect,
) -> Result<Effect, TextErr>
    ensures { Gives effect_of result (effect_in (scope_of scope.entry) (table_of predicates.now) (table_of functions.now) tree.now (effect_of effect)) }
{
    let Effect {
        mut add,
        mut del,
        mut cost,
    } = effect;
    let list = head_at(tree)?;
    if is_same(list.head.text, b"not") {
        del.push(delete_at(alloc, scope, predicates, list)?)?;
    } else if is_same(list.head.text, b"increase") {
        cost = increase_at(alloc, scope, functions, list, &cost)?;
    } else {
        add.push(atom_at(alloc, scope, predicates, list)?)?;
    }
    Ok(Effect { add, del, cost })
}

fn effects_at(
    alloc: Global,
    scope: Scope<'_, '_>,
    predicates: &Table<'_>,
    functions: &Table<'_>,
    parts: &[&Sexp],
) -> Result<Effect, TextErr>
    ensures { Gives effect_of result (effects_at (scope_of scope.entry) (table_of predicates.now) (table_of functions.now) none (map (λ p. p.now) parts.now)) }
{
    let mut effect = none(alloc);
    for part in parts {
        effect = effect_in(alloc, scope, predicates, functions, part, effect)?;
    }
    Ok(effect)
}

/// What an effect states.
pub fn effect_at(
    alloc: Global,
    scope: Scope<'_, '_>,
    predicates: &Table<'_>,
    functions: &Table<'_>,
    tree: &Sexp,
) -> Result<Effect, TextErr>
    ensures { Gives effect_of result (effect_at (scope_of scope.entry) (table_of predicates.now) (table_of functions.now) tree.now) }
{
    let mut parts = Vec::new(alloc);
    parts_into(tree, &mut parts)?;
    effects_at(alloc, scope, predicates, functions, &parts)
}

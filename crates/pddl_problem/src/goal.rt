ghost use Rattle.std.specs.Prelude.{◌≡◌, [], map};
ghost use Rattle.std.specs.Option.{option_map};
ghost use Rattle.pddl_form.specs.Fault.{Gives};
ghost use Rattle.pddl_form.specs.Sight.{named_of, headed_of, scope_of, table_of};
ghost use Rattle.pddl_problem.specs.Goal.{goal_in, atoms_from, goal_at, direction_at, is_total, expression_at, measure_at, metric_at};

use bd_base::TextErr;
use pddl_form::{
    Headed, Named, Scope, Table, atom_at, count_at, end_at, first_at, head_at, head_index, is_same,
    parts_into, unsupported, word_at,
};
use pddl_lex::Sexp;
use pddl_types::Atom;
use std::alloc::Global;

fn goal_in(
    alloc: Global,
    scope: Scope<'_, '_>,
    predicates: &Table<'_>,
    tree: &Sexp,
) -> Result<Atom, TextErr>
    ensures { Gives (λ a. a) result (goal_in (scope_of scope.entry) (table_of predicates.now) tree.now) }
{
    let list = head_at(tree)?;
    atom_at(alloc, scope, predicates, list)
}

fn atoms_at(
    alloc: Global,
    scope: Scope<'_, '_>,
    predicates: &Table<'_>,
    parts: &[&Sexp],
) -> Result<Vec<Atom>, TextErr>
    ensures { Gives (λ v. v.items) result (atoms_from (scope_of scope.entry) (table_of predicates.now) [] (map (λ p. p.now) parts.now)) }
{
    let mut atoms = Vec::new(alloc);
    for part in parts {
        atoms.push(goal_in(alloc, scope, predicates, part)?)?;
    }
    Ok(atoms)
}

/// The atoms of the goal.
#[tactic(auto, unfolding(crate::specs::Goal::goal_at))]
pub fn goal_at(
    alloc: Global,
    scope: Scope<'_, '_>,
    predicates: &Table<'_>,
    list: Headed<'_>,
) -> Result<Vec<Atom>, TextErr>
    ensures { Gives (λ v. v.items) result (goal_at (scope_of scope.entry) (table_of predicates.now) (headed_of list.entry)) }
{
    let (goal, rest) = first_at(list.place, list.items)?;
    let mut parts = Vec::new(alloc);
    parts_into(goal, &mut parts)?;
    let atoms = atoms_at(alloc, scope, predicates, &parts)?;
    end_at(rest)?;
    Ok(atoms)
}

fn direction_at(alloc: Global, word: Named<'_>) -> Result<(), TextErr>
    ensures { Gives (λ _. tt) result (direction_at (named_of word.entry)) }
{
    if is_same(word.text, b"minimize") {
        return Ok(());
    }
    unsupported(alloc, word.place, word.text)
}

fn is_total(alloc: Global, list: Headed<'_>) -> Result<(), TextErr>
    ensures { Gives (λ _. tt) result (is_total (headed_of list.entry)) }
{
    if is_same(list.head.text, b"total-cost") {
        return Ok(());
    }
    unsupported(alloc, list.place, list.head.text)
}

#[tactic(auto, unfolding(crate::specs::Goal::expression_at))]
fn expression_at(alloc: Global, functions: &Table<'_>, tree: &Sexp) -> Result<(), TextErr>
    ensures { Gives (λ _. tt) result (expression_at (table_of functions.now) tree.now) }
{
    let list = head_at(tree)?;
    is_total(alloc, list)?;
    head_index(alloc, list, functions)?;
    count_at(alloc, list, 0)
}

#[tactic(auto, unfolding(crate::specs::Goal::measure_at))]
fn measure_at(alloc: Global, functions: &Table<'_>, list: Headed<'_>) -> Result<bool, TextErr>
    ensures { Gives (λ b. b) result (measure_at (table_of functions.now) (headed_of list.entry)) }
{
    let (word, rest) = first_at(list.place, list.items)?;
    let word = word_at(word)?;
    direction_at(alloc, word)?;
    let (expression, rest) = first_at(list.place, rest)?;
    expression_at(alloc, functions, expression)?;
    end_at(rest)?;
    Ok(true)
}

/// Whether there is a metric.
pub fn metric_at(
    alloc: Global,
    functions: &Table<'_>,
    section: Option<Headed<'_>>,
) -> Result<bool, TextErr>
    ensures { Gives (λ b. b) result (metric_at (table_of functions.now) (option_map headed_of section.entry)) }
{
    match section {
        None => Ok(false),
        Some(list) => measure_at(alloc, functions, list),
    }
}

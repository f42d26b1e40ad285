ghost use Rattle.std.specs.Prelude.{◌≡◌, ◌+◌, [], drop, length, map, nat_lt, IfOk, IsTrue};
ghost use Rattle.std.specs.Option.{option_map};
ghost use Rattle.pddl_form.specs.Fault.{Gives, Answers};
ghost use Rattle.pddl_form.specs.Sight.{headed_of, scope_of, table_of};
ghost use Rattle.pddl_form.specs.Things.{things_of};
ghost use Rattle.pddl_form.specs.Contract.{IsRead};
ghost use Rattle.pddl_problem.specs.Contract.{IsShort, IsReadFor};
ghost use Rattle.pddl_problem.specs.Known.{known_of, constants_of};
ghost use Rattle.pddl_problem.specs.Whole.{objects_from, things_behind, objects_scope, problem_of, init_at, stated_at, body_at, problem_at, over_of};
ghost use Rattle.pddl_problem.specs.Sight.{known_in, body_of};

use crate::goal::{goal_at, metric_at};
use crate::init::{Init, init_at};
use crate::known::{Known, constants_of, known_of};
use crate::outline::outline_at;
use crate::sections::Body;
use bd_base::{FromItems, Items, Limit, NoMemory, TextErr};
use pddl_form::{Headed, Names, Scope, Table, more_things, things_of};
use pddl_lex::Sexp;
use pddl_types::{Atom, Domain, Given, Problem, Thing};
use std::alloc::Global;

// The constants, and the objects behind them.
fn objects_at<'a>(
    alloc: Global,
    types: &Names,
    constants: Table<'a>,
    section: Option<Headed<'a>>,
) -> Result<Table<'a>, TextErr>
    ensures { Gives table_of result (objects_from types.now (table_of constants.entry) (option_map headed_of section.entry)) }
{
    match section {
        None => Ok(constants),
        Some(list) => more_things(alloc, types, list.place, list.items, constants),
    }
}

fn all_behind(count: usize, things: Vec<Thing>) -> Result<Vec<Thing>, NoMemory>
    ensures { IfOk result (λ v. v.items ≡ drop count things.items) }
{
    let mut things = things;
    if count > things.len() {
        things.clear();
        return Ok(things);
    }
    Ok(things.split_off(count)?)
}

// The things behind the first ones of a table.
fn things_behind(alloc: Global, count: usize, table: &Table<'_>) -> Result<Vec<Thing>, NoMemory>
    ensures { IfOk result (λ v. v.items ≡ things_behind count (table_of table.now)) }
{
    let things = things_of(alloc, table.names.as_slice(), &table.numbers)?;
    all_behind(count, things)
}

fn problem_of(
    alloc: Global,
    domain: &Domain,
    objects: &Table<'_>,
    init: (Vec<Atom>, Vec<Given>),
    goal: Vec<Atom>,
    metric: bool,
) -> Result<Problem, NoMemory>
    ensures { IfOk result (λ p. p ≡ problem_of domain.now (table_of objects.now) (init.0.items, init.1.items) goal.items metric) }
{
    let things = things_behind(alloc, domain.constants.as_slice().len(), objects)?;
    let (atoms, values) = init;
    Ok(Problem {
        objects: Items::of(things),
        init: Items::of(atoms),
        values: Items::of(values),
        goal: Items::of(goal),
        metric,
    })
}

// What holds at first, and the values.
fn stated_first(
    alloc: Global,
    known: &Known<'_>,
    scope: Scope<'_, '_>,
    list: Headed<'_>,
) -> Result<(Vec<Atom>, Vec<Given>), TextErr>
    ensures { Gives (λ s. (s.0.items, s.1.items)) result (init_at (known_in known.now) (scope_of scope.entry) (headed_of list.entry)) }
{
    let Init { atoms, values, .. } = init_at(
        alloc,
        scope,
        &known.predicates,
        &known.functions,
        list.items,
    )?;
    Ok((atoms, values))
}

#[tactic(auto, unfolding(crate::specs::Whole::stated_at))]
fn stated_at(
    alloc: Global,
    domain: &Domain,
    known: &Known<'_>,
    scope: Scope<'_, '_>,
    objects: &Table<'_>,
    body: Body<'_>,
) -> Result<Problem, TextErr>
    ensures { Gives (λ p. p) result (stated_at domain.now (known_in known.now) (scope_of scope.entry) (table_of objects.now) (body_of body.entry)) }
{
    let init = stated_first(alloc, known, scope, body.init)?;
    let goal = goal_at(alloc, scope, &known.predicates, body.goal)?;
    let metric = metric_at(alloc, &known.functions, body.metric)?;
    Ok(problem_of(alloc, domain, objects, init, goal, metric)?)
}

fn of_objects(
    alloc: Global,
    domain: &Domain,
    known: &Known<'_>,
    objects: &Table<'_>,
    body: Body<'_>,
) -> Result<Problem, TextErr>
    ensures { Gives (λ p. p) result (stated_at domain.now (known_in known.now) (objects_scope (table_of objects.now)) (table_of objects.now) (body_of body.entry)) }
{
    let none = Names::new(alloc);
    let scope = Scope {
        params: &none,
        objects: &objects.names,
    };
    stated_at(alloc, domain, known, scope, objects, body)
}

fn body_at<'a>(
    alloc: Global,
    domain: &Domain,
    known: &Known<'a>,
    constants: Table<'a>,
    body: Body<'a>,
) -> Result<Problem, TextErr>
    ensures { Gives (λ p. p) result (body_at domain.now (known_in known.now) (table_of constants.entry) (body_of body.entry)) }
{
    let objects = objects_at(alloc, &known.types, constants, body.objects)?;
    of_objects(alloc, domain, known, &objects, body)
}

fn with_known<'a>(alloc: Global, domain: &'a Domain, body: Body<'a>) -> Result<Problem, TextErr>
    ensures { Gives (λ p. p) result (body_at domain.now (known_of domain.now) (constants_of domain.now) (body_of body.entry)) }
{
    let known = known_of(alloc, domain)?;
    let constants = constants_of(alloc, domain)?;
    body_at(alloc, domain, &known, constants, body)
}

fn problem_at<'a>(alloc: Global, domain: &'a Domain, tree: &'a Sexp) -> Result<Problem, TextErr>
    ensures { Gives (λ p. p) result (problem_at domain.now tree.now) }
{
    let body = outline_at(alloc, tree)?;
    with_known(alloc, domain, body)
}

// No text of at most 16 MiB states as much.
fn is_short(problem: &Problem) -> bool
    ensures { IsTrue result → IsShort problem.now }
{
    if problem.init.as_slice().len() >= 0x7fff_ffff {
        return false;
    }
    if problem.goal.as_slice().len() >= 0x7fff_ffff {
        return false;
    }
    problem.values.as_slice().len() < 0x7fff_ffff
}

fn read_within(alloc: Global, domain: &Domain, tree: &Sexp) -> Result<Problem, TextErr>
    ensures first { Answers (over_of domain.now) result (problem_at domain.now tree.now) }
    ensures short { IfOk result IsShort }
{
    let problem = problem_at(alloc, domain, tree)?;
    if domain.constants.as_slice().len() + problem.objects.as_slice().len() > 65_536 {
        return Err(TextErr::Over {
            limit: Limit::Objects,
            count: 65_537,
        });
    }
    if !is_short(&problem) {
        return Err(TextErr::NoMemory);
    }
    Ok(problem)
}

/// The problem for the domain that a tree is.
pub fn read_problem(alloc: Global, domain: &Domain, tree: &Sexp) -> Result<Problem, TextErr>
    // The problem within the limit, the limit where it is passed, or the first fault.
    ensures first { Answers (over_of domain.now) result (problem_at domain.now tree.now) }
    // What its takers need of it, where the domain was read.
    ensures read { IfOk result (λ p. IsRead domain.now → IsReadFor domain.now p) }
{
    read_within(alloc, domain, tree)
}

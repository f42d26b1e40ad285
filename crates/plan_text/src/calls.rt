ghost use Rattle.std.specs.Prelude.{◌≡◌, ◌≤◌, [], ℕ, List, length, map, IfOk};
ghost use Rattle.pddl_lex.specs.Reading.{trees_in};
ghost use Rattle.pddl_form.specs.Fault.{Gives, Answers};
ghost use Rattle.pddl_form.specs.Sight.{table_of};
ghost use Rattle.pddl_form.specs.Names.{names_from};
ghost use Rattle.pddl_types.specs.declared.domains.Domain.{Domain};
ghost use Rattle.pddl_types.specs.declared.problems.Problem.{Problem};
ghost use Rattle.pddl_types.specs.declared.calls.Call.{Call};
ghost use Rattle.plan_text.specs.Spells.{SpellsPlan, Spelled};
ghost use Rattle.plan_text.specs.Calls.{actions_of, objects_of, arg_at, args_from, call_at, calls_from, listed, plan_at, over_of};

use bd_base::{Cause, FromItems, Items, Limit, NoMemory, Text, TextErr};
use pddl_form::{Names, Table, arity_fits, head_at, head_index, word_at};
use pddl_lex::{LexErr, Sexp, read_trees};
use pddl_types::{Call, Domain, Problem, Schema, Thing};
use std::alloc::Global;

fn schema_names(alloc: Global, schemas: &[Schema]) -> Result<Names<'_>, NoMemory>
    ensures { IfOk result (λ n. n ≡ names_from [] (map (λ s. s.name) schemas.now)) }
{
    let mut names = Names::new(alloc);
    for s in schemas {
        names.declare(s.name.as_slice())?;
    }
    Ok(names)
}

fn param_counts(alloc: Global, schemas: &[Schema]) -> Result<Vec<u32>, NoMemory>
    ensures { IfOk result (λ v. v.items ≡ map (λ s. length s.params) schemas.now) }
{
    let mut counts = Vec::new(alloc);
    for s in schemas {
        let count = s.params.as_slice().len();
        if count > 0xffff_ffff {
            return Err(NoMemory);
        }
        counts.push(count as u32)?;
    }
    Ok(counts)
}

fn actions_of(alloc: Global, domain: &Domain) -> Result<Table<'_>, NoMemory>
    ensures { IfOk result (λ t. table_of t ≡ actions_of domain.now) }
{
    let names = schema_names(alloc, domain.schemas.as_slice())?;
    let numbers = param_counts(alloc, domain.schemas.as_slice())?;
    Ok(Table { names, numbers })
}

fn add_names<'a>(names: Names<'a>, things: &'a [Thing]) -> Result<Names<'a>, NoMemory>
    ensures { IfOk result (λ n. n ≡ names_from names.entry (map (λ t. t.name) things.now)) }
{
    let mut names = names;
    for t in things {
        names.declare(t.name.as_slice())?;
    }
    Ok(names)
}

fn objects_of<'a>(
    alloc: Global,
    domain: &'a Domain,
    problem: &'a Problem,
) -> Result<Names<'a>, NoMemory>
    ensures { IfOk result (λ n. n ≡ objects_of domain.now problem.now) }
{
    let names = add_names(Names::new(alloc), domain.constants.as_slice())?;
    add_names(names, problem.objects.as_slice())
}

fn arg_at(alloc: Global, objects: &Names, tree: &Sexp) -> Result<Text, TextErr>
    ensures { Gives (λ t. t) result (arg_at objects.now tree.now) }
{
    let word = word_at(tree)?;
    match objects.place(word.text) {
        Some(_) => Ok(Text::from_slice(alloc, word.text)?),
        None => {
            let cause = Cause::Unknown(Text::from_slice(alloc, word.text)?);
            Err(TextErr::At {
                place: word.place,
                cause,
            })
        }
    }
}

fn args_at(alloc: Global, objects: &Names, items: &[Sexp]) -> Result<Items<Text>, TextErr>
    ensures { Gives (λ v. v) result (args_from objects.now [] items.now) }
{
    let mut args = Vec::new(alloc);
    for item in items {
        args.push(arg_at(alloc, objects, item)?)?;
    }
    Ok(Items::of(args))
}

#[tactic(auto, unfolding(crate::specs::Calls::call_at))]
fn call_at(
    alloc: Global,
    actions: &Table<'_>,
    objects: &Names,
    tree: &Sexp,
) -> Result<Call, TextErr>
    ensures { Gives (λ c. c) result (call_at (table_of actions.now) objects.now tree.now) }
{
    let list = head_at(tree)?;
    let head = head_index(alloc, list, actions)?;
    arity_fits(alloc, list, actions.numbers.get(head as usize))?;
    let args = args_at(alloc, objects, list.items)?;
    let name = Text::from_slice(alloc, list.head.text)?;
    Ok(Call {
        place: list.place,
        name,
        args,
    })
}

fn calls_at(
    alloc: Global,
    actions: &Table<'_>,
    objects: &Names,
    trees: &[Sexp],
) -> Result<Vec<Call>, TextErr>
    ensures { Gives (λ v. v.items) result (calls_from (table_of actions.now) objects.now [] trees.now) }
{
    let mut calls = Vec::new(alloc);
    for tree in trees {
        calls.push(call_at(alloc, actions, objects, tree)?)?;
    }
    Ok(calls)
}

fn trees_at(alloc: Global, text: &[u8]) -> Result<Vec<Sexp>, TextErr>
    requires { length text.now ≤ 16_777_216 }
    ensures { Gives (λ v. v.items) result (listed (trees_in text.now)) }
{
    match read_trees(alloc, text) {
        Ok(trees) => Ok(trees),
        Err(LexErr::Bad(place)) => Err(TextErr::At {
            place,
            cause: Cause::Bad,
        }),
        Err(LexErr::Unclosed(place)) => Err(TextErr::At {
            place,
            cause: Cause::Unclosed,
        }),
        Err(LexErr::Extra(place)) => Err(TextErr::At {
            place,
            cause: Cause::Extra,
        }),
        Err(LexErr::TooDeep(place)) => Err(TextErr::At {
            place,
            cause: Cause::TooDeep,
        }),
        Err(LexErr::NoMemory) => Err(TextErr::NoMemory),
    }
}

fn plan_at(
    alloc: Global,
    domain: &Domain,
    problem: &Problem,
    text: &[u8],
) -> Result<Vec<Call>, TextErr>
    requires { length text.now ≤ 16_777_216 }
    ensures { Gives (λ v. v.items) result (plan_at domain.now problem.now text.now) }
{
    let trees = trees_at(alloc, text)?;
    let actions = actions_of(alloc, domain)?;
    let objects = objects_of(alloc, domain, problem)?;
    calls_at(alloc, &actions, &objects, &trees)
}

fn read_within(
    alloc: Global,
    domain: &Domain,
    problem: &Problem,
    text: &[u8],
) -> Result<Items<Call>, TextErr>
    requires { length text.now ≤ 16_777_216 }
    ensures { Answers over_of result (plan_at domain.now problem.now text.now) }
{
    let calls = plan_at(alloc, domain, problem, text)?;
    if calls.len() > 2_000 {
        return Err(TextErr::Over {
            limit: Limit::Steps,
            count: 2_001,
        });
    }
    Ok(Items::of(calls))
}

/// The calls that a plan's text lists.
pub fn read_plan(
    alloc: Global,
    domain: &Domain,
    problem: &Problem,
    text: &[u8],
) -> Result<Items<Call>, TextErr>
    requires { length text.now ≤ 16_777_216 }
    // Each answer comes exactly where the text spells so.
    ensures spelled { Spelled domain.now problem.now text.now result }
    // The calls within the limit, the limit where it is passed, or the first fault.
    ensures first { Answers over_of result (plan_at domain.now problem.now text.now) }
{
    read_within(alloc, domain, problem, text)
}

/// No text spells two plans.
pub fn one_plan()
    ensures { (d : Domain) (p : Problem) (text : List ℕ) (a b : List Call) → SpellsPlan d p text a → SpellsPlan d p text b → a ≡ b }
{}

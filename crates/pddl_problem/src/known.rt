ghost use Rattle.std.specs.Prelude.{◌≡◌, [], map, IfOk};
ghost use Rattle.pddl_form.specs.Sight.{table_of};
ghost use Rattle.pddl_form.specs.Names.{names_from};
ghost use Rattle.pddl_problem.specs.Known.{constants_of, heads_of, known_of};
ghost use Rattle.pddl_problem.specs.Sight.{known_in};

use bd_base::NoMemory;
use pddl_form::{Names, Table};
use pddl_types::{Domain, Head, Thing, TypeDecl};
use std::alloc::Global;

/// What a problem finds in its domain, by name.
#[derive(Drop)]
pub struct Known<'a> {
    pub types: Names<'a>,
    pub predicates: Table<'a>,
    pub functions: Table<'a>,
}

fn type_names(alloc: Global, types: &[TypeDecl]) -> Result<Names<'_>, NoMemory>
    ensures { IfOk result (λ n. n ≡ names_from [] (map (λ t. t.name) types.now)) }
{
    let mut names = Names::new(alloc);
    for t in types {
        names.declare(t.name.as_slice())?;
    }
    Ok(names)
}

fn thing_names(alloc: Global, things: &[Thing]) -> Result<Names<'_>, NoMemory>
    ensures { IfOk result (λ n. n ≡ names_from [] (map (λ t. t.name) things.now)) }
{
    let mut names = Names::new(alloc);
    for t in things {
        names.declare(t.name.as_slice())?;
    }
    Ok(names)
}

fn head_names(alloc: Global, heads: &[Head]) -> Result<Names<'_>, NoMemory>
    ensures { IfOk result (λ n. n ≡ names_from [] (map (λ h. h.name) heads.now)) }
{
    let mut names = Names::new(alloc);
    for h in heads {
        names.declare(h.name.as_slice())?;
    }
    Ok(names)
}

fn kinds_of(alloc: Global, things: &[Thing]) -> Result<Vec<u32>, NoMemory>
    ensures { IfOk result (λ v. v.items ≡ map (λ t. t.kind) things.now) }
{
    let mut kinds = Vec::new(alloc);
    for t in things {
        kinds.push(t.kind)?;
    }
    Ok(kinds)
}

fn arities_of(alloc: Global, heads: &[Head]) -> Result<Vec<u32>, NoMemory>
    ensures { IfOk result (λ v. v.items ≡ map (λ h. h.arity) heads.now) }
{
    let mut arities = Vec::new(alloc);
    for h in heads {
        arities.push(h.arity)?;
    }
    Ok(arities)
}

fn heads_of(alloc: Global, heads: &[Head]) -> Result<Table<'_>, NoMemory>
    ensures { IfOk result (λ t. table_of t ≡ heads_of heads.now) }
{
    let names = head_names(alloc, heads)?;
    let numbers = arities_of(alloc, heads)?;
    Ok(Table { names, numbers })
}

pub fn constants_of(alloc: Global, domain: &Domain) -> Result<Table<'_>, NoMemory>
    ensures { IfOk result (λ t. table_of t ≡ constants_of domain.now) }
{
    let names = thing_names(alloc, domain.constants.as_slice())?;
    let numbers = kinds_of(alloc, domain.constants.as_slice())?;
    Ok(Table { names, numbers })
}

pub fn known_of(alloc: Global, domain: &Domain) -> Result<Known<'_>, NoMemory>
    ensures { IfOk result (λ k. known_in k ≡ known_of domain.now) }
{
    let types = type_names(alloc, domain.types.as_slice())?;
    let predicates = heads_of(alloc, domain.predicates.as_slice())?;
    let functions = heads_of(alloc, domain.functions.as_slice())?;
    Ok(Known {
        types,
        predicates,
        functions,
    })
}

ghost use Rattle.std.specs.Prelude.{◌≡◌, nat_lt, length, map, IfOk};
ghost use Rattle.std.specs.List.{list_any};
ghost use Rattle.pddl_form.specs.Fault.{Gives, Answers};
ghost use Rattle.pddl_domain.specs.Whole.{types_of, domain_of, with_actions, domain_at, over_of};
ghost use Rattle.pddl_form.specs.Things.{things_of, heads_of};
ghost use Rattle.pddl_form.specs.Contract.{IsRead};
ghost use Rattle.pddl_domain.specs.Sight.{declared_of};

use crate::actions::actions_at;
use crate::reading::{Declared, declared_at};
use bd_base::{FromItems, Items, Limit, NoMemory, Text, TextErr};
use pddl_form::{heads_of, things_of};
use pddl_lex::Sexp;
use pddl_types::{Domain, Schema, TypeDecl};
use std::alloc::Global;

fn parent_or_object(parent: Option<u32>) -> u32
    ensures { result ≡ Rattle.pddl_domain.specs.Whole.parent_or_object parent }
{
    match parent {
        None => 0,
        Some(k) => k,
    }
}

fn types_of(
    alloc: Global,
    names: &[&[u8]],
    parents: &[Option<u32>],
) -> Result<Vec<TypeDecl>, NoMemory>
    ensures { IfOk result (λ v. v.items ≡ types_of (map (λ n. n.now) names.now) parents.now) }
{
    let mut types = Vec::new(alloc);
    let mut parents = parents;
    for name in names {
        match parents.split_first() {
            None => return Ok(types),
            Some((parent, others)) => {
                parents = others;
                let name = Text::from_slice(alloc, name)?;
                let parent = parent_or_object(*parent);
                types.push(TypeDecl { name, parent })?;
            }
        }
    }
    Ok(types)
}

fn domain_of(
    alloc: Global,
    declared: &Declared<'_>,
    schemas: Vec<Schema>,
) -> Result<Domain, NoMemory>
    ensures { IfOk result (λ d. d ≡ domain_of (declared_of declared.now) schemas.items) }
{
    let types = types_of(
        alloc,
        declared.types.names.as_slice(),
        &declared.types.parents,
    )?;
    let constants = things_of(
        alloc,
        declared.constants.names.as_slice(),
        &declared.constants.numbers,
    )?;
    let predicates = heads_of(
        alloc,
        declared.predicates.names.as_slice(),
        &declared.predicates.numbers,
    )?;
    let functions = heads_of(
        alloc,
        declared.functions.names.as_slice(),
        &declared.functions.numbers,
    )?;
    Ok(Domain {
        types: Items::of(types),
        constants: Items::of(constants),
        predicates: Items::of(predicates),
        functions: Items::of(functions),
        schemas: Items::of(schemas),
    })
}

// The domain with its actions.
fn with_actions(alloc: Global, declared: &Declared<'_>) -> Result<Domain, TextErr>
    ensures { Gives (λ d. d) result (with_actions (declared_of declared.now)) }
{
    let schemas = actions_at(alloc, declared)?;
    Ok(domain_of(alloc, declared, schemas)?)
}

fn domain_at(alloc: Global, tree: &Sexp) -> Result<Domain, TextErr>
    ensures { Gives (λ d. d) result (domain_at tree.now) }
{
    let declared = declared_at(alloc, tree)?;
    with_actions(alloc, &declared)
}

fn has_many(schemas: &[Schema]) -> bool
    ensures { result ≡ list_any (λ s. nat_lt 16 (length s.params)) schemas.now }
{
    schemas.iter().any(|s| s.params.as_slice().len() > 16)
}

fn read_within(alloc: Global, tree: &Sexp) -> Result<Domain, TextErr>
    ensures { Answers over_of result (domain_at tree.now) }
{
    let domain = domain_at(alloc, tree)?;
    if has_many(domain.schemas.as_slice()) {
        return Err(TextErr::Over {
            limit: Limit::Parameters,
            count: 17,
        });
    }
    Ok(domain)
}

/// The domain that a tree is.
pub fn read_domain(alloc: Global, tree: &Sexp) -> Result<Domain, TextErr>
    // The domain within the limit, the limit where it is passed, or the first fault.
    ensures first { Answers over_of result (domain_at tree.now) }
    // What its takers need of it.
    ensures read { IfOk result IsRead }
{
    read_within(alloc, tree)
}

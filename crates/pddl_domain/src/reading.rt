ghost use Rattle.std.specs.Prelude.{◌≡◌, false};
ghost use Rattle.pddl_form.specs.Groups.{groups};
ghost use Rattle.std.specs.Option.{option_map};
ghost use Rattle.pddl_form.specs.Fault.{Gives};
ghost use Rattle.pddl_domain.specs.Domain.{types_section, things_section, predicates_section, functions_section, declared_at};
ghost use Rattle.pddl_form.specs.Sight.{headed_of, left, table_of};
ghost use Rattle.pddl_domain.specs.Sight.{types_of, declared_of};

use crate::heads::{functions_at, predicates_at};
use crate::outline::outline_at;
use crate::sections::Sections;
use crate::type_table::Types;
use crate::types::types_at;
use bd_base::TextErr;
use pddl_form::{Groups, Headed, Names, Table, things_at};
use pddl_lex::Sexp;
use std::alloc::Global;

/// What a domain declares before its actions, and its actions.
#[derive(Drop)]
pub struct Declared<'a> {
    pub types: Types<'a>,
    pub constants: Table<'a>,
    pub predicates: Table<'a>,
    pub functions: Table<'a>,
    pub actions: Vec<Headed<'a>>,
}

fn names_of(section: Headed<'_>) -> Groups<'_>
    ensures { left result ≡ groups false section.entry.place section.entry.items.now }
{
    Groups {
        variables: false,
        place: section.place,
        items: section.items,
    }
}

fn types_section<'a>(alloc: Global, section: Option<Headed<'a>>) -> Result<Types<'a>, TextErr>
    ensures { Gives types_of result (types_section (option_map headed_of section.entry)) }
{
    match section {
        None => Ok(Types::new(alloc)?),
        Some(section) => types_at(alloc, names_of(section)),
    }
}

fn things_section<'a>(
    alloc: Global,
    types: &Names,
    section: Option<Headed<'a>>,
) -> Result<Table<'a>, TextErr>
    ensures { Gives table_of result (things_section types.now (option_map headed_of section.entry)) }
{
    match section {
        None => Ok(Table::new(alloc)),
        Some(section) => things_at(alloc, types, section.place, section.items),
    }
}

fn predicates_section<'a>(alloc: Global, section: Option<Headed<'a>>) -> Result<Table<'a>, TextErr>
    ensures { Gives table_of result (predicates_section (option_map headed_of section.entry)) }
{
    match section {
        None => Ok(Table::new(alloc)),
        Some(section) => predicates_at(alloc, section.items),
    }
}

fn functions_section<'a>(alloc: Global, section: Option<Headed<'a>>) -> Result<Table<'a>, TextErr>
    ensures { Gives table_of result (functions_section (option_map headed_of section.entry)) }
{
    match section {
        None => Ok(Table::new(alloc)),
        Some(section) => functions_at(alloc, section.place, section.items),
    }
}

/// What a domain declares before its actions.
#[tactic(auto, unfolding(crate::specs::Domain::declared_at))]
pub fn declared_at(alloc: Global, tree: &Sexp) -> Result<Declared<'_>, TextErr>
    ensures { Gives declared_of result (declared_at tree.now) }
{
    let Sections {
        types,
        constants,
        predicates,
        functions,
        actions,
        ..
    } = outline_at(alloc, tree)?;
    let types = types_section(alloc, types)?;
    let constants = things_section(alloc, &types.names, constants)?;
    let predicates = predicates_section(alloc, predicates)?;
    let functions = functions_section(alloc, functions)?;
    Ok(Declared {
        types,
        constants,
        predicates,
        functions,
        actions,
    })
}

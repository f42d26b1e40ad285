ghost use Rattle.std.specs.Prelude.{◌≡◌, map, false};
ghost use Rattle.pddl_form.specs.Groups.{groups};
ghost use Rattle.pddl_form.specs.Spells.{SpellsThings};
ghost use Rattle.std.specs.Option.{option_map};
ghost use Rattle.pddl_form.specs.Fault.{Gives, Says};
ghost use Rattle.pddl_form.specs.Things.{no_rows, put_thing, put_things, kind_at, thing_group, things_from};
ghost use Rattle.pddl_form.specs.Sight.{named_of, group_of, left, table_of};

use crate::groups::{Group, Groups};
use crate::names::Names;
use crate::table::{Table, with_row};
use crate::words::Named;
use bd_base::{Cause, Text, TextErr};
use pddl_lex::Sexp;
use std::alloc::Global;

#[tactic(auto, unfolding(crate::specs::Things::put_thing))]
fn put_thing<'a>(
    alloc: Global,
    name: Named<'a>,
    kind: u32,
    table: Table<'a>,
) -> Result<Table<'a>, TextErr>
    ensures { Gives table_of result (put_thing (named_of name.entry) kind (table_of table.entry)) }
{
    match table.names.place(name.text) {
        None => Ok(with_row(name.text, kind, table)?),
        Some(i) => {
            if table.numbers.get(i as usize) == Some(&kind) {
                return Ok(table);
            }
            let cause = Cause::Clash(Text::from_slice(alloc, name.text)?);
            Err(TextErr::At {
                place: name.place,
                cause,
            })
        }
    }
}

fn put_things<'a>(
    alloc: Global,
    kind: u32,
    names: &[Named<'a>],
    table: Table<'a>,
) -> Result<Table<'a>, TextErr>
    ensures { Gives table_of result (put_things kind (map named_of names.now) (table_of table.entry)) }
{
    let mut table = table;
    for name in names {
        table = put_thing(alloc, *name, kind, table)?;
    }
    Ok(table)
}

pub fn kind_at(alloc: Global, types: &Names, kind: Option<Named<'_>>) -> Result<u32, TextErr>
    ensures { Gives (λ k. k) result (kind_at types.now (option_map named_of kind.entry)) }
{
    match kind {
        None => Ok(0),
        Some(name) => match types.place(name.text) {
            Some(k) => Ok(k),
            None => {
                let cause = Cause::Unknown(Text::from_slice(alloc, name.text)?);
                Err(TextErr::At {
                    place: name.place,
                    cause,
                })
            }
        },
    }
}

fn thing_group<'a>(
    alloc: Global,
    types: &Names,
    group: &Group<'a>,
    table: Table<'a>,
) -> Result<Table<'a>, TextErr>
    ensures { Gives table_of result (thing_group types.now (group_of group.now) (table_of table.entry)) }
{
    let kind = kind_at(alloc, types, group.kind)?;
    put_things(alloc, kind, &group.names, table)
}

/// The things of a typed list of names, the items of the list at the place.
pub fn things_at<'a>(
    alloc: Global,
    types: &Names,
    place: u32,
    items: &'a [Sexp],
) -> Result<Table<'a>, TextErr>
    ensures spelled { Says table_of (SpellsThings types.now items.now) result }
    ensures first { Gives table_of result (things_from types.now no_rows (groups false place items.now)) }
{
    more_things(alloc, types, place, items, Table::new(alloc))
}

/// The things of a typed list of names behind those of a table.
pub fn more_things<'a>(
    alloc: Global,
    types: &Names,
    place: u32,
    items: &'a [Sexp],
    table: Table<'a>,
) -> Result<Table<'a>, TextErr>
    ensures { Gives table_of result (things_from types.now (table_of table.entry) (groups false place items.now)) }
{
    let list = Groups {
        variables: false,
        place,
        items,
    };
    read_things(alloc, types, list, table)
}

fn read_things<'a>(
    alloc: Global,
    types: &Names,
    list: Groups<'a>,
    table: Table<'a>,
) -> Result<Table<'a>, TextErr>
    ensures { Gives table_of result (things_from types.now (table_of table.entry) (left list.entry)) }
{
    let mut table = table;
    let mut rest = list;
    while let Some((group, after)) = rest.next(alloc)? {
        table = thing_group(alloc, types, &group, table)?;
        rest = after;
    }
    Ok(table)
}

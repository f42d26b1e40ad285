ghost use Rattle.std.specs.Prelude.{◌≡◌, IfOk, false};
ghost use Rattle.std.specs.Option.{option_map};
ghost use Rattle.pddl_form.specs.Fault.{Gives};
ghost use Rattle.pddl_form.specs.Things.{no_rows};
ghost use Rattle.pddl_domain.specs.Params.{is_fresh, settle, settled_at, param_at, params_from, params_at};
ghost use Rattle.pddl_form.specs.Sight.{table_of};

use bd_base::{NoMemory, TextErr};
use pddl_form::{
    Names, Table, declare, is_word, kind_at, list_at, must, place_at, type_at, variable_at,
};
use pddl_lex::Sexp;
use std::alloc::Global;

fn is_fresh(table: &Table<'_>) -> bool
    ensures { result ≡ is_fresh (table_of table.now) }
{
    table.numbers.len() < table.names.len() as usize
}

// Each name without a type gets this one.
fn settle<'a>(kind: u32, table: Table<'a>) -> Result<Table<'a>, NoMemory>
    ensures { IfOk result (λ t. table_of t ≡ settle kind (table_of table.entry)) }
{
    let Table { names, mut numbers } = table;
    numbers.resize(names.len() as usize, kind)?;
    Ok(Table { names, numbers })
}

fn settled_at<'a>(
    alloc: Global,
    types: &Names,
    tree: &Sexp,
    table: Table<'a>,
) -> Result<Table<'a>, TextErr>
    ensures { Gives table_of result (settled_at types.now tree.now (table_of table.entry)) }
{
    let kind = type_at(alloc, tree)?;
    let kind = kind_at(alloc, types, Some(kind))?;
    Ok(settle(kind, table)?)
}

fn param_at<'a>(alloc: Global, tree: &'a Sexp, table: Table<'a>) -> Result<Table<'a>, TextErr>
    ensures { Gives table_of result (param_at tree.now (table_of table.entry)) }
{
    let Table { mut names, numbers } = table;
    let name = variable_at(tree)?;
    declare(alloc, name, &mut names)?;
    Ok(Table { names, numbers })
}

fn params_from<'a>(
    alloc: Global,
    types: &Names,
    place: u32,
    items: &'a [Sexp],
) -> Result<Table<'a>, TextErr>
    ensures { Gives table_of result (params_from types.now place false no_rows items.now) }
{
    let mut table = Table::new(alloc);
    let mut waiting = false;
    for item in items {
        if waiting {
            table = settled_at(alloc, types, item, table)?;
            waiting = false;
        } else if is_word(b"-", item) {
            must(is_fresh(&table), place_at(item))?;
            waiting = true;
        } else {
            table = param_at(alloc, item, table)?;
        }
    }
    must(!waiting, place)?;
    Ok(settle(0, table)?)
}

/// The parameters of an action, with the numbers of their types.
pub fn params_at<'a>(
    alloc: Global,
    types: &Names,
    field: Option<&'a Sexp>,
) -> Result<Table<'a>, TextErr>
    ensures { Gives table_of result (params_at types.now (option_map (λ x. x.now) field.entry)) }
{
    match field {
        None => Ok(Table::new(alloc)),
        Some(tree) => {
            let (place, items) = list_at(tree)?;
            params_from(alloc, types, place, items)
        }
    }
}

ghost use Rattle.std.specs.Prelude.{◌≡◌, IfOk, None};
ghost use Rattle.pddl_form.specs.Names.{place_of};
ghost use Rattle.pddl_form.specs.Things.{no_rows, with_row};
ghost use Rattle.pddl_form.specs.Sight.{table_of};

use crate::names::Names;
use bd_base::NoMemory;
use std::alloc::Global;

/// Names in the order in which they were declared, each with a number.
#[derive(Drop)]
pub struct Table<'a> {
    pub names: Names<'a>,
    pub numbers: Vec<u32>,
}

impl<'a> Table<'a> {
    pub fn new(alloc: Global) -> Table<'a>
        ensures { table_of result ≡ no_rows }
    {
        Table {
            names: Names::new(alloc),
            numbers: Vec::new(alloc),
        }
    }
}

/// One more row, of a name that none before it has.
pub fn with_row<'a>(name: &'a [u8], number: u32, table: Table<'a>) -> Result<Table<'a>, NoMemory>
    requires { place_of name.now table.names ≡ None }
    ensures { IfOk result (λ t. table_of t ≡ with_row name.now number (table_of table.entry)) }
{
    let Table {
        mut names,
        mut numbers,
    } = table;
    names.add(name)?;
    numbers.push(number)?;
    Ok(Table { names, numbers })
}

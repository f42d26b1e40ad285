ghost use Rattle.std.specs.Prelude.{◌≡◌, ◌+◌, IfOk, length, codes, false};
ghost use Rattle.pddl_form.specs.Fault.{Gives, Says};
ghost use Rattle.pddl_domain.specs.Spells.{SpellsPredicates};
ghost use Rattle.pddl_form.specs.Things.{no_rows};
ghost use Rattle.pddl_form.specs.Reserved.{is_reserved, unreserved, declare_at, unsupported};
ghost use Rattle.pddl_domain.specs.Heads.{count_from, declaration_at, predicate_in, predicates_at, fits_total, function_in, number_type_at, functions_from};
ghost use Rattle.pddl_form.specs.Sight.{named_of, headed_of, left, table_of};

use bd_base::{Cause, NoMemory, Text, TextErr};
use pddl_form::{
    Groups, Headed, Names, Table, declare, head_at, is_either, is_name, is_same, is_word, must,
    place_at, unreserved, unsupported, word_at,
};
use pddl_lex::Sexp;
use std::alloc::Global;

// No text of at most 16 MiB has as many words.
fn more(count: u32, names: usize) -> Result<u32, NoMemory>
    ensures { IfOk result (λ n. n ≡ count + names) }
{
    if names > (u32::MAX - count) as usize {
        return Err(NoMemory);
    }
    Ok(count + names as u32)
}

fn count_at(alloc: Global, list: Groups<'_>) -> Result<u32, TextErr>
    ensures { Gives (λ n. n) result (count_from 0 (left list.entry)) }
{
    let mut count = 0;
    let mut rest = list;
    while let Some((group, after)) = rest.next(alloc)? {
        count = more(count, group.names.len())?;
        rest = after;
    }
    Ok(count)
}

#[tactic(auto, unfolding(crate::specs::Heads::declaration_at))]
fn declaration_at<'a>(
    alloc: Global,
    names: &mut Names<'a>,
    tree: &'a Sexp,
) -> Result<(Headed<'a>, u32), TextErr>
    ensures { Gives (λ d. ((headed_of d.0, d.1), names.new)) result (declaration_at names.old tree.now) }
{
    let list = head_at(tree)?;
    unreserved(alloc, list)?;
    must(is_name(list.head.text), list.head.place)?;
    declare(alloc, list.head, names)?;
    let variables = Groups {
        variables: true,
        place: list.place,
        items: list.items,
    };
    let arity = count_at(alloc, variables)?;
    Ok((list, arity))
}

fn predicate_in<'a>(alloc: Global, tree: &'a Sexp, table: Table<'a>) -> Result<Table<'a>, TextErr>
    ensures { Gives table_of result (predicate_in tree.now (table_of table.entry)) }
{
    let Table {
        mut names,
        mut numbers,
    } = table;
    let (_, arity) = declaration_at(alloc, &mut names, tree)?;
    numbers.push(arity)?;
    Ok(Table { names, numbers })
}

/// The predicates that the items declare.
pub fn predicates_at<'a>(alloc: Global, items: &'a [Sexp]) -> Result<Table<'a>, TextErr>
    ensures spelled { Says table_of (SpellsPredicates items.now) result }
    ensures first { Gives table_of result (predicates_at no_rows items.now) }
{
    read_predicates(alloc, items)
}

fn read_predicates<'a>(alloc: Global, items: &'a [Sexp]) -> Result<Table<'a>, TextErr>
    ensures { Gives table_of result (predicates_at no_rows items.now) }
{
    let mut table = Table::new(alloc);
    for item in items {
        table = predicate_in(alloc, item, table)?;
    }
    Ok(table)
}

// `total-cost` has no arguments.
fn fits_total(alloc: Global, list: Headed<'_>, arity: u32) -> Result<(), TextErr>
    ensures { Gives (λ _. tt) result (fits_total (headed_of list.entry) arity) }
{
    if is_same(list.head.text, b"total-cost") && arity != 0 {
        let cause = Cause::Arity(Text::from_slice(alloc, list.head.text)?);
        return Err(TextErr::At {
            place: list.place,
            cause,
        });
    }
    Ok(())
}

fn function_in<'a>(alloc: Global, tree: &'a Sexp, table: Table<'a>) -> Result<Table<'a>, TextErr>
    ensures { Gives table_of result (function_in tree.now (table_of table.entry)) }
{
    let Table {
        mut names,
        mut numbers,
    } = table;
    let (list, arity) = declaration_at(alloc, &mut names, tree)?;
    fits_total(alloc, list, arity)?;
    numbers.push(arity)?;
    Ok(Table { names, numbers })
}

// The type of a function is `number`.
fn number_type_at(alloc: Global, tree: &Sexp) -> Result<(), TextErr>
    ensures { Gives (λ _. tt) result (number_type_at tree.now) }
{
    if is_either(tree) {
        return unsupported(alloc, place_at(tree), b"either");
    }
    let word = word_at(tree)?;
    if is_same(word.text, b"number") {
        return Ok(());
    }
    unsupported(alloc, word.place, word.text)
}

/// The functions of a list at the place.
pub fn functions_at<'a>(alloc: Global, place: u32, items: &'a [Sexp]) -> Result<Table<'a>, TextErr>
    ensures { Gives table_of result (functions_from place false false no_rows items.now) }
{
    let mut table = Table::new(alloc);
    let mut waiting = false;
    let mut fresh = false;
    for item in items {
        if waiting {
            number_type_at(alloc, item)?;
            waiting = false;
            fresh = false;
        } else if is_word(b"-", item) {
            must(fresh, place_at(item))?;
            waiting = true;
        } else {
            table = function_in(alloc, item, table)?;
            fresh = true;
        }
    }
    must(!waiting, place)?;
    Ok(table)
}

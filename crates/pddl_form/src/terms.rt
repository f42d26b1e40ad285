ghost use Rattle.std.specs.Prelude.{◌≡◌, ◌==◌, [], length, slice_get};
ghost use Rattle.std.specs.Option.{option_copied};
ghost use Rattle.pddl_form.specs.Fault.{Gives};
ghost use Rattle.pddl_form.specs.Terms.{term_at, terms_at, head_index, arity_fits, atom_at, delete_at};
ghost use Rattle.pddl_form.specs.Sight.{headed_of, scope_of, table_of};

use crate::names::Names;
use crate::reserved::{count_at, unreserved};
use crate::table::Table;
use crate::words::{Headed, first_at, head_at, word_at};
use bd_base::{Cause, FromItems, Items, Text, TextErr};
use pddl_lex::Sexp;
use pddl_types::{Atom, Term};
use std::alloc::Global;

/// The names that a term may be.
#[derive(Clone, Copy)]
pub struct Scope<'s, 'a> {
    pub params: &'s Names<'a>,
    pub objects: &'s Names<'a>,
}

pub fn term_at(alloc: Global, scope: Scope<'_, '_>, tree: &Sexp) -> Result<Term, TextErr>
    ensures { Gives (λ t. t) result (term_at (scope_of scope.entry) tree.now) }
{
    let word = word_at(tree)?;
    match scope.params.place(word.text) {
        Some(i) => Ok(Term::Param(i)),
        None => match scope.objects.place(word.text) {
            Some(i) => Ok(Term::Object(i)),
            None => {
                let cause = Cause::Unknown(Text::from_slice(alloc, word.text)?);
                Err(TextErr::At {
                    place: word.place,
                    cause,
                })
            }
        },
    }
}

fn terms_at(alloc: Global, scope: Scope<'_, '_>, items: &[Sexp]) -> Result<Items<Term>, TextErr>
    ensures { Gives (λ t. t) result (terms_at (scope_of scope.entry) [] items.now) }
{
    let mut terms = Vec::new(alloc);
    for item in items {
        terms.push(term_at(alloc, scope, item)?)?;
    }
    Ok(Items::of(terms))
}

pub fn head_index(alloc: Global, list: Headed<'_>, table: &Table<'_>) -> Result<u32, TextErr>
    ensures { Gives (λ i. i) result (head_index (headed_of list.entry) (table_of table.now)) }
{
    match table.names.place(list.head.text) {
        Some(i) => Ok(i),
        None => {
            let cause = Cause::Unknown(Text::from_slice(alloc, list.head.text)?);
            Err(TextErr::At {
                place: list.head.place,
                cause,
            })
        }
    }
}

pub fn arity_fits(alloc: Global, list: Headed<'_>, arity: Option<&u32>) -> Result<(), TextErr>
    ensures { Gives (λ _. tt) result (arity_fits (headed_of list.entry) (option_copied arity.entry)) }
{
    if let Some(arity) = arity {
        if *arity as usize == list.items.len() {
            return Ok(());
        }
    }
    let cause = Cause::Arity(Text::from_slice(alloc, list.head.text)?);
    Err(TextErr::At {
        place: list.place,
        cause,
    })
}

/// A declared head of the table over terms of the scope.
#[tactic(auto, unfolding(crate::specs::Terms::atom_at))]
pub fn atom_at(
    alloc: Global,
    scope: Scope<'_, '_>,
    table: &Table<'_>,
    list: Headed<'_>,
) -> Result<Atom, TextErr>
    ensures { Gives (λ a. a) result (atom_at (scope_of scope.entry) (table_of table.now) (headed_of list.entry)) }
{
    unreserved(alloc, list)?;
    let head = head_index(alloc, list, table)?;
    arity_fits(alloc, list, table.numbers.get(head as usize))?;
    let args = terms_at(alloc, scope, list.items)?;
    Ok(Atom { head, args })
}

/// The atom under `not`.
#[tactic(auto, unfolding(crate::specs::Terms::delete_at))]
pub fn delete_at(
    alloc: Global,
    scope: Scope<'_, '_>,
    predicates: &Table<'_>,
    list: Headed<'_>,
) -> Result<Atom, TextErr>
    ensures { Gives (λ a. a) result (delete_at (scope_of scope.entry) (table_of predicates.now) (headed_of list.entry)) }
{
    count_at(alloc, list, 1)?;
    let (inner, _) = first_at(list.place, list.items)?;
    let inner = head_at(inner)?;
    atom_at(alloc, scope, predicates, inner)
}

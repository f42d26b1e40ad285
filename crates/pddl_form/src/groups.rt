ghost use Rattle.std.specs.Prelude.{◌≡◌, codes, map, true};
ghost use Rattle.pddl_form.specs.Fault.{Gives};
ghost use Rattle.pddl_form.specs.Groups.{is_either, type_at, entry_at, Nexts, groups_from};
ghost use Rattle.pddl_form.specs.Sight.{named_of, group_of, left};

use crate::words::{Named, is_word, name_at, place_at, shape, variable_at};
use bd_base::{Cause, Text, TextErr};
use pddl_lex::Sexp;
use std::alloc::Global;

/// Names, and the type's word where one is written.
#[derive(Drop)]
pub struct Group<'a> {
    pub names: Vec<Named<'a>>,
    pub kind: Option<Named<'a>>,
}

/// What is left of a typed list of variables or of names, and the list's place.
#[derive(Clone, Copy, Debug)]
pub struct Groups<'a> {
    pub variables: bool,
    pub place: u32,
    pub items: &'a [Sexp],
}

pub fn is_either(tree: &Sexp) -> bool
    ensures { result ≡ is_either tree.now }
{
    match tree {
        Sexp::Word { .. } => false,
        Sexp::List { items, .. } => match items.as_slice().split_first() {
            None => false,
            Some((first, _)) => is_word(b"either", first),
        },
    }
}

pub fn type_at(alloc: Global, tree: &Sexp) -> Result<Named<'_>, TextErr>
    ensures { Gives named_of result (type_at tree.now) }
{
    if is_either(tree) {
        let cause = Cause::Unsupported(Text::from_slice(alloc, b"either")?);
        return Err(TextErr::At {
            place: place_at(tree),
            cause,
        });
    }
    name_at(tree)
}

fn entry_at(variables: bool, tree: &Sexp) -> Result<Named<'_>, TextErr>
    ensures { Gives named_of result (entry_at variables tree.now) }
{
    if variables {
        variable_at(tree)
    } else {
        name_at(tree)
    }
}

impl<'a> Groups<'a> {
    // The group of the names, whose type stands first in the items.
    fn typed(
        &self,
        alloc: Global,
        names: Vec<Named<'a>>,
        items: &'a [Sexp],
    ) -> Result<Option<(Group<'a>, Groups<'a>)>, TextErr>
        ensures { Nexts (λ p. group_of p.0) (λ p. left p.1) result (groups_from self.now.variables self.now.place true (map named_of names.entry.items) items.now) }
    {
        match items.split_first() {
            None => Err(shape(self.place)),
            Some((kind, items)) => {
                let kind = Some(type_at(alloc, kind)?);
                let rest = Groups {
                    variables: self.variables,
                    place: self.place,
                    items,
                };
                Ok(Some((Group { names, kind }, rest)))
            }
        }
    }

    /// The next group, and what is left behind it.
    pub fn next(&self, alloc: Global) -> Result<Option<(Group<'a>, Groups<'a>)>, TextErr>
        ensures { Nexts (λ p. group_of p.0) (λ p. left p.1) result (left self.now) }
    {
        let mut names = Vec::new(alloc);
        let mut items = self.items;
        while let Some((item, after)) = items.split_first() {
            items = after;
            if is_word(b"-", item) {
                if names.is_empty() {
                    return Err(shape(place_at(item)));
                }
                return self.typed(alloc, names, items);
            }
            names.push(entry_at(self.variables, item)?)?;
        }
        if names.is_empty() {
            return Ok(None);
        }
        let rest = Groups {
            variables: self.variables,
            place: self.place,
            items,
        };
        Ok(Some((Group { names, kind: None }, rest)))
    }
}

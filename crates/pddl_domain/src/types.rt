ghost use Rattle.std.specs.Prelude.{◌≡◌, [], map, IfOk, MatchOption, None, Some, slice_set};
ghost use Rattle.std.specs.Option.{option_map};
ghost use Rattle.pddl_form.specs.Fault.{Gives};
ghost use Rattle.pddl_domain.specs.Skips.{Leads, AreSkips};
ghost use Rattle.pddl_domain.specs.Types.{only_object, mention, mention_all, mention_kind, parent_at, reaches, give, give_by, give_all, type_group, types_from};
ghost use Rattle.pddl_form.specs.Sight.{named_of, group_of, left};
ghost use Rattle.pddl_domain.specs.Sight.{types_of, mention_of};

use crate::type_table::Types;
use bd_base::{Cause, NoMemory, Text, TextErr};
use pddl_form::{Group, Groups, Named, Names};
use std::alloc::Global;

/// A type that is named, with its number.
#[derive(Clone, Copy)]
pub struct Known<'a> {
    name: Named<'a>,
    id: u32,
}

impl<'a> Types<'a> {
    /// Type 0 is `object`.
    pub fn new(alloc: Global) -> Result<Types<'a>, NoMemory>
        ensures { IfOk result (λ t. types_of t ≡ only_object) }
    {
        let mut names = Names::new(alloc);
        names.declare(b"object")?;
        let mut parents = Vec::new(alloc);
        parents.push(None)?;
        let mut skips = Vec::new(alloc);
        skips.push(None)?;
        Ok(Types {
            names,
            parents,
            skips,
        })
    }
}

// A type's number, and the types with it.
fn mention<'a>(name: &'a [u8], types: Types<'a>) -> Result<(u32, Types<'a>), NoMemory>
    ensures { IfOk result (λ r. (r.0, types_of r.1) ≡ mention name.now (types_of types.entry)) }
{
    match types.names.place(name) {
        Some(i) => Ok((i, types)),
        None => {
            let Types {
                mut names,
                mut parents,
                mut skips,
            } = types;
            let id = names.len();
            names.add(name)?;
            parents.push(None)?;
            skips.push(None)?;
            let types = Types {
                names,
                parents,
                skips,
            };
            Ok((id, types))
        }
    }
}

fn mention_all<'a>(
    alloc: Global,
    names: &[Named<'a>],
    types: Types<'a>,
) -> Result<(Vec<Known<'a>>, Types<'a>), NoMemory>
    ensures { IfOk result (λ r. (map mention_of r.0.items, types_of r.1) ≡ mention_all [] (map named_of names.now) (types_of types.entry)) }
{
    let mut done = Vec::new(alloc);
    let mut types = types;
    for name in names {
        let (id, more) = mention(name.text, types)?;
        done.push(Known { name: *name, id })?;
        types = more;
    }
    Ok((done, types))
}

fn mention_kind<'a>(kind: Option<Named<'a>>, types: Types<'a>) -> Result<(u32, Types<'a>), NoMemory>
    ensures { IfOk result (λ r. (r.0, types_of r.1) ≡ mention_kind (option_map named_of kind.entry) (types_of types.entry)) }
{
    match kind {
        None => Ok((0, types)),
        Some(name) => mention(name.text, types),
    }
}

fn parent_at(parents: &[Option<u32>], k: u32) -> Option<u32>
    ensures { result ≡ parent_at parents.now k }
{
    match parents.get(k as usize) {
        None => None,
        Some(parent) => *parent,
    }
}

// Whether the type is `i`, or lies under it.
fn reaches(parents: &[Option<u32>], i: u32, start: Option<u32>) -> bool
    ensures { result ≡ reaches parents.now parents.now i start }
{
    let mut at = start;
    for _step in parents {
        match at {
            None => return false,
            Some(k) => {
                if k == i {
                    return true;
                }
                at = parent_at(parents, k);
            }
        }
    }
    at == Some(i)
}

// The list with k at i, where it is that long.
fn set_at(i: u32, k: u32, mut list: Vec<Option<u32>>) -> Vec<Option<u32>>
    ensures { result.items ≡ slice_set list.items i (Some k) }
{
    if let Some(item) = list.get_mut(i as usize) {
        *item = Some(k);
    }
    list
}

fn with_parent<'a>(i: u32, k: u32, types: Types<'a>) -> Types<'a>
    requires { parent_at types.parents.items i ≡ None }
    ensures names { result.names ≡ types.entry.names }
    ensures parents { result.parents.items ≡ slice_set types.entry.parents.items i (Some k) }
{
    let Types {
        names,
        parents,
        skips,
    } = types;
    let parents = set_at(i, k, parents);
    Types {
        names,
        parents,
        skips,
    }
}

// The next type above, by a skip where there is one.
fn next_up(parents: &[Option<u32>], skips: &[Option<u32>], k: u32) -> Option<u32>
    requires { AreSkips parents.now skips.now }
    ensures { MatchOption result (parent_at parents.now k ≡ None) (λ u. Leads parents.now k u) }
{
    match parent_at(skips, k) {
        None => parent_at(parents, k),
        Some(u) => Some(u),
    }
}

// The type that the chain of parents ends in. Each second type on the way gets a longer skip.
fn climbed(parents: &[Option<u32>], start: u32, skips: Vec<Option<u32>>) -> (u32, Vec<Option<u32>>)
    requires { AreSkips parents.now skips.items }
    ensures above { Leads parents.now start result.0 }
    ensures skips { AreSkips parents.now result.1.items }
{
    let mut skips = skips;
    let mut at = start;
    for _step in parents {
        match next_up(parents, &skips, at) {
            None => return (at, skips),
            Some(next) => match next_up(parents, &skips, next) {
                None => return (next, skips),
                Some(far) => {
                    skips = set_at(at, far, skips);
                    at = far;
                }
            },
        }
    }
    (at, skips)
}

// Whether k is the type i, which has no parent, or lies under it. Where the chain from k ends in another type, it isn't.
fn is_under<'a>(i: u32, k: u32, types: Types<'a>) -> (bool, Types<'a>)
    requires { parent_at types.parents.items i ≡ None }
    ensures told { result.0 ≡ reaches types.entry.parents.items types.entry.parents.items i (Some k) }
    ensures same { types_of result.1 ≡ types_of types.entry }
{
    let Types {
        names,
        parents,
        skips,
    } = types;
    let (top, skips) = climbed(&parents, k, skips);
    let under = is_above(&parents, i, k, top);
    let types = Types {
        names,
        parents,
        skips,
    };
    (under, types)
}

fn is_above(parents: &[Option<u32>], i: u32, k: u32, top: u32) -> bool
    requires root { parent_at parents.now i ≡ None }
    requires above { Leads parents.now k top }
    ensures { result ≡ reaches parents.now parents.now i (Some k) }
{
    match parent_at(parents, top) {
        None => {
            if top != i {
                return false;
            }
            reaches(parents, i, Some(k))
        }
        Some(_) => reaches(parents, i, Some(k)),
    }
}

// The type, which isn't `object`, gets the parent.
fn give_by<'a>(
    alloc: Global,
    name: Named<'a>,
    i: u32,
    k: u32,
    types: Types<'a>,
) -> Result<Types<'a>, TextErr>
    ensures { Gives types_of result (give_by (parent_at types.entry.parents.items i) (named_of name.entry) i k (types_of types.entry)) }
{
    match parent_at(&types.parents, i) {
        Some(before) => {
            if before == k {
                return Ok(types);
            }
        }
        None => {
            let (under, types) = is_under(i, k, types);
            if !under {
                return Ok(with_parent(i, k, types));
            }
        }
    }
    let cause = Cause::Clash(Text::from_slice(alloc, name.text)?);
    Err(TextErr::At {
        place: name.place,
        cause,
    })
}

// The type gets the parent.
fn give<'a>(
    alloc: Global,
    name: Named<'a>,
    i: u32,
    k: u32,
    types: Types<'a>,
) -> Result<Types<'a>, TextErr>
    ensures { Gives types_of result (give (named_of name.entry) i k (types_of types.entry)) }
{
    if i == 0 {
        if k == 0 {
            return Ok(types);
        }
        let cause = Cause::Clash(Text::from_slice(alloc, name.text)?);
        return Err(TextErr::At {
            place: name.place,
            cause,
        });
    }
    give_by(alloc, name, i, k, types)
}

fn give_all<'a>(
    alloc: Global,
    k: u32,
    names: &[Known<'a>],
    types: Types<'a>,
) -> Result<Types<'a>, TextErr>
    ensures { Gives types_of result (give_all k (map mention_of names.now) (types_of types.entry)) }
{
    let mut types = types;
    for m in names {
        types = give(alloc, m.name, m.id, k, types)?;
    }
    Ok(types)
}

fn type_group<'a>(alloc: Global, group: &Group<'a>, types: Types<'a>) -> Result<Types<'a>, TextErr>
    ensures { Gives types_of result (type_group (group_of group.now) (types_of types.entry)) }
{
    let (names, types) = mention_all(alloc, &group.names, types)?;
    let (kind, types) = mention_kind(group.kind, types)?;
    give_all(alloc, kind, &names, types)
}

/// The types of a typed list of names.
pub fn types_at<'a>(alloc: Global, list: Groups<'a>) -> Result<Types<'a>, TextErr>
    ensures { Gives types_of result (types_from only_object (left list.entry)) }
{
    let mut types = Types::new(alloc)?;
    let mut rest = list;
    while let Some((group, after)) = rest.next(alloc)? {
        types = type_group(alloc, &group, types)?;
        rest = after;
    }
    Ok(types)
}

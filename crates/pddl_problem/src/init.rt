ghost use Rattle.std.specs.Prelude.{◌≡◌, IfOk};
ghost use Rattle.std.specs.Option.{option_copied};
ghost use Rattle.pddl_form.specs.Fault.{Gives};
ghost use Rattle.pddl_form.specs.Sight.{named_of, headed_of, scope_of, table_of};
ghost use Rattle.pddl_problem.specs.Init.{object_of, key_of, no_init, put_atom, is_given, is_put, with_value, put_value, put_number, value_at, put_item, item_in, init_from};
ghost use Rattle.pddl_problem.specs.Sight.{init_of};

use crate::keys::Keys;
use bd_base::{Cause, NoMemory, Text, TextErr};
use pddl_form::{
    Headed, Named, Scope, Table, atom_at, count_at, delete_at, first_at, head_at, is_same,
    number_at, word_at,
};
use pddl_lex::Sexp;
use pddl_types::{Atom, Given, Term};
use std::alloc::Global;

/// What was stated until now, with the keys of its atoms and of its calls.
#[derive(Drop)]
pub struct Init {
    pub keys: Keys,
    pub atoms: Vec<Atom>,
    pub calls: Keys,
    pub values: Vec<Given>,
}

impl Init {
    pub fn new(alloc: Global) -> Init
        ensures { init_of result ≡ no_init }
    {
        Init {
            keys: Keys::new(alloc),
            atoms: Vec::new(alloc),
            calls: Keys::new(alloc),
            values: Vec::new(alloc),
        }
    }
}

fn object_of(term: Term) -> u32
    ensures { result ≡ object_of term }
{
    match term {
        Term::Param(k) => k,
        Term::Object(i) => i,
    }
}

fn key_of(alloc: Global, atom: &Atom) -> Result<Vec<u32>, NoMemory>
    ensures { IfOk result (λ k. k.items ≡ key_of atom.now) }
{
    let mut key = Vec::new(alloc);
    key.push(atom.head)?;
    for term in atom.args.as_slice() {
        key.push(object_of(*term))?;
    }
    Ok(key)
}

// Each atom is stated once.
fn put_atom(alloc: Global, atom: Atom, init: Init) -> Result<Init, NoMemory>
    ensures { IfOk result (λ s. init_of s ≡ put_atom atom (init_of init)) }
{
    let Init {
        mut keys,
        mut atoms,
        calls,
        values,
    } = init;
    let key = key_of(alloc, &atom)?;
    if keys.put(key)? {
        atoms.push(atom)?;
    }
    Ok(Init {
        keys,
        atoms,
        calls,
        values,
    })
}

fn is_given(value: Option<&Given>, number: u64) -> bool
    ensures { result ≡ is_given (option_copied value.entry) number }
{
    match value {
        None => false,
        Some(value) => value.number == number,
    }
}

// Whether the call has that number; it may have no other.
fn is_put(
    alloc: Global,
    name: Named<'_>,
    key: &[u32],
    number: u64,
    init: &Init,
) -> Result<bool, TextErr>
    ensures { Gives (λ b. b) result (is_put (named_of name.entry) key.now number (init_of init.now)) }
{
    match init.calls.place(key) {
        None => Ok(false),
        Some(i) => {
            if is_given(init.values.get(i as usize), number) {
                return Ok(true);
            }
            let cause = Cause::Clash(Text::from_slice(alloc, name.text)?);
            Err(TextErr::At {
                place: name.place,
                cause,
            })
        }
    }
}

fn with_value(key: Vec<u32>, call: Atom, number: u64, init: Init) -> Result<Init, NoMemory>
    requires { key.items ≡ key_of call }
    ensures { IfOk result (λ s. init_of s ≡ with_value call number (init_of init)) }
{
    let Init {
        keys,
        atoms,
        mut calls,
        mut values,
    } = init;
    calls.put(key)?;
    values.push(Given { call, number })?;
    Ok(Init {
        keys,
        atoms,
        calls,
        values,
    })
}

// A call may be given the same number again.
fn put_value(
    alloc: Global,
    name: Named<'_>,
    call: Atom,
    number: u64,
    init: Init,
) -> Result<Init, TextErr>
    ensures { Gives init_of result (put_value (named_of name.entry) call number (init_of init)) }
{
    let key = key_of(alloc, &call)?;
    if is_put(alloc, name, &key, number, &init)? {
        return Ok(init);
    }
    Ok(with_value(key, call, number, init)?)
}

// A value of the total cost has no effect.
fn put_number(
    alloc: Global,
    name: Named<'_>,
    call: Atom,
    number: u64,
    init: Init,
) -> Result<Init, TextErr>
    ensures { Gives init_of result (put_number (named_of name.entry) call number (init_of init)) }
{
    if is_same(name.text, b"total-cost") {
        return Ok(init);
    }
    put_value(alloc, name, call, number, init)
}

#[tactic(auto, unfolding(crate::specs::Init::value_at))]
fn value_at(
    alloc: Global,
    scope: Scope<'_, '_>,
    functions: &Table<'_>,
    list: Headed<'_>,
    init: Init,
) -> Result<Init, TextErr>
    ensures { Gives init_of result (value_at (scope_of scope.entry) (table_of functions.now) (headed_of list.entry) (init_of init)) }
{
    count_at(alloc, list, 2)?;
    let (first, rest) = first_at(list.place, list.items)?;
    let call = head_at(first)?;
    let atom = atom_at(alloc, scope, functions, call)?;
    let (second, _) = first_at(list.place, rest)?;
    let word = word_at(second)?;
    let number = number_at(alloc, word)?;
    put_number(alloc, call.head, atom, number, init)
}

fn put_item(
    alloc: Global,
    scope: Scope<'_, '_>,
    predicates: &Table<'_>,
    functions: &Table<'_>,
    list: Headed<'_>,
    init: Init,
) -> Result<Init, TextErr>
    ensures { Gives init_of result (put_item (scope_of scope.entry) (table_of predicates.now) (table_of functions.now) (headed_of list.entry) (init_of init)) }
{
    if is_same(list.head.text, b"not") {
        delete_at(alloc, scope, predicates, list)?;
        return Ok(init);
    }
    if is_same(list.head.text, b"=") {
        return value_at(alloc, scope, functions, list, init);
    }
    let atom = atom_at(alloc, scope, predicates, list)?;
    Ok(put_atom(alloc, atom, init)?)
}

fn item_in(
    alloc: Global,
    scope: Scope<'_, '_>,
    predicates: &Table<'_>,
    functions: &Table<'_>,
    tree: &Sexp,
    init: Init,
) -> Result<Init, TextErr>
    ensures { Gives init_of result (item_in (scope_of scope.entry) (table_of predicates.now) (table_of functions.now) tree.now (init_of init)) }
{
    let list = head_at(tree)?;
    put_item(alloc, scope, predicates, functions, list, init)
}

/// What the items of `:init` state.
pub fn init_at(
    alloc: Global,
    scope: Scope<'_, '_>,
    predicates: &Table<'_>,
    functions: &Table<'_>,
    items: &[Sexp],
) -> Result<Init, TextErr>
    ensures { Gives init_of result (init_from (scope_of scope.entry) (table_of predicates.now) (table_of functions.now) no_init items.now) }
{
    let mut init = Init::new(alloc);
    for item in items {
        init = item_in(alloc, scope, predicates, functions, item, init)?;
    }
    Ok(init)
}

ghost use Rattle.std.specs.Prelude.{◌≡◌, [], map};
ghost use Rattle.std.specs.Option.{option_map};
ghost use Rattle.pddl_form.specs.Fault.{Gives};
ghost use Rattle.pddl_domain.specs.Actions.{pre_at, post_at, schema_at, action_at, actions_from};
ghost use Rattle.pddl_form.specs.Sight.{headed_of, scope_of, table_of};
ghost use Rattle.pddl_domain.specs.Sight.{condition_of, effect_of, fields_of, declared_of};

use crate::conditions::{Condition, condition_at};
use crate::effects::{Effect, effect_at};
use crate::fields::fields_at;
use crate::params::params_at;
use crate::reading::Declared;
use crate::values::Fields;
use bd_base::{FromItems, Items, Text, TextErr};
use pddl_form::{Headed, Names, Scope, Table, declare, first_at, name_at};
use pddl_lex::Sexp;
use pddl_types::Schema;
use std::alloc::Global;

fn pre_at(
    alloc: Global,
    scope: Scope<'_, '_>,
    predicates: &Table<'_>,
    field: Option<&Sexp>,
) -> Result<Condition, TextErr>
    ensures { Gives condition_of result (pre_at (scope_of scope.entry) (table_of predicates.now) (option_map (λ x. x.now) field.entry)) }
{
    match field {
        None => Ok(crate::conditions::none(alloc)),
        Some(tree) => condition_at(alloc, scope, predicates, tree),
    }
}

fn post_at(
    alloc: Global,
    scope: Scope<'_, '_>,
    predicates: &Table<'_>,
    functions: &Table<'_>,
    field: Option<&Sexp>,
) -> Result<Effect, TextErr>
    ensures { Gives effect_of result (post_at (scope_of scope.entry) (table_of predicates.now) (table_of functions.now) (option_map (λ x. x.now) field.entry)) }
{
    match field {
        None => Ok(crate::effects::none(alloc)),
        Some(tree) => effect_at(alloc, scope, predicates, functions, tree),
    }
}

#[tactic(auto, unfolding(crate::specs::Actions::schema_at))]
fn schema_at(
    alloc: Global,
    declared: &Declared<'_>,
    name: &[u8],
    fields: &Fields<'_>,
) -> Result<Schema, TextErr>
    ensures { Gives (λ s. s) result (schema_at (declared_of declared.now) name.now (fields_of fields.now)) }
{
    let params = params_at(alloc, &declared.types.names, fields.params)?;
    let scope = Scope {
        params: &params.names,
        objects: &declared.constants.names,
    };
    let Condition { pre, equal, differ } = pre_at(alloc, scope, &declared.predicates, fields.pre)?;
    let Effect { add, del, cost } = post_at(
        alloc,
        scope,
        &declared.predicates,
        &declared.functions,
        fields.effect,
    )?;
    let name = Text::from_slice(alloc, name)?;
    let Table { numbers, .. } = params;
    Ok(Schema {
        name,
        params: Items::of(numbers),
        pre: Items::of(pre),
        equal: Items::of(equal),
        differ: Items::of(differ),
        add: Items::of(add),
        del: Items::of(del),
        cost,
    })
}

#[tactic(auto, unfolding(crate::specs::Actions::action_at))]
fn action_at<'a>(
    alloc: Global,
    declared: &Declared<'a>,
    names: &mut Names<'a>,
    list: Headed<'a>,
) -> Result<Schema, TextErr>
    ensures { Gives (λ s. (s, names.new)) result (action_at (declared_of declared.now) names.old (headed_of list.entry)) }
{
    let (name, rest) = first_at(list.place, list.items)?;
    let name = name_at(name)?;
    declare(alloc, name, names)?;
    let fields = fields_at(alloc, list.place, rest)?;
    schema_at(alloc, declared, name.text, &fields)
}

/// The actions of a domain.
pub fn actions_at(alloc: Global, declared: &Declared<'_>) -> Result<Vec<Schema>, TextErr>
    ensures { Gives (λ s. s.items) result (actions_from (declared_of declared.now) [] [] (map headed_of declared.now.actions.items)) }
{
    let mut names = Names::new(alloc);
    let mut schemas = Vec::new(alloc);
    for action in &declared.actions {
        schemas.push(action_at(alloc, declared, &mut names, *action)?)?;
    }
    Ok(schemas)
}

ghost use Rattle.std.specs.Prelude.{◌≡◌, None};
ghost use Rattle.std.specs.Option.{option_map};
ghost use Rattle.pddl_form.specs.Fault.{Gives};
ghost use Rattle.pddl_domain.specs.Actions.{no_fields, field_of, value_in, with_value, unless_given, field_at, field_step, fields_from, fields_at};
ghost use Rattle.pddl_form.specs.Sight.{named_of};
ghost use Rattle.pddl_domain.specs.Sight.{fields_of};

use crate::values::{Field, Fields};
use bd_base::{Cause, Text, TextErr};
use pddl_form::{Named, is_same, shape, word_at};
use pddl_lex::Sexp;
use std::alloc::Global;

fn field_of(word: &[u8]) -> Option<Field>
    ensures { result ≡ field_of word.now }
{
    if is_same(word, b":parameters") {
        Some(Field::Parameters)
    } else if is_same(word, b":precondition") {
        Some(Field::Precondition)
    } else if is_same(word, b":effect") {
        Some(Field::Effect)
    } else {
        None
    }
}

fn value_in<'a>(field: Field, fields: &Fields<'a>) -> Option<&'a Sexp>
    ensures { option_map (λ x. x.now) result ≡ value_in field (fields_of fields.now) }
{
    match field {
        Field::Parameters => fields.params,
        Field::Precondition => fields.pre,
        Field::Effect => fields.effect,
    }
}

// The field gets its value.
fn with_value<'a>(field: Field, value: &'a Sexp, fields: Fields<'a>) -> Fields<'a>
    ensures { fields_of result ≡ with_value field value.now (fields_of fields.entry) }
{
    let mut fields = fields;
    fields.pending = None;
    match field {
        Field::Parameters => {
            fields.params = Some(value);
        }
        Field::Precondition => {
            fields.pre = Some(value);
        }
        Field::Effect => {
            fields.effect = Some(value);
        }
    }
    fields
}

// A field that has no value yet.
fn unless_given(
    alloc: Global,
    word: Named<'_>,
    value: Option<&Sexp>,
    field: Field,
) -> Result<Field, TextErr>
    ensures { Gives (λ f. f) result (unless_given (named_of word.entry) (option_map (λ x. x.now) value.entry) field) }
{
    match value {
        None => Ok(field),
        Some(_) => {
            let cause = Cause::Clash(Text::from_slice(alloc, word.text)?);
            Err(TextErr::At {
                place: word.place,
                cause,
            })
        }
    }
}

fn field_at(alloc: Global, tree: &Sexp, fields: &Fields<'_>) -> Result<Field, TextErr>
    ensures { Gives (λ f. f) result (field_at tree.now (fields_of fields.now)) }
{
    let word = word_at(tree)?;
    match field_of(word.text) {
        Some(field) => unless_given(alloc, word, value_in(field, fields), field),
        None => {
            let cause = Cause::Unsupported(Text::from_slice(alloc, word.text)?);
            Err(TextErr::At {
                place: word.place,
                cause,
            })
        }
    }
}

// One more item: a field's word, or its value behind it.
fn field_step<'a>(alloc: Global, item: &'a Sexp, fields: Fields<'a>) -> Result<Fields<'a>, TextErr>
    ensures { Gives fields_of result (field_step item.now (fields_of fields.entry)) }
{
    match fields.pending {
        None => {
            let mut fields = fields;
            fields.pending = Some(field_at(alloc, item, &fields)?);
            Ok(fields)
        }
        Some(field) => Ok(with_value(field, item, fields)),
    }
}

// It goes at most 7 deep, since each field comes once.
fn fields_from<'a>(
    alloc: Global,
    fields: Fields<'a>,
    items: &'a [Sexp],
) -> Result<Fields<'a>, TextErr>
    ensures { Gives fields_of result (fields_from (fields_of fields.entry) items.now) }
{
    match items.split_first() {
        None => Ok(fields),
        Some((item, rest)) => {
            let fields = field_step(alloc, item, fields)?;
            fields_from(alloc, fields, rest)
        }
    }
}

/// The fields of the action at the place.
pub fn fields_at<'a>(alloc: Global, place: u32, items: &'a [Sexp]) -> Result<Fields<'a>, TextErr>
    ensures { Gives fields_of result (fields_at place items.now) }
{
    let fields = fields_from(alloc, Fields::new(), items)?;
    match fields.pending {
        None => Ok(fields),
        Some(_) => Err(shape(place)),
    }
}

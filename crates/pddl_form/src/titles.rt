ghost use Rattle.std.specs.Prelude.{◌≡◌, codes};
ghost use Rattle.std.specs.Option.{option_map};
ghost use Rattle.pddl_form.specs.Fault.{Gives};
ghost use Rattle.pddl_form.specs.Titles.{once, requirement_at, requirements_at, title_at, body_at};
ghost use Rattle.pddl_form.specs.Sight.{named_of, headed_of};

use crate::words::{
    Headed, Named, begins, end_at, first_at, head_at, is_same, name_at, shape, unless_odd, word_at,
};
use bd_base::{Cause, Text, TextErr};
use pddl_lex::Sexp;
use std::alloc::Global;

/// The section, where none like it came before.
pub fn once<'a>(
    alloc: Global,
    section: Headed<'a>,
    before: Option<Headed<'a>>,
) -> Result<Option<Headed<'a>>, TextErr>
    ensures { Gives (option_map headed_of) result (once (headed_of section.entry) (option_map headed_of before.entry)) }
{
    match before {
        None => Ok(Some(section)),
        Some(_) => {
            let cause = Cause::Clash(Text::from_slice(alloc, section.head.text)?);
            Err(TextErr::At {
                place: section.head.place,
                cause,
            })
        }
    }
}

fn requirement_at(tree: &Sexp) -> Result<Named<'_>, TextErr>
    ensures { Gives named_of result (requirement_at tree.now) }
{
    let word = word_at(tree)?;
    unless_odd(begins(b':', word.text), word)
}

/// What stands in `:requirements` are keywords.
pub fn requirements_at(items: &[Sexp]) -> Result<(), TextErr>
    ensures { Gives (λ _. tt) result (requirements_at items.now) }
{
    for item in items {
        requirement_at(item)?;
    }
    Ok(())
}

fn title_at(kind: &[u8], tree: &Sexp) -> Result<(), TextErr>
    ensures { Gives (λ _. tt) result (title_at kind.now tree.now) }
{
    let title = head_at(tree)?;
    if !is_same(title.head.text, kind) {
        return Err(shape(title.head.place));
    }
    let (name, rest) = first_at(title.place, title.items)?;
    name_at(name)?;
    end_at(rest)
}

/// What stands behind `define` and the title.
#[tactic(auto, unfolding(crate::specs::Titles::body_at))]
pub fn body_at<'a>(kind: &[u8], whole: Headed<'a>) -> Result<&'a [Sexp], TextErr>
    ensures { Gives (λ s. s.now) result (body_at kind.now (headed_of whole.entry)) }
{
    if !is_same(whole.head.text, b"define") {
        return Err(shape(whole.head.place));
    }
    let (title, sections) = first_at(whole.place, whole.items)?;
    title_at(kind, title)?;
    Ok(sections)
}

ghost use Rattle.std.specs.Prelude.{◌≡◌, codes};
ghost use Rattle.std.specs.Option.{option_map};
ghost use Rattle.pddl_form.specs.Fault.{Gives};
ghost use Rattle.pddl_domain.specs.Outline.{no_sections, part_of, put_part, section_in, sections_at, outline_at};
ghost use Rattle.pddl_form.specs.Titles.{once, requirement_at, requirements_at, title_at, body_at};
ghost use Rattle.pddl_form.specs.Sight.{named_of, headed_of};
ghost use Rattle.pddl_domain.specs.Sight.{outline_of};

use crate::sections::Sections;
use bd_base::{Cause, Text, TextErr};
use pddl_form::{Headed, body_at, head_at, is_same, once, requirements_at};
use pddl_lex::Sexp;
use std::alloc::Global;

/// What a section of a domain may be.
#[derive(Clone, Copy)]
pub enum Part {
    Requirements,
    Types,
    Constants,
    Predicates,
    Functions,
    Action,
}

fn part_of(head: &[u8]) -> Option<Part>
    ensures { result ≡ part_of head.now }
{
    if is_same(head, b":requirements") {
        Some(Part::Requirements)
    } else if is_same(head, b":types") {
        Some(Part::Types)
    } else if is_same(head, b":constants") {
        Some(Part::Constants)
    } else if is_same(head, b":predicates") {
        Some(Part::Predicates)
    } else if is_same(head, b":functions") {
        Some(Part::Functions)
    } else if is_same(head, b":action") {
        Some(Part::Action)
    } else {
        None
    }
}

// One more section.
fn section_in<'a>(
    alloc: Global,
    section: Headed<'a>,
    mut sections: Sections<'a>,
) -> Result<Sections<'a>, TextErr>
    ensures { Gives outline_of result (section_in (headed_of section.entry) (outline_of sections.entry)) }
{
    match part_of(section.head.text) {
        None => {
            let cause = Cause::Unsupported(Text::from_slice(alloc, section.head.text)?);
            return Err(TextErr::At {
                place: section.place,
                cause,
            });
        }
        Some(Part::Requirements) => {
            sections.requirements = once(alloc, section, sections.requirements)?;
            requirements_at(section.items)?;
        }
        Some(Part::Types) => {
            sections.types = once(alloc, section, sections.types)?;
        }
        Some(Part::Constants) => {
            sections.constants = once(alloc, section, sections.constants)?;
        }
        Some(Part::Predicates) => {
            sections.predicates = once(alloc, section, sections.predicates)?;
        }
        Some(Part::Functions) => {
            sections.functions = once(alloc, section, sections.functions)?;
        }
        Some(Part::Action) => {
            sections.actions.push(section)?;
        }
    }
    Ok(sections)
}

fn sections_at(alloc: Global, items: &[Sexp]) -> Result<Sections<'_>, TextErr>
    ensures { Gives outline_of result (sections_at no_sections items.now) }
{
    let mut sections = Sections::new(alloc);
    for item in items {
        let section = head_at(item)?;
        sections = section_in(alloc, section, sections)?;
    }
    Ok(sections)
}

/// The sections of a domain.
pub fn outline_at(alloc: Global, tree: &Sexp) -> Result<Sections<'_>, TextErr>
    ensures { Gives outline_of result (outline_at tree.now) }
{
    let whole = head_at(tree)?;
    let items = body_at(b"domain", whole)?;
    sections_at(alloc, items)
}

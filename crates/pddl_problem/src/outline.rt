ghost use Rattle.std.specs.Prelude.{◌≡◌, codes};
ghost use Rattle.std.specs.Option.{option_map};
ghost use Rattle.pddl_form.specs.Fault.{Gives};
ghost use Rattle.pddl_form.specs.Sight.{headed_of};
ghost use Rattle.pddl_problem.specs.Outline.{no_sections, part_of, domain_at, section_in, sections_at, required, outline_at};
ghost use Rattle.pddl_problem.specs.Sight.{outline_of, body_of};

use crate::sections::{Body, Sections};
use bd_base::{Cause, Text, TextErr};
use pddl_form::{
    Headed, body_at, end_at, first_at, head_at, is_same, name_at, once, requirements_at,
};
use pddl_lex::Sexp;
use std::alloc::Global;

/// What a section of a problem may be.
#[derive(Clone, Copy)]
pub enum Part {
    Domain,
    Requirements,
    Objects,
    Init,
    Goal,
    Metric,
}

fn part_of(head: &[u8]) -> Option<Part>
    ensures { result ≡ part_of head.now }
{
    if is_same(head, b":domain") {
        Some(Part::Domain)
    } else if is_same(head, b":requirements") {
        Some(Part::Requirements)
    } else if is_same(head, b":objects") {
        Some(Part::Objects)
    } else if is_same(head, b":init") {
        Some(Part::Init)
    } else if is_same(head, b":goal") {
        Some(Part::Goal)
    } else if is_same(head, b":metric") {
        Some(Part::Metric)
    } else {
        None
    }
}

// One name, which is not compared.
fn domain_at(section: Headed<'_>) -> Result<(), TextErr>
    ensures { Gives (λ _. tt) result (domain_at (headed_of section.entry)) }
{
    let (name, rest) = first_at(section.place, section.items)?;
    name_at(name)?;
    end_at(rest)
}

// One more section.
fn section_in<'a>(
    alloc: Global,
    section: Headed<'a>,
    mut sections: Sections<'a>,
) -> Result<Sections<'a>, TextErr>
    ensures { Gives outline_of result (section_in (headed_of section.entry) (outline_of sections.entry)) }
{
    match part_of(section.head.text) {
        None => {
            let cause = Cause::Unsupported(Text::from_slice(alloc, section.head.text)?);
            return Err(TextErr::At {
                place: section.place,
                cause,
            });
        }
        Some(Part::Domain) => {
            sections.domain = once(alloc, section, sections.domain)?;
            domain_at(section)?;
        }
        Some(Part::Requirements) => {
            sections.requirements = once(alloc, section, sections.requirements)?;
            requirements_at(section.items)?;
        }
        Some(Part::Objects) => {
            sections.objects = once(alloc, section, sections.objects)?;
        }
        Some(Part::Init) => {
            sections.init = once(alloc, section, sections.init)?;
        }
        Some(Part::Goal) => {
            sections.goal = once(alloc, section, sections.goal)?;
        }
        Some(Part::Metric) => {
            sections.metric = once(alloc, section, sections.metric)?;
        }
    }
    Ok(sections)
}

// It goes at most 7 deep, since each section comes once.
fn sections_at<'a>(
    alloc: Global,
    sections: Sections<'a>,
    items: &'a [Sexp],
) -> Result<Sections<'a>, TextErr>
    ensures { Gives outline_of result (sections_at (outline_of sections.entry) items.now) }
{
    match items.split_first() {
        None => Ok(sections),
        Some((item, rest)) => {
            let section = head_at(item)?;
            let sections = section_in(alloc, section, sections)?;
            sections_at(alloc, sections, rest)
        }
    }
}

fn required<'a>(
    alloc: Global,
    place: u32,
    word: &[u8],
    section: Option<Headed<'a>>,
) -> Result<Headed<'a>, TextErr>
    ensures { Gives headed_of result (required place word.now (option_map headed_of section.entry)) }
{
    match section {
        Some(section) => Ok(section),
        None => {
            let cause = Cause::Missing(Text::from_slice(alloc, word)?);
            Err(TextErr::At { place, cause })
        }
    }
}

/// The sections of a problem.
#[tactic(auto, unfolding(crate::specs::Outline::outline_at))]
pub fn outline_at(alloc: Global, tree: &Sexp) -> Result<Body<'_>, TextErr>
    ensures { Gives body_of result (outline_at tree.now) }
{
    let whole = head_at(tree)?;
    let items = body_at(b"problem", whole)?;
    let sections = sections_at(alloc, Sections::new(), items)?;
    let init = required(alloc, whole.place, b":init", sections.init)?;
    let goal = required(alloc, whole.place, b":goal", sections.goal)?;
    Ok(Body {
        objects: sections.objects,
        init,
        goal,
        metric: sections.metric,
    })
}

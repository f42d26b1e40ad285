ghost use Rattle.std.specs.Prelude.{◌≡◌};
ghost use Rattle.pddl_domain.specs.Outline.{no_sections};
ghost use Rattle.pddl_domain.specs.Sight.{outline_of};

use pddl_form::Headed;
use std::alloc::Global;

/// The sections of a domain.
#[derive(Drop)]
pub struct Sections<'a> {
    pub requirements: Option<Headed<'a>>,
    pub types: Option<Headed<'a>>,
    pub constants: Option<Headed<'a>>,
    pub predicates: Option<Headed<'a>>,
    pub functions: Option<Headed<'a>>,
    pub actions: Vec<Headed<'a>>,
}

impl<'a> Sections<'a> {
    pub fn new(alloc: Global) -> Sections<'a>
        ensures { outline_of result ≡ no_sections }
    {
        Sections {
            requirements: None,
            types: None,
            constants: None,
            predicates: None,
            functions: None,
            actions: Vec::new(alloc),
        }
    }
}

ghost use Rattle.std.specs.Prelude.{◌≡◌};
ghost use Rattle.pddl_problem.specs.Outline.{no_sections};
ghost use Rattle.pddl_problem.specs.Sight.{outline_of};

use pddl_form::Headed;

/// The sections of a problem.
#[derive(Clone, Copy)]
pub struct Sections<'a> {
    pub domain: Option<Headed<'a>>,
    pub requirements: Option<Headed<'a>>,
    pub objects: Option<Headed<'a>>,
    pub init: Option<Headed<'a>>,
    pub goal: Option<Headed<'a>>,
    pub metric: Option<Headed<'a>>,
}

/// What is read of a problem's sections.
#[derive(Clone, Copy)]
pub struct Body<'a> {
    pub objects: Option<Headed<'a>>,
    pub init: Headed<'a>,
    pub goal: Headed<'a>,
    pub metric: Option<Headed<'a>>,
}

impl<'a> Sections<'a> {
    pub fn new() -> Sections<'a>
        ensures { outline_of result ≡ no_sections }
    {
        Sections {
            domain: None,
            requirements: None,
            objects: None,
            init: None,
            goal: None,
            metric: None,
        }
    }
}

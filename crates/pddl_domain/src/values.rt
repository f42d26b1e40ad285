ghost use Rattle.std.specs.Prelude.{◌≡◌};
ghost use Rattle.pddl_domain.specs.Actions.{no_fields};
ghost use Rattle.pddl_domain.specs.Sight.{fields_of};

use pddl_lex::Sexp;

/// The values of an action's fields, and the field whose word came last, until its value comes.
#[derive(Drop)]
pub struct Fields<'a> {
    pub params: Option<&'a Sexp>,
    pub pre: Option<&'a Sexp>,
    pub effect: Option<&'a Sexp>,
    pub pending: Option<Field>,
}

/// What a field of an action may be.
#[derive(Clone, Copy)]
pub enum Field {
    Parameters,
    Precondition,
    Effect,
}

impl<'a> Fields<'a> {
    pub fn new() -> Fields<'a>
        ensures { fields_of result ≡ no_fields }
    {
        Fields {
            params: None,
            pre: None,
            effect: None,
            pending: None,
        }
    }
}

ghost use Rattle.pddl_domain.specs.Skips.{AreSkips};

use pddl_form::Names;

/// Types by number, each with the number of its parent where it was given one. A skip leads from a type to one above it.
#[derive(Drop)]
pub struct Types<'a> {
    pub names: Names<'a>,
    pub parents: Vec<Option<u32>>,
    pub skips: Vec<Option<u32>>,
    ghost skipped: { AreSkips parents.items skips.items },
}

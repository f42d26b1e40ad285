ghost use Rattle.std.specs.Prelude.{◌≡◌, ◌+◌, ◌++◌, ◌∷◌, [], length, IfOk};
ghost use Rattle.pddl_types.specs.Readable.{IsSchema};
ghost use Rattle.bd_ground.specs.Collect.{Collects, completed_instances};

use crate::choices::World;
use crate::costs::take_instance;
use crate::found::Found;
use crate::grounding_err::GroundErr;
use bd_base::NoMemory;
use pddl_types::Schema;
use std::alloc::Global;

// What was chosen, with one more object.
fn longer(alloc: Global, chosen: &[u32], o: u32) -> Result<Vec<u32>, NoMemory>
    ensures { IfOk result (λ more. more.items ≡ chosen.now ++ o ∷ []) }
{
    let mut more = Vec::with_capacity(alloc, chosen.len() + 1)?;
    more.extend_from_slice(chosen)?;
    more.push(o)?;
    Ok(more)
}

impl<'a> World<'a> {
    /// The instances whose arguments begin with those chosen.
    pub fn extend(
        &self,
        alloc: Global,
        schema: &'a Schema,
        kinds: &[u32],
        chosen: Vec<u32>,
        found: &mut Found<'a>,
    ) -> Result<(), GroundErr>
        requires schema { IsSchema self.now.domain.now schema.now }
        requires sized { length chosen.items + length kinds.now ≡ length schema.now.params }
        ensures { Collects found.old (completed_instances self.now.domain.now self.now.problem.now schema.now kinds.now chosen.items) result found.new }
    {
        if !self.passes_now(alloc, schema, &chosen)? {
            return Ok(());
        }
        match kinds.split_first() {
            None => take_instance(alloc, self, schema, chosen, found),
            Some((_, rest)) => {
                let objects = self.offers(alloc, schema, rest, &chosen)?;
                for o in &objects {
                    let more = longer(alloc, &chosen, *o)?;
                    match self.extend(alloc, schema, rest, more, found) {
                        Ok(()) => {}
                        Err(e) => return Err(e),
                    }
                }
                Ok(())
            }
        }
    }
}

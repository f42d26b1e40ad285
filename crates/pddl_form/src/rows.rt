ghost use Rattle.std.specs.Prelude.{◌≡◌, map, IfOk};
ghost use Rattle.pddl_form.specs.Things.{things_of, heads_of};

use bd_base::{NoMemory, Text};
use pddl_types::{Head, Thing};
use std::alloc::Global;

/// Things by their names and the numbers of their types.
pub fn things_of(alloc: Global, names: &[&[u8]], kinds: &[u32]) -> Result<Vec<Thing>, NoMemory>
    ensures { IfOk result (λ v. v.items ≡ things_of (map (λ n. n.now) names.now) kinds.now) }
{
    let mut things = Vec::new(alloc);
    let mut kinds = kinds;
    for name in names {
        match kinds.split_first() {
            None => return Ok(things),
            Some((kind, others)) => {
                kinds = others;
                let name = Text::from_slice(alloc, name)?;
                things.push(Thing { name, kind: *kind })?;
            }
        }
    }
    Ok(things)
}

/// Predicates or functions by their names and the numbers of their arguments.
pub fn heads_of(alloc: Global, names: &[&[u8]], arities: &[u32]) -> Result<Vec<Head>, NoMemory>
    ensures { IfOk result (λ v. v.items ≡ heads_of (map (λ n. n.now) names.now) arities.now) }
{
    let mut heads = Vec::new(alloc);
    let mut arities = arities;
    for name in names {
        match arities.split_first() {
            None => return Ok(heads),
            Some((arity, others)) => {
                arities = others;
                let name = Text::from_slice(alloc, name)?;
                heads.push(Head {
                    name,
                    arity: *arity,
                })?;
            }
        }
    }
    Ok(heads)
}

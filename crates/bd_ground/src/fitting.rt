ghost use Rattle.std.specs.Prelude.{◌≡◌, ◌++◌, ◌∷◌, [], cond, map, length, IfOk, OnOk};
ghost use Rattle.bd_base.specs.Bits.{upto};
ghost use Rattle.pddl_types.specs.Readable.{IsProblem};
ghost use Rattle.bd_ground.specs.Offers.{fitting};

use crate::world::fits;
use bd_base::NoMemory;
use pddl_types::{Domain, Problem};
use std::alloc::Global;

fn push_if(wanted: bool, o: u32, xs: &mut Vec<u32>) -> Result<(), NoMemory>
    ensures { OnOk result (xs.new.items ≡ cond wanted (xs.old.items ++ o ∷ []) xs.old.items) }
{
    if wanted {
        xs.push(o)?;
    }
    Ok(())
}

// The objects that fit a type.
fn fitting(
    alloc: Global,
    domain: &Domain,
    problem: &Problem,
    kind: u32,
) -> Result<Vec<u32>, NoMemory>
    requires { IsProblem domain.now problem.now }
    ensures { IfOk result (λ xs. xs.items ≡ fitting domain.now problem.now kind) }
{
    let n = domain.constants.as_slice().len() + problem.objects.as_slice().len();
    let mut xs = Vec::new(alloc);
    for o in 0..n as u32 {
        push_if(fits(domain, problem, kind, o), o, &mut xs)?;
    }
    Ok(xs)
}

/// The objects that fit each type, by the types' numbers.
pub fn all_fitting(
    alloc: Global,
    domain: &Domain,
    problem: &Problem,
) -> Result<Vec<Vec<u32>>, NoMemory>
    requires { IsProblem domain.now problem.now }
    ensures { IfOk result (λ lists. map (λ xs. xs.items) lists.items ≡ map (λ k. fitting domain.now problem.now k) (upto 0 (length domain.now.types))) }
{
    let n = domain.types.as_slice().len();
    if n > 0xffff_ffff {
        return Err(NoMemory);
    }
    let mut lists = Vec::new(alloc);
    for kind in 0..n as u32 {
        lists.push(fitting(alloc, domain, problem, kind)?)?;
    }
    Ok(lists)
}

ghost use Rattle.std.specs.Prelude.{◌≡◌, ◌<◌, ◌≤◌, ◌^◌, [], length, IfOk};
ghost use Rattle.pddl_types.specs.Readable.{IsProblem};
ghost use Rattle.bd_ground.specs.Atoms.{filled_all, mentioned_after};

use crate::atoms::Atoms;
use crate::choices::World;
use crate::filling::filled;
use crate::fitting::all_fitting;
use crate::index::index_of;
use crate::prices::prices_of;
use bd_base::NoMemory;
use pddl_types::{Atom, Domain, Problem};
use std::alloc::Global;

/// The ground atoms of a list, each once.
pub fn table_of(alloc: Global, list: &[Atom]) -> Result<Atoms, NoMemory>
    requires { length list.now < 2 ^ 32 }
    ensures { IfOk result (λ atoms. atoms ≡ mentioned_after [] (filled_all [] list.now)) }
{
    let mut atoms = Atoms::with_room(alloc, list.len())?;
    for a in list {
        atoms.mention(filled(alloc, &[], a)?)?;
    }
    Ok(atoms)
}

impl<'a> World<'a> {
    /// What the tests of instances ask, over the init list's atoms.
    pub fn new(
        alloc: Global,
        domain: &'a Domain,
        problem: &'a Problem,
        stated: &'a Atoms,
    ) -> Result<World<'a>, NoMemory>
        requires problem { IsProblem domain.now problem.now }
        requires stated { stated.now ≡ mentioned_after [] (filled_all [] problem.now.init) }
        ensures domain { IfOk result (λ w. w.domain.now ≡ domain.now) }
        ensures problem { IfOk result (λ w. w.problem.now ≡ problem.now) }
    {
        let index = index_of(alloc, stated)?;
        let fitting = all_fitting(alloc, domain, problem)?;
        let prices = prices_of(alloc, problem.values.as_slice())?;
        Ok(World {
            domain,
            problem,
            stated,
            index,
            fitting,
            prices,
        })
    }
}

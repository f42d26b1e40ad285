ghost use Rattle.std.specs.Prelude.{◌≡◌, ◌≤◌};
ghost use Rattle.bd_gen.specs.Errands.{plan_of, problem_of};
ghost use Rattle.bd_gen.specs.declared.sample.TheConstants.{DOMAIN};
ghost use Rattle.task_inputs.specs.Inputs.{IsInTask, Unless, outcome};
ghost use Rattle.errand_inputs.specs.Inner.{LeadsQuietly};

use crate::shelf::SampleShelf;
use bd_base::NoMemory;
use bd_gen::{Sample, generate};
use std::alloc::Global;
use task_inputs::{Inputs, inputs};

// What the texts of a sample lead to, on a shelf that doesn't fail.
fn sample_inputs(alloc: Global, sample: Sample) -> Inputs
    ensures leads { Unless result (LeadsQuietly sample result) }
    ensures in_task { IsInTask result }
{
    let mut shelf = SampleShelf { sample, longs: 0 };
    inputs(alloc, "domain", "problem", "plan", &mut shelf)
}

/// What the generated texts of so many errands, from 1 to 600, lead to: the same as these texts on any shelf that doesn't fail.
pub fn generated_inputs(alloc: Global, n: u32) -> Inputs
    requires { (1 ≤ n) × (n ≤ 600) }
    ensures leads { Unless result (outcome DOMAIN.now (problem_of n) (plan_of n) ≡ result) }
    ensures in_task { IsInTask result }
{
    match generate(alloc, n) {
        Ok(sample) => sample_inputs(alloc, sample),
        Err(NoMemory) => Inputs::NoMemory,
    }
}

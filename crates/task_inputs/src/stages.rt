ghost use Rattle.std.specs.Prelude.{◌≡◌, ◌≤◌, ℕ, List, length};
ghost use Rattle.pddl_form.specs.Contract.{IsRead};
ghost use Rattle.pddl_types.specs.Readable.{IsDomain, IsProblem};
ghost use Rattle.task_inputs.specs.Reads.{Counts, Spans};
ghost use Rattle.task_inputs.specs.Inputs.{plan_step, problem_step, domain_step, calls_end, AfterPlan, AfterProblem, LeadsTo, FollowsBy, Unless, IsInTask};

use crate::answers::{Inputs, Part};
use crate::reading::read_part;
use crate::steps::{domain_from, judged_calls, problem_from, refused};
use bd_base::Shelf;
use pddl_types::{Domain, Problem};
use plan_text::read_plan;
use std::alloc::Global;

fn plan_judged(alloc: Global, domain: &Domain, problem: &Problem, text: &[u8]) -> Inputs
    requires short { length text.now ≤ 16_777_216 }
    requires domain { IsDomain domain.now }
    requires problem { IsProblem domain.now problem.now }
    ensures judged { Unless result (FollowsBy (plan_step domain.now problem.now text.now) (λ calls r. r ≡ calls_end domain.now problem.now calls) result) }
    ensures told { IsInTask result }
{
    match read_plan(alloc, domain, problem, text) {
        Ok(calls) => judged_calls(alloc, domain, problem, calls.as_slice()),
        Err(error) => refused(Part::Plan, error),
    }
}

// What the plan leads to, once the domain and the problem were read.
fn with_plan<H: Shelf>(
    alloc: Global,
    domain: &Domain,
    problem: &Problem,
    plan: &str,
    shelf: &mut H,
) -> Inputs
    requires domain { IsDomain domain.now }
    requires problem { IsProblem domain.now problem.now }
    ensures leads { (c : Counts) → Spans c (record { faults = H.faults shelf.old; faults_after = H.faults shelf.new; longs = H.longs shelf.old; longs_after = H.longs shelf.new }) →
        Unless result (AfterPlan domain.now problem.now (H.tells shelf.old plan.now) c result) }
    ensures in_task { IsInTask result }
    ensures told { (n : List ℕ) → H.tells shelf.new n ≡ H.tells shelf.old n }
    ensures faults { H.faults shelf.old ≤ H.faults shelf.new }
    ensures longs { H.longs shelf.old ≤ H.longs shelf.new }
{
    match read_part(alloc, Part::Plan, plan, shelf) {
        Ok(text) => plan_judged(alloc, domain, problem, text.as_slice()),
        Err(why) => why,
    }
}

// What the problem and the plan lead to, once the domain was read.
fn with_problem<H: Shelf>(
    alloc: Global,
    domain: &Domain,
    problem: &str,
    plan: &str,
    shelf: &mut H,
) -> Inputs
    requires { IsRead domain.now }
    ensures leads { (c : Counts) → Spans c (record { faults = H.faults shelf.old; faults_after = H.faults shelf.new; longs = H.longs shelf.old; longs_after = H.longs shelf.new }) →
        Unless result (AfterProblem domain.now (H.tells shelf.old problem.now) (H.tells shelf.old plan.now) c result) }
    ensures in_task { IsInTask result }
    ensures told { (n : List ℕ) → H.tells shelf.new n ≡ H.tells shelf.old n }
    ensures faults { H.faults shelf.old ≤ H.faults shelf.new }
    ensures longs { H.longs shelf.old ≤ H.longs shelf.new }
{
    match read_part(alloc, Part::Problem, problem, shelf) {
        Ok(text) => match problem_from(alloc, domain, text.as_slice()) {
            Ok(problem) => with_plan(alloc, domain, &problem, plan, shelf),
            Err(error) => refused(Part::Problem, error),
        },
        Err(why) => why,
    }
}

/// What the texts of a domain, a problem and a plan lead to. Each is read and judged before the next one is read, and the
/// shelf still tells what it told.
pub fn inputs<H: Shelf>(
    alloc: Global,
    domain: &str,
    problem: &str,
    plan: &str,
    shelf: &mut H,
) -> Inputs
    // The first fault, limit or break, or what is ready; want of memory is free.
    ensures leads { (c : Counts) → Spans c (record { faults = H.faults shelf.old; faults_after = H.faults shelf.new; longs = H.longs shelf.old; longs_after = H.longs shelf.new }) →
        Unless result (LeadsTo (H.tells shelf.old domain.now) (H.tells shelf.old problem.now) (H.tells shelf.old plan.now) c result) }
    // What is named is a fact or an action of the task.
    ensures in_task { IsInTask result }
    ensures told { (n : List ℕ) → H.tells shelf.new n ≡ H.tells shelf.old n }
{
    match read_part(alloc, Part::Domain, domain, shelf) {
        Ok(text) => match domain_from(alloc, text.as_slice()) {
            Ok(domain) => with_problem(alloc, &domain, problem, plan, shelf),
            Err(error) => refused(Part::Domain, error),
        },
        Err(why) => why,
    }
}

ghost use Rattle.std.specs.Prelude.{◌≡◌, ◌≤◌, ◌<◌, ◌^◌, All, length, IfOk};
ghost use Rattle.bd_task.specs.Valid.{first_break};
ghost use Rattle.bd_ground.specs.Task.{ground_task};
ghost use Rattle.pddl_lex.specs.Reading.{tree_in};
ghost use Rattle.pddl_types.specs.Readable.{IsDomain, IsProblem};
ghost use Rattle.pddl_form.specs.Fault.{Gives, Answers};
ghost use Rattle.pddl_form.specs.Contract.{IsRead};
ghost use Rattle.pddl_problem.specs.Contract.{IsReadFor};
ghost use Rattle.pddl_domain.specs.Whole.{over_of as domain_over};
ghost use Rattle.pddl_problem.specs.Whole.{over_of as problem_over};
ghost use Rattle.task_inputs.specs.Inputs.{treed, domain_in, problem_in, judged_plan, calls_end, Unless, IsInTask};
ghost use Rattle.task_inputs.specs.Steps.{GroundsTo, refusal_of};

use crate::answers::{Inputs, Part};
use bd_base::{ActList, Cause, Limit, TextErr};
use bd_ground::{GroundErr, ground};
use bd_task::Task;
use pddl_domain::read_domain;
use pddl_lex::{LexErr, Sexp, read_tree};
use pddl_problem::read_problem;
use pddl_types::{Call, Domain, Problem};
use plan_calls::list_of;
use seq_check::{Broken, validate};
use std::alloc::Global;

fn tree_of(alloc: Global, text: &[u8]) -> Result<Sexp, TextErr>
    requires { length text.now ≤ 16_777_216 }
    ensures { Gives (λ t. t) result (treed (tree_in text.now)) }
{
    match read_tree(alloc, text) {
        Ok(tree) => Ok(tree),
        Err(LexErr::Bad(place)) => Err(TextErr::At {
            place,
            cause: Cause::Bad,
        }),
        Err(LexErr::Unclosed(place)) => Err(TextErr::At {
            place,
            cause: Cause::Unclosed,
        }),
        Err(LexErr::Extra(place)) => Err(TextErr::At {
            place,
            cause: Cause::Extra,
        }),
        Err(LexErr::TooDeep(place)) => Err(TextErr::At {
            place,
            cause: Cause::TooDeep,
        }),
        Err(LexErr::NoMemory) => Err(TextErr::NoMemory),
    }
}

/// The domain that a text gives within its limit, the limit where it is passed, or the first fault.
pub fn domain_from(alloc: Global, text: &[u8]) -> Result<Domain, TextErr>
    requires { length text.now ≤ 16_777_216 }
    ensures first { Answers domain_over result (domain_in text.now) }
    ensures read { IfOk result IsRead }
{
    match tree_of(alloc, text) {
        Ok(tree) => read_domain(alloc, &tree),
        Err(e) => Err(e),
    }
}

/// The problem for the domain that a text gives within its limit, the limit where it is passed, or the first fault.
pub fn problem_from(alloc: Global, domain: &Domain, text: &[u8]) -> Result<Problem, TextErr>
    requires { length text.now ≤ 16_777_216 }
    ensures first { Answers (problem_over domain.now) result (problem_in domain.now text.now) }
    ensures read { IfOk result (λ p. IsRead domain.now → IsReadFor domain.now p) }
{
    match tree_of(alloc, text) {
        Ok(tree) => read_problem(alloc, domain, &tree),
        Err(e) => Err(e),
    }
}

fn task_from(alloc: Global, domain: &Domain, problem: &Problem) -> Result<Task, TextErr>
    requires domain { IsDomain domain.now }
    requires problem { IsProblem domain.now problem.now }
    ensures { GroundsTo domain.now problem.now result }
{
    match ground(alloc, domain, problem) {
        Ok(task) => Ok(task),
        Err(GroundErr::TooManyActions { count }) => Err(TextErr::Over {
            limit: Limit::Actions,
            count,
        }),
        Err(GroundErr::TooManyFacts { count }) => Err(TextErr::Over {
            limit: Limit::Facts,
            count,
        }),
        Err(GroundErr::NoMemory) => Err(TextErr::NoMemory),
    }
}

/// What the error of a part leads to.
pub fn refused(part: Part, error: TextErr) -> Inputs
    ensures { result ≡ refusal_of part error }
{
    match error {
        TextErr::At { place, cause } => Inputs::Refused { part, place, cause },
        TextErr::Over { limit, count } => Inputs::Over { limit, count },
        TextErr::NoMemory => Inputs::NoMemory,
    }
}

// Whether the plan is valid, with its cost, or its first break.
fn judged(alloc: Global, task: Task, plan: ActList) -> Inputs
    requires in_range { All (λ a. a < length task.actions) plan }
    requires short { length plan < 2 ^ 32 }
    ensures judged { Unless result (result ≡ judged_plan task plan (first_break task plan)) }
    ensures told { IsInTask result }
{
    match validate(alloc, &task, plan.as_slice()) {
        Ok(cost) => Inputs::Ready { task, plan, cost },
        Err(Broken::NoMemory) => Inputs::NoMemory,
        Err(broken) => Inputs::Broken { task, broken },
    }
}

/// What the calls of a plan lead to.
pub fn judged_calls(alloc: Global, domain: &Domain, problem: &Problem, calls: &[Call]) -> Inputs
    requires domain { IsDomain domain.now }
    requires problem { IsProblem domain.now problem.now }
    requires few { length calls.now ≤ 2_000 }
    ensures judged { Unless result (result ≡ calls_end domain.now problem.now calls.now) }
    ensures told { IsInTask result }
{
    match task_from(alloc, domain, problem) {
        Err(error) => refused(Part::Plan, error),
        Ok(task) => match list_of(alloc, domain, problem, &task, calls) {
            Err(error) => refused(Part::Plan, error),
            Ok(plan) => judged(alloc, task, plan),
        },
    }
}

ghost use Rattle.std.specs.Prelude.{◌≡◌, ◌<◌, ◌^◌, All, None, length, slice_index_or, IfOk};
ghost use Rattle.bd_base.specs.declared.text_err.TextErr.TheVariants.{At as IsAt};
ghost use Rattle.pddl_types.specs.Readable.{IsDomain, IsProblem};
ghost use Rattle.plan_calls.specs.Judging.{judged};
ghost use Rattle.plan_calls.specs.Listing.{cause_of, Lists};

use crate::judging::{Judged, judge_call};
use crate::resolving::calls_of;
use bd_base::{ActList, ActionId, Cause, FromItems, Items, TextErr};
use bd_task::Task;
use pddl_types::{Call, Domain, Problem};
use std::alloc::Global;

fn cause_of(judged: Judged) -> Cause
    ensures { result ≡ cause_of judged }
{
    match judged {
        Judged::NoCost => Cause::NoCost,
        Judged::NoAction => Cause::NoAction,
        Judged::Instance => Cause::NoAction,
    }
}

// Why a call that isn't found is none, at its place.
fn refused(domain: &Domain, problem: &Problem, call: &Call) -> TextErr
    requires domain { IsDomain domain.now }
    requires problem { IsProblem domain.now problem.now }
    ensures { result ≡ IsAt call.now.place (cause_of (judged domain.now problem.now call.now)) }
{
    TextErr::At {
        place: call.place,
        cause: cause_of(judge_call(domain, problem, call)),
    }
}

fn found_at(found: &[Option<ActionId>], i: usize) -> Option<ActionId>
    ensures { result ≡ slice_index_or found.now i None }
{
    match found.get(i) {
        None => None,
        Some(a) => *a,
    }
}

/// The actions that the calls of a plan are, or the first call that is none, told at its place: it lacks its cost, or
/// is no action.
pub fn list_of(
    alloc: Global,
    domain: &Domain,
    problem: &Problem,
    task: &Task,
    calls: &[Call],
) -> Result<ActList, TextErr>
    requires domain { IsDomain domain.now }
    requires problem { IsProblem domain.now problem.now }
    requires short { length calls.now < 2 ^ 32 }
    ensures listed { Lists domain.now problem.now task.now.actions calls.now result }
    ensures in_range { IfOk result (λ list. All (λ a. a < length task.now.actions) list) }
{
    let found = calls_of(alloc, task, calls)?;
    let mut list = Vec::new(alloc);
    for (i, call) in calls.iter().enumerate() {
        match found_at(&found, i) {
            None => return Err(refused(domain, problem, call)),
            Some(a) => list.push(a)?,
        }
    }
    Ok(Items::of(list))
}

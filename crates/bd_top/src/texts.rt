ghost use Rattle.std.specs.Prelude.{◌≡◌, ◌≤◌, ℕ, List};
ghost use Rattle.task_inputs.specs.Inputs.{IsInTask};
ghost use Rattle.bd_top.specs.Prepared.{PreparesErrands, PreparesTexts, IsPreparedOf, file_by, name_by};

use crate::notes::{broken_note, over_note, refused_note, unread_note};
use crate::prepare::{Prepared, refused, unread};
use crate::purpose::Purpose;
use crate::status::{File, Status};
use bd_base::Shelf;
use command_words::TextNames;
use errand_inputs::generated_inputs;
use std::alloc::Global;
use task_inputs::{Inputs, Part, inputs};

fn file_of(part: Part) -> File
    ensures { result ≡ file_by part }
{
    match part {
        Part::Domain => File::Domain,
        Part::Problem => File::Problem,
        Part::Plan => File::Plan,
    }
}

fn name_of<'a>(names: &TextNames<'a>, part: Part) -> &'a str
    ensures { result.now ≡ name_by (record { domain = names.now.domain.now; problem = names.now.problem.now; plan = names.now.plan.now }) part }
{
    match part {
        Part::Domain => names.domain,
        Part::Problem => names.problem,
        Part::Plan => names.plan,
    }
}

// What is prepared of what texts lead to.
fn told(alloc: Global, names: &TextNames, purpose: Purpose, inputs: Inputs) -> Prepared
    requires { IsInTask inputs }
    ensures { IsPreparedOf purpose (record { domain = names.now.domain.now; problem = names.now.problem.now; plan = names.now.plan.now }) inputs result }
{
    match inputs {
        Inputs::Ready { task, plan, cost } => {
            match purpose {
                Purpose::Check => Prepared::Valid { cost },
                Purpose::Deorder { span } => Prepared::Plan { task, plan, span },
                Purpose::Improve { numbers } => Prepared::Improvable {
                    task,
                    plan,
                    numbers,
                },
            }
        }
        Inputs::Unread { part, missing } => unread(alloc, name_of(names, part), missing),
        Inputs::Refused { part, place, cause } => {
            let file = file_of(part);
            let line = refused_note(alloc, file, place, &cause);
            refused(Status::TextRefused { file, place, cause }, line)
        }
        Inputs::Over { limit, count } => {
            let line = over_note(alloc, limit, count);
            refused(Status::OverLimit { limit, count }, line)
        }
        Inputs::Broken { task, broken } => {
            let line = broken_note(alloc, &task, &broken);
            refused(Status::PlanInvalid(broken), line)
        }
        Inputs::NoMemory => Prepared::NoMemory,
    }
}

/// Reads and judges three texts, whose plan is there for a purpose. The shelf still tells what it told.
pub fn prepare_texts<H: Shelf>(
    alloc: Global,
    names: &TextNames,
    purpose: Purpose,
    shelf: &mut H,
) -> Prepared
    ensures prepared { PreparesTexts purpose (record { domain = names.now.domain.now; problem = names.now.problem.now; plan = names.now.plan.now }) (H.tells shelf.old)
        (record { faults = H.faults shelf.old; faults_after = H.faults shelf.new; longs = H.longs shelf.old; longs_after = H.longs shelf.new }) result }
    ensures told { (n : List ℕ) → H.tells shelf.new n ≡ H.tells shelf.old n }
{
    let result = inputs(alloc, names.domain, names.problem, names.plan, shelf);
    told(alloc, names, purpose, result)
}

/// Generates and judges the texts of so many errands.
pub(crate) fn prepare_errands(alloc: Global, size: u32) -> Prepared
    requires { (1 ≤ size) × (size ≤ 600) }
    ensures { PreparesErrands size result }
{
    let names = TextNames {
        domain: "domain",
        problem: "problem",
        plan: "plan",
    };
    match generated_inputs(alloc, size) {
        Inputs::Ready { task, plan, .. } => Prepared::Errands { task, plan },
        other => told(alloc, &names, Purpose::Check, other),
    }
}

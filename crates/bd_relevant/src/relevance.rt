ghost use Rattle.std.specs.Prelude.{◌≡◌, [], ◌<◌, length, Some, IfSome, IfOk, OnOk, slice_get};
ghost use Rattle.bd_cut.specs.Cut.{is_kept, AreRelevant};
ghost use Rattle.bd_relevant.specs.Uses.{AreUses, TakesUses};

use bd_base::{ActionId, FactId, FactSet, NoMemory};
use bd_task::{Action, Task};
use std::alloc::Global;

/// Whether an action adds a relevant fact.
pub(crate) fn is_kept(relevant: &FactSet, action: &Action) -> bool
    ensures { result ≡ is_kept relevant.now action.now }
{
    action.add.meets(relevant)
}

// Puts in what an action uses and what it deletes, if it adds a relevant fact.
fn put_uses(
    alloc: Global,
    relevant: &FactSet,
    action: &Action,
    used: &mut FactSet,
    deleted: &mut FactSet,
) -> Result<(), NoMemory>
    ensures { OnOk result (TakesUses relevant.now action.now used.old deleted.old used.new deleted.new) }
{
    if !is_kept(relevant, action) {
        return Ok(());
    }
    used.join(alloc, &action.pre)?;
    deleted.join(alloc, &action.del)?;
    Ok(())
}

// The goal facts with the preconditions of the actions that add a relevant fact, and what those actions delete.
#[tactic(auto, using(crate::proofs::MissingLemmas::uses_first, crate::proofs::MissingLemmas::uses_more))]
fn uses_of(alloc: Global, task: &Task, relevant: &FactSet) -> Result<(FactSet, FactSet), NoMemory>
    ensures { IfOk result (λ uses. AreUses task.now relevant.now (length task.now.actions) uses.0 uses.1) }
{
    let mut used = task.goal().try_copy(alloc)?;
    let mut deleted = FactSet::new();
    for a in 0..task.actions() {
        put_uses(
            alloc,
            relevant,
            task.action(ActionId(a)),
            &mut used,
            &mut deleted,
        )?;
    }
    Ok((used, deleted))
}

// The used facts that aren't among the relevant ones, although they aren't true at the start or are deleted.
fn missing_of(
    alloc: Global,
    task: &Task,
    relevant: &FactSet,
    used: FactSet,
    deleted: &FactSet,
) -> Result<FactSet, NoMemory>
    requires uses { AreUses task.now relevant.now (length task.now.actions) used deleted.now }
    ensures { IfOk result (λ facts. facts ≡ [] → AreRelevant task.now relevant.now) }
{
    let _start = task.init();
    let mut others = used;
    others.minus(relevant);
    let mut spared = others.try_copy(alloc)?;
    spared.minus(deleted);
    let mut lacking = others.try_copy(alloc)?;
    lacking.minus(task.init());
    others.minus(&spared);
    lacking.join(alloc, &others)?;
    Ok(lacking)
}

// The facts that are missing among the relevant ones.
fn missing(alloc: Global, task: &Task, relevant: &FactSet) -> Result<FactSet, NoMemory>
    ensures { IfOk result (λ facts. facts ≡ [] → AreRelevant task.now relevant.now) }
{
    let (used, deleted) = uses_of(alloc, task, relevant)?;
    missing_of(alloc, task, relevant, used, &deleted)
}

// The facts that are all that matter of a task: those that are missing are put in until there are none; nothing where that
// takes more rounds than the task has facts.
fn found_by_rounds(alloc: Global, task: &Task) -> Result<Option<FactSet>, NoMemory>
    ensures { IfOk result (λ found. IfSome found (AreRelevant task.now)) }
{
    let mut relevant = FactSet::new();
    for _ in 0..task.facts() + 1 {
        let facts = missing(alloc, task, &relevant)?;
        if facts.len() == 0 {
            return Ok(Some(relevant));
        }
        relevant.join(alloc, &facts)?;
    }
    Ok(None)
}

// All facts of a task, which are all that matter.
#[tactic(auto, using(crate::proofs::AllLemmas::more_facts))]
fn all_facts(alloc: Global, task: &Task) -> Result<FactSet, NoMemory>
    ensures { IfOk result (AreRelevant task.now) }
{
    let _start = task.init();
    let mut facts = FactSet::new();
    for f in 0..task.facts() {
        facts.insert(alloc, FactId(f))?;
    }
    Ok(facts)
}

/// Facts that are all that matter of a task. Each round of the search for them puts in one more at least; all facts stand in
/// for those that rounds don't find.
pub(crate) fn relevant_facts(alloc: Global, task: &Task) -> Result<FactSet, NoMemory>
    ensures { IfOk result (AreRelevant task.now) }
{
    match found_by_rounds(alloc, task)? {
        Some(relevant) => Ok(relevant),
        None => all_facts(alloc, task),
    }
}

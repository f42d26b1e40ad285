// Values worked by hand, each call that takes memory once with ample memory, and what no text can say: a number that is no
// action's, and the parts of a core.
ghost use Rattle.std.specs.Prelude.{◌+◌, ◌<◌, ◌^◌, length, IfOk};
ghost use Rattle.plan_core.specs.Replies.{IsLent};

use crate::made::{action, steps, task_of};
use bd_base::{ActList, ActionId, FactId, FromItems, IdList, Items, NoMemory, NodeId};
use bd_links::Fault;
use bd_merge::{Lean, Window};
use bd_task::{Action, Task};
use bd_tree::Tree;
use plan_core::{BeginErr, Core, Offer, Refusal, may_begin, replacements, tightenings};
use std::alloc::Global;
use std::test::Fail;

// From a to b, from b to c, from a to c at less than both, and one that needs and does nothing.
const AB: ActionId = ActionId(0);

const BC: ActionId = ActionId(1);

const AC: ActionId = ActionId(2);

const REST: ActionId = ActionId(3);

// An action that takes some facts for others.
fn way(alloc: Global, cost: u64, from: &[u32], to: &[u32]) -> Result<Action, NoMemory> {
    action(alloc, cost, from, to, from)
}

// From a to c, of the facts a, b and c.
fn task(alloc: Global) -> Result<Option<Task>, NoMemory> {
    let mut actions = Vec::new(alloc);
    actions.push(way(alloc, 3, &[0], &[1])?)?;
    actions.push(way(alloc, 3, &[1], &[2])?)?;
    actions.push(way(alloc, 2, &[0], &[2])?)?;
    actions.push(way(alloc, 1, &[], &[])?)?;
    task_of(alloc, 3, actions, &[0], &[2])
}

// What is told where a core is to open on the chain of a plan, if it may.
fn begun(alloc: Global, plan: &[ActionId]) -> Result<Option<Result<Core, BeginErr>>, NoMemory>
    requires { length plan.now + 1 < 2 ^ 32 }
{
    let start = Tree::chain(alloc, plan)?;
    let task = match task(alloc)? {
        Some(task) => task,
        None => return Ok(None),
    };
    if !may_begin(&task, &start) {
        return Ok(None);
    }
    Ok(Some(Core::begin(alloc, task, start, 2)))
}

#[test]
fn no_core_opens_on_half_of_the_way(rt: HostRuntime) -> Result<(), Fail> {
    let missed = BeginErr::Unsound(Fault::Goal { fact: FactId(2) });
    let told = begun(rt.alloc(), &[AB, REST])?;
    match &told {
        Some(Err(why)) => assert_eq!(rt; *why, missed),
        _ => return Err(Fail::from("no cause")),
    }
    assert!(rt; begun(rt.alloc(), &[AB, ActionId(4)])?.is_none());
    Ok(())
}

// The way over b is replaced by a list.
fn replacing(alloc: Global, list: &[ActionId]) -> Result<Offer, NoMemory>
    requires { length list.now < 2 ^ 32 }
    ensures { IfOk result (λ offer. IsLent offer) }
{
    let kids = steps(alloc, &[(1, AB.0), (2, BC.0)])?;
    Ok(Offer::Replace {
        window: Window {
            block: NodeId(0),
            kids: Items::of(kids),
            lean: Lean::Early,
        },
        actions: ActList::from_slice(alloc, list)?,
    })
}

// The two rests are unordered.
fn loosening(alloc: Global) -> Result<Offer, NoMemory>
    ensures { IfOk result (λ offer. IsLent offer) }
{
    Ok(Offer::Tighten {
        block: NodeId(0),
        left: IdList::from_slice(alloc, &[NodeId(3)])?,
        right: IdList::from_slice(alloc, &[NodeId(4)])?,
    })
}

fn replies(alloc: Global, core: &mut Core, offer: &Offer, reply: Result<u64, Refusal>) -> bool
    requires { IsLent offer.now }
{
    core.offer(alloc, offer) == reply
}

fn is_listed(alloc: Global, tree: &Tree, list: &[ActionId]) -> Result<bool, NoMemory> {
    Ok(tree.listed(alloc)?.as_slice() == list)
}

// Whether the core comes apart into its task, its start tree, its one tightening, and its tree.
fn comes_apart(alloc: Global, core: Core) -> Result<bool, NoMemory> {
    let (task, start, history, tree) = core.into_parts();
    Ok(
        task.actions() == 4
            && is_listed(alloc, &start, &[AB, BC, REST, REST])?
            && tightenings(&history) == 1
            && replacements(&history) == 0
            && is_listed(alloc, &tree, &[AB, BC, REST, REST])?,
    )
}

#[test]
fn a_core_takes_a_tightening_and_comes_apart(rt: HostRuntime) -> Result<(), Fail> {
    let told = begun(rt.alloc(), &[AB, BC, REST, REST])?;
    let mut core = told.ok_or("no task")?.ok().ok_or("no core")?;
    let offer = loosening(rt.alloc())?.try_copy(rt.alloc())?;
    assert!(rt; replies(rt.alloc(), &mut core, &offer, Ok(1)));
    if core.history().len() >= 1 {
        let tree = core.at(rt.alloc(), 1)?;
        assert!(rt; is_listed(rt.alloc(), &tree, &[AB, BC, REST, REST])?);
    }
    assert!(rt; comes_apart(rt.alloc(), core)?);
    Ok(())
}

// No text says a number that is no action's.
#[test]
fn a_number_that_is_no_actions_is_told(rt: HostRuntime) -> Result<(), Fail> {
    let told = begun(rt.alloc(), &[AB, BC])?;
    let mut core = told.ok_or("no task")?.ok().ok_or("no core")?;
    let offer = replacing(rt.alloc(), &[AC, ActionId(7), ActionId(4)])?;
    let unknown = Refusal::NoAction { number: 7 };
    assert!(rt; replies(rt.alloc(), &mut core, &offer, Err(unknown)));
    Ok(())
}

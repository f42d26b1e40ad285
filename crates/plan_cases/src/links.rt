// Values worked by hand, and each call that takes memory once with ample memory.
ghost use Rattle.std.specs.Prelude.{◌+◌, ◌<◌, ◌^◌, length};

use crate::made::{action, step, task_of};
use bd_base::{ActionId, FactId, FactSet, NoMemory, PairList};
use bd_links::{
    Effects, Fault, Touches, actions_fit, adds_of_all, all_later, as_child, check, deleters,
    effects, givers, is_linked, node_cost, touches_of,
};
use bd_task::Task;
use bd_tree::Tree;
use std::alloc::Global;
use std::test::Fail;

// The facts: to be at a, to be at b, and to have x.
const A: u32 = 0;

const B: u32 = 1;

const X: u32 = 2;

// From a to b; at b, get x; from b to a.
const GO: ActionId = ActionId(0);

const GET: ActionId = ActionId(1);

const BACK: ActionId = ActionId(2);

// From a, get x and come back.
fn trip(alloc: Global) -> Result<Option<Task>, NoMemory> {
    let mut actions = Vec::new(alloc);
    actions.push(action(alloc, 3, &[A], &[B], &[A])?)?;
    actions.push(action(alloc, 1, &[B], &[X], &[])?)?;
    actions.push(action(alloc, 3, &[B], &[A], &[B])?)?;
    task_of(alloc, 3, actions, &[A], &[A, X])
}

// What the check tells of the chain of a list.
fn told(alloc: Global, list: &[ActionId]) -> Result<Option<Option<Fault>>, NoMemory>
    requires { length list.now + 1 < 2 ^ 32 }
{
    let tree = Tree::chain(alloc, list)?;
    match trip(alloc)? {
        Some(task) if actions_fit(&task, tree.root()) => Ok(Some(check(alloc, &task, &tree)?)),
        _ => Ok(None),
    }
}

#[test]
fn the_trip_is_sound_and_half_of_it_is_not(rt: HostRuntime) -> Result<(), Fail> {
    assert_eq!(rt; told(rt.alloc(), &[GO, GET, BACK])?, Some(None));
    let missed = Fault::Goal { fact: FactId(A) };
    assert_eq!(rt; told(rt.alloc(), &[GO, GET])?, Some(Some(missed)));
    Ok(())
}

// What the chain of the trip needs, gives and deletes, and what it costs.
fn measured(alloc: Global, list: &[ActionId]) -> Result<Option<(Effects, u64)>, NoMemory>
    requires { length list.now + 1 < 2 ^ 32 }
{
    let tree = Tree::chain(alloc, list)?;
    match trip(alloc)? {
        Some(task) if actions_fit(&task, tree.root()) => {
            let e = effects(alloc, &task, tree.root())?;
            Ok(Some((e, node_cost(&task, tree.root()))))
        }
        _ => Ok(None),
    }
}

// Whether the set has these facts and no other.
fn is_set(s: &FactSet, facts: &[u32]) -> bool {
    s.len() == facts.len() && facts.iter().all(|f| s.has(FactId(*f)))
}

#[test]
fn the_trip_takes_nothing_but_the_way(rt: HostRuntime) -> Result<(), Fail> {
    let (e, cost) = measured(rt.alloc(), &[GO, GET, BACK])?.ok_or("no task")?;
    assert!(rt; is_set(&e.need, &[A]) && is_set(&e.add, &[A, X]) && is_set(&e.del, &[B]));
    assert_eq!(rt; cost, 7);
    Ok(())
}

// Of kids to b, for x and back: who gives and who deletes the fact of b, and that the way back, which isn't
// ordered with getting x, is linked for it while getting x is not.
fn is_b_told(order: &PairList, touches: &Touches) -> bool {
    givers(touches, FactId(B)) == [0].as_slice()
        && deleters(touches, FactId(B)) == [2].as_slice()
        && is_linked(order, touches, 2, FactId(B))
        && !is_linked(order, touches, 1, FactId(B))
        && !all_later(order, touches, 1, FactId(B))
}

fn are_kids_told(alloc: Global, task: &Task, actions: &[ActionId]) -> Result<bool, NoMemory> {
    let order = PairList::of(alloc, &[(0, 1), (0, 2)])?;
    let mut kids = Vec::new(alloc);
    for action in actions {
        let step = step(1, action.0);
        if actions_fit(task, &step) {
            kids.push(as_child(alloc, task, &step)?)?;
        }
    }
    let touches = touches_of(alloc, &kids)?;
    Ok(is_b_told(&order, &touches) && is_set(&adds_of_all(alloc, &kids)?, &[A, B, X]))
}

#[test]
fn kids_are_linked_past_what_deletes(rt: HostRuntime) -> Result<(), Fail> {
    let task = trip(rt.alloc())?.ok_or("no task")?;
    assert!(rt; are_kids_told(rt.alloc(), &task, &[GO, GET, BACK])?);
    Ok(())
}

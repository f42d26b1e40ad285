// What the cases are made of.
use bd_base::{ActionId, FactId, FactSet, FromItems, Items, NoMemory, NodeId, PairList, Text};
use bd_task::{Action, Task, is_task};
use bd_tree::Node;
use std::alloc::Global;

pub(crate) fn set(alloc: Global, facts: &[u32]) -> Result<FactSet, NoMemory> {
    let mut items = Vec::new(alloc);
    for f in facts {
        items.push(FactId(*f))?;
    }
    FactSet::of(items)
}

pub(crate) fn action(
    alloc: Global,
    cost: u64,
    pre: &[u32],
    add: &[u32],
    del: &[u32],
) -> Result<Action, NoMemory> {
    Ok(Action {
        name: Items::of(b"go".to_vec(alloc)?),
        cost,
        pre: set(alloc, pre)?,
        add: set(alloc, add)?,
        del: set(alloc, del)?,
    })
}

// The task of so many facts and these actions, if it is one.
pub(crate) fn task_of(
    alloc: Global,
    facts: u32,
    actions: Vec<Action>,
    init: &[u32],
    goal: &[u32],
) -> Result<Option<Task>, NoMemory> {
    let mut names = Vec::new(alloc);
    for _ in 0..facts {
        names.push(Text::from_slice(alloc, b"f")?)?;
    }
    let (init, goal) = (set(alloc, init)?, set(alloc, goal)?);
    if !is_task(&names, &actions, &init, &goal) {
        return Ok(None);
    }
    Ok(Some(Task::new(names, actions, init, goal)))
}

pub(crate) fn step(id: u64, action: u32) -> Node {
    Node::Step {
        id: NodeId(id),
        action: ActionId(action),
    }
}

// Steps with these ids and actions.
pub(crate) fn steps(alloc: Global, steps: &[(u64, u32)]) -> Result<Vec<Node>, NoMemory> {
    let mut kids = Vec::new(alloc);
    for (id, action) in steps {
        kids.push(step(*id, *action))?;
    }
    Ok(kids)
}

pub(crate) fn block(
    alloc: Global,
    id: u64,
    kids: Vec<Node>,
    pairs: &[(u32, u32)],
) -> Result<Node, NoMemory> {
    Ok(Node::Block {
        id: NodeId(id),
        kids: Items::of(kids),
        order: PairList::of(alloc, pairs)?,
    })
}

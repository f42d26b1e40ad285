// What the cases are made of.
use bd_base::{FactSet, FromItems, Items, NoMemory, Text};
use bd_task::{Action, Task, is_task};
use pddl_types::{Domain, Head, Problem, TypeDecl};
use std::alloc::Global;

pub(crate) fn text(alloc: Global, name: &str) -> Result<Text, NoMemory> {
    Ok(Items::of(name.as_bytes().to_vec(alloc)?))
}

pub(crate) fn head(alloc: Global, name: &str, arity: u32) -> Result<Head, NoMemory> {
    Ok(Head {
        name: text(alloc, name)?,
        arity,
    })
}

// The one type that each domain has.
pub(crate) fn object_type(alloc: Global) -> Result<Items<TypeDecl>, NoMemory> {
    let object = TypeDecl {
        name: text(alloc, "object")?,
        parent: 0,
    };
    Ok(Items::of(vec![in alloc; object]?))
}

// A domain and a problem without any type, object or action.
pub(crate) fn nothing(alloc: Global) -> (Domain, Problem) {
    let domain = Domain {
        types: Items::of(Vec::new(alloc)),
        constants: Items::of(Vec::new(alloc)),
        predicates: Items::of(Vec::new(alloc)),
        functions: Items::of(Vec::new(alloc)),
        schemas: Items::of(Vec::new(alloc)),
    };
    let problem = Problem {
        objects: Items::of(Vec::new(alloc)),
        init: Items::of(Vec::new(alloc)),
        values: Items::of(Vec::new(alloc)),
        goal: Items::of(Vec::new(alloc)),
        metric: false,
    };
    (domain, problem)
}

// A task of actions with these names, which need and do nothing.
pub(crate) fn tasked(alloc: Global, names: &[&str]) -> Result<Option<Task>, NoMemory> {
    let mut actions = Vec::new(alloc);
    for name in names {
        actions.push(Action {
            name: text(alloc, name)?,
            cost: 1,
            pre: FactSet::new(),
            add: FactSet::new(),
            del: FactSet::new(),
        })?;
    }
    let facts = Vec::new(alloc);
    let sets = (FactSet::new(), FactSet::new());
    if !is_task(&facts, &actions, &sets.0, &sets.1) {
        return Ok(None);
    }
    Ok(Some(Task::new(facts, actions, sets.0, sets.1)))
}

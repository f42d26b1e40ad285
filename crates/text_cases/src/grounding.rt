use crate::made::{head, object_type, text};
use bd_base::{ActionId, FactId, FromItems, Items, NoMemory};
use bd_ground::ground;
use bd_task::Task;
use pddl_types::{
    Atom, CostTerm, Domain, Given, Problem, Schema, Term, Thing, is_domain, is_problem,
};
use std::alloc::Global;
use std::test::Fail;

fn atom(alloc: Global, head: u32, terms: &[Term]) -> Result<Atom, NoMemory> {
    Ok(Atom {
        head,
        args: Items::of(Vec::from_slice(alloc, terms)?),
    })
}

fn one(alloc: Global, head: u32, terms: &[Term]) -> Result<Items<Atom>, NoMemory> {
    let mut atoms = Vec::new(alloc);
    atoms.push(atom(alloc, head, terms)?)?;
    Ok(Items::of(atoms))
}

// A drive from the first place to the second, along a road whose length it costs.
fn drive(alloc: Global) -> Result<Schema, NoMemory> {
    let mut pre = Vec::new(alloc);
    pre.push(atom(alloc, 0, &[Term::Param(0)])?)?;
    pre.push(atom(alloc, 1, &[Term::Param(0), Term::Param(1)])?)?;
    Ok(Schema {
        name: text(alloc, "drive")?,
        params: Items::of(Vec::from_slice(alloc, &[0, 0])?),
        pre: Items::of(pre),
        equal: Items::of(Vec::new(alloc)),
        differ: Items::of(Vec::new(alloc)),
        add: one(alloc, 0, &[Term::Param(1)])?,
        del: one(alloc, 0, &[Term::Param(0)])?,
        cost: CostTerm::Value(atom(alloc, 0, &[Term::Param(0), Term::Param(1)])?),
    })
}

fn roads(alloc: Global) -> Result<Domain, NoMemory> {
    let mut predicates = Vec::new(alloc);
    predicates.push(head(alloc, "at", 1)?)?;
    predicates.push(head(alloc, "road", 2)?)?;
    let mut functions = Vec::new(alloc);
    functions.push(head(alloc, "len", 2)?)?;
    let mut schemas = Vec::new(alloc);
    schemas.push(drive(alloc)?)?;
    Ok(Domain {
        types: object_type(alloc)?,
        constants: Items::of(Vec::new(alloc)),
        predicates: Items::of(predicates),
        functions: Items::of(functions),
        schemas: Items::of(schemas),
    })
}

// Three places in a row: the roads from the first to the second and back have lengths, that to the third has none.
fn three_places(alloc: Global) -> Result<Problem, NoMemory> {
    let mut objects = Vec::new(alloc);
    for name in ["a", "b", "c"] {
        objects.push(Thing {
            name: text(alloc, name)?,
            kind: 0,
        })?;
    }
    let mut init = Vec::new(alloc);
    let mut values = Vec::new(alloc);
    for (from, to, number) in [(1, 0, 4), (0, 1, 3)] {
        let ends = [Term::Object(from), Term::Object(to)];
        init.push(atom(alloc, 1, &ends)?)?;
        values.push(Given {
            call: atom(alloc, 0, &ends)?,
            number,
        })?;
    }
    init.push(atom(alloc, 0, &[Term::Object(0)])?)?;
    init.push(atom(alloc, 1, &[Term::Object(1), Term::Object(2)])?)?;
    Ok(Problem {
        objects: Items::of(objects),
        init: Items::of(init),
        values: Items::of(values),
        goal: one(alloc, 0, &[Term::Object(1)])?,
        metric: true,
    })
}

fn grounded(alloc: Global) -> Result<Option<Task>, NoMemory> {
    let domain = roads(alloc)?;
    let problem = three_places(alloc)?;
    if !is_domain(&domain) || !is_problem(&domain, &problem) {
        return Ok(None);
    }
    match ground(alloc, &domain, &problem) {
        Ok(task) => Ok(Some(task)),
        Err(_) => Ok(None),
    }
}

fn has_fact(task: &Task, f: u32, name: &str) -> bool {
    f < task.facts() && *task.fact_name(FactId(f)) == *name.as_bytes()
}

// Whether an action has the name and the cost, and leads from one fact to another.
fn has_action(task: &Task, a: u32, name: &str, cost: u64, from: u32, to: u32) -> bool {
    if a >= task.actions() {
        return false;
    }
    let action = task.action(ActionId(a));
    *action.name.as_slice() == *name.as_bytes()
        && action.cost == cost
        && action.pre.has(FactId(from))
        && action.add.has(FactId(to))
        && action.del.has(FactId(from))
}

#[test]
fn roads_with_lengths_are_drives(rt: HostRuntime) -> Result<(), Fail> {
    let task = grounded(rt.alloc())?.ok_or("no task")?;
    assert_eq!(rt; task.facts(), 2);
    assert!(rt; has_fact(&task, 0, "at a"));
    assert!(rt; has_fact(&task, 1, "at b"));
    assert_eq!(rt; task.actions(), 2);
    assert!(rt; has_action(&task, 0, "drive a b", 3, 0, 1));
    assert!(rt; has_action(&task, 1, "drive b a", 4, 1, 0));
    Ok(())
}

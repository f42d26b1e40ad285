use crate::made::{head, object_type, text};
use bd_base::{FromItems, Items, NoMemory, TextErr};
use pddl_lex::read_tree;
use pddl_problem::read_problem;
use pddl_types::{Domain, Problem, Thing};
use std::alloc::Global;
use std::test::Fail;

// One type, one constant, one predicate and one function.
fn domain(alloc: Global) -> Result<Domain, NoMemory> {
    let constant = Thing {
        name: text(alloc, "c")?,
        kind: 0,
    };
    Ok(Domain {
        types: object_type(alloc)?,
        constants: Items::of(vec![in alloc; constant]?),
        predicates: Items::of(vec![in alloc; head(alloc, "at", 1)?]?),
        functions: Items::of(vec![in alloc; head(alloc, "len", 1)?]?),
        schemas: Items::of(Vec::new(alloc)),
    })
}

fn read(alloc: Global, text: &[u8]) -> Result<Problem, TextErr> {
    if text.len() > 1_000 {
        return Err(TextErr::NoMemory);
    }
    let domain = domain(alloc)?;
    match read_tree(alloc, text) {
        Ok(tree) => read_problem(alloc, &domain, &tree),
        Err(_) => Err(TextErr::NoMemory),
    }
}

fn has_counts(
    read: &Result<Problem, TextErr>,
    objects: usize,
    atoms: usize,
    values: usize,
) -> bool {
    match read {
        Ok(p) => {
            p.objects.as_slice().len() == objects
                && p.init.as_slice().len() == atoms
                && p.values.as_slice().len() == values
        }
        Err(_) => false,
    }
}

#[test]
fn a_problem_is_read(rt: HostRuntime) -> Result<(), Fail> {
    let alloc = rt.alloc();
    let read = read(
        alloc,
        b"(define (problem p) (:objects a b c) (:init (at a) (at a) (at c) (= (len a) 1)) (:goal (and (at b))))",
    );
    assert!(rt; has_counts(&read, 2, 2, 1));
    Ok(())
}

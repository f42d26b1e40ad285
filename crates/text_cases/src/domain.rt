use bd_base::{Cause, TextErr};
use pddl_domain::read_domain;
use pddl_lex::read_tree;
use pddl_types::Domain;
use std::alloc::Global;
use std::test::Fail;

fn read(alloc: Global, text: &[u8]) -> Result<Domain, TextErr> {
    if text.len() > 1_000 {
        return Err(TextErr::NoMemory);
    }
    match read_tree(alloc, text) {
        Ok(tree) => read_domain(alloc, &tree),
        Err(_) => Err(TextErr::NoMemory),
    }
}

fn has_counts(
    read: &Result<Domain, TextErr>,
    types: usize,
    predicates: usize,
    schemas: usize,
) -> bool {
    match read {
        Ok(d) => {
            d.types.as_slice().len() == types
                && d.predicates.as_slice().len() == predicates
                && d.schemas.as_slice().len() == schemas
        }
        Err(_) => false,
    }
}

#[test]
fn a_domain_is_read(rt: HostRuntime) -> Result<(), Fail> {
    let alloc = rt.alloc();
    let read = read(
        alloc,
        b"(define (domain d) (:types a - b) (:predicates (at ?x - a) (on)) (:functions (total-cost)) (:action go :parameters (?x - b) :precondition (not (= ?x ?x)) :effect (and (on) (not (at ?x)) (increase (total-cost) 2.0))))",
    );
    assert!(rt; has_counts(&read, 3, 2, 1));
    Ok(())
}

#[test]
fn a_negated_atom_is_outside_the_profile(rt: HostRuntime) -> Result<(), Fail> {
    let alloc = rt.alloc();
    let read = read(
        alloc,
        b"(define (domain d) (:predicates (p)) (:action a :precondition (not (p)) :effect (p)))",
    );
    assert!(rt;
        matches!(
            read,
            Err(TextErr::At {
                place: 62,
                cause: Cause::Unsupported(_)
            })
        )
    );
    Ok(())
}

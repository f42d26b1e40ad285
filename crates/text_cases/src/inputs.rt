use bd_base::{MemShelf, NoMemory, Text};
use std::alloc::Global;
use std::test::Fail;
use task_inputs::{Inputs, inputs};

const DOMAIN: &[u8] = b"(define (domain d) (:predicates (on)) (:action go :effect (on)))";

const PROBLEM: &[u8] = b"(define (problem p) (:init) (:goal (on)))";

fn text_of(alloc: Global, bytes: &[u8]) -> Result<Text, NoMemory> {
    Ok(Text::from_slice(alloc, bytes)?)
}

// A shelf with a domain, a problem and a plan.
fn shelf_of(alloc: Global, plan: &[u8]) -> Result<MemShelf, NoMemory> {
    let names = vec![in alloc;
        text_of(alloc, b"d")?,
        text_of(alloc, b"p")?,
        text_of(alloc, b"q")?,
    ]?;
    let texts = vec![in alloc;
        text_of(alloc, DOMAIN)?,
        text_of(alloc, PROBLEM)?,
        text_of(alloc, plan)?,
    ]?;
    Ok(MemShelf::new(names, texts, Vec::new(alloc)))
}

#[test]
fn a_valid_plan_is_ready(rt: HostRuntime) -> Result<(), Fail> {
    let alloc = rt.alloc();
    let mut shelf = shelf_of(alloc, b"(go)")?;
    match inputs(alloc, "d", "p", "q", &mut shelf) {
        Inputs::Ready { cost, .. } => assert_eq!(rt; cost, 1),
        _ => assert!(rt; false),
    }
    Ok(())
}

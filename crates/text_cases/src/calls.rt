use crate::made::{nothing, tasked, text};
use bd_base::{ActionId, FromItems, Items, NoMemory};
use pddl_types::{Call, is_domain, is_problem};
use plan_calls::{calls_of, list_of};
use std::alloc::Global;
use std::test::Fail;

fn call(alloc: Global, place: u32, words: &[&str]) -> Result<Call, NoMemory> {
    let mut args = Vec::new(alloc);
    let mut name = text(alloc, "")?;
    for (k, word) in words.iter().enumerate() {
        if k == 0 {
            name = text(alloc, word)?;
        } else {
            args.push(text(alloc, word)?)?;
        }
    }
    Ok(Call {
        place,
        name,
        args: Items::of(args),
    })
}

fn calls(alloc: Global) -> Result<Vec<Call>, NoMemory> {
    let mut calls = Vec::new(alloc);
    calls.push(call(alloc, 0, &["stop"])?)?;
    calls.push(call(alloc, 6, &["go", "a", "b"])?)?;
    Ok(calls)
}

#[test]
fn calls_are_resolved(rt: HostRuntime) -> Result<(), Fail> {
    let alloc = rt.alloc();
    let task = tasked(alloc, &["go a b", "stop"])?.ok_or("no task")?;
    let calls = calls(alloc)?;
    assert!(rt; calls.len() < 3);
    let found = calls_of(alloc, &task, &calls)?;
    assert_eq!(rt;
        found.as_slice(),
        [Some(ActionId(1)), Some(ActionId(0))].as_slice()
    );
    Ok(())
}

#[test]
fn a_plan_is_listed(rt: HostRuntime) -> Result<(), Fail> {
    let alloc = rt.alloc();
    let task = tasked(alloc, &["go a b", "stop"])?.ok_or("no task")?;
    let calls = calls(alloc)?;
    let (domain, problem) = nothing(alloc);
    assert!(rt; calls.len() < 3);
    assert!(rt; is_domain(&domain));
    assert!(rt; is_problem(&domain, &problem));
    let list = list_of(alloc, &domain, &problem, &task, &calls)?;
    assert_eq!(rt; list.as_slice(), [ActionId(1), ActionId(0)].as_slice());
    Ok(())
}

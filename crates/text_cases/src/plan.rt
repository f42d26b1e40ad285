use crate::made::{nothing, tasked};
use bd_base::{ActionId, Cause, Items, MemSink, TextErr};
use pddl_types::Call;
use plan_text::{print_plan, read_plan};
use std::alloc::Global;
use std::test::Fail;

// A domain and a problem without any action or object.
fn read(alloc: Global, text: &[u8]) -> Result<Items<Call>, TextErr> {
    if text.len() > 1_000 {
        return Err(TextErr::NoMemory);
    }
    let (domain, problem) = nothing(alloc);
    read_plan(alloc, &domain, &problem, text)
}

#[test]
fn an_empty_plan_is_read(rt: HostRuntime) -> Result<(), Fail> {
    let alloc = rt.alloc();
    assert!(rt; read(alloc, b"; cost = 0").is_ok());
    assert!(rt;
        matches!(
            read(alloc, b" (go)"),
            Err(TextErr::At {
                place: 2,
                cause: Cause::Unknown(_)
            })
        )
    );
    Ok(())
}

#[test]
fn a_plan_is_printed(rt: HostRuntime) -> Result<(), Fail> {
    let alloc = rt.alloc();
    let task = tasked(alloc, &["go a"])?.ok_or("no task")?;
    let mut sink = MemSink::new(alloc, 100, Vec::new(alloc))?;
    assert!(rt; task.actions() > 0);
    assert!(rt; print_plan(&mut sink, &task, &[ActionId(0), ActionId(0)]).is_ok());
    assert_eq!(rt; sink.written(), b"(go a)\n(go a)\n".as_slice());
    Ok(())
}

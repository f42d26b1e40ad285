// Two seats of one desk: what the one offers, the other sees.
ghost use Rattle.std.specs.Prelude.{IfOk};
ghost use Rattle.plan_core.specs.Replies.{IsLent};

use bd_base::{ActList, ActionId, FromItems, Items, NoMemory, NodeId};
use bd_merge::{Lean, Window};
use bd_tree::{Node, Tree};
use plan_core::{Core, Offer, may_begin};
use plan_desk::Desk;
use script_text::read_script;
use std::alloc::Global;
use std::test::*;

const LETTERS: &[u8] = b"bdpo-script 1
fact (a)
fact (b)
fact (c)
fact (x)
fact (y)
action (ab) 3 pre (a) add (b) del (a)
action (ba) 3 pre (b) add (a) del (b)
action (ac) 2 pre (a) add (c) del (a)
action (ca) 2 pre (c) add (a) del (c)
action (bc) 1 pre (b) add (c) del (b)
action (get1) 1 pre (b) add (x) del
action (get2) 1 pre (c) add (y) del
action (pip) 0 pre add del
action (flip) 1 pre add (a) del (a)
init (a)
goal (x) (y)
plan (ab) (get1) (ba) (ac) (get2)
end
";

const BA: ActionId = ActionId(1);

const AC: ActionId = ActionId(2);

const BC: ActionId = ActionId(4);

fn step(id: u64, action: ActionId) -> Node {
    Node::Step {
        id: NodeId(id),
        action,
    }
}

// A core on the chain of the plan.
fn core_of(alloc: Global) -> Result<Option<Core>, NoMemory> {
    let Ok(script) = read_script(alloc, LETTERS) else {
        return Ok(None);
    };
    let start = Tree::chain(alloc, script.plan.as_slice())?;
    if !may_begin(&script.task, &start) {
        return Ok(None);
    }
    Ok(Core::begin(alloc, script.task, start, 5).ok())
}

// The way over a is replaced by the one from b to c.
fn short_way(alloc: Global) -> Result<Offer, NoMemory>
    ensures { IfOk result (λ offer. IsLent offer) }
{
    let mut kids = Vec::new(alloc);
    kids.push(step(3, BA))?;
    kids.push(step(4, AC))?;
    Ok(Offer::Replace {
        window: Window {
            block: NodeId(0),
            kids: Items::of(kids),
            lean: Lean::Early,
        },
        actions: ActList::from_slice(alloc, &[BC])?,
    })
}

#[test]
fn what_one_seat_offers_the_other_sees(rt: HostRuntime) -> Result<(), Fail> {
    let core = core_of(rt.alloc())?.ok_or("no core")?;
    let Ok((desk, mut lead)) = Desk::begin(rt.alloc(), core) else {
        return Err(Fail::from("no desk"));
    };
    let mut other = desk.split(&mut lead)?;
    assert_eq!(rt; desk.newest(&mut lead), 0);
    assert_eq!(rt; desk.newest(&mut other), 0);
    let offer = short_way(rt.alloc())?;
    assert!(rt; desk.offer(&rt, rt.alloc(), &mut other, &offer).is_ok());
    assert_eq!(rt; desk.newest(&mut lead), 1);
    let look = desk.look(&rt, rt.alloc(), &mut lead)?;
    assert_eq!(rt; look.place, 1);
    assert_eq!(rt; look.tree.steps(), 4);
    let look = desk.look(&rt, rt.alloc(), &mut other)?;
    assert_eq!(rt; look.place, 1);
    assert!(rt; desk.offer(&rt, rt.alloc(), &mut lead, &offer).is_err());
    desk.join(&mut lead, other);
    let core = desk.close(lead);
    assert_eq!(rt; core.history().len(), 1);
    Ok(())
}

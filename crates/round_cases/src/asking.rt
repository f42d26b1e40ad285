// A proposer that counts how often it is asked, and a window whose search may close one state.
use bd_base::{ActList, ActionId, FromItems, Items, NoMemory, NodeId};
use bd_merge::{Lean, Window};
use bd_pieces::{Piece, Proposer, What};
use bd_search::Kind;
use bd_subtask::SubTask;
use bd_task::Task;
use bd_tree::{Node, Tree};
use bd_workers::{Round, Setup, round_alone};
use plan_core::{Core, Offer, may_begin};
use script_text::read_script;
use std::alloc::Global;
use std::test::Fail;

// Letters: the way over a in place of the one from b to c.
const LETTERS: &[u8] = b"bdpo-script 1
fact (a)
fact (b)
fact (c)
fact (x)
fact (y)
action (ab) 3 pre (a) add (b) del (a)
action (ba) 3 pre (b) add (a) del (b)
action (ac) 2 pre (a) add (c) del (a)
action (ca) 2 pre (c) add (a) del (c)
action (bc) 1 pre (b) add (c) del (b)
action (get1) 1 pre (b) add (x) del
action (get2) 1 pre (c) add (y) del
action (pip) 0 pre add del
action (flip) 1 pre add (a) del (a)
init (a)
goal (x) (y)
plan (ab) (get1) (ba) (ac) (get2)
end
";

const BA: ActionId = ActionId(1);

const AC: ActionId = ActionId(2);

const BC: ActionId = ActionId(4);

const GET2: ActionId = ActionId(6);

// It has the short way, and counts how often it is asked.
#[derive(Drop)]
struct Counting {
    asked: u64,
}

impl Proposer for Counting {
    fn propose(
        &mut self,
        alloc: Global,
        _task: &Task,
        _sub: &SubTask,
    ) -> Result<Option<ActList>, NoMemory> {
        self.asked = self.asked.saturating_add(1);
        Ok(Some(ActList::from_slice(alloc, &[BC, GET2])?))
    }
}

fn step(id: u64, action: ActionId) -> Node {
    Node::Step {
        id: NodeId(id),
        action,
    }
}

// The last three steps.
fn last_three(alloc: Global) -> Result<Window, NoMemory> {
    let mut kids = Vec::new(alloc);
    kids.push(step(3, BA))?;
    kids.push(step(4, AC))?;
    kids.push(step(5, GET2))?;
    Ok(Window {
        block: NodeId(0),
        kids: Items::of(kids),
        lean: Lean::Early,
    })
}

// A core on the chain of the plan.
fn core_of(alloc: Global) -> Result<Option<Core>, NoMemory> {
    let Ok(script) = read_script(alloc, LETTERS) else {
        return Ok(None);
    };
    let start = Tree::chain(alloc, script.plan.as_slice())?;
    if !may_begin(&script.task, &start) {
        return Ok(None);
    }
    Ok(Core::begin(alloc, script.task, start, 5).ok())
}

// Whether it is the replacement of the last three steps by the short way.
fn is_short_way(offer: &Offer) -> bool {
    match offer {
        Offer::Replace { window, actions } => {
            window.kids.as_slice().len() == 3 && actions.as_slice() == [BC, GET2].as_slice()
        }
        _ => false,
    }
}

// Whether the budget was spent and no list was found.
fn is_spent(piece: &Piece) -> bool {
    match &piece.what {
        What::Judged { verdict, reply } => match &verdict.kind {
            Kind::Spent { .. } => reply.is_none() && piece.place == 0,
            _ => false,
        },
        What::Skipped(_) => false,
    }
}

fn round_of(alloc: Global, core: Core, crew: &mut [Counting]) -> Result<Option<Round>, NoMemory> {
    if core.task().facts() > 262_144 || crew.is_empty() {
        return Ok(None);
    }
    let setup = Setup {
        workers: 1,
        nodes: 1,
        width: 6,
        span: 12,
    };
    let window = last_three(alloc)?;
    Ok(Some(round_alone(alloc, core, &[window], &setup, crew)))
}

#[test]
fn a_proposer_is_asked_once_where_the_budget_is_spent(rt: HostRuntime) -> Result<(), Fail> {
    let core = core_of(rt.alloc())?.ok_or("no core")?;
    let mut crew = [Counting { asked: 0 }];
    let round = round_of(rt.alloc(), core, &mut crew)?.ok_or("no round")?;
    let pieces = round.pieces?;
    assert_eq!(rt; pieces.len(), 1);
    assert!(rt; pieces.iter().all(is_spent));
    assert_eq!(rt; crew[0].asked, 1);
    assert_eq!(rt; round.core.history().len(), 1);
    assert!(rt; round.core.history().iter().all(is_short_way));
    Ok(())
}

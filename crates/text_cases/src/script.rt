use bd_base::{Limit, NoMemory, NodeId, PairList, TextErr};
use bd_merge::Lean;
use bd_tree::Node;
use plan_core::Offer;
use script_text::{Script, one_script, read_script};
use std::alloc::Global;
use std::test::Fail;

fn read(alloc: Global, text: &[u8]) -> Result<Script, TextErr> {
    if text.len() < 100_000_000 {
        read_script(alloc, text)
    } else {
        Err(TextErr::NoMemory)
    }
}

// Every kind of line, and each of its parts.
const WHOLE: &[u8] = b"bdpo-script 1\nfact (a)\nfact (b c)\n\
    action (x) 7 pre (a) (a) add (b c) del (b c) (a)\naction (y:z) 1000000000 pre add del\n\
    init (a)\ngoal (b c)\nplan (x) (y:z) (x)\nstart 0{ 4{ 9:(x) 2:(y:z) | 0<1 } 5{ | } 3:(x) | 0<2 }\nstop 7\n\
    replace 4 late 9:(x) 6{ | 1<2 0<4294967295 } with (y:z) (x)\ntighten 0 left 4 5 right 4294967295\nrebuild 0<1 4<2\nend\n";

fn is_step(node: Option<&Node>, id: u64, action: u32) -> bool {
    match node {
        Some(
            Node::Step {
                id: own,
                action: of,
            },
        ) => own.0 == id && of.0 == action,
        _ => false,
    }
}

// Whether the node is a block with so many kids, whose pairs are these.
fn is_block(node: Option<&Node>, id: u64, count: usize, pairs: &[(u32, u32)]) -> bool {
    match node {
        Some(
            Node::Block {
                id: own,
                kids,
                order,
            },
        ) => { own.0 == id && kids.len() == count && are_pairs(order, pairs) }
        _ => false,
    }
}

fn are_pairs(order: &PairList, pairs: &[(u32, u32)]) -> bool {
    order.len() == pairs.len()
        && pairs
            .iter()
            .enumerate()
            .all(|(k, p)| order.at(k) == Some(*p))
}

fn kid(node: Option<&Node>, at: usize) -> Option<&Node> {
    match node {
        Some(Node::Block { kids, .. }) => kids.as_slice().get(at),
        _ => None,
    }
}

fn are_ids(ids: &[NodeId], expected: &[u64]) -> bool {
    ids.len() == expected.len() && ids.iter().zip(expected).all(|(id, e)| id.0 == *e)
}

#[test]
fn a_task_a_plan_and_a_start_tree_are_read(rt: HostRuntime) -> Result<(), Fail> {
    one_script();
    let script = read(rt.alloc(), WHOLE).ok().ok_or("no script")?;
    assert!(rt; script.task.facts() == 2 && script.task.actions() == 2);
    assert!(rt; script.plan.len() == 3 && script.start_line == 9 && script.stop == 7);
    let root = script.start.as_ref().map(|tree| tree.root());
    assert!(rt; is_block(root, 0, 3, &[(0, 2)]));
    assert!(rt; is_block(kid(root, 0), 4, 2, &[(0, 1)]));
    assert!(rt; is_step(kid(kid(root, 0), 1), 2, 1));
    assert!(rt; is_step(kid(root, 2), 3, 0));
    Ok(())
}

#[test]
fn offers_are_read_as_written(rt: HostRuntime) -> Result<(), Fail> {
    let script = read(rt.alloc(), WHOLE).ok().ok_or("no script")?;
    let offers = script.offers.as_slice();
    assert_eq!(rt; offers.len(), 3);
    match offers.first() {
        Some(Offer::Replace { window, actions }) => {
            let kids = window.kids.as_slice();
            assert!(rt; window.block.0 == 4 && window.lean == Lean::Late && kids.len() == 2);
            assert!(rt; is_step(kids.first(), 9, 0));
            assert!(rt; is_block(kids.get(1), 6, 0, &[(1, 2), (0, 4_294_967_295)]));
            assert!(rt; actions.as_slice().iter().zip([1, 0]).all(|(a, i)| a.0 == i));
        }
        _ => assert!(rt; false),
    }
    match offers.get(1) {
        Some(Offer::Tighten { block, left, right }) => {
            assert!(rt; block.0 == 0 && are_ids(left.as_slice(), &[4, 5]));
            assert!(rt; are_ids(right.as_slice(), &[4_294_967_295]));
        }
        _ => assert!(rt; false),
    }
    match offers.get(2) {
        Some(Offer::Rebuild { order }) => assert!(rt; are_pairs(order, &[(0, 1), (4, 2)])),
        _ => assert!(rt; false),
    }
    Ok(())
}

// A script of so many actions, which do nothing.
fn with_actions(alloc: Global, actions: u32) -> Result<Vec<u8>, NoMemory> {
    let mut text = Vec::from_slice(alloc, b"bdpo-script 1\n")?;
    for n in 0..actions {
        text.extend_from_slice(b"action (")?;
        push_letters(&mut text, (n / 65_536 % 256) as u8)?;
        push_letters(&mut text, (n / 256 % 256) as u8)?;
        push_letters(&mut text, (n % 256) as u8)?;
        text.extend_from_slice(b") 0 pre add del\n")?;
    }
    text.extend_from_slice(b"init\ngoal\nplan\nend\n")?;
    Ok(text)
}

// Two letters for the byte.
fn push_letters(text: &mut Vec<u8>, byte: u8) -> Result<(), NoMemory> {
    text.push(b'a' + byte / 16)?;
    text.push(b'a' + byte % 16)?;
    Ok(())
}

// No text that the program reads can pass this limit, so the reader is asked.
#[test]
fn actions_past_their_limit_are_told(rt: HostRuntime) -> Result<(), Fail> {
    let most = with_actions(rt.alloc(), 1_000_000)?;
    assert!(rt; read(rt.alloc(), &most).is_ok());
    let more = with_actions(rt.alloc(), 1_000_001)?;
    match read(rt.alloc(), &more) {
        Err(TextErr::Over { limit, count }) => {
            assert!(rt; limit == Limit::Actions && count == 1_000_001);
        }
        _ => assert!(rt; false),
    }
    Ok(())
}

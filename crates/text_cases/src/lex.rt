use bd_base::NoMemory;
use pddl_lex::{LexErr, Sexp, read_tree, read_trees};
use std::alloc::Global;
use std::test::Fail;

fn tree(alloc: Global, text: &[u8]) -> Result<Sexp, LexErr> {
    if text.len() > 1_000 {
        return Err(LexErr::NoMemory);
    }
    read_tree(alloc, text)
}

// How many trees a text has.
fn trees(alloc: Global, text: &[u8]) -> Result<usize, LexErr> {
    if text.len() > 1_000 {
        return Err(LexErr::NoMemory);
    }
    Ok(read_trees(alloc, text)?.len())
}

// So many lists in one another.
fn nested(alloc: Global, depth: usize) -> Result<Vec<u8>, NoMemory> {
    let mut text = Vec::new(alloc);
    text.resize(depth, b'(')?;
    text.resize(depth.saturating_add(depth), b')')?;
    Ok(text)
}

fn is_list(read: &Result<Sexp, LexErr>, at: u32, count: usize) -> bool {
    match read {
        Ok(Sexp::List { place, items }) => *place == at && items.as_slice().len() == count,
        _ => false,
    }
}

#[test]
fn one_list_is_read(rt: HostRuntime) -> Result<(), Fail> {
    let alloc = rt.alloc();
    let read = tree(alloc, b" ; first\r\n(A-b\t()\n(c;)\n))  ");
    assert!(rt; is_list(&read, 10, 3));
    Ok(())
}

#[test]
fn lists_are_read_one_after_the_other(rt: HostRuntime) -> Result<(), Fail> {
    let alloc = rt.alloc();
    assert!(rt; matches!(trees(alloc, b"(a) ; (b)\n()(c d)"), Ok(3)));
    assert!(rt; matches!(trees(alloc, b"(a) b"), Err(LexErr::Bad(4))));
    Ok(())
}

#[test]
fn a_hundred_lists_may_stand_in_one_another(rt: HostRuntime) -> Result<(), Fail> {
    let alloc = rt.alloc();
    let text = nested(alloc, 100)?;
    assert!(rt; is_list(&tree(alloc, &text), 0, 1));
    let text = nested(alloc, 101)?;
    assert!(rt; matches!(tree(alloc, &text), Err(LexErr::TooDeep(100))));
    Ok(())
}

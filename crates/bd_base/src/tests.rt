// Each call that takes memory once where there is enough, the forms of sets and pairs, which no clause shows, and a real file.
use crate::{
    DirShelf, FactId, FactSet, FromItems, Items, MemShelf, MemSink, NoMemory, OwnedRow, PairList,
    Row, Shelf, ShelfErr, Sink, StreamSink, Text,
};
use std::alloc::Global;
use std::fs;
use std::test::Fail;

fn set(alloc: Global, facts: &[u32]) -> Result<FactSet, NoMemory> {
    let mut items = Vec::new(alloc);
    for f in facts {
        items.push(FactId(*f))?;
    }
    FactSet::of(items)
}

fn is_set_of(alloc: Global, set: &FactSet, wanted: &[u32]) -> Result<bool, NoMemory> {
    let mut facts = Vec::new(alloc);
    for f in set.iter() {
        facts.push(f.0)?;
    }
    Ok(facts.as_slice() == wanted)
}

fn is_row_of(alloc: Global, row: &Row<'_>, wanted: &[u32]) -> Result<bool, NoMemory> {
    let mut places = Vec::new(alloc);
    for at in row.iter() {
        places.push(at)?;
    }
    Ok(places.as_slice() == wanted)
}

fn is_list_of(alloc: Global, order: &PairList, pairs: &[(u32, u32)]) -> Result<bool, NoMemory> {
    let mut walked = Vec::new(alloc);
    for p in order.iter() {
        walked.push(p)?;
    }
    Ok(walked.as_slice() == pairs)
}

#[test]
fn a_set_is_made_and_changed(rt: HostRuntime) -> Result<(), Fail> {
    let alloc = rt.alloc();
    let mut made = set(alloc, &[7, 2, 7, 64, 2])?;
    assert!(rt; made.insert(alloc, FactId(63))?);
    made.join(alloc, &set(alloc, &[9000])?)?;
    assert!(rt; is_set_of(alloc, &made.try_copy(alloc)?, &[2, 7, 63, 64, 9000])?);
    Ok(())
}

#[test]
fn a_join_leaves_the_form_of_an_insert(rt: HostRuntime) -> Result<(), Fail> {
    let alloc = rt.alloc();
    let mut thin = set(alloc, &[0, 70, 130, 200, 300])?;
    assert!(rt; thin.is_plain());
    for f in [70, 130, 200] {
        thin.remove(FactId(f));
    }
    let mut joined = set(alloc, &[1])?;
    joined.join(alloc, &thin)?;
    assert!(rt; !joined.is_plain());
    joined.join(alloc, &set(alloc, &[70])?)?;
    assert!(rt; joined.is_plain());
    assert!(rt; is_set_of(alloc, &joined, &[0, 1, 70, 300])?);
    Ok(())
}

#[test]
fn an_order_is_made_and_changed(rt: HostRuntime) -> Result<(), Fail> {
    let alloc = rt.alloc();
    let order = PairList::of(alloc, &[(0, 1), (0, 200), (7, 8191)])?;
    let mut less = order.without(alloc, 0, 200)?.try_copy(alloc)?;
    less.put_row(alloc, 8000, &order.after(7))?;
    assert!(rt; less.is_in_rows());
    assert!(rt; is_list_of(alloc, &less, &[(0, 1), (7, 8191), (8000, 8191)])?);
    assert!(rt; is_row_of(alloc, &less.before(alloc, 8191)?.row(), &[7, 8000])?);
    let total = PairList::total(alloc, 130)?;
    assert!(rt; total.is_in_rows() && total.is_total(130));
    Ok(())
}

#[test]
fn rows_end_with_the_last_that_is_not_empty(rt: HostRuntime) -> Result<(), Fail> {
    let alloc = rt.alloc();
    let given = PairList::of(alloc, &[(0, 4)])?;
    let mut order = PairList::of(alloc, &[(0, 1), (2, 3), (5, 6)])?;
    order.remove(5, 6);
    order.remove(0, 1);
    order.put_row(alloc, 3, &given.after(0))?;
    assert!(rt; order.is_in_rows());
    assert!(rt; is_list_of(alloc, &order, &[(2, 3), (3, 4)])?);
    Ok(())
}

#[test]
fn other_pairs_are_listed(rt: HostRuntime) -> Result<(), Fail> {
    let alloc = rt.alloc();
    let mut far = OwnedRow::new(alloc);
    far.put(8192)?;
    let mut order = PairList::of(alloc, &[(0, 1)])?;
    order.put_row(alloc, 2, &far.row())?;
    assert!(rt; !order.is_in_rows());
    let less = order.without(alloc, 0, 1)?;
    assert!(rt; is_list_of(alloc, &less, &[(2, 8192)])?);
    assert!(rt; is_row_of(alloc, &less.before(alloc, 8192)?.row(), &[2])?);
    Ok(())
}

#[test]
fn a_row_is_made_and_changed(rt: HostRuntime) -> Result<(), Fail> {
    let alloc = rt.alloc();
    let order = PairList::of(alloc, &[(5, 200), (5, 3)])?;
    let mut row = OwnedRow::new(alloc);
    row.put_run(62, 66)?;
    row.join(&order.after(5))?;
    let both = row
        .try_copy(alloc)?
        .with(alloc, &PairList::of(alloc, &[(0, 1)])?.after(0))?;
    assert!(rt; is_row_of(alloc, &both.row(), &[1, 3, 62, 63, 64, 65, 200])?);
    Ok(())
}

#[test]
fn shelf_and_sink_in_memory_answer(rt: HostRuntime) -> Result<(), Fail> {
    let alloc = rt.alloc();
    let name: Text = Items::of(b"a".to_vec(alloc)?);
    let text = Text::from_slice(alloc, b"text")?;
    let mut shelf = MemShelf::new(
        vec![in alloc; name]?,
        vec![in alloc; text]?,
        Vec::new(alloc),
    );
    let found = shelf.read(alloc, "a", 4).map_err(|_| "no text")?;
    let mut sink = MemSink::new(alloc, 8, Vec::new(alloc))?;
    assert!(rt; sink.put(&found).is_ok());
    assert_eq!(rt; sink.written(), b"text".as_slice());
    Ok(())
}

#[test]
fn a_real_file_is_written_and_read(rt: HostRuntime) -> Result<(), Fail> {
    let alloc = rt.alloc();
    let path = "bd_base_outside_test.txt";
    let mut sink = StreamSink::new(fs::create(&rt, path)?);
    assert!(rt; sink.put(b"first ").is_ok());
    assert!(rt; sink.put(b"second").is_ok());
    let mut shelf = DirShelf::new(&rt);
    let text = shelf.read(alloc, path, 12).map_err(|_| "no text")?;
    assert_eq!(rt; text.as_slice(), b"first second".as_slice());
    assert!(rt; matches!(shelf.read(alloc, path, 11), Err(ShelfErr::TooBig)));
    fs::remove_file(&rt, path)?;
    assert!(rt; matches!(shelf.read(alloc, path, 12), Err(ShelfErr::Missing)));
    Ok(())
}

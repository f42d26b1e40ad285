// What the kids of a block do to each fact.
ghost use Rattle.std.specs.Prelude.{◌≡◌, ◌||◌, [], map, IfOk};
ghost use Rattle.std.specs.List.{enumerate_from};
ghost use Rattle.bd_base.specs.Facts.{has, plus};
ghost use Rattle.bd_links.specs.Rows.{Tells};
ghost use Rattle.bd_subtask.specs.Level.{needers, row_of, rows_of, touched_rows, touches, with_touched};

use bd_base::{FactId, FactSet, FromItems, Items, NoMemory, OwnedRow};
use bd_links::{Child, Touches, deleters, givers, touches_of};
use std::alloc::Global;

/// The positions of the kids of a block that need a fact, of those that give it, and of those that delete it.
#[derive(Drop)]
pub struct FactRow {
    pub fact: FactId,
    pub needs: Items<usize>,
    pub gives: Items<usize>,
    pub deletes: Items<usize>,
}

// The facts that some kid needs, gives or deletes.
fn touched(alloc: Global, kids: &[Child<'_>]) -> Result<FactSet, NoMemory>
    ensures { IfOk result (λ s. s ≡ with_touched [] (enumerate_from 0 kids.now)) }
{
    let mut facts = FactSet::new();
    for kid in kids {
        facts.join(alloc, kid.need())?;
        facts.join(alloc, kid.add())?;
        facts.join(alloc, kid.del())?;
    }
    Ok(facts)
}

// The positions of the kids that need the fact.
fn needers(alloc: Global, kids: &[Child<'_>], p: FactId) -> Result<Items<usize>, NoMemory>
    ensures { IfOk result (λ l. l ≡ needers (enumerate_from 0 kids.now) p) }
{
    let mut places = Vec::new(alloc);
    let mut at = 0;
    for kid in kids {
        if kid.need().has(p) {
            places.push(at)?;
        }
        at += 1;
    }
    Ok(Items::of(places))
}

fn listed(alloc: Global, places: &[usize]) -> Result<Items<usize>, NoMemory>
    ensures { IfOk result (λ l. l ≡ places.now) }
{
    Ok(Items::of(Vec::from_slice(alloc, places)?))
}

// The row of a fact.
fn row_of(
    alloc: Global,
    kids: &[Child<'_>],
    touches: &Touches,
    p: FactId,
) -> Result<FactRow, NoMemory>
    requires { Tells touches.now (enumerate_from 0 kids.now) }
    ensures { IfOk result (λ r. r ≡ row_of (enumerate_from 0 kids.now) p) }
{
    let needs = needers(alloc, kids, p)?;
    let gives = listed(alloc, givers(touches, p))?;
    let deletes = listed(alloc, deleters(touches, p))?;
    Ok(FactRow {
        fact: p,
        needs,
        gives,
        deletes,
    })
}

/// A row for each fact that a kid touches, by rising facts.
pub fn rows_of(alloc: Global, kids: &[Child<'_>]) -> Result<Vec<FactRow>, NoMemory>
    ensures { IfOk result (λ v. v.items ≡ rows_of (enumerate_from 0 kids.now)) }
{
    let touches = touches_of(alloc, kids)?;
    let facts = touched(alloc, kids)?;
    let mut rows = Vec::new(alloc);
    for p in facts.iter() {
        rows.push(row_of(alloc, kids, &touches, p)?)?;
    }
    Ok(rows)
}

fn touches(kid: &Child<'_>, p: FactId) -> bool
    ensures { result ≡ touches kid.now p }
{
    kid.need().has(p) || kid.add().has(p) || kid.del().has(p)
}

// The place as the rows of places have it.
fn place(at: usize) -> Result<u32, NoMemory>
    ensures { IfOk result (λ n. n ≡ at) }
{
    match u32::try_from(at) {
        Ok(n) => Ok(n),
        Err(_) => Err(NoMemory),
    }
}

// The places of the rows whose facts the kid touches.
fn touched_rows(alloc: Global, rows: &[FactRow], kid: &Child<'_>) -> Result<OwnedRow, NoMemory>
    ensures { IfOk result (λ r. r ≡ plus [] (touched_rows rows.now kid.now)) }
{
    let mut places = OwnedRow::new(alloc);
    let mut at = 0;
    for row in rows {
        if touches(kid, row.fact) {
            places.put(place(at)?)?;
        }
        at += 1;
    }
    Ok(places)
}

/// For each kid, the places of the rows whose facts it touches.
pub fn touched_of(
    alloc: Global,
    rows: &[FactRow],
    kids: &[Child<'_>],
) -> Result<Vec<OwnedRow>, NoMemory>
    ensures { IfOk result (λ v. v.items ≡ map (λ k. plus [] (touched_rows rows.now k)) kids.now) }
{
    let mut touched = Vec::with_capacity(alloc, kids.len())?;
    for kid in kids {
        touched.push(touched_rows(alloc, rows, kid)?)?;
    }
    Ok(touched)
}

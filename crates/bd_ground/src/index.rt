ghost use Rattle.std.specs.Prelude.{◌≡◌, ◌++◌, ◌∷◌, ◌<◌, [], ℕ, List, length, map, cond, slice_set, slice_index_or, slice_get, true, IfOk, OnOk};
ghost use Rattle.bd_ground.specs.Atoms.{same_atom, is_among};
ghost use Rattle.bd_ground.specs.Index.{rows_by, Finds, FindsAll};

use crate::atoms::Atoms;
use bd_base::NoMemory;
use std::alloc::Global;

/// Atoms by keys, each of which is a predicate's number alone, or one with a place and the object there.
#[derive(Drop)]
pub struct Index<'a> {
    pub keys: Atoms,
    pub rows: Vec<Vec<&'a [u32]>>,
    pub nothing: Vec<&'a [u32]>,
    ghost empty: { nothing.items ≡ [] },
}

// More keys than that are never made: memory is wanting long before.
const MOST_KEYS: usize = 0xffff_ff00;

fn one_row<'a>(alloc: Global, g: &'a [u32]) -> Result<Vec<&'a [u32]>, NoMemory>
    ensures { IfOk result (λ row. map (λ g. g.now) row.items ≡ g.now ∷ []) }
{
    let mut row = Vec::new(alloc);
    row.push(g)?;
    Ok(row)
}

// One more atom at the end of a row.
fn push_at<'a>(rows: &mut Vec<Vec<&'a [u32]>>, n: usize, g: &'a [u32]) -> Result<(), NoMemory>
    requires { n < length rows.old.items }
    ensures { OnOk result (map (λ r. map (λ g. g.now) r.items) rows.new.items ≡ slice_set (map (λ r. map (λ g. g.now) r.items) rows.old.items) n (slice_index_or (map (λ r. map (λ g. g.now) r.items) rows.old.items) n [] ++ g.now ∷ [])) }
{
    rows[n].push(g)?;
    Ok(())
}

// Puts an atom at a key.
fn put<'a>(
    alloc: Global,
    key: &[u32],
    g: &'a [u32],
    keys: &mut Atoms,
    rows: &mut Vec<Vec<&'a [u32]>>,
) -> Result<(), NoMemory>
    requires even { length rows.old.items ≡ length keys.old }
    ensures even { OnOk result (length rows.new.items ≡ length keys.new) }
    ensures put { OnOk result ((h : List ℕ) → rows_by keys.new (map (λ r. map (λ g. g.now) r.items) rows.new.items) h ≡ rows_by keys.old (map (λ r. map (λ g. g.now) r.items) rows.old.items) h ++ cond (same_atom h key.now) (g.now ∷ []) []) }
{
    match keys.number(key) {
        Some(n) => push_at(rows, n as usize, g),
        None => {
            if keys.len() >= MOST_KEYS {
                return Err(NoMemory);
            }
            let row = one_row(alloc, g)?;
            keys.mention(Vec::from_slice(alloc, key)?)?;
            rows.push(row)?;
            Ok(())
        }
    }
}

// Puts an atom at each of its keys: its head, and its head with each of its objects.
fn put_parts<'a>(
    alloc: Global,
    g: &'a [u32],
    head: u32,
    objects: &[u32],
    keys: &mut Atoms,
    rows: &mut Vec<Vec<&'a [u32]>>,
) -> Result<(), NoMemory>
    requires parts { g.now ≡ head ∷ objects.now }
    requires even { length rows.old.items ≡ length keys.old }
    ensures even { OnOk result (length rows.new.items ≡ length keys.new) }
    ensures kept { OnOk result ((key x : List ℕ) → is_among x (rows_by keys.old (map (λ r. map (λ g. g.now) r.items) rows.old.items) key) ≡ true → is_among x (rows_by keys.new (map (λ r. map (λ g. g.now) r.items) rows.new.items) key) ≡ true) }
    ensures found { OnOk result (Finds keys.new (map (λ r. map (λ g. g.now) r.items) rows.new.items) head objects.now) }
{
    if objects.len() > 0xffff_ffff {
        return Err(NoMemory);
    }
    put(alloc, &[head], g, keys, rows)?;
    for (k, o) in objects.iter().enumerate() {
        put(alloc, &[head, k as u32, *o], g, keys, rows)?;
    }
    Ok(())
}

// Puts an atom at each of its keys.
fn put_atom<'a>(
    alloc: Global,
    g: &'a [u32],
    keys: &mut Atoms,
    rows: &mut Vec<Vec<&'a [u32]>>,
) -> Result<(), NoMemory>
    requires even { length rows.old.items ≡ length keys.old }
    ensures even { OnOk result (length rows.new.items ≡ length keys.new) }
    ensures kept { OnOk result ((key x : List ℕ) → is_among x (rows_by keys.old (map (λ r. map (λ g. g.now) r.items) rows.old.items) key) ≡ true → is_among x (rows_by keys.new (map (λ r. map (λ g. g.now) r.items) rows.new.items) key) ≡ true) }
    ensures found { OnOk result ((h : ℕ) (os : List ℕ) → g.now ≡ h ∷ os → Finds keys.new (map (λ r. map (λ g. g.now) r.items) rows.new.items) h os) }
{
    match g.split_first() {
        None => Ok(()),
        Some((head, objects)) => put_parts(alloc, g, *head, objects, keys, rows),
    }
}

/// The index of the atoms of a table.
pub fn index_of(alloc: Global, atoms: &Atoms) -> Result<Index<'_>, NoMemory>
    ensures { IfOk result (λ index. FindsAll index.keys (map (λ r. map (λ g. g.now) r.items) index.rows.items) atoms.now) }
{
    let mut keys = Atoms::new(alloc);
    let mut rows = Vec::new(alloc);
    for g in atoms.as_slice() {
        put_atom(alloc, g, &mut keys, &mut rows)?;
    }
    Ok(Index {
        keys,
        rows,
        nothing: Vec::new(alloc),
    })
}

fn row_at<'b, 'a>(rows: &'b [Vec<&'a [u32]>], n: usize, nothing: &'b [&'a [u32]]) -> &'b [&'a [u32]]
    requires { nothing.now ≡ [] }
    ensures { map (λ g. g.now) result.now ≡ slice_index_or (map (λ r. map (λ g. g.now) r.items) rows.now) n [] }
{
    match rows.get(n) {
        None => nothing,
        Some(row) => row.as_slice(),
    }
}

impl<'a> Index<'a> {
    /// The atoms at a key.
    pub fn rows(&self, key: &[u32]) -> &[&'a [u32]]
        ensures { map (λ g. g.now) result.now ≡ rows_by self.now.keys (map (λ r. map (λ g. g.now) r.items) self.now.rows.items) key.now }
    {
        match self.keys.number(key) {
            None => &self.nothing,
            Some(n) => row_at(&self.rows, n as usize, &self.nothing),
        }
    }
}

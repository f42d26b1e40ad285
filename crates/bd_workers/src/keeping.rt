// Verdicts that are kept, so that an equal subtask isn't searched again.
ghost use Rattle.std.specs.Prelude.{◌≡◌, [], IfOk};
ghost use Rattle.bd_workers.specs.Inner.{AreKept, IsSameOrNone, TellsOf};

use crate::equal::{is_same, key_of};
use bd_base::{ActList, NoMemory};
use bd_pieces::Verdict;
use bd_search::Kind;
use bd_subtask::SubTask;
use std::alloc::Global;
use std::collections::HashMap;
use std::marker::Model;

/// How many verdicts are kept at most; then all are let go.
const MOST: usize = 16_384;

/// The verdicts of the latest searches, and where the last one stands whose subtask has a key. It is seen as the verdicts.
#[derive(Drop)]
pub(crate) struct Kept {
    verdicts: Vec<Verdict>,
    places: HashMap<u64, usize>,
}

impl Model for Kept {
    ghost use Rattle.std.specs.Prelude.{List};
    ghost use Rattle.bd_pieces.specs.declared.judged.Verdict.{Verdict};

    ghost Value = { List Verdict };

    ghost view = { λ k. k.verdicts.items };
}

fn copy_of_kind(alloc: Global, kind: &Kind) -> Result<Kind, NoMemory>
    ensures { IfOk result (λ copy. copy ≡ kind.now) }
{
    match kind {
        Kind::Found(list) => Ok(Kind::Found(ActList::from_slice(alloc, list.as_slice())?)),
        Kind::Exhausted => Ok(Kind::Exhausted),
        Kind::Spent { floor, nodes } => Ok(Kind::Spent {
            floor: *floor,
            nodes: *nodes,
        }),
    }
}

fn copy_of_subtask(alloc: Global, sub: &SubTask) -> Result<SubTask, NoMemory>
    ensures { IfOk result (λ copy. copy ≡ sub.now) }
{
    Ok(SubTask {
        init: sub.init.try_copy(alloc)?,
        goal: sub.goal.try_copy(alloc)?,
        make: sub.make.try_copy(alloc)?,
        keep: sub.keep.try_copy(alloc)?,
        bound: sub.bound,
    })
}

fn copy_of(alloc: Global, verdict: &Verdict) -> Result<Verdict, NoMemory>
    ensures { IfOk result (λ copy. copy ≡ verdict.now) }
{
    Ok(Verdict {
        sub: copy_of_subtask(alloc, &verdict.sub)?,
        kind: copy_of_kind(alloc, &verdict.kind)?,
    })
}

impl Kept {
    /// Nothing is kept yet.
    pub(crate) fn new(alloc: Global) -> Kept
        ensures { result ≡ [] }
    {
        Kept {
            verdicts: Vec::new(alloc),
            places: HashMap::new(alloc),
        }
    }

    /// What was said of an equal subtask, if it is kept.
    pub(crate) fn kind_of(&self, alloc: Global, sub: &SubTask) -> Result<Option<Kind>, NoMemory>
        ensures { IfOk result (λ told. TellsOf self.now sub.now told) }
    {
        let at = match self.places.get(&key_of(sub)) {
            None => return Ok(None),
            Some(at) => *at,
        };
        match self.verdicts.get(at) {
            None => Ok(None),
            Some(verdict) => {
                if !is_same(&verdict.sub, sub) {
                    return Ok(None);
                }
                let kind = copy_of_kind(alloc, &verdict.kind)?;
                Ok(Some(kind))
            }
        }
    }

    // Lets all go where there is no more room.
    fn make_room(&mut self)
        ensures { IsSameOrNone self.old self.new }
    {
        if self.verdicts.len() >= MOST {
            self.verdicts.clear();
            self.places.clear();
        }
    }

    /// Keeps a copy of a verdict.
    pub(crate) fn keep(&mut self, alloc: Global, verdict: &Verdict) -> Result<(), NoMemory>
        ensures { AreKept self.old verdict.now self.new }
    {
        self.make_room();
        let copy = copy_of(alloc, verdict)?;
        self.places
            .insert(key_of(&verdict.sub), self.verdicts.len())?;
        self.verdicts.push(copy)?;
        Ok(())
    }
}

// One block: by one pass where its order is total, and else by its links.
ghost use Rattle.std.specs.Prelude.{◌≡◌, IfOk};
ghost use Rattle.std.specs.List.{enumerate_from};
ghost use Rattle.bd_links.specs.Effects.{block_effects};
ghost use Rattle.bd_links.specs.Faults.{block_fault};
ghost use Rattle.bd_links.specs.Judged.{Judges};

use crate::in_turn::{effects_in_turn, judge_in_turn};
use crate::parts::{Child, Effects, Stop};
use crate::sets::{effects_of_links, judge_links};
use bd_base::{NoMemory, NodeId, PairList};
use std::alloc::Global;

/// What a block of these kids needs, gives and deletes.
pub fn effects_of_block(
    alloc: Global,
    order: &PairList,
    kids: &[Child<'_>],
) -> Result<Effects, NoMemory>
    ensures { IfOk result (λ e. e ≡ block_effects order.now (enumerate_from 0 kids.now)) }
{
    if order.is_total(kids.len()) {
        effects_in_turn(alloc, kids)
    } else {
        effects_of_links(alloc, order, kids)
    }
}

/// A block's effects, or its first fault, where its kids have none inside them.
pub fn judge_block(
    alloc: Global,
    block: NodeId,
    order: &PairList,
    kids: &[Child<'_>],
) -> Result<Effects, Stop>
    ensures { Judges (block_fault block order.now (enumerate_from 0 kids.now)) (block_effects order.now (enumerate_from 0 kids.now)) result }
{
    if order.is_total(kids.len()) {
        judge_in_turn(alloc, block, kids)
    } else {
        judge_links(alloc, block, order, kids)
    }
}

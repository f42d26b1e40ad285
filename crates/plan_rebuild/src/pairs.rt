// Gains of two single kids of the root, which a core takes one after another by the root's kept rows.
ghost use Rattle.std.specs.Prelude.{◌≡◌, ◌<◌, ◌≤◌, ◌^◌, ◌∷◌, [], false, length, slice_get, true, IfOk, IfSome, OnOk};
ghost use Rattle.bd_kept.specs.Gain.{IsGainOf};
ghost use Rattle.bd_kept.specs.Kept.{IsKeptOf};
ghost use Rattle.bd_tree.specs.Tree.{pairs_of};
ghost use Rattle.plan_core.specs.Core.{is_tightening};
ghost use Rattle.plan_rebuild.specs.Grown.{Adds};
ghost use Rattle.plan_rebuild.specs.Rebuilds.{closed};
ghost use Rattle.plan_rebuild.specs.Taking.{TakesPair, pair_if};

use crate::gains::take_gain;
use bd_base::{FromItems, IdList, Items, NoMemory, NodeId};
use bd_kept::{Kept, Walk};
use bd_tight::Gain;
use bd_tree::Node;
use plan_core::Core;
use std::alloc::Global;

fn single(alloc: Global, id: NodeId) -> Result<IdList, NoMemory>
    ensures { IfOk result (λ ids. ids ≡ id ∷ []) }
{
    let mut ids = Vec::new(alloc);
    ids.push(id)?;
    Ok(Items::of(ids))
}

// The two kids at the places, each by itself, if both are there.
fn sides_of(
    alloc: Global,
    block: NodeId,
    kids: &[Node],
    pair: (u32, u32),
) -> Result<Option<Gain>, NoMemory>
    ensures { IfOk result (λ told. told ≡ pair_if block (slice_get kids.now pair.0) (slice_get kids.now pair.1)) }
{
    match kids.get(pair.0 as usize) {
        None => Ok(None),
        Some(first) => match kids.get(pair.1 as usize) {
            None => Ok(None),
            Some(second) => Ok(Some(Gain {
                block,
                left: single(alloc, first.id())?,
                right: single(alloc, second.id())?,
            })),
        },
    }
}

// The gain of a pair of the root's kids; none where the root is a step.
fn gain_of_pair(alloc: Global, core: &Core, pair: (u32, u32)) -> Result<Option<Gain>, NoMemory>
    requires open { closed core.now ≡ false }
    requires gain { IsGainOf core.now.task core.now.tree pair }
    ensures { IfOk result (λ told. IfSome told (λ gain. TakesPair core.now pair gain)) }
{
    core.keeps();
    match core.tree().root() {
        Node::Step { .. } => Ok(None),
        Node::Block { id, kids, .. } => sides_of(alloc, *id, kids.as_slice(), pair),
    }
}

// What is kept of the core's root.
fn kept_of(alloc: Global, core: &Core) -> Result<Kept, NoMemory>
    ensures kept { IfOk result (λ k. IsKeptOf core.now.task core.now.tree k) }
    ensures few { IfOk result (λ k. length k.kids.items < 2 ^ 32) }
{
    core.keeps();
    Kept::of(alloc, core.task(), core.tree())
}

// A pair of the root's kids that is a gain.
fn next_pair(walk: &mut Walk, core: &Core, kept: &Kept) -> Option<(u32, u32)>
    requires kept { IsKeptOf core.now.task core.now.tree kept.now }
    requires few { length kept.now.kids.items < 2 ^ 32 }
    ensures { IfSome result (λ p. IsGainOf core.now.task core.now.tree p) }
{
    core.keeps();
    walk.next(core.task(), kept, core.tree())
}

// Takes the gain of a pair, and tells whether there was one: there is where the root is a block. After an error what is kept
// may be of no tree.
fn take_pair(
    alloc: Global,
    core: &mut Core,
    kept: &mut Kept,
    pair: (u32, u32),
) -> Result<bool, NoMemory>
    requires open { closed core.old ≡ false }
    requires kept { IsKeptOf core.old.task core.old.tree kept.old }
    requires gain { IsGainOf core.old.task core.old.tree pair }
    ensures adds { Adds is_tightening core.old core.new }
    ensures kept { OnOk result (IsKeptOf core.new.task core.new.tree kept.new) }
    ensures kids { kept.new.kids ≡ kept.old.kids }
    ensures fewer { IfOk result (λ took. took ≡ true → pairs_of core.new.tree < pairs_of core.old.tree) }
    ensures few { OnOk result (pairs_of core.new.tree ≤ pairs_of core.old.tree) }
{
    core.keeps();
    match gain_of_pair(alloc, core, pair)? {
        None => Ok(false),
        Some(gain) => {
            kept.follow(alloc, core.task(), core.tree(), pair.0, pair.1)?;
            take_gain(alloc, core, gain)?;
            Ok(true)
        }
    }
}

/// Takes gains of two single kids of the root till there is none or the core is closed. Where memory is wanting, some were taken.
pub(crate) fn take_pairs(alloc: Global, core: &mut Core) -> Result<(), NoMemory>
    ensures adds { Adds is_tightening core.old core.new }
    ensures few { OnOk result (pairs_of core.new.tree ≤ pairs_of core.old.tree) }
{
    let mut kept = kept_of(alloc, core)?;
    let mut walk = Walk::new();
    while !core.closed() {
        match next_pair(&mut walk, core, &kept) {
            None => return Ok(()),
            Some(pair) => {
                if !take_pair(alloc, core, &mut kept, pair)? {
                    return Ok(());
                }
            }
        }
    }
    Ok(())
}

// A gain of a core's tree, and a core that takes it.
ghost use Rattle.std.specs.Prelude.{◌≡◌, ◌<◌, false, IfNone, IfOk, IfSome, OnOk};
ghost use Rattle.bd_tree.specs.Tree.{pairs_of};
ghost use Rattle.bd_tight.specs.Candidates.{IsTight};
ghost use Rattle.plan_core.specs.Core.{accepted, is_tightening};
ghost use Rattle.plan_core.specs.declared.offer.Offer.TheVariants.{Tighten};
ghost use Rattle.plan_rebuild.specs.Grown.{Adds};
ghost use Rattle.plan_rebuild.specs.Rebuilds.{closed};
ghost use Rattle.plan_rebuild.specs.Taking.{MayTake};

use crate::taking::take;
use bd_base::NoMemory;
use bd_tight::Gain;
use bd_walk::Walk;
use plan_core::{Core, Offer};
use std::alloc::Global;

/// A gain of the core's tree, if it isn't tight at the span. The walk goes on where it was.
pub(crate) fn gain_of(
    alloc: Global,
    walk: &mut Walk,
    core: &Core,
    span: u32,
) -> Result<Option<Gain>, NoMemory>
    requires { closed core.now ≡ false }
    ensures none { IfOk result (λ told. IfNone told (IsTight core.now.task core.now.tree span)) }
    ensures some { IfOk result (λ told. IfSome told (λ gain. MayTake core.now gain)) }
{
    core.keeps();
    walk.next(alloc, core.task(), core.tree(), span)
}

/// Offers a gain.
pub(crate) fn take_gain(alloc: Global, core: &mut Core, gain: Gain) -> Result<(), NoMemory>
    requires { MayTake core.old gain }
    ensures adds { Adds is_tightening core.old core.new }
    ensures fewer { OnOk result (pairs_of core.new.tree < pairs_of core.old.tree) }
    ensures taken { OnOk result (core.new ≡ accepted (Tighten gain.block gain.left gain.right) core.old) }
{
    let Gain { block, left, right } = gain;
    let offer = Offer::Tighten { block, left, right };
    take(alloc, core, &offer)
}

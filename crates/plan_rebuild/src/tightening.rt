// Gains that are taken until there is none.
ghost use Rattle.std.specs.Prelude.{◌≡◌, false, OnOk};
ghost use Rattle.bd_tight.specs.Candidates.{IsTight};
ghost use Rattle.plan_core.specs.Core.{is_tightening};
ghost use Rattle.plan_rebuild.specs.Grown.{Adds};
ghost use Rattle.plan_rebuild.specs.Rebuilds.{closed};

use crate::gains::{gain_of, take_gain};
use crate::pairs::take_pairs;
use bd_base::NoMemory;
use bd_walk::Walk;
use plan_core::Core;
use std::alloc::Global;

/// Takes gains of the core's tree until it is tight at the span, or the core is closed. Where memory is wanting, some were taken.
pub fn tighten(alloc: Global, core: &mut Core, span: u32) -> Result<(), NoMemory>
    ensures adds { Adds is_tightening core.old core.new }
    ensures tight { OnOk result (closed core.new ≡ false → IsTight core.new.task core.new.tree span) }
{
    let mut walk = Walk::new();
    take_pairs(alloc, core)?;
    while !core.closed() {
        match gain_of(alloc, &mut walk, core, span)? {
            None => return Ok(()),
            Some(gain) => {
                take_gain(alloc, core, gain)?;
                take_pairs(alloc, core)?;
            }
        }
    }
    Ok(())
}

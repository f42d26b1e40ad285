// Offers that may be accepted.
ghost use Rattle.std.specs.Prelude.{◌≡◌, OnErr, OnOk};
ghost use Rattle.plan_core.specs.Core.{accepted};
ghost use Rattle.plan_core.specs.Replies.{IsAcceptable, IsLent};
ghost use Rattle.plan_rebuild.specs.Taking.{is_memory};

use bd_base::NoMemory;
use plan_core::{Core, Offer, Refusal};
use std::alloc::Global;

// Whether it is want of memory.
fn is_memory(why: &Refusal) -> bool
    ensures { result ≡ is_memory why.now }
{
    match why {
        Refusal::NoMemory => true,
        _ => false,
    }
}

// Offers what may be accepted: it is, unless memory is wanting.
pub(crate) fn take(alloc: Global, core: &mut Core, offer: &Offer) -> Result<(), NoMemory>
    requires may { IsAcceptable core.old offer.now }
    requires lent { IsLent offer.now }
    ensures taken { OnOk result (core.new ≡ accepted offer.now core.old) }
    ensures same { OnErr result (core.new ≡ core.old) }
{
    match core.offer(alloc, offer) {
        Ok(_) => Ok(()),
        Err(why) => {
            // It is refused for no other reason.
            let memory = is_memory(&why);
            prove!(memory);
            Err(NoMemory)
        }
    }
}

// A core that follows another: it takes the entries of the other's history.
ghost use Rattle.std.specs.Prelude.{◌≡◌, ◌+◌, length, IfOk, OnErr, OnOk};
ghost use Rattle.plan_core.specs.Core.{accepted};
ghost use Rattle.plan_core.specs.Replies.{IsAcceptable};
ghost use Rattle.plan_improve.specs.Inner.{is_memory};

use bd_base::NoMemory;
use plan_core::{Core, Offer, Refusal};
use std::alloc::Global;

// Whether it is want of memory.
fn is_memory(why: &Refusal) -> bool
    ensures { result ≡ is_memory why.now }
{
    match why {
        Refusal::NoMemory => true,
        _ => false,
    }
}

/// Offers what may be accepted, and tells its place: it is refused for want of memory alone.
pub fn follow(alloc: Global, core: &mut Core, offer: &Offer) -> Result<u64, NoMemory>
    requires { IsAcceptable core.old offer.now }
    ensures place { IfOk result (λ place. place ≡ length core.old.history + 1) }
    ensures taken { OnOk result (core.new ≡ accepted offer.now core.old) }
    ensures same { OnErr result (core.new ≡ core.old) }
{
    core.keeps();
    match core.offer(alloc, offer) {
        Ok(place) => Ok(place),
        Err(why) => {
            // It is refused for no other reason.
            let memory = is_memory(&why);
            prove!(memory);
            Err(NoMemory)
        }
    }
}

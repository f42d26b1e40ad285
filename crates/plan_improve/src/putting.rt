// The better plans of a core, put by one that follows it.
ghost use Rattle.std.specs.Prelude.{◌≡◌, ◌+◌, ◌<◌, ◌≤◌, length, OnOk};
ghost use Rattle.plan_rebuild.specs.Grown.{Grows};
ghost use Rattle.run_texts.specs.Texts.{betters_of};
ghost use Rattle.plan_improve.specs.Inner.{IsNext, PutsNext, TellsOn};

use crate::following::follow;
use bd_base::{NoMemory, Sink};
use plan_core::Core;
use run_texts::{Stop, put_entry};
use std::alloc::Global;

// Takes the next entry of the core that is followed, and puts its plan where it is a replacement.
fn put_next<S: Sink>(
    alloc: Global,
    lead: &Core,
    follower: &mut Core,
    out: &mut S,
) -> Result<(), Stop>
    requires grows { Grows follower.old lead.now }
    requires behind { length follower.old.history < length lead.now.history }
    ensures next { OnOk result (IsNext follower.old follower.new lead.now) }
    ensures told { PutsNext follower.old follower.new lead.now (record { before = S.told out.old; after = S.told out.new; faults = S.faults out.old; faults_after = S.faults out.new }) result }
    ensures later { S.faults out.old ≤ S.faults out.new }
{
    lead.keeps();
    follower.keeps();
    let offer = &lead.history()[follower.history().len()];
    match follow(alloc, follower, offer) {
        Err(NoMemory) => Err(Stop::NoMemory),
        Ok(place) => put_entry(alloc, follower, offer, place, out),
    }
}

/// Takes all further entries of the core that is followed, and puts the plan of each replacement, with its place and its cost.
pub(crate) fn put_betters<S: Sink>(
    alloc: Global,
    lead: &Core,
    follower: &mut Core,
    out: &mut S,
) -> Result<(), Stop>
    requires { Grows follower.old lead.now }
    ensures same { OnOk result (follower.new ≡ lead.now) }
    ensures told { TellsOn (betters_of follower.old) (betters_of lead.now) (record { before = S.told out.old; after = S.told out.new; faults = S.faults out.old; faults_after = S.faults out.new }) result }
    ensures later { S.faults out.old ≤ S.faults out.new }
{
    while follower.history().len() < lead.history().len() {
        match put_next(alloc, lead, follower, out) {
            Ok(()) => {}
            Err(why) => return Err(why),
        }
    }
    lead.keeps();
    follower.keeps();
    Ok(())
}

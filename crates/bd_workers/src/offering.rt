// What is offered in a window's place, and the reply to it.
ghost use Rattle.std.specs.Prelude.{◌≡◌, ◌≤◌, ◌<◌, ◌^◌, ◌+◌, true, false, length, map, IfOk};
ghost use Rattle.bd_tree.specs.Tree.{steps_of, total};
ghost use Rattle.bd_merge.specs.Stands.{Stands};
ghost use Rattle.bd_merge.specs.declared.standing.Found.TheVariants.{At};
ghost use Rattle.bd_pieces.specs.Verdict.{IsSolution};
ghost use Rattle.bd_subtask.specs.Subtask.{subtask_of};
ghost use Rattle.plan_core.specs.Core.{is_replacement};
ghost use Rattle.plan_core.specs.Replies.{IsLent, Refuses};
ghost use Rattle.bd_workers.specs.Inner.{is_memory};
ghost use Rattle.plan_core.specs.declared.offer.Offer.TheVariants.{Replace};
ghost use Rattle.bd_workers.specs.Round.{WasRefused, WasTold};
ghost use Rattle.plan_rebuild.specs.Grown.{Adds};

use crate::windows::copy_of;
use bd_base::{ActList, ActionId, NoMemory};
use bd_merge::Window;
use bd_pieces::Refused;
use bd_tree::Node;
use plan_core::{Core, Offer, Refusal, replacements};
use std::alloc::Global;

// Whether it is want of memory.
fn is_memory(why: &Refusal) -> bool
    ensures { result ≡ is_memory why.now }
{
    match why {
        Refusal::NoMemory => true,
        _ => false,
    }
}

// The replacement of the window by the list.
fn replacement(alloc: Global, window: &Window, list: &[ActionId]) -> Result<Offer, NoMemory>
    ensures { IfOk result (λ offer. offer ≡ Replace window.now list.now) }
{
    Ok(Offer::Replace {
        window: copy_of(alloc, window)?,
        actions: ActList::from_slice(alloc, list)?,
    })
}

// The core's reply to a replacement, unless memory was wanting.
fn reply_to(alloc: Global, core: &mut Core, offer: &Offer) -> Result<Result<u64, Refused>, NoMemory>
    requires lent { IsLent offer.now }
    requires replaces { is_replacement offer.now ≡ true }
    ensures adds { Adds is_replacement core.old core.new }
    ensures reply { IfOk result (λ reply. WasTold core.new (length core.old.history) offer.now reply) }
{
    core.keeps();
    let place = core.history().len() as u64;
    match core.offer(alloc, offer) {
        Ok(k) => Ok(Ok(k)),
        Err(why) => {
            if is_memory(&why) {
                return Err(NoMemory);
            }
            Ok(Err(Refused { place, why }))
        }
    }
}

// How many steps the nodes have together.
fn steps_among(nodes: &[Node]) -> u64
    requires { total (map steps_of nodes.now) < 2 ^ 32 }
    ensures { result ≡ total (map steps_of nodes.now) }
{
    let mut sum = 0;
    for node in nodes {
        sum += node.steps() as u64;
    }
    sum
}

// How many steps the core's tree has that the window doesn't carry.
fn steps_beside(core: &Core, window: &Window) -> u64
    requires { Stands core.now.tree window.now At }
    ensures steps { result + total (map steps_of window.now.kids) ≡ steps_of core.now.tree }
    ensures few { result ≤ 4_096 }
{
    core.keeps();
    core.tree().steps() as u64 - steps_among(window.kids.as_slice())
}

// Why a list of 2^32 actions or more is refused that solves the window's subtask: the merged tree has far too many steps.
fn why_overlong(core: &Core, window: &Window, list: &[ActionId]) -> Refusal
    requires stands { Stands core.now.tree window.now At }
    requires solves { IsSolution core.now.task (subtask_of core.now.task core.now.tree window.now) list.now }
    requires long { 2 ^ 32 ≤ length list.now }
    ensures why { Refuses core.now (Replace window.now list.now) result }
    ensures told { is_memory result ≡ false }
{
    core.keeps();
    if core.closed() {
        return Refusal::Closed {
            replaced: replacements(core.history()) as u64,
            entries: core.history().len() as u64,
        };
    }
    let steps = steps_beside(core, window) + list.len() as u64;
    Refusal::TooLong { steps }
}

// The same, with the place.
fn overlong(core: &Core, window: &Window, list: &[ActionId]) -> Refused
    requires stands { Stands core.now.tree window.now At }
    requires solves { IsSolution core.now.task (subtask_of core.now.task core.now.tree window.now) list.now }
    requires long { 2 ^ 32 ≤ length list.now }
    ensures { WasRefused core.now (length core.now.history) (Replace window.now list.now) result }
{
    core.keeps();
    let place = core.history().len() as u64;
    let why = why_overlong(core, window, list);
    Refused { place, why }
}

// The reply to what was found for the window. A list that is too long to be lent is told why it would be refused.
pub(crate) fn reply_to_found(
    alloc: Global,
    core: &mut Core,
    window: &Window,
    list: &[ActionId],
) -> Result<Result<u64, Refused>, NoMemory>
    requires stands { Stands core.old.tree window.now At }
    requires solves { IsSolution core.old.task (subtask_of core.old.task core.old.tree window.now) list.now }
    ensures adds { Adds is_replacement core.old core.new }
    ensures reply { IfOk result (λ reply. WasTold core.new (length core.old.history) (Replace window.now list.now) reply) }
{
    if list.len() as u64 >= 4_294_967_296 {
        return Ok(Err(overlong(core, window, list)));
    }
    let offer = replacement(alloc, window, list)?;
    reply_to(alloc, core, &offer)
}

// Offers a replacement, whatever the reply, unless memory was wanting.
fn make(alloc: Global, core: &mut Core, offer: &Offer) -> Result<(), NoMemory>
    requires lent { IsLent offer.now }
    requires replaces { is_replacement offer.now ≡ true }
    ensures { Adds is_replacement core.old core.new }
{
    match core.offer(alloc, offer) {
        Ok(_) => Ok(()),
        Err(why) => {
            if is_memory(&why) {
                return Err(NoMemory);
            }
            Ok(())
        }
    }
}

// Offers a list of a proposer, unless it is too long to be lent.
pub(crate) fn offer_proposal(
    alloc: Global,
    core: &mut Core,
    window: &Window,
    list: &[ActionId],
) -> Result<(), NoMemory>
    ensures { Adds is_replacement core.old core.new }
{
    if list.len() as u64 >= 4_294_967_296 {
        return Ok(());
    }
    let offer = replacement(alloc, window, list)?;
    make(alloc, core, &offer)
}

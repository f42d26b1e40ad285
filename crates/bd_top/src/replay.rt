ghost use Rattle.std.specs.Prelude.{◌≡◌, ◌<◌, ◌≤◌, ◌++◌, ◌∷◌, [], ℕ, List, All, IfErr, IfOk, length, vec_len, vec_capacity};
ghost use Rattle.plan_core.specs.Replies.{IsLent, TellsFact};
ghost use Rattle.run_texts.specs.Taken.{Puts, FollowsSo};
ghost use Rattle.run_texts.specs.Texts.{betters_of, reply_line, reply_texts};
ghost use Rattle.bd_top.specs.Replay.{Makes, MakesOne, IsCause};

use bd_base::Sink;
use bd_task::Task;
use plan_core::{Core, Offer, Refusal};
use run_texts::{Reply, Stop, put_entry, put_text, reply_text};
use std::alloc::Global;

// Puts why the offer with this number is refused.
fn put_reply<E: Sink>(
    alloc: Global,
    task: &Task,
    number: u32,
    why: &Refusal,
    notes: &mut E,
) -> Result<(), Stop>
    requires { TellsFact (length task.now.facts) why.now }
    ensures put { Puts (reply_line task.now number why.now) (record { before = E.told notes.old; after = E.told notes.new; faults = E.faults notes.old; faults_after = E.faults notes.new }) result }
    ensures later { E.faults notes.old ≤ E.faults notes.new }
{
    put_text(notes, reply_text(alloc, task, number, why))
}

// Puts an item at the end of a list, which has room for it.
fn push_within<T: Drop>(list: &mut Vec<T>, item: T)
    requires { vec_len list.old < vec_capacity list.old }
    ensures items { list.new.items ≡ list.old.items ++ item ∷ [] }
    ensures capacity { vec_capacity list.old ≤ vec_capacity list.new }
{
    let pushed = list.push(item).is_ok();
    prove!(pushed);
}

// Makes one offer, and puts what comes of it.
fn make_offer<S: Sink, E: Sink>(
    alloc: Global,
    core: &mut Core,
    offer: &Offer,
    replies: &mut Vec<Reply>,
    out: &mut S,
    notes: &mut E,
) -> Result<(), Stop>
    requires lent { IsLent offer.now }
    requires room { vec_len replies.old < vec_capacity replies.old }
    requires few { vec_len replies.old < 1_000_000 }
    ensures made { MakesOne core.old offer.now replies.old.items replies.new.items core.new result }
    ensures capacity { vec_capacity replies.old ≤ vec_capacity replies.new }
    ensures out { FollowsSo (betters_of core.old) (betters_of core.new)
        (record { before = S.told out.old; after = S.told out.new; faults = S.faults out.old; faults_after = S.faults out.new }) result }
    ensures notes { FollowsSo (reply_texts core.old.task 1 replies.old.items) (reply_texts core.old.task 1 replies.new.items)
        (record { before = E.told notes.old; after = E.told notes.new; faults = E.faults notes.old; faults_after = E.faults notes.new }) result }
    ensures cause { IfErr result (λ why. IsCause
        (record { before = S.told out.old; after = S.told out.new; faults = S.faults out.old; faults_after = S.faults out.new })
        (record { before = E.told notes.old; after = E.told notes.new; faults = E.faults notes.old; faults_after = E.faults notes.new }) why) }
    ensures later_out { S.faults out.old ≤ S.faults out.new }
    ensures later_notes { E.faults notes.old ≤ E.faults notes.new }
{
    match core.offer(alloc, offer) {
        Ok(place) => {
            push_within(replies, Ok(place));
            put_entry(alloc, core, offer, place, out)
        }
        Err(why) => match why {
            Refusal::NoMemory => Err(Stop::NoMemory),
            _ => {
                push_within(replies, Err(why));
                let number = replies.len() as u32;
                put_reply(alloc, core.task(), number, &why, notes)
            }
        },
    }
}

/// Makes the offers in their order, and puts what comes of each right after it. It stops at a sink's fault and
/// where memory is wanting.
pub fn make_offers<S: Sink, E: Sink>(
    alloc: Global,
    core: &mut Core,
    offers: &[Offer],
    replies: &mut Vec<Reply>,
    out: &mut S,
    notes: &mut E,
) -> Result<(), Stop>
    requires none { replies.old.items ≡ [] }
    requires room { length offers.now ≤ vec_capacity replies.old }
    requires few { length offers.now ≤ 1_000_000 }
    requires lent { All IsLent offers.now }
    ensures made { Makes core.old offers.now replies.new.items core.new }
    ensures all { IfOk result (λ _. length replies.new.items ≡ length offers.now) }
    ensures out { FollowsSo (betters_of core.old) (betters_of core.new)
        (record { before = S.told out.old; after = S.told out.new; faults = S.faults out.old; faults_after = S.faults out.new }) result }
    ensures notes { FollowsSo [] (reply_texts core.old.task 1 replies.new.items)
        (record { before = E.told notes.old; after = E.told notes.new; faults = E.faults notes.old; faults_after = E.faults notes.new }) result }
    ensures cause { IfErr result (λ why. IsCause
        (record { before = S.told out.old; after = S.told out.new; faults = S.faults out.old; faults_after = S.faults out.new })
        (record { before = E.told notes.old; after = E.told notes.new; faults = E.faults notes.old; faults_after = E.faults notes.new }) why) }
    ensures later_out { S.faults out.old ≤ S.faults out.new }
{
    for offer in offers {
        make_offer(alloc, core, offer, replies, out, notes)?;
    }
    Ok(())
}

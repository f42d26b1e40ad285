ghost use Rattle.std.specs.Prelude.{◌≡◌, ℕ, ◌<◌, ◌≤◌, List, [], All, IfOk, IfSome, map, string_bytes, length, unwrap_or, vec_capacity};
ghost use Rattle.bd_links.specs.Sound.{IsSound};
ghost use Rattle.bd_tree.specs.Chain.{chain_of};
ghost use Rattle.plan_core.specs.Core.{opening};
ghost use Rattle.plan_core.specs.Law.{IsLawful, IsPrintable, MayBegin};
ghost use Rattle.plan_core.specs.Replies.{IsLent};
ghost use Rattle.script_text.specs.declared.script.Script.{Script};
ghost use Rattle.bd_gen.specs.Errands.{plan_of, problem_of};
ghost use Rattle.bd_gen.specs.declared.sample.TheConstants.{DOMAIN};
ghost use Rattle.bd_top.specs.Prepared.{IsRunnable};
ghost use Rattle.bd_top.specs.Run.{Checks, Ends, Finishes, HasValidPlan, IsDecided, IsDoneOrNoMemory, IsExact, IsFaultless, IsGood, IsGoodPlan, IsUsable, Replays, opening_of, record_of, status_by, status_of};
ghost use Rattle.bd_top.specs.Words.{errands_asked};

use crate::bench::put_summary;
use crate::deorder::put_loosened;
use crate::improve::put_improved;
use crate::prepare::{Prepared, prepare_words};
use crate::replay::make_offers;
use crate::status::{Ended, Status};
use crate::valid::valid_text;
use bd_base::{ActionId, FromItems, Items, NoMemory, Shelf, Sink};
use bd_pieces::End;
use bd_task::Task;
use bd_tree::Tree;
use plan_core::{BeginErr, Core, Offer};
use run_texts::{Reply, RunRecord, Stop, put_text, summary_text};
use script_text::Script;
use std::alloc::Global;

// The tree that a script with this plan starts from.
fn start_tree(alloc: Global, start: Option<Tree>, plan: &[ActionId]) -> Result<Tree, NoMemory>
    requires { length plan.now ≤ 2_000 }
    ensures { IfOk result (λ tree. tree ≡ unwrap_or start (chain_of plan.now)) }
{
    match start {
        Some(tree) => Ok(tree),
        None => Tree::chain(alloc, plan),
    }
}

// A core that opens on a sound tree.
fn opened(alloc: Global, task: Task, start: Tree, stop: u32) -> Result<Core, NoMemory>
    requires may { MayBegin task start }
    requires sound { IsSound task start }
    requires stops { (0 < stop) × (stop ≤ 1_000_000) }
    ensures { IfOk result (λ core. core ≡ opening task start stop) }
{
    match Core::begin(alloc, task, start, stop) {
        Ok(core) => Ok(core),
        // The tree is sound.
        Err(BeginErr::Unsound(_)) => {
            prove!(false);
            Err(NoMemory)
        }
        Err(BeginErr::NoMemory) => Err(NoMemory),
    }
}

// The record of a core that some first offers led to, with their replies.
fn recorded(alloc: Global, core: Core, offers: &[Offer], replies: Vec<Reply>) -> RunRecord
    ensures recorded { result ≡ record_of offers.now replies.items core }
    ensures lawful { IsLawful core }
    ensures start { IsPrintable result.task result.start }
    ensures tree { IsPrintable result.task result.tree }
{
    let end = if replies.len() == offers.len() {
        Some(End::Script)
    } else {
        None
    };
    let (task, start, history, tree) = core.into_parts();
    RunRecord {
        task,
        start,
        history: Items::of(history),
        tree,
        pieces: Items::of(Vec::new(alloc)),
        replies: Items::of(replies),
        end,
    }
}

// What a run ends with that stopped before its end.
fn stopped(stop: Stop, run: RunRecord) -> Ended
    ensures status { result.status ≡ status_of stop }
    ensures run { result.run ≡ Some run }
{
    let status = match stop {
        Stop::WriteFault => Status::WriteFault,
        Stop::NoMemory => Status::NoMemory,
    };
    Ended {
        status,
        run: Some(run),
    }
}

/// Puts the summary of a run that nothing stopped.
pub(crate) fn finished<S: Sink>(
    alloc: Global,
    made: Result<(), Stop>,
    run: RunRecord,
    out: &mut S,
) -> Ended
    requires start { IsPrintable run.task run.start }
    requires tree { IsPrintable run.task run.tree }
    ensures finishes { Finishes made run (record { before = S.told out.old; after = S.told out.new; faults = S.faults out.old; faults_after = S.faults out.new }) result.status result.run }
    ensures later { S.faults out.old ≤ S.faults out.new }
{
    match made {
        Err(stop) => stopped(stop, run),
        Ok(()) => match put_text(out, summary_text(alloc, &run)) {
            Err(stop) => stopped(stop, run),
            Ok(()) => Ended {
                status: Status::Done,
                run: Some(run),
            },
        },
    }
}

// Makes the offers on a core that has just begun, puts what comes of them, and then the summary.
fn replayed<S: Sink, E: Sink>(
    alloc: Global,
    core: Core,
    offers: &[Offer],
    replies: Vec<Reply>,
    out: &mut S,
    notes: &mut E,
) -> Ended
    requires fresh { core.history ≡ [] }
    requires none { replies.items ≡ [] }
    requires room { length offers.now ≤ vec_capacity replies }
    requires few { length offers.now ≤ 1_000_000 }
    requires lent { All IsLent offers.now }
    ensures { Replays core offers.now
        (record { before = S.told out.old; after = S.told out.new; faults = S.faults out.old; faults_after = S.faults out.new })
        (record { before = E.told notes.old; after = E.told notes.new; faults = E.faults notes.old; faults_after = E.faults notes.new })
        result.status result.run }
{
    let mut core = core;
    let mut replies = replies;
    let made = make_offers(alloc, &mut core, offers, &mut replies, out, notes);
    let run = recorded(alloc, core, offers, replies);
    finished(alloc, made, run, out)
}

// The core that a script opens.
fn begun(
    alloc: Global,
    task: Task,
    start: Option<Tree>,
    plan: &[ActionId],
    stop: u32,
) -> Result<Core, NoMemory>
    requires few { length plan.now ≤ 2_000 }
    requires may { MayBegin task (unwrap_or start (chain_of plan.now)) }
    requires sound { IsSound task (unwrap_or start (chain_of plan.now)) }
    requires stops { (0 < stop) × (stop ≤ 1_000_000) }
    ensures { IfOk result (λ core. core ≡ opening task (unwrap_or start (chain_of plan.now)) stop) }
{
    let tree = start_tree(alloc, start, plan)?;
    opened(alloc, task, tree, stop)
}

// The run of a script whose plan is valid and whose start tree is sound. The room for all replies is taken before the first
// offer.
fn run_script<S: Sink, E: Sink>(alloc: Global, script: Script, out: &mut S, notes: &mut E) -> Ended
    requires { IsRunnable script }
    ensures { Replays (opening_of script) script.offers
        (record { before = S.told out.old; after = S.told out.new; faults = S.faults out.old; faults_after = S.faults out.new })
        (record { before = E.told notes.old; after = E.told notes.new; faults = E.faults notes.old; faults_after = E.faults notes.new })
        result.status result.run }
{
    let Script {
        task,
        plan,
        start,
        start_line: _,
        stop,
        offers,
    } = script;
    let offers = offers.as_slice();
    let core = begun(alloc, task, start, plan.as_slice(), stop);
    let replies = Vec::with_capacity(alloc, offers.len());
    match (core, replies) {
        (Ok(core), Ok(replies)) => replayed(alloc, core, offers, replies, out, notes),
        _ => Ended {
            status: Status::NoMemory,
            run: None,
        },
    }
}

/// What a put that ends a command ends it with.
pub(crate) fn status_of(put: Result<(), Stop>) -> Status
    ensures { result ≡ status_by put }
{
    match put {
        Ok(()) => Status::Done,
        Err(Stop::WriteFault) => Status::WriteFault,
        Err(Stop::NoMemory) => Status::NoMemory,
    }
}

// Puts the cost of a valid plan.
fn put_cost<S: Sink>(alloc: Global, cost: u64, out: &mut S) -> Ended
    ensures { Checks cost (record { before = S.told out.old; after = S.told out.new; faults = S.faults out.old; faults_after = S.faults out.new }) result.status result.run }
{
    let line = valid_text(alloc, cost);
    let status = status_of(put_text(out, line));
    Ended { status, run: None }
}

// Does what the words ask for.
fn run_words<H: Shelf, S: Sink, E: Sink>(
    alloc: Global,
    words: &[String],
    shelf: &mut H,
    out: &mut S,
    notes: &mut E,
) -> Ended
    ensures ends { Ends (map string_bytes words.now) (H.tells shelf.old)
        (record { faults = H.faults shelf.old; faults_after = H.faults shelf.new; longs = H.longs shelf.old; longs_after = H.longs shelf.new })
        (record { before = S.told out.old; after = S.told out.new; faults = S.faults out.old; faults_after = S.faults out.new })
        (record { before = E.told notes.old; after = E.told notes.new; faults = E.faults notes.old; faults_after = E.faults notes.new })
        result.status result.run }
    ensures shelf { (n : List ℕ) → H.tells shelf.new n ≡ H.tells shelf.old n }
{
    match prepare_words(alloc, words, shelf) {
        Prepared::Ready(script) => run_script(alloc, script, out, notes),
        Prepared::Valid { cost } => put_cost(alloc, cost, out),
        Prepared::Plan { task, plan, span } => put_loosened(alloc, task, plan, span, out),
        Prepared::Improvable {
            task,
            plan,
            numbers,
        } => put_improved(alloc, task, plan, &numbers, out),
        Prepared::Errands { task, plan } => put_summary(alloc, task, plan, out),
        Prepared::Refused { status, line } => {
            let _ = notes.put(line.as_slice());
            Ended { status, run: None }
        }
        Prepared::NoMemory => Ended {
            status: Status::NoMemory,
            run: None,
        },
    }
}

/// Does what the words ask for, and ends. The texts come from the shelf; what is found goes to `out`, and
/// what is refused to `notes`, each refusal by one put, whose failure changes nothing.
pub fn run_alone<H: Shelf, S: Sink, E: Sink>(
    alloc: Global,
    words: &[String],
    shelf: &mut H,
    out: &mut S,
    notes: &mut E,
) -> Ended
    // Which words and texts lead to which status and which bytes.
    ensures ends { Ends (map string_bytes words.now) (H.tells shelf.old)
        (record { faults = H.faults shelf.old; faults_after = H.faults shelf.new; longs = H.longs shelf.old; longs_after = H.longs shelf.new })
        (record { before = S.told out.old; after = S.told out.new; faults = S.faults out.old; faults_after = S.faults out.new })
        (record { before = E.told notes.old; after = E.told notes.new; faults = E.faults notes.old; faults_after = E.faults notes.new })
        result.status result.run }
    ensures shelf { (n : List ℕ) → H.tells shelf.new n ≡ H.tells shelf.old n }
    // Each of the statuses 0 to 3 comes exactly where its cause stands, where none of the others comes.
    ensures exact { IsDecided result.status → IsExact (map string_bytes words.now) (H.tells shelf.old) result.status }
    // Whoever has the record of a run may ask for each of its texts.
    ensures usable { IfSome result.run (λ run. IsUsable run) }
    // A valid plan is told so, or its tree, or it is improved, where nothing outside fails.
    ensures checked { (domain problem plan : List ℕ) → IsGoodPlan (map string_bytes words.now) (H.tells shelf.old) domain problem plan → IsFaultless (H.faults shelf.old) (H.faults shelf.new) → IsFaultless (S.faults out.old) (S.faults out.new) → IsFaultless (E.faults notes.old) (E.faults notes.new) → IsDoneOrNoMemory result.status }
    // A valid plan of generated errands is improved, where nothing outside fails.
    ensures benched { (size : ℕ) → errands_asked (map string_bytes words.now) ≡ Some size → HasValidPlan DOMAIN.now (problem_of size) (plan_of size) → IsFaultless (S.faults out.old) (S.faults out.new) → IsFaultless (E.faults notes.old) (E.faults notes.new) → IsDoneOrNoMemory result.status }
    // A good script is run, where nothing outside fails.
    ensures complete { (script : Script) → IsGood (map string_bytes words.now) (H.tells shelf.old) script → IsFaultless (H.faults shelf.old) (H.faults shelf.new) → IsFaultless (S.faults out.old) (S.faults out.new) → IsFaultless (E.faults notes.old) (E.faults notes.new) → IsDoneOrNoMemory result.status }
{
    run_words(alloc, words, shelf, out, notes)
}

ghost use Rattle.std.specs.Prelude.{◌≡◌, ℕ, ◌<◌, ◌≤◌, ◌^◌, List, Err, IfOk, IfErr, All, length, MatchResult, map, string_bytes};
ghost use Rattle.bd_task.specs.Valid.{IsValid};
ghost use Rattle.bd_top.specs.Prepared.{Prepares, PreparesNamed, PreparesText, PreparesScript, HasFact, HasUnsoundStart, IsBounded, IsFirstBreak, IsReadFault, IsUsage, JudgesStart};
ghost use Rattle.script_text.specs.Limits.{Spelled, Answers};
ghost use Rattle.script_text.specs.Lines.{worded};
ghost use Rattle.script_text.specs.Whole.{script_at};
ghost use Rattle.bd_top.specs.declared.prepare.Prepared.TheVariants.{Refused as Refusal, NoMemory as OutOfMemory};

use crate::notes::{broken_note, over_note, refused_note, unread_note};
use crate::purpose::Purpose;
use crate::status::{File, Status};
use crate::texts::{prepare_errands, prepare_texts};
use crate::usage::usage_note;
use bd_base::{ActList, Cause, Limit, NoMemory, Shelf, ShelfErr, Text, TextErr};
use bd_links::check;
use bd_task::Task;
use command_words::{Numbers, Request, request_of};
use script_text::{Script, read_script};
use seq_check::{Broken, validate};
use std::alloc::Global;

/// The greatest length of a text, in bytes.
const TEXT_LIMIT: usize = 16_777_216;

/// What the words and the texts that they name lead to.
#[derive(Drop)]
pub enum Prepared {
    /// A script whose plan is valid and whose start tree is sound.
    Ready(Script),
    /// A valid plan, with its cost.
    Valid {
        cost: u64,
    },
    /// A valid plan that is to be deordered and tightened at a span, with its task.
    Plan {
        task: Task,
        plan: ActList,
        span: u32,
    },
    /// A valid plan that is to be improved by these numbers, with its task.
    Improvable {
        task: Task,
        plan: ActList,
        numbers: Numbers,
    },
    /// The valid plan of generated errands, with its task.
    Errands {
        task: Task,
        plan: ActList,
    },
    /// A refusal, and the line that names it.
    Refused {
        status: Status,
        line: Text,
    },
    /// Memory was wanting.
    NoMemory,
}

/// A refusal with its line, which may have wanted memory.
pub fn refused(status: Status, line: Result<Text, NoMemory>) -> Prepared
    ensures { MatchResult line (λ l. result ≡ Refusal status l) (λ _. result ≡ OutOfMemory) }
{
    match line {
        Ok(line) => Prepared::Refused { status, line },
        Err(_) => Prepared::NoMemory,
    }
}

// The cost of a script's plan, or its first break.
fn judged(alloc: Global, script: &Script) -> Result<u64, Broken>
    requires { IsBounded script.now }
    ensures valid { IfOk result (λ _. IsValid script.now.task script.now.plan) }
    ensures broken { IfErr result (λ b. IsFirstBreak script.now b) }
    ensures fact { IfErr result (λ b. HasFact (length script.now.task.facts) b) }
{
    validate(alloc, &script.task, script.plan.as_slice())
}

// The refusal of a script whose plan breaks.
fn broken_plan(alloc: Global, script: &Script, broken: Broken) -> Prepared
    requires broken { IsFirstBreak script.now broken }
    requires fact { HasFact (length script.now.task.facts) broken }
    ensures { PreparesScript script.now result }
{
    let line = broken_note(alloc, &script.task, &broken);
    refused(Status::PlanInvalid(broken), line)
}

// Whether the tree that the script starts from is sound. The chain of a valid plan is.
fn starts_sound(alloc: Global, script: &Script) -> Result<bool, NoMemory>
    requires bounded { IsBounded script.now }
    requires valid { IsValid script.now.task script.now.plan }
    ensures { IfOk result (λ sound. JudgesStart script.now sound) }
{
    match &script.start {
        None => Ok(true),
        Some(tree) => match check(alloc, &script.task, tree)? {
            None => Ok(true),
            Some(_) => Ok(false),
        },
    }
}

// The refusal of a script whose start tree isn't sound.
fn unsound_start(alloc: Global, script: &Script) -> Prepared
    requires valid { IsValid script.now.task script.now.plan }
    requires start { HasUnsoundStart script.now }
    ensures { PreparesScript script.now result }
{
    let file = File::Script;
    let place = script.start_line;
    let cause = Cause::Unsound;
    let line = refused_note(alloc, file, place, &cause);
    refused(Status::TextRefused { file, place, cause }, line)
}

// What a script whose plan is valid leads to.
fn prepare_valid(alloc: Global, script: Script) -> Prepared
    requires bounded { IsBounded script }
    requires valid { IsValid script.task script.plan }
    ensures { PreparesScript script result }
{
    match starts_sound(alloc, &script) {
        Ok(true) => Prepared::Ready(script),
        Ok(false) => unsound_start(alloc, &script),
        Err(_) => Prepared::NoMemory,
    }
}

fn prepare_script(alloc: Global, script: Script) -> Prepared
    requires { IsBounded script }
    ensures { PreparesScript script result }
{
    match judged(alloc, &script) {
        Ok(_) => prepare_valid(alloc, script),
        Err(broken) => broken_plan(alloc, &script, broken),
    }
}

// The refusal of a text that spells no script within the limits.
fn unspelled(alloc: Global, error: TextErr) -> Prepared
    ensures { (t : List ℕ) → Spelled t (Err error) → Answers (Err error) (script_at (worded t)) → PreparesText t result }
{
    match error {
        TextErr::At { place, cause } => {
            let file = File::Script;
            let line = refused_note(alloc, file, place, &cause);
            refused(Status::TextRefused { file, place, cause }, line)
        }
        TextErr::Over { limit, count } => {
            let line = over_note(alloc, limit, count);
            refused(Status::OverLimit { limit, count }, line)
        }
        TextErr::NoMemory => Prepared::NoMemory,
    }
}

fn prepare_text(alloc: Global, text: &[u8]) -> Prepared
    requires { length text.now ≤ 16_777_216 }
    ensures { PreparesText text.now result }
{
    match read_script(alloc, text) {
        Ok(script) => prepare_script(alloc, script),
        Err(error) => unspelled(alloc, error),
    }
}

/// The refusal of a text that couldn't be read.
pub fn unread(alloc: Global, name: &str, missing: bool) -> Prepared
    ensures { IsReadFault name.now missing result }
{
    let line = unread_note(alloc, name.as_bytes(), missing);
    match Text::from_slice(alloc, name.as_bytes()) {
        Ok(name) => refused(Status::ReadFault { name, missing }, line),
        Err(_) => Prepared::NoMemory,
    }
}

fn prepare_named<H: Shelf>(alloc: Global, name: &str, shelf: &mut H) -> Prepared
    ensures prepared { PreparesNamed name.now (H.tells shelf.old name.now)
        (record { faults = H.faults shelf.old; faults_after = H.faults shelf.new; longs = H.longs shelf.old; longs_after = H.longs shelf.new }) result }
    ensures told { (n : List ℕ) → H.tells shelf.new n ≡ H.tells shelf.old n }
{
    match shelf.read(alloc, name, TEXT_LIMIT) {
        Ok(text) => prepare_text(alloc, &text),
        Err(ShelfErr::Missing) => unread(alloc, name, true),
        Err(ShelfErr::Failed) => unread(alloc, name, false),
        Err(ShelfErr::TooBig) => {
            let count = TEXT_LIMIT as u64 + 1;
            let limit = Limit::Text;
            refused(
                Status::OverLimit { limit, count },
                over_note(alloc, limit, count),
            )
        }
        Err(ShelfErr::NoMemory) => Prepared::NoMemory,
    }
}

// The refusal of words that ask for nothing that is done.
fn misused(alloc: Global) -> Prepared
    ensures { IsUsage result }
{
    refused(Status::Usage, usage_note(alloc))
}

/// Reads and judges what the words name. The shelf still tells what it told.
pub fn prepare_words<H: Shelf>(alloc: Global, words: &[String], shelf: &mut H) -> Prepared
    ensures prepared { Prepares (map string_bytes words.now) (H.tells shelf.old)
        (record { faults = H.faults shelf.old; faults_after = H.faults shelf.new; longs = H.longs shelf.old; longs_after = H.longs shelf.new }) result }
    ensures told { (n : List ℕ) → H.tells shelf.new n ≡ H.tells shelf.old n }
{
    match request_of(alloc, words) {
        Ok(Some(Request::Replay { script })) => prepare_named(alloc, script, shelf),
        Ok(Some(Request::Check { texts })) => prepare_texts(alloc, &texts, Purpose::Check, shelf),
        Ok(Some(Request::Deorder { texts, span })) => {
            prepare_texts(alloc, &texts, Purpose::Deorder { span }, shelf)
        }
        Ok(Some(Request::Improve { texts, numbers })) => {
            prepare_texts(alloc, &texts, Purpose::Improve { numbers }, shelf)
        }
        Ok(Some(Request::Bench { size })) => prepare_errands(alloc, size),
        Ok(None) => misused(alloc),
        Err(NoMemory) => Prepared::NoMemory,
    }
}

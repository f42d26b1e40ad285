ghost use Rattle.std.specs.Prelude.{◌≡◌, codes, IfOk};
ghost use Rattle.clap.specs.Words.{App, with_rule};
ghost use Rattle.command_words.specs.Apps.{bare, bench_app, check_app, count_word, deorder_app, improve_app, number, replay_app, texts_app, word};
ghost use Rattle.command_words.specs.Built.{IsApp};

use clap::builder::ValueParser;
use clap::{Arg, Command};
use std::alloc::{AllocError, Global};

// A command with no words yet.
fn bare<'a>(alloc: Global, name: &'a str) -> Command<'a>
    ensures { IsApp (bare name.now) result }
{
    Command::new(alloc, name)
        .no_binary_name(true)
        .disable_help_flag(true)
        .disable_version_flag(true)
}

// The command with one more word that has to be there.
fn with_word<'a>(
    alloc: Global,
    command: Command<'a>,
    id: &'a str,
) -> Result<Command<'a>, AllocError>
    ensures { IfOk result (λ c. (a : App) → IsApp a command.entry → IsApp (with_rule a (word id.now)) c) }
{
    command.arg(Arg::new(alloc, id).required(true))
}

// The command with one more number that has to be there.
fn with_count<'a>(
    alloc: Global,
    command: Command<'a>,
    id: &'a str,
    most: u64,
) -> Result<Command<'a>, AllocError>
    ensures { IfOk result (λ c. (a : App) → IsApp a command.entry → IsApp (with_rule a (count_word id.now most)) c) }
{
    let count = Arg::new(alloc, id)
        .required(true)
        .value_parser(ValueParser::unsigned(1, most));
    command.arg(count)
}

// The command with one more option.
fn with_number<'a>(
    alloc: Global,
    command: Command<'a>,
    id: &'a str,
    most: u64,
) -> Result<Command<'a>, AllocError>
    ensures { IfOk result (λ c. (a : App) → IsApp a command.entry → IsApp (with_rule a (number id.now most)) c) }
{
    let number = Arg::new(alloc, id)
        .long(id)
        .value_parser(ValueParser::unsigned(1, most));
    command.arg(number)
}

// A command that takes a domain, a problem and a plan.
fn with_texts<'a>(alloc: Global, name: &'a str) -> Result<Command<'a>, AllocError>
    ensures { IfOk result (λ c. IsApp (texts_app name.now) c) }
{
    let domain = with_word(alloc, bare(alloc, name), "DOMAIN")?;
    let problem = with_word(alloc, domain, "PROBLEM")?;
    with_word(alloc, problem, "PLAN")
}

/// check DOMAIN PROBLEM PLAN
pub fn check_command<'a>(alloc: Global) -> Result<Command<'a>, AllocError>
    ensures { IfOk result (λ c. IsApp check_app c) }
{
    with_texts(alloc, "check")
}

/// deorder DOMAIN PROBLEM PLAN [--span N]
pub fn deorder_command<'a>(alloc: Global) -> Result<Command<'a>, AllocError>
    ensures { IfOk result (λ c. IsApp deorder_app c) }
{
    let texts = with_texts(alloc, "deorder")?;
    with_number(alloc, texts, "span", 64)
}

/// improve DOMAIN PROBLEM PLAN [--workers N] [--nodes N] [--width N] [--span N] [--stop N]
pub fn improve_command<'a>(alloc: Global) -> Result<Command<'a>, AllocError>
    ensures { IfOk result (λ c. IsApp improve_app c) }
{
    let texts = with_texts(alloc, "improve")?;
    let workers = with_number(alloc, texts, "workers", 64)?;
    let nodes = with_number(alloc, workers, "nodes", 100_000)?;
    let width = with_number(alloc, nodes, "width", 64)?;
    let span = with_number(alloc, width, "span", 64)?;
    with_number(alloc, span, "stop", 1_000_000)
}

/// replay SCRIPT
pub fn replay_command<'a>(alloc: Global) -> Result<Command<'a>, AllocError>
    ensures { IfOk result (λ c. IsApp replay_app c) }
{
    with_word(alloc, bare(alloc, "replay"), "SCRIPT")
}

/// bench N
pub fn bench_command<'a>(alloc: Global) -> Result<Command<'a>, AllocError>
    ensures { IfOk result (λ c. IsApp bench_app c) }
{
    with_count(alloc, bare(alloc, "bench"), "N", 600)
}

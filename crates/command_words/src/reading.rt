ghost use Rattle.std.specs.Prelude.{◌≡◌, ◌≤◌, true, List, ℕ, None, Some, MatchOption, IfOk, codes, drop, map, string_bytes};
ghost use Rattle.clap.specs.Words.{app_of, found_of, is_simple_and_free, rows_of as rows_found, IsParsedFrom};
ghost use Rattle.command_words.specs.Asked.{Asks, names_at, names_of, number_at, numbers_at, rows_of, word_at};
ghost use Rattle.command_words.specs.Behind.{AsksBench, AsksCheck, AsksDeorder, AsksImprove, AsksReplay};
ghost use Rattle.command_words.specs.Built.{IsNumberAt};
ghost use Rattle.command_words.specs.Range.{AreInRange, AreNumbersInRange, IsFrom1To};

use crate::apps::{bench_command, check_command, deorder_command, improve_command, replay_command};
use crate::request::{Numbers, Request, TextNames};
use bd_base::NoMemory;
use clap::error::ErrorKind;
use clap::{ArgMatches, Command};
use std::alloc::Global;

// Whether memory was wanting.
fn is_memory(kind: ErrorKind) -> bool
    ensures { kind ≡ ErrorKind.OutOfMemory → result ≡ true }
{
    matches!(kind, ErrorKind::OutOfMemory)
}

// What clap finds in the words, unless it refuses them.
fn matches_of<'a>(
    command: Command<'a>,
    words: &'a [String],
) -> Result<Option<ArgMatches<'a>>, NoMemory>
    requires { is_simple_and_free (app_of command) ≡ true }
    ensures { IfOk result (λ o. MatchOption o (rows_of (app_of command.entry) (map string_bytes words.now) ≡ None)
        (λ m. (rows_of (app_of command.entry) (map string_bytes words.now) ≡ Some (rows_found (found_of m))) × IsParsedFrom command.entry m)) }
{
    match command.try_get_matches_from(words) {
        Ok(matches) => Ok(Some(matches)),
        Err(e) => {
            if is_memory(e.kind()) {
                Err(NoMemory)
            } else {
                Ok(None)
            }
        }
    }
}

// The word at a place.
fn word<'a>(matches: &ArgMatches<'a>, id: &str) -> &'a str
    ensures { result.now ≡ word_at id.now (rows_found (found_of matches.now)) }
{
    match matches.get_str(id) {
        Some(text) => text,
        None => "",
    }
}

// The number of an option, or the default.
fn number(matches: &ArgMatches, id: &str, most: u64, default: u32) -> u32
    requires number { IsNumberAt matches.now id.now most }
    requires most { most ≤ 1_000_000 }
    requires default { IsFrom1To most default }
    ensures number { result ≡ number_at id.now default (rows_found (found_of matches.now)) }
    ensures range { IsFrom1To most result }
{
    match matches.get_one::<u32>(id) {
        Some(n) => n,
        None => default,
    }
}

// The names of the texts.
fn names<'a>(matches: &ArgMatches<'a>) -> TextNames<'a>
    ensures { names_of result ≡ names_at (rows_found (found_of matches.now)) }
{
    TextNames {
        domain: word(matches, "DOMAIN"),
        problem: word(matches, "PROBLEM"),
        plan: word(matches, "PLAN"),
    }
}

// How a plan is improved.
fn numbers(matches: &ArgMatches) -> Numbers
    requires workers { IsNumberAt matches.now (codes "workers") 64 }
    requires nodes { IsNumberAt matches.now (codes "nodes") 100_000 }
    requires width { IsNumberAt matches.now (codes "width") 64 }
    requires span { IsNumberAt matches.now (codes "span") 64 }
    requires stop { IsNumberAt matches.now (codes "stop") 1_000_000 }
    ensures numbers { result ≡ numbers_at (rows_found (found_of matches.now)) }
    ensures range { AreNumbersInRange result }
{
    Numbers {
        workers: number(matches, "workers", 64, 1),
        nodes: number(matches, "nodes", 100_000, 500),
        width: number(matches, "width", 64, 6),
        span: number(matches, "span", 64, 12),
        stop: number(matches, "stop", 1_000_000, 1_000_000),
    }
}

fn check_request<'a>(alloc: Global, rest: &'a [String]) -> Result<Option<Request<'a>>, NoMemory>
    ensures asked { IfOk result (AsksCheck (map string_bytes rest.now)) }
    ensures ranges { IfOk result AreInRange }
{
    match matches_of(check_command(alloc)?, rest)? {
        None => Ok(None),
        Some(matches) => Ok(Some(Request::Check {
            texts: names(&matches),
        })),
    }
}

fn deorder_request<'a>(alloc: Global, rest: &'a [String]) -> Result<Option<Request<'a>>, NoMemory>
    ensures asked { IfOk result (AsksDeorder (map string_bytes rest.now)) }
    ensures ranges { IfOk result AreInRange }
{
    match matches_of(deorder_command(alloc)?, rest)? {
        None => Ok(None),
        Some(matches) => Ok(Some(Request::Deorder {
            texts: names(&matches),
            span: number(&matches, "span", 64, 12),
        })),
    }
}

fn improve_request<'a>(alloc: Global, rest: &'a [String]) -> Result<Option<Request<'a>>, NoMemory>
    ensures asked { IfOk result (AsksImprove (map string_bytes rest.now)) }
    ensures ranges { IfOk result AreInRange }
{
    match matches_of(improve_command(alloc)?, rest)? {
        None => Ok(None),
        Some(matches) => Ok(Some(Request::Improve {
            texts: names(&matches),
            numbers: numbers(&matches),
        })),
    }
}

fn replay_request<'a>(alloc: Global, rest: &'a [String]) -> Result<Option<Request<'a>>, NoMemory>
    ensures asked { IfOk result (AsksReplay (map string_bytes rest.now)) }
    ensures ranges { IfOk result AreInRange }
{
    match matches_of(replay_command(alloc)?, rest)? {
        None => Ok(None),
        Some(matches) => Ok(Some(Request::Replay {
            script: word(&matches, "SCRIPT"),
        })),
    }
}

fn bench_request<'a>(alloc: Global, rest: &'a [String]) -> Result<Option<Request<'a>>, NoMemory>
    ensures asked { IfOk result (AsksBench (map string_bytes rest.now)) }
    ensures ranges { IfOk result AreInRange }
{
    match matches_of(bench_command(alloc)?, rest)? {
        None => Ok(None),
        Some(matches) => Ok(Some(Request::Bench {
            size: number(&matches, "N", 600, 1),
        })),
    }
}

/// What the words ask for, if they are a command with its words.
pub fn request_of<'a>(alloc: Global, words: &'a [String]) -> Result<Option<Request<'a>>, NoMemory>
    ensures asked { IfOk result (Asks (map string_bytes words.now)) }
    // Each number stands in its range, whether the words have it or it is the default.
    ensures ranges { IfOk result AreInRange }
{
    let (first, rest) = match words.split_first() {
        None => return Ok(None),
        Some((first, rest)) => (first.as_str(), rest),
    };
    if first == "improve" {
        return improve_request(alloc, rest);
    }
    if first == "check" {
        return check_request(alloc, rest);
    }
    if first == "deorder" {
        return deorder_request(alloc, rest);
    }
    if first == "replay" {
        return replay_request(alloc, rest);
    }
    if first == "bench" {
        return bench_request(alloc, rest);
    }
    Ok(None)
}

//! The program: it hands its words, the runtime's files and the standard streams to bd_top, and ends with
//! the status number.
//!
//! It may know bd_top and bd_base. What it does is bd_top's promise; the few lines here have no contract.
#![tactic(auto)]

use bd_base::{DirShelf, StreamSink};
use bd_top::run_alone;
use std::alloc::{AllocError, Global};
use std::env;
use std::io::ErrorKind;
use std::process::ExitCode;

/// The status where the words can't be had for want of memory.
const NO_MEMORY: u8 = 7;

/// The status where the words can't be had for another cause.
const NO_WORDS: u8 = 9;

fn behind_the_first(alloc: Global, args: env::Args) -> Result<Vec<String>, AllocError> {
    let mut words = Vec::new(alloc);
    for word in args.skip(1) {
        words.push(word)?;
    }
    Ok(words)
}

fn main(rt: HostRuntime) -> ExitCode {
    let args = match env::args(&rt) {
        Ok(args) => args,
        Err(e) if e.kind() == ErrorKind::OutOfMemory => return ExitCode::from(NO_MEMORY),
        Err(_) => return ExitCode::from(NO_WORDS),
    };
    let Ok(words) = behind_the_first(rt.alloc(), args) else {
        return ExitCode::from(NO_MEMORY);
    };
    let mut shelf = DirShelf::new(&rt);
    let mut out = StreamSink::new(rt.stdout());
    let mut notes = StreamSink::new(rt.stderr());
    let ended = run_alone(rt.alloc(), &words, &mut shelf, &mut out, &mut notes);
    ExitCode::from(ended.status.number() as u8)
}

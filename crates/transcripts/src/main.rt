//! Worked cases as transcripts: reads lines that write texts and commands, and puts the same lines with what each
//! command answers behind it. The cases are data: a further one costs no proof, and what is put is read by people.
//!
//! It may know bd_top and bd_base. It promises nothing but that it is safe and ends: what the top call answers is
//! bd_top's promise. docs/formats.md ("Transcripts") tells each kind of line: texts (`text`, `with`) and their
//! pieces (`|`), edits (`insert`, `put`, `drop`), calls that fail (`fails`, `room`), and commands (`$`).
//!
//! Old answers in the input are left out, so that what was put may be read again and comes to itself. A line that is
//! none of these is followed by `? ` with what is wrong with it, and its number among the lines that are no answers.
#![tactic(auto)]

mod answers;
mod lines;
mod pieces;
mod session;
mod texts;
mod told;

use crate::lines::{Line, line_of};
use crate::session::Session;
use bd_base::NoMemory;
use std::alloc::Global;
use std::io;
use std::io::{Read, Write};

// Puts the line, and what it leads to.
fn put_line(
    out: &mut Vec<u8>,
    session: &mut Session,
    bytes: &[u8],
    line: Line<'_>,
    number: u64,
) -> Result<(), NoMemory> {
    out.extend_from_slice(bytes)?;
    out.extend_from_slice(b"\n")?;
    match session.take(out, line)?.wrong() {
        None => Ok(()),
        Some(wrong) => answers::put_wrong(out, wrong, number),
    }
}

// The transcript of the input. Old answers are left out, and not counted.
fn transcript(alloc: Global, input: &[u8]) -> Result<Vec<u8>, NoMemory> {
    let mut out = Vec::new(alloc);
    let mut session = Session::new(alloc);
    let mut number = 0u64;
    let lines = input.strip_suffix(b"\n").unwrap_or(input);
    for bytes in lines.split(|b| *b == b'\n') {
        let line = line_of(bytes);
        if matches!(line, Line::Answer) {
            continue;
        }
        number = number.saturating_add(1);
        put_line(&mut out, &mut session, bytes, line, number)?;
    }
    Ok(out)
}

fn main(rt: HostRuntime) -> io::Result<()> {
    let mut input = Vec::new(rt.alloc());
    rt.stdin().read_to_end(&mut input)?;
    match transcript(rt.alloc(), &input) {
        Ok(out) => rt.stdout().write_all(&out),
        Err(NoMemory) => Err(io::Error::from(io::ErrorKind::OutOfMemory)),
    }
}

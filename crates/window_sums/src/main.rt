//! For each script that is named: what the family of its start tree has at the width 3.
//!
//! It may know bd_window, bd_subtask and script_text, and what stands below them. It walks through the family, forms each
//! window's subtask, and writes a line for each script: how many windows and carried kids there are, how many facts the
//! subtasks have at their start, in their goals, to be made and to be kept, the sum of their bounds, and how many facts the
//! compiled subtasks have. Where there are at most 30 windows, each is told in a line of its own, with its subtask's facts
//! by their numbers. It promises nothing but that it is safe and ends. What the scripts in data/ lead to was worked out by
//! hand for the three smallest, and by another program, which follows the definitions of docs/rules.md word for word, for all.
//! A text that can't be read, or that is no script, has a line that says so.
#![tactic(auto)]

mod listing;
mod report;
mod sums;

use crate::report::script_report;
use bd_base::{DirShelf, NoMemory, Shelf};
use std::alloc::{AllocError, Global};
use std::{env, io};

/// The width of the family.
pub const WIDTH: u32 = 3;

/// The greatest length of a text, in bytes.
const TEXT_LIMIT: usize = 16_777_216;

fn behind_the_first(alloc: Global, args: env::Args) -> Result<Vec<String>, AllocError> {
    let mut words = Vec::new(alloc);
    for word in args.skip(1) {
        words.push(word)?;
    }
    Ok(words)
}

fn main(rt: HostRuntime) -> io::Result<()> {
    let words = behind_the_first(rt.alloc(), env::args(&rt)?)?;
    let mut shelf = DirShelf::new(&rt);
    for name in words.iter() {
        match shelf.read(rt.alloc(), name.as_str(), TEXT_LIMIT) {
            Err(_) => println!(rt; "{name}: unread")?,
            Ok(text) => match script_report(rt.alloc(), &text) {
                Err(NoMemory) => println!(rt; "{name}: no memory")?,
                Ok(None) => println!(rt; "{name}: no script")?,
                Ok(Some(report)) => {
                    println!(rt; "{name}: {}", report.sums)?;
                    for told in report.listed.iter() {
                        println!(rt; "{told}")?;
                    }
                }
            },
        }
    }
    Ok(())
}

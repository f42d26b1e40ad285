//! Small ground tasks: what the heuristics, the proposer and the bounded search say of each, and what a plain walk finds.
//!
//! It may know bd_search, bd_greedy, bd_values, bd_heur, script_text and what stands below them. It promises nothing but
//! that it is safe and ends: that a verdict is true is bd_search's promise. A line of the input is a script's name; or a name,
//! a bound and a budget of states; or, where it begins with `-`, a remark. Each line is put again. Behind a name stand the
//! heuristic values of the initial set, and whether a list was proposed that reaches the goal. Behind a case stands the
//! verdict, and then what a plain breadth first walk through all states finds: the least cost of a list that reaches the
//! goal, and, where the budget was spent, how many states are reached at a cost of at most the floor. The scripts lie in
//! data/. The expected lines were worked out by hand for the first dozen tasks, and by another program, which goes through
//! all states, for all.
#![tactic(auto)]

mod lines;
mod runs;
mod values;
mod verdicts;
mod walk;

use crate::lines::{Line, line_of};
use crate::values::{Values, values_of};
use crate::verdicts::{Judged, judge};
use bd_base::{DirShelf, NoMemory, Shelf};
use script_text::{Script, read_script};
use std::alloc::Global;
use std::fmt::{Display, Formatter};
use std::{fmt, io};

/// The greatest length of a script, in bytes.
const TEXT_LIMIT: usize = 1_048_576;

// What is answered of a line.
#[derive(Clone, Copy)]
enum Answer {
    Remark,
    NoLine,
    NoScript,
    /// There are too many states.
    Long,
    Values(Values),
    Judged(Judged),
}

impl Display for Answer {
    fn fmt<W: fmt::Write>(&self, f: &mut Formatter<W>) -> fmt::Result {
        match self {
            Answer::Remark => Ok(()),
            Answer::NoLine => write!(f, ": no such line"),
            Answer::NoScript => write!(f, ": no script"),
            Answer::Long => write!(f, ": too many states"),
            Answer::Values(values) => write!(f, ": {values}"),
            Answer::Judged(judged) => write!(f, ": {judged}"),
        }
    }
}

// A script of the shelf.
fn script_of<S: Shelf>(
    alloc: Global,
    shelf: &mut S,
    name: &str,
) -> Result<Option<Script>, NoMemory> {
    let file = format!(in alloc; "{name}.script")?;
    let Ok(text) = shelf.read(alloc, file.as_str(), TEXT_LIMIT) else {
        return Ok(None);
    };
    if text.len() > TEXT_LIMIT {
        return Ok(None);
    }
    Ok(read_script(alloc, &text).ok())
}

fn answer_of_values<S: Shelf>(
    alloc: Global,
    shelf: &mut S,
    name: &str,
) -> Result<Answer, NoMemory> {
    match script_of(alloc, shelf, name)? {
        None => Ok(Answer::NoScript),
        Some(script) => Ok(Answer::Values(values_of(alloc, &script.task)?)),
    }
}

fn answer_of_case<S: Shelf>(
    alloc: Global,
    shelf: &mut S,
    name: &str,
    bound: u64,
    nodes: u32,
) -> Result<Answer, NoMemory> {
    let Some(script) = script_of(alloc, shelf, name)? else {
        return Ok(Answer::NoScript);
    };
    match judge(alloc, &script.task, bound, nodes)? {
        None => Ok(Answer::Long),
        Some(told) => Ok(Answer::Judged(told)),
    }
}

fn answer_of<S: Shelf>(alloc: Global, shelf: &mut S, line: Line<'_>) -> Result<Answer, NoMemory> {
    match line {
        Line::Remark => Ok(Answer::Remark),
        Line::Wrong => Ok(Answer::NoLine),
        Line::Name(name) => answer_of_values(alloc, shelf, name),
        Line::Case { name, bound, nodes } => answer_of_case(alloc, shelf, name, bound, nodes),
    }
}

fn main(rt: HostRuntime) -> io::Result<()> {
    let mut shelf = DirShelf::new(&rt);
    for line in rt.lines(rt.alloc()) {
        let line = line?;
        match answer_of(rt.alloc(), &mut shelf, line_of(line.as_str())) {
            Ok(answer) => println!(rt; "{line}{answer}")?,
            Err(NoMemory) => return Err(io::Error::from(io::ErrorKind::OutOfMemory)),
        }
    }
    Ok(())
}

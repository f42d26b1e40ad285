ghost use Rattle.std.specs.Prelude.{◌≡◌, length};
ghost use Rattle.plan_core.specs.Law.{IsPrintable};

use bd_base::{FactSet, MemShelf, MemSink, NoMemory, Text};
use bd_task::Task;
use bd_top::{End, RunRecord, better_text, reply_text, run_alone, summary_text};
use plan_core::Refusal;
use std::alloc::Global;
use std::test::Fail;

// A plan of two steps, the dear one of which is replaced by nothing, which the second offer can't do again.
const SCRIPT: &[u8] =
    b"bdpo-script 1\nfact (a)\naction (dear) 9 pre add del\naction (get) 1 pre add (a) del\ninit\ngoal (a)\n\
    plan (dear) (get)\nreplace 0 early 1:(dear) with\nreplace 0 early 1:(dear) with\nend\n";

// The words `replay` and the script's name.
fn words(alloc: Global) -> Result<Vec<String>, NoMemory> {
    let mut words = Vec::new(alloc);
    for word in ["replay", "s"] {
        words.push(String::from_str(alloc, word)?)?;
    }
    Ok(words)
}

// A caller who has a record may call each text on it.
fn are_texts(alloc: Global, run: &RunRecord) -> Result<bool, NoMemory>
    requires start { IsPrintable run.now.task run.now.start }
    requires tree { IsPrintable run.now.task run.now.tree }
{
    let better = better_text(alloc, &run.task, 1, &run.tree)?;
    let summary = summary_text(alloc, run)?;
    Ok(
        better.as_slice() == b"; place 1\n(get)\n; cost = 1\n".as_slice()
            && summary.as_slice().starts_with(b"; start 10\n; final 1\n"),
    )
}

#[test]
fn a_record_has_its_run(rt: HostRuntime) -> Result<(), Fail> {
    let alloc = rt.alloc();
    let names = vec![in alloc; Text::from_slice(alloc, b"s")?]?;
    let texts = vec![in alloc; Text::from_slice(alloc, SCRIPT)?]?;
    let mut shelf = MemShelf::new(names, texts, Vec::new(alloc));
    let mut out = MemSink::new(alloc, 256, Vec::new(alloc))?;
    let mut notes = MemSink::new(alloc, 256, Vec::new(alloc))?;
    let words = words(alloc)?;
    let ended = run_alone(alloc, &words, &mut shelf, &mut out, &mut notes);
    assert_eq!(rt; ended.status.number(), 0);
    match &ended.run {
        Some(run) => {
            assert!(rt; run.end == Some(End::Script));
            assert!(rt; run.history.len() == 1 && run.replies.len() == 2);
            assert!(rt; are_texts(alloc, run)?);
        }
        None => assert!(rt; false),
    }
    Ok(())
}

// A task without facts and actions.
fn empty_task(alloc: Global) -> Task
    ensures facts { length result.facts ≡ 0 }
    ensures actions { length result.actions ≡ 0 }
{
    Task::new(
        Vec::new(alloc),
        Vec::new(alloc),
        FactSet::new(),
        FactSet::new(),
    )
}

// Names are looked up, so no script leads to this refusal.
#[test]
fn an_action_that_is_none_is_told_by_its_number(rt: HostRuntime) -> Result<(), Fail> {
    let alloc = rt.alloc();
    let why = Refusal::NoAction { number: 9 };
    let line = reply_text(alloc, &empty_task(alloc), 1, &why)?;
    assert_eq!(rt;
        line.as_slice(),
        b"offer 1: refused 2 NoAction 9\n".as_slice()
    );
    Ok(())
}

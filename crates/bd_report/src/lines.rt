// What the lines of a tree's text are put together from.
ghost use Rattle.std.specs.Prelude.{◌≡◌, ◌++◌, ◌<◌, [], OnOk, codes, decimal, length};
ghost use Rattle.bd_reason.specs.Reasons.{fact_of};
ghost use Rattle.bd_report.specs.TreeText.{block_line, kind_of, ordering_line, reason_part, shown, step_line};

use bd_base::{ActionId, NoMemory, NodeId};
use bd_reason::Reason;
use bd_task::Task;
use itoa::Buffer;

fn push_number(text: &mut Vec<u8>, n: u64) -> Result<(), NoMemory>
    ensures { OnOk result (text.new.items ≡ text.old.items ++ decimal n) }
{
    let mut buffer = Buffer::new();
    text.extend_from_slice(buffer.format(n).as_bytes())?;
    Ok(())
}

// A name in parentheses.
fn push_name(text: &mut Vec<u8>, name: &[u8]) -> Result<(), NoMemory>
    ensures { OnOk result (text.new.items ≡ text.old.items ++ shown name.now) }
{
    text.extend_from_slice(b"(")?;
    text.extend_from_slice(name)?;
    text.extend_from_slice(b")")?;
    Ok(())
}

/// The line of a step.
pub fn push_step(
    text: &mut Vec<u8>,
    task: &Task,
    margin: &[u8],
    id: NodeId,
    action: ActionId,
) -> Result<(), NoMemory>
    requires { action < length task.now.actions }
    ensures { OnOk result (text.new.items ≡ text.old.items ++ step_line task.now margin.now id action) }
{
    text.extend_from_slice(margin)?;
    text.extend_from_slice(b"step ")?;
    push_number(text, id.0)?;
    text.extend_from_slice(b" ")?;
    push_name(text, task.action(action).name.as_slice())?;
    text.extend_from_slice(b"\n")?;
    Ok(())
}

/// The line that a block begins with.
pub fn push_block(text: &mut Vec<u8>, margin: &[u8], id: NodeId) -> Result<(), NoMemory>
    ensures { OnOk result (text.new.items ≡ text.old.items ++ block_line margin.now id) }
{
    text.extend_from_slice(margin)?;
    text.extend_from_slice(b"block ")?;
    push_number(text, id.0)?;
    text.extend_from_slice(b"\n")?;
    Ok(())
}

// The two ids of an ordering.
fn push_ids(text: &mut Vec<u8>, margin: &[u8], i: NodeId, j: NodeId) -> Result<(), NoMemory>
    ensures { OnOk result (text.new.items ≡ text.old.items ++ (margin.now ++ decimal i ++ codes " < " ++ decimal j)) }
{
    text.extend_from_slice(margin)?;
    push_number(text, i.0)?;
    text.extend_from_slice(b" < ")?;
    push_number(text, j.0)?;
    Ok(())
}

/// The line of an ordering that has no reason.
pub fn push_bare(text: &mut Vec<u8>, margin: &[u8], i: NodeId, j: NodeId) -> Result<(), NoMemory>
    ensures { OnOk result (text.new.items ≡ text.old.items ++ ordering_line margin.now i j []) }
{
    push_ids(text, margin, i, j)?;
    text.extend_from_slice(b"\n")?;
    Ok(())
}

// A reason by its kind.
fn kind_of(reason: &Reason) -> &'static [u8]
    ensures { result.now ≡ kind_of reason.now }
{
    match reason {
        Reason::PC(_) => b" PC ",
        Reason::CD(_) => b" CD ",
        Reason::DP(_) => b" DP ",
    }
}

/// The line of an ordering for one of its reasons.
pub fn push_ordering(
    text: &mut Vec<u8>,
    task: &Task,
    margin: &[u8],
    i: NodeId,
    j: NodeId,
    reason: &Reason,
) -> Result<(), NoMemory>
    requires { fact_of reason.now < length task.now.facts }
    ensures { OnOk result (text.new.items ≡ text.old.items ++ ordering_line margin.now i j (reason_part task.now reason.now)) }
{
    push_ids(text, margin, i, j)?;
    text.extend_from_slice(kind_of(reason))?;
    push_name(text, task.fact_name(reason.fact()))?;
    text.extend_from_slice(b"\n")?;
    Ok(())
}

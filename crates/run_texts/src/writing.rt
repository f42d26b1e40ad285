// What the texts are put together from.
ghost use Rattle.std.specs.Prelude.{◌≡◌, ◌++◌, ◌<◌, OnOk, decimal, length};
ghost use Rattle.run_texts.specs.Texts.{counted, shown, shown_fact};

use bd_base::{FactId, NoMemory};
use bd_task::Task;
use itoa::Buffer;

pub fn push_number(text: &mut Vec<u8>, n: u64) -> Result<(), NoMemory>
    ensures { OnOk result (text.new.items ≡ text.old.items ++ decimal n) }
{
    let mut buffer = Buffer::new();
    text.extend_from_slice(buffer.format(n).as_bytes())?;
    Ok(())
}

/// A number's line, behind its title.
pub fn push_counted(text: &mut Vec<u8>, title: &[u8], n: u64) -> Result<(), NoMemory>
    ensures { OnOk result (text.new.items ≡ text.old.items ++ counted title.now n) }
{
    text.extend_from_slice(title)?;
    push_number(text, n)?;
    text.extend_from_slice(b"\n")?;
    Ok(())
}

/// A name in parentheses.
pub fn push_name(text: &mut Vec<u8>, name: &[u8]) -> Result<(), NoMemory>
    ensures { OnOk result (text.new.items ≡ text.old.items ++ shown name.now) }
{
    text.extend_from_slice(b"(")?;
    text.extend_from_slice(name)?;
    text.extend_from_slice(b")")?;
    Ok(())
}

/// A fact by its name, in parentheses.
pub fn push_fact(text: &mut Vec<u8>, task: &Task, fact: FactId) -> Result<(), NoMemory>
    requires { fact < length task.now.facts }
    ensures { OnOk result (text.new.items ≡ text.old.items ++ shown_fact task.now fact) }
{
    push_name(text, task.fact_name(fact))
}

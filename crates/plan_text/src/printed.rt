ghost use Rattle.std.specs.Prelude.{◌≡◌, ◌<◌, length, OnOk, OnErr};
ghost use Rattle.std.specs.List.{AllByRecursion};
ghost use Rattle.bd_base.specs.Causes.{HasCause, TakesPart, appended};
ghost use Rattle.plan_text.specs.Printed.{shown, plan_lines};

use bd_base::{ActionId, Failed, Sink};
use bd_task::Task;

// Puts the line of an action by its name.
fn put_line<S: Sink>(sink: &mut S, name: &[u8]) -> Result<(), Failed>
    ensures ok { OnOk result (S.told sink.new ≡ appended (S.told sink.old) (shown name.now)) }
    ensures err { OnErr result (TakesPart (S.told sink.old) (S.told sink.new) (shown name.now)) }
    ensures cause { HasCause (S.faults sink.old) (S.faults sink.new) result }
{
    sink.put(b"(")?;
    sink.put(name)?;
    sink.put(b")\n")
}

/// Puts the actions of a list, a line each. It takes no memory.
pub fn print_plan<S: Sink>(sink: &mut S, task: &Task, list: &[ActionId]) -> Result<(), Failed>
    requires { AllByRecursion (λ a. a < length task.now.actions) list.now }
    ensures ok { OnOk result (S.told sink.new ≡ appended (S.told sink.old) (plan_lines task.now list.now)) }
    // A first part of the lines was put; nothing is put behind a put that fails.
    ensures err { OnErr result (TakesPart (S.told sink.old) (S.told sink.new) (plan_lines task.now list.now)) }
    ensures cause { HasCause (S.faults sink.old) (S.faults sink.new) result }
{
    for action in list {
        put_line(sink, task.action(*action).name.as_slice())?;
    }
    Ok(())
}

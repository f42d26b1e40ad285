ghost use Rattle.std.specs.Prelude.{◌≡◌, IfOk};

use bd_base::{NoMemory, Text};
use std::alloc::Global;

/// What is put to `notes` where the words are no command.
pub const USAGE: &[u8] =
    b"usage: bdpo improve DOMAIN PROBLEM PLAN [--workers N] [--nodes N] [--width N] [--span N] [--stop N]\n       bdpo check DOMAIN PROBLEM PLAN\n       bdpo deorder DOMAIN PROBLEM PLAN [--span N]\n       bdpo replay SCRIPT\n       bdpo bench N\n";

/// The note for words that are no command.
pub fn usage_note(alloc: Global) -> Result<Text, NoMemory>
    ensures { IfOk result (λ text. text ≡ USAGE.now) }
{
    Ok(Text::from_slice(alloc, USAGE)?)
}

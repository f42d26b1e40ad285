ghost use Rattle.std.specs.Prelude.{◌≡◌, ◌≤◌, ℕ, List, IfErr, IfOk, length};
ghost use Rattle.task_inputs.specs.Reads.{Counts, Spans, IsToldAs};
ghost use Rattle.task_inputs.specs.Inputs.{HasNoText, IsInTask, Unless};

use crate::answers::{Inputs, Part};
use bd_base::{FromItems, Items, Limit, Shelf, ShelfErr, Text};
use std::alloc::Global;

/// The greatest length of a text, in bytes.
const TEXT_LIMIT: usize = 16_777_216;

/// One of the texts, or why there is none.
pub fn read_part<H: Shelf>(
    alloc: Global,
    part: Part,
    name: &str,
    shelf: &mut H,
) -> Result<Text, Inputs>
    ensures read { IfOk result (λ t. IsToldAs (H.tells shelf.old name.now) t) }
    ensures short { IfOk result (λ t. length t ≤ 16_777_216) }
    ensures none { IfErr result (λ o. (c : Counts) → Spans c (record { faults = H.faults shelf.old; faults_after = H.faults shelf.new; longs = H.longs shelf.old; longs_after = H.longs shelf.new }) → Unless o (HasNoText part (H.tells shelf.old name.now) c o)) }
    ensures in_task { IfErr result IsInTask }
    ensures told { (n : List ℕ) → H.tells shelf.new n ≡ H.tells shelf.old n }
    ensures faults { H.faults shelf.old ≤ H.faults shelf.new }
    ensures longs { H.longs shelf.old ≤ H.longs shelf.new }
{
    match shelf.read(alloc, name, TEXT_LIMIT) {
        Ok(text) => Ok(Items::of(text)),
        Err(ShelfErr::Missing) => Err(Inputs::Unread {
            part,
            missing: true,
        }),
        Err(ShelfErr::Failed) => Err(Inputs::Unread {
            part,
            missing: false,
        }),
        Err(ShelfErr::TooBig) => Err(Inputs::Over {
            limit: Limit::Text,
            count: TEXT_LIMIT as u64 + 1,
        }),
        Err(ShelfErr::NoMemory) => Err(Inputs::NoMemory),
    }
}

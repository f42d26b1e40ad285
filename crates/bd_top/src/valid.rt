ghost use Rattle.std.specs.Prelude.{◌≡◌, IfOk};
ghost use Rattle.bd_top.specs.Texts.{valid_line};

use bd_base::{FromItems, Items, NoMemory, Text};
use run_texts::push_counted;
use std::alloc::Global;

/// The line that tells the cost of a valid plan.
pub fn valid_text(alloc: Global, cost: u64) -> Result<Text, NoMemory>
    ensures { IfOk result (λ text. text ≡ valid_line cost) }
{
    let mut text = Vec::new(alloc);
    push_counted(&mut text, b"valid cost ", cost)?;
    Ok(Items::of(text))
}

// What the texts are put together from.
ghost use Rattle.std.specs.Prelude.{◌≡◌, ◌++◌, OnOk};
ghost use Rattle.bd_gen.specs.Errands.{titled};

use bd_base::NoMemory;
use itoa::Buffer;

/// A number behind its title.
pub fn push_titled(text: &mut Vec<u8>, title: &[u8], n: u32) -> Result<(), NoMemory>
    ensures { OnOk result (text.new.items ≡ text.old.items ++ titled title.now n) }
{
    let mut buffer = Buffer::new();
    text.extend_from_slice(title)?;
    text.extend_from_slice(buffer.format(n).as_bytes())?;
    Ok(())
}

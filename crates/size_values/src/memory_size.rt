ghost use Rattle.std.specs.Prelude.{◌≡◌};
ghost use Rattle.size_values.specs.MemorySize.{memory_of};

use crate::count::count_in;
use crate::fault::ValueFault;
use crate::size::size_in;

/// The memory that an instance may take, as `limits.memory` of the Incus documentation's "Instance options" says it.
#[derive(Clone, Copy, PartialEq, Eq)]
pub enum Memory {
    /// So many bytes.
    Bytes(u64),
    /// So many hundredths of the host's memory, from 1 to 100.
    Percent(u8),
}

/// Reads a memory setting: a count from 1 to 100 and `%`, or else a size.
pub fn read_memory(text: &str) -> Result<Memory, ValueFault>
    ensures { result ≡ memory_of text.now }
{
    memory_in(text.as_bytes())
}

/// The same of the bytes of a text.
fn memory_in(text: &[u8]) -> Result<Memory, ValueFault>
    ensures { result ≡ memory_of text.now }
{
    if text.ends_with(b"%") {
        let percent = count_in(&text[..text.len() - 1], 1, 100)?;
        return Ok(Memory::Percent(percent as u8));
    }
    let bytes = size_in(text)?;
    Ok(Memory::Bytes(bytes))
}

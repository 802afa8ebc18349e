ghost use Rattle.std.specs.Prelude.{◌≡◌, IfOk};

use size_values::{NoMemory, Seq, Text};
use std::alloc::Global;

/// A list of its own with the same texts.
pub(crate) fn copy_texts(alloc: Global, texts: &Seq<Text>) -> Result<Seq<Text>, NoMemory>
    ensures { IfOk result (λ c. c ≡ texts.now) }
{
    let mut copy = Seq::new(alloc);
    for text in texts.view() {
        copy.push(text.copy(alloc)?)?;
    }
    Ok(copy)
}

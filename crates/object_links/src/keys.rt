//! Keys of rows, as the store writes them.
ghost use Rattle.std.specs.Prelude.{◌≡◌, IfOk};
ghost use Rattle.row_codec.specs.Spelling.{two_names};

use size_values::{NoMemory, Text};
use std::alloc::Global;

/// The key of a row that has two names.
pub fn two_names(alloc: Global, first: &str, second: &str) -> Result<Text, NoMemory>
    ensures { IfOk result (λ key. key ≡ two_names first.now second.now) }
{
    let mut key = String::from_str(alloc, first)?;
    key.push_str("/")?;
    key.push_str(second)?;
    Ok(Text::from_string(key))
}

/// The key of a row that has three names.
pub fn three_names(
    alloc: Global,
    first: &Text,
    second: &Text,
    third: &Text,
) -> Result<Text, NoMemory>
    ensures { IfOk result (λ key. key ≡ two_names first.now (two_names second.now third.now)) }
{
    let after = two_names(alloc, second.view(), third.view())?;
    two_names(alloc, first.view(), after.view())
}

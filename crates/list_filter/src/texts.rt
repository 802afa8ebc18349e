//! Values as texts of their own.
ghost use Rattle.std.specs.Prelude.{◌≡◌, Some, IfOk, decimal};
ghost use Rattle.serde_json.specs.Data.{boolean};
ghost use Rattle.rest_json.specs.Moments.{moment_text};
ghost use Rattle.rest_json.specs.Views.{expiry_text};
ghost use Rattle.list_filter.specs.Values.{text_of};

use rest_json::moment_text;
use size_values::{NoMemory, Text};
use std::alloc::Global;

/// A text.
pub(crate) fn text(alloc: Global, text: &str) -> Result<Option<Text>, NoMemory>
    ensures { IfOk result (λ value. value ≡ Some text.now) }
{
    Ok(Some(Text::from_text(alloc, text)?))
}

/// A number by its digits.
pub(crate) fn number(alloc: Global, number: u64) -> Result<Option<Text>, NoMemory>
    ensures { IfOk result (λ value. value ≡ Some (decimal number)) }
{
    let digits = format!(in alloc; "{number}")?;
    Ok(Some(Text::from_string(digits)))
}

/// A truth by its word.
pub(crate) fn truth(alloc: Global, truth: bool) -> Result<Option<Text>, NoMemory>
    ensures { IfOk result (λ value. value ≡ text_of (boolean truth)) }
{
    text(alloc, if truth { "true" } else { "false" })
}

/// A moment, in seconds since 1970, by its date and its time.
pub(crate) fn moment(alloc: Global, moment: u64) -> Result<Option<Text>, NoMemory>
    ensures { IfOk result (λ value. value ≡ Some (moment_text moment)) }
{
    Ok(Some(moment_text(alloc, moment)?))
}

/// When a snapshot expires, in seconds since 1970; 0 is for one that does not expire, which is told by the first
/// moment of the year 1.
#[tactic(auto, unfolding(rest_json::specs::Views::expiry_text))]
pub(crate) fn expiry(alloc: Global, expires: u64) -> Result<Option<Text>, NoMemory>
    ensures { IfOk result (λ value. value ≡ Some (expiry_text expires)) }
{
    if expires == 0 {
        return text(alloc, "0001-01-01T00:00:00Z");
    }
    moment(alloc, expires)
}

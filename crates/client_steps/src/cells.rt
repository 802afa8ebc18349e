//! Rows of what is printed.
ghost use Rattle.std.specs.Prelude.{◌≡◌, IfOk, decimal};
ghost use Rattle.client_steps.specs.Rows.{limit_text, three, two};

use size_values::{NoMemory, Text};
use std::alloc::Global;

/// A row of two or three cells.
#[derive(Drop)]
pub struct Cells {
    pub first: Text,
    pub second: Text,
    pub third: Option<Text>,
}

/// A row of two cells.
pub(crate) fn two(alloc: Global, first: &str, second: &str) -> Result<Cells, NoMemory>
    ensures { IfOk result (λ row. row ≡ two first.now second.now) }
{
    let first = Text::from_text(alloc, first)?;
    let second = Text::from_text(alloc, second)?;
    Ok(Cells {
        first,
        second,
        third: None,
    })
}

/// A number in decimal.
pub(crate) fn decimal(alloc: Global, number: u64) -> Result<Text, NoMemory>
    ensures { IfOk result (λ text. text ≡ decimal number) }
{
    Ok(Text::from_string(format!(in alloc; "{number}")?))
}

/// A limit as it is printed: `-` where there is none.
fn limit_text(alloc: Global, limit: Option<u64>) -> Result<Text, NoMemory>
    ensures { IfOk result (λ text. text ≡ limit_text limit) }
{
    match limit {
        Some(limit) => decimal(alloc, limit),
        None => Text::from_text(alloc, "-"),
    }
}

/// A row of three cells: a key, how much is used of it, and its limit.
pub(crate) fn three(
    alloc: Global,
    key: &str,
    usage: u64,
    limit: Option<u64>,
) -> Result<Cells, NoMemory>
    ensures { IfOk result (λ row. row ≡ three key.now usage limit) }
{
    let first = Text::from_text(alloc, key)?;
    let second = decimal(alloc, usage)?;
    let third = limit_text(alloc, limit)?;
    Ok(Cells {
        first,
        second,
        third: Some(third),
    })
}

/// A heading of three columns.
pub(crate) fn headings(
    alloc: Global,
    first: &str,
    second: &str,
    third: &str,
) -> Result<Cells, NoMemory>
    ensures { IfOk result (λ row. row ≡ record { first = first.now; second = second.now; third = Some third.now }) }
{
    let mut row = two(alloc, first, second)?;
    row.third = Some(Text::from_text(alloc, third)?);
    Ok(row)
}

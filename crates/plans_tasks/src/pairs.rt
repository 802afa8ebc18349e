ghost use Rattle.std.specs.Prelude.{◌≡◌, IfOk};

use size_values::NoMemory;

/// Both values, where there was memory for both. Neither is then alive where the other one is missing.
pub fn both<A: Drop, B: Drop>(
    first: Result<A, NoMemory>,
    second: Result<B, NoMemory>,
) -> Result<(A, B), NoMemory>
    ensures { IfOk result (λ pair. (first ≡ Ok pair.0) × (second ≡ Ok pair.1)) }
{
    let first = first?;
    let second = second?;
    Ok((first, second))
}

ghost use Rattle.std.specs.Prelude.{◌≡◌, IfOk};
ghost use Rattle.rest_routes.specs.Answers.{IsRefused};
ghost use Rattle.rest_routes.specs.Refusals.{no_details, on_key, plain_refusal, no_operation};

use records::{Details, Refusal, Rule};
use size_values::{NoMemory, Or, Text};
use std::alloc::Global;

/// The details of a rule that tells a key, which are none where the key is empty.
fn details_of_key(alloc: Global, key: &str) -> Result<Details, NoMemory>
    ensures { IfOk result (λ k. k ≡ record no_details { key = key.now }) }
{
    Ok(Details {
        kind: Text::new(alloc),
        project: Text::new(alloc),
        name: Text::new(alloc),
        key: Text::from_text(alloc, key)?,
        number: 0,
        used: 0,
        asked: 0,
        limit: 0,
    })
}

/// The refusal by a rule that tells a key.
pub fn refusal_on_key(alloc: Global, rule: Rule, key: &str) -> Or<Refusal>
    ensures { IsRefused result (on_key rule key.now) }
{
    match details_of_key(alloc, key) {
        Ok(details) => Or::Why(Refusal { rule, details }),
        Err(_) => Or::NoMemory,
    }
}

/// The refusal by a rule that tells nothing.
pub fn plain_refusal(alloc: Global, rule: Rule) -> Or<Refusal>
    ensures { IsRefused result (plain_refusal rule) }
{
    refusal_on_key(alloc, rule, "")
}

fn details_of_operation(alloc: Global, id: &str) -> Result<Details, NoMemory>
    ensures { IfOk result (λ k. k ≡ (no_operation id.now).details) }
{
    let name = Text::from_text(alloc, id)?;
    Ok(Details {
        kind: Text::from_text(alloc, "operation")?,
        project: Text::new(alloc),
        name,
        key: Text::new(alloc),
        number: 0,
        used: 0,
        asked: 0,
        limit: 0,
    })
}

/// The refusal of an id that no operation has.
pub fn no_operation(alloc: Global, id: &str) -> Or<Refusal>
    ensures { IsRefused result (no_operation id.now) }
{
    match details_of_operation(alloc, id) {
        Ok(details) => Or::Why(Refusal {
            rule: Rule::N2,
            details,
        }),
        Err(_) => Or::NoMemory,
    }
}

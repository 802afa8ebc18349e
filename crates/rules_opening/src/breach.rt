//! The rule that kept rows break.
ghost use Rattle.std.specs.Prelude.{◌≡◌, IfOk};
ghost use Rattle.row_machine.specs.opening.Opening.{broken, broken_at};

use records::{Row, Rule};
use row_codec::{key_of, kind_of};
use size_values::{NoMemory, Text};
use std::alloc::Global;
use std::marker::Model;

/// A rule that kept rows break, and the row at which they do, by its kind and key. Contracts see what an opening tells
/// of it.
#[derive(Drop)]
pub struct Breach {
    pub rule: Rule,
    pub kind: u8,
    pub key: Text,
}

impl Model for Breach {
    ghost use Rattle.row_machine.specs.opening.Opening.{Opening, broken};

    ghost Value = { Opening };

    ghost view = { λ b. broken b.rule b.kind b.key };
}

/// The rule, and a row at which it is broken.
pub(crate) fn broken_at(alloc: Global, row: &Row, rule: Rule) -> Result<Breach, NoMemory>
    ensures { IfOk result (λ b. b ≡ broken_at row.now rule) }
{
    let key = key_of(alloc, row)?;
    Ok(Breach {
        rule,
        kind: kind_of(row),
        key,
    })
}

/// The rule, and a project at which it is broken.
pub(crate) fn broken_in(alloc: Global, project: &str, rule: Rule) -> Result<Breach, NoMemory>
    ensures { IfOk result (λ b. b ≡ broken rule 1 project.now) }
{
    let key = Text::from_text(alloc, project)?;
    Ok(Breach { rule, kind: 1, key })
}

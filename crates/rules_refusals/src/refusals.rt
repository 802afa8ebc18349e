//! Refusals: a rule with what it tells.
ghost use Rattle.std.specs.Prelude.{◌≡◌, IfOk};
ghost use Rattle.row_machine.specs.machine.Kinds.{kind_text};
ghost use Rattle.row_machine.specs.machine.Refusals.{no_details, on_name, on_number, on_object, on_held, on_project};
ghost use Rattle.row_machine.specs.machine.Refusals.{on_key_of, on_object_of};

use records::{Details, Refusal, Rule};
use size_values::{NoMemory, ObjectKind, Text};
use std::alloc::Global;

/// The details of a refusal that tells its rule alone.
pub fn no_details(alloc: Global) -> Details
    ensures { result ≡ no_details }
{
    Details {
        kind: Text::new(alloc),
        project: Text::new(alloc),
        name: Text::new(alloc),
        key: Text::new(alloc),
        number: 0,
        used: 0,
        asked: 0,
        limit: 0,
    }
}

/// How refusals write a kind.
fn kind_text(kind: ObjectKind) -> &'static str
    ensures { result.now ≡ kind_text kind }
{
    match kind {
        ObjectKind::Project => "project",
        ObjectKind::Profile => "profile",
        ObjectKind::Network => "network",
        ObjectKind::Pool => "storage-pool",
        ObjectKind::Volume => "storage-volume",
        ObjectKind::Instance => "instance",
        ObjectKind::Snapshot => "snapshot",
        ObjectKind::Operation => "operation",
    }
}

/// A refusal by the rule that tells a name.
pub fn on_name(alloc: Global, rule: Rule, name: &str) -> Result<Refusal, NoMemory>
    ensures { IfOk result (λ r. r ≡ on_name rule name.now) }
{
    let name = Text::from_text(alloc, name)?;
    let details = Details {
        kind: Text::new(alloc),
        project: Text::new(alloc),
        name,
        key: Text::new(alloc),
        number: 0,
        used: 0,
        asked: 0,
        limit: 0,
    };
    Ok(Refusal { rule, details })
}

/// A refusal by the rule that tells a number.
pub fn on_number(alloc: Global, rule: Rule, number: u64) -> Refusal
    ensures { result ≡ on_number rule number }
{
    let mut details = no_details(alloc);
    details.number = number;
    Refusal { rule, details }
}

/// A refusal by the rule that tells an object by its kind and name.
pub fn on_object(
    alloc: Global,
    rule: Rule,
    kind: ObjectKind,
    name: &str,
) -> Result<Refusal, NoMemory>
    ensures { IfOk result (λ r. r ≡ on_object rule kind name.now) }
{
    let kind = Text::from_text(alloc, kind_text(kind))?;
    let name = Text::from_text(alloc, name)?;
    let details = Details {
        kind,
        project: Text::new(alloc),
        name,
        key: Text::new(alloc),
        number: 0,
        used: 0,
        asked: 0,
        limit: 0,
    };
    Ok(Refusal { rule, details })
}

/// A refusal by the rule that tells an object and the operation that holds it.
pub fn on_held(
    alloc: Global,
    rule: Rule,
    kind: ObjectKind,
    name: &str,
    number: u64,
) -> Result<Refusal, NoMemory>
    ensures { IfOk result (λ r. r ≡ on_held rule kind name.now number) }
{
    let mut refusal = on_object(alloc, rule, kind, name)?;
    refusal.details.number = number;
    Ok(refusal)
}

/// A refusal by the rule that tells a project.
pub fn on_project(alloc: Global, rule: Rule, project: &str) -> Result<Refusal, NoMemory>
    ensures { IfOk result (λ r. r ≡ on_project rule project.now) }
{
    let project = Text::from_text(alloc, project)?;
    let details = Details {
        kind: Text::new(alloc),
        project,
        name: Text::new(alloc),
        key: Text::new(alloc),
        number: 0,
        used: 0,
        asked: 0,
        limit: 0,
    };
    Ok(Refusal { rule, details })
}

/// A refusal by the rule that tells an object by its kind and name, with the project.
pub fn on_object_of(
    alloc: Global,
    rule: Rule,
    kind: ObjectKind,
    name: &str,
    project: &str,
) -> Result<Refusal, NoMemory>
    ensures { IfOk result (λ r. r ≡ on_object_of rule kind name.now project.now) }
{
    let mut refusal = on_object(alloc, rule, kind, name)?;
    refusal.details.project = Text::from_text(alloc, project)?;
    Ok(refusal)
}

/// A refusal by the rule that tells a key of an object, with the project.
pub fn on_key_of(
    alloc: Global,
    rule: Rule,
    key: &str,
    name: &str,
    project: &str,
) -> Result<Refusal, NoMemory>
    ensures { IfOk result (λ r. r ≡ on_key_of rule key.now name.now project.now) }
{
    let key = Text::from_text(alloc, key)?;
    let name = Text::from_text(alloc, name)?;
    let project = Text::from_text(alloc, project)?;
    let details = Details {
        kind: Text::new(alloc),
        project,
        name,
        key,
        number: 0,
        used: 0,
        asked: 0,
        limit: 0,
    };
    Ok(Refusal { rule, details })
}

/// A refusal by the rule that tells a kind of objects and a number.
pub fn on_kind(
    alloc: Global,
    rule: Rule,
    kind: ObjectKind,
    number: u64,
) -> Result<Refusal, NoMemory>
    ensures { IfOk result (λ r. r
        ≡ record { rule = rule; details = record no_details { kind = kind_text kind; number = number } }) }
{
    let kind = Text::from_text(alloc, kind_text(kind))?;
    let details = Details {
        kind,
        project: Text::new(alloc),
        name: Text::new(alloc),
        key: Text::new(alloc),
        number,
        used: 0,
        asked: 0,
        limit: 0,
    };
    Ok(Refusal { rule, details })
}

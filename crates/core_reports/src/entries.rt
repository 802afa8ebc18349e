//! Changes of rows as changes of their entries, and rows as they are made.
ghost use Rattle.std.specs.Prelude.{◌≡◌, IfOk};
ghost use Rattle.std.specs.List.{AllByRecursion};
ghost use Rattle.row_machine.specs.machine.NewRows.{default_profile};
ghost use Rattle.machine_laws.specs.Entries.{number_of, entry_change, entry_changes};
ghost use Rattle.core_reports.specs.Entries.{HasEntry};

use config_lists::{Config, Devices};
use records::Profile;
use row_codec::encode;
use row_machine::RowChange;
use size_values::{Boxed, EntryChange, NoMemory, ObjectKind, Seq, Text};
use std::alloc::Global;

/// The number that entries of a kind have.
fn number_of(kind: ObjectKind) -> u8
    ensures { result ≡ number_of kind }
{
    match kind {
        ObjectKind::Project => 1,
        ObjectKind::Profile => 2,
        ObjectKind::Network => 3,
        ObjectKind::Pool => 4,
        ObjectKind::Volume => 5,
        ObjectKind::Instance => 6,
        ObjectKind::Snapshot => 7,
        ObjectKind::Operation => 0,
    }
}

/// A change of a row as the change of its entry.
fn entry_change(alloc: Global, change: &RowChange) -> Result<EntryChange, NoMemory>
    requires { HasEntry change.now }
    ensures { IfOk result (λ e. e ≡ entry_change change.now) }
{
    match change {
        RowChange::Put(row) => Ok(EntryChange::Put(Boxed::new(alloc, encode(alloc, row)?)?)),
        RowChange::Remove(kind, key) => Ok(EntryChange::Remove {
            kind: number_of(*kind),
            key: key.copy(alloc)?,
        }),
    }
}

/// Changes of rows as changes of their entries, in their order.
pub fn entry_changes(alloc: Global, changes: &Seq<RowChange>) -> Result<Seq<EntryChange>, NoMemory>
    requires { AllByRecursion HasEntry changes.now }
    ensures { IfOk result (λ es. es ≡ entry_changes changes.now) }
{
    let mut entries = Seq::new(alloc);
    for change in changes.view() {
        entries.push(entry_change(alloc, change)?)?;
    }
    Ok(entries)
}

/// The profile `default` of a project as it is made: without settings and devices.
pub fn default_profile(alloc: Global, project: &Text) -> Result<Profile, NoMemory>
    ensures { IfOk result (λ p. p ≡ default_profile project.now) }
{
    let project = project.copy(alloc)?;
    let name = Text::from_text(alloc, "default")?;
    Ok(Profile {
        project,
        name,
        description: Text::new(alloc),
        config: Config::new(alloc),
        devices: Devices::new(alloc),
    })
}

//! The name that a new snapshot gets.
ghost use Rattle.std.specs.Prelude.{◌≡◌, IfOk, codes, filter, fold, unwrap_or, if◌then◌else◌, false};
ghost use Rattle.std.specs.Str.{bytes_eq};
ghost use Rattle.config_lists.specs.Settings.{setting};
ghost use Rattle.instance_states.specs.Numbers.{next_name, seen, unseen};
ghost use Rattle.row_machine.specs.machine.Asked.{next_snapshot};

use crate::state_ref::StateRef;
use config_lists::Config;
use instance_states::SnapshotNumbers;
use records::{Instance, Snapshot};
use size_values::{Boxed, NoMemory, Text};
use std::alloc::Global;

/// The pattern of an instance's snapshot names, by its expanded settings.
fn pattern_in(config: &Config) -> &str
    ensures { result.now ≡ unwrap_or (setting config.now (codes "snapshots.pattern")) (codes "snap%d") }
{
    match config.get("snapshots.pattern") {
        Some(pattern) => pattern,
        None => "snap%d",
    }
}

fn is_of(snapshot: &Snapshot, row: &Instance) -> bool
    ensures { result
        ≡ (if bytes_eq snapshot.now.project row.now.project
        then bytes_eq snapshot.now.instance row.now.name else false) }
{
    snapshot.project.is(&row.project) && snapshot.instance.is(&row.name)
}

/// The next name of a pattern after those of the instance's snapshots.
fn next_of(
    alloc: Global,
    snapshots: &[Boxed<Snapshot>],
    row: &Instance,
    pattern: &str,
) -> Result<Text, NoMemory>
    ensures { IfOk result (λ t. t
        ≡ next_name (fold (λ numbers r. seen r.name numbers) (unseen pattern.now)
        (filter (λ r. if bytes_eq r.project row.now.project
        then bytes_eq r.instance row.now.name else false) snapshots.now))) }
{
    let mut numbers = SnapshotNumbers::new(pattern);
    for snapshot in snapshots {
        if is_of(snapshot, row) {
            numbers.see(snapshot.name.view());
        }
    }
    numbers.next(alloc)
}

/// The name that a new snapshot of an instance gets where it has none.
pub fn next_snapshot(alloc: Global, view: &StateRef<'_>, row: &Instance) -> Result<Text, NoMemory>
    ensures { IfOk result (λ t. t ≡ next_snapshot view.now row.now) }
{
    let expanded = view.expansion(alloc, row)?;
    let name = next_of(alloc, view.snapshots, row, pattern_in(&expanded.config));
    drop(expanded);
    name
}

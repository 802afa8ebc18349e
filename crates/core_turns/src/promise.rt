//! The promise of the server, as it stands at every moment: functions that change nothing, whose
//! contracts say it.
ghost use Rattle.std.specs.Prelude.{◌≡◌, Some, IfSome};
ghost use Rattle.expansion.specs.Layers.{IsLayer};
ghost use Rattle.machine_laws.specs.Headline.{StandsAsPromised};
ghost use Rattle.machine_laws.specs.Sorted.{AreSortedRows, IsSortedRow};
ghost use Rattle.operations.specs.declared.operation.Operation.{Operation as OperationValue};
ghost use Rattle.plain_lists.specs.Members.{Each};
ghost use Rattle.records.specs.declared.rows.Instance.{Instance as InstanceValue};
ghost use Rattle.records.specs.declared.rows.Profile.{Profile as ProfileValue};
ghost use Rattle.records.specs.declared.rows.Row.TheVariants as row_of;
ghost use Rattle.records.specs.declared.rows.Snapshot.{Snapshot as SnapshotValue};
ghost use Rattle.row_machine.specs.machine.Task.{Task as TaskValue};

use crate::daemon::Daemon;
use config_lists::{Config, Devices};
use operations::Operation;
use records::{Instance, Profile, Row, Snapshot};
use row_machine::Task;
use row_readings::StateRef;
use size_values::Boxed;

/// Settings and devices stand in the order of their keys.
fn layer_is_ordered(config: &Config, devices: &Devices)
    ensures { IsLayer (record { config = config.now; devices = devices.now }) }
{
    let _ = config.len();
    let _ = devices.len();
}

/// Those of a row do.
fn row_is_ordered(row: &Row)
    ensures { IsSortedRow row.now }
{
    match row {
        Row::Profile(r) => layer_is_ordered(&r.config, &r.devices),
        Row::Instance(r) => layer_is_ordered(&r.config, &r.devices),
        Row::Snapshot(r) => layer_is_ordered(&r.config, &r.devices),
        Row::Project(_) | Row::Network(_) | Row::Pool(_) | Row::Volume(_) => {}
    }
}

fn profiles_are_ordered(profiles: &[Boxed<Profile>])
    ensures { Each (λ (r : ProfileValue). IsSortedRow (row_of.Profile r)) profiles.now }
{
    for profile in profiles {
        layer_is_ordered(&profile.config, &profile.devices);
    }
}

fn instances_are_ordered(instances: &[Boxed<Instance>])
    ensures { Each (λ (r : InstanceValue). IsSortedRow (row_of.Instance r)) instances.now }
{
    for instance in instances {
        layer_is_ordered(&instance.config, &instance.devices);
    }
}

fn snapshots_are_ordered(snapshots: &[Boxed<Snapshot>])
    ensures { Each (λ (r : SnapshotValue). IsSortedRow (row_of.Snapshot r)) snapshots.now }
{
    for snapshot in snapshots {
        layer_is_ordered(&snapshot.config, &snapshot.devices);
    }
}

/// Those of the row that an operation claims do.
fn claim_is_ordered(claim: &Option<Row>)
    ensures { IfSome claim.now IsSortedRow }
{
    match claim {
        Some(row) => row_is_ordered(row),
        None => {}
    }
}

fn claims_are_ordered(live: &[Operation<Task>])
    ensures { Each (λ (o : OperationValue TaskValue). IfSome o.work.claim IsSortedRow) live.now }
{
    for operation in live {
        claim_is_ordered(&operation.work.claim);
    }
}

/// Those of all rows and claims do.
fn rows_are_ordered(view: &StateRef<'_>)
    ensures { AreSortedRows view.now }
{
    profiles_are_ordered(view.profiles);
    instances_are_ordered(view.instances);
    snapshots_are_ordered(view.snapshots);
    claims_are_ordered(view.live);
}

/// At every moment, so after each turn: what each project uses, with what live operations have
/// claimed for it, stands within every limit that it sets; nothing that a restricted project
/// forbids is in it; each instance has what its profiles in their order and then its own settings
/// say; and of the shares that were granted to operations each was converted, returned or is still
/// held.
pub fn no_project_is_above_its_limits(daemon: &Daemon)
    ensures { StandsAsPromised daemon.now }
{
    rows_are_ordered(&daemon.view());
}

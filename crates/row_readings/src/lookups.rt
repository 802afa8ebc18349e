//! Rows and statuses by their names, found by binary search, and operations by their numbers.
ghost use Rattle.std.specs.Prelude.{◌≡◌, find};
ghost use Rattle.std.specs.Option.{option_copied};
ghost use Rattle.operations.specs.OperationTable.{has_number, kept_at};
ghost use Rattle.row_machine.specs.machine.Rows.{project_named, profile_named, network_named, pool_named, volume_named};
ghost use Rattle.row_machine.specs.machine.Rows.{instance_named, snapshot_named};
ghost use Rattle.row_machine.specs.machine.StandingRules.{power_of};

use crate::named::Names;
use crate::places::{boxed_row_named, row_named};
use crate::state_ref::StateRef;
use operations::Operation;
use records::{Instance, Network, Pool, Profile, Project, Snapshot, Volume};
use row_machine::Task;
use size_values::Power;

impl<'x> StateRef<'x> {
    /// The project of a name.
    pub fn project_named(&self, name: &str) -> Option<&'x Project>
        ensures { option_copied result ≡ project_named self.now.projects name.now }
    {
        row_named(self.projects, Names::One(name))
    }

    /// The network of a name in a project.
    pub fn network_named(&self, project: &str, name: &str) -> Option<&'x Network>
        ensures { option_copied result ≡ network_named self.now.networks project.now name.now }
    {
        row_named(self.networks, Names::Two(project, name))
    }

    /// The storage pool of a name.
    pub fn pool_named(&self, name: &str) -> Option<&'x Pool>
        ensures { option_copied result ≡ pool_named self.now.pools name.now }
    {
        row_named(self.pools, Names::One(name))
    }

    /// The profile of a name in a project.
    pub fn profile_named(&self, project: &str, name: &str) -> Option<&'x Profile>
        ensures { option_copied result ≡ profile_named self.now.profiles project.now name.now }
    {
        boxed_row_named(self.profiles, Names::Two(project, name))
    }

    /// The volume of a name in a project and a storage pool.
    pub fn volume_named(&self, project: &str, pool: &str, name: &str) -> Option<&'x Volume>
        ensures { option_copied result ≡ volume_named self.now.volumes project.now pool.now name.now }
    {
        boxed_row_named(self.volumes, Names::Three(project, pool, name))
    }

    /// The instance of a name in a project.
    pub fn instance_named(&self, project: &str, name: &str) -> Option<&'x Instance>
        ensures { option_copied result ≡ instance_named self.now.instances project.now name.now }
    {
        boxed_row_named(self.instances, Names::Two(project, name))
    }

    /// The snapshot of a name of an instance in a project.
    pub fn snapshot_named(&self, project: &str, instance: &str, name: &str) -> Option<&'x Snapshot>
        ensures { option_copied result ≡ snapshot_named self.now.snapshots project.now instance.now name.now }
    {
        boxed_row_named(self.snapshots, Names::Three(project, instance, name))
    }
}

/// The status of an instance.
pub fn power_of(view: &StateRef<'_>, project: &str, name: &str) -> Option<Power>
    ensures { result ≡ power_of view.now project.now name.now }
{
    match row_named(view.powers, Names::Two(project, name)) {
        Some(found) => Some(found.power),
        None => None,
    }
}

fn operation_numbered<'x>(
    operations: &'x [Operation<Task>],
    number: u64,
) -> Option<&'x Operation<Task>>
    ensures { option_copied result ≡ find (has_number number) operations.now }
{
    operations.iter().find(|o| o.number == number)
}

/// The operation of a number, live or ended.
pub fn kept_at<'x>(view: &StateRef<'x>, number: u64) -> Option<&'x Operation<Task>>
    ensures { option_copied result ≡ kept_at view.now.operations number }
{
    match operation_numbered(view.live, number) {
        Some(operation) => Some(operation),
        None => operation_numbered(view.ended, number),
    }
}

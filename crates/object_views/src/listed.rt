//! The rows of lists, and rows by what names them.
ghost use Rattle.std.specs.Prelude.{◌≡◌, ◌++◌, IfOk, OnOk};
ghost use Rattle.row_machine.specs.machine.Plans.{row_of};
ghost use Rattle.row_machine.specs.shown.Views.{listed};

use object_users::{
    RowRef, add_instances, add_networks, add_pools, add_profiles, add_projects, add_snapshots,
    add_volumes_in,
};
use records::Target;
use row_readings::{StateRef, row_of, rows_of};
use size_values::{NoMemory, ObjectKind};
use std::alloc::Global;

/// Adds the rows of a list.
fn add_listed<'x>(
    view: &StateRef<'x>,
    project: &str,
    of: &Target,
    all: &mut Vec<RowRef<'x>>,
) -> Result<(), NoMemory>
    ensures { OnOk result (all.new.items ≡ all.old.items ++ listed view.now project.now of.now) }
{
    match of.kind {
        ObjectKind::Project => add_projects(view.projects, all),
        ObjectKind::Profile => {
            let home = view.profile_home(project);
            add_profiles(rows_of(view.profiles, home), all)
        }
        ObjectKind::Network => {
            let home = view.network_home(project);
            add_networks(rows_of(view.networks, home), all)
        }
        ObjectKind::Pool => add_pools(view.pools, all),
        ObjectKind::Volume => {
            let home = view.volume_home(project);
            add_volumes_in(rows_of(view.volumes, home), of.pool.view(), all)
        }
        ObjectKind::Instance => add_instances(rows_of(view.instances, project), all),
        ObjectKind::Snapshot => {
            add_snapshots(rows_of(view.snapshots, project), of.instance.view(), all)
        }
        ObjectKind::Operation => Ok(()),
    }
}

/// The rows of a list: of all projects or pools, of a home, of a pool in a home, of an instance.
pub(crate) fn listed<'x>(
    alloc: Global,
    view: &StateRef<'x>,
    project: &str,
    of: &Target,
) -> Result<Vec<RowRef<'x>>, NoMemory>
    ensures { IfOk result (λ all. all.items ≡ listed view.now project.now of.now) }
{
    let mut all = Vec::new(alloc);
    add_listed(view, project, of, &mut all)?;
    Ok(all)
}

/// The row that the object of a path is, lent.
pub(crate) fn lent_row<'x>(view: &StateRef<'x>, project: &str, of: &Target) -> Option<RowRef<'x>>
    ensures { result ≡ row_of view.now project.now of.now }
{
    match row_of(view, project, of) {
        Some(row) => Some(RowRef { row }),
        None => None,
    }
}

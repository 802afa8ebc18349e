//! Rows of all kinds, lent, by the object of a path.
ghost use Rattle.std.specs.Prelude.{◌≡◌};
ghost use Rattle.std.specs.Option.{option_map};
ghost use Rattle.row_machine.specs.machine.Plans.{row_of};
ghost use Rattle.records.specs.AnyRows.{row_in};

use crate::state_ref::StateRef;
use records::{AnyRow, Target};
use size_values::ObjectKind;

/// The row that the object of a path is, in its home.
pub fn row_of<'x>(view: &StateRef<'x>, project: &str, of: &Target) -> Option<AnyRow<'x>>
    ensures { option_map row_in result ≡ row_of view.now project.now of.now }
{
    let home = view.home_of(project, of.kind);
    let name = of.name.view();
    match of.kind {
        ObjectKind::Project => match view.project_named(name) {
            Some(row) => Some(AnyRow::Project(row)),
            None => None,
        },
        ObjectKind::Profile => match view.profile_named(home, name) {
            Some(row) => Some(AnyRow::Profile(row)),
            None => None,
        },
        ObjectKind::Network => match view.network_named(home, name) {
            Some(row) => Some(AnyRow::Network(row)),
            None => None,
        },
        ObjectKind::Pool => match view.pool_named(name) {
            Some(row) => Some(AnyRow::Pool(row)),
            None => None,
        },
        ObjectKind::Volume => match view.volume_named(home, of.pool.view(), name) {
            Some(row) => Some(AnyRow::Volume(row)),
            None => None,
        },
        ObjectKind::Instance => match view.instance_named(project, name) {
            Some(row) => Some(AnyRow::Instance(row)),
            None => None,
        },
        ObjectKind::Snapshot => {
            match view.snapshot_named(project, of.instance.view(), name) {
                Some(row) => Some(AnyRow::Snapshot(row)),
                None => None,
            }
        }
        ObjectKind::Operation => None,
    }
}

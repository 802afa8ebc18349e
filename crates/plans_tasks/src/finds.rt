//! The instance or the snapshot that a path names.
ghost use Rattle.std.specs.Prelude.{◌≡◌};
ghost use Rattle.std.specs.Option.{option_copied};
ghost use Rattle.row_machine.specs.machine.Plans.{row_of};
ghost use Rattle.plans_tasks.specs.Begun.{instance_in, snapshot_in};

use records::{Instance, Snapshot, Target};
use row_readings::StateRef;
use size_values::{ObjectKind, Text};

/// The instance of a path that names one.
pub(crate) fn instance_at<'x>(
    view: &StateRef<'x>,
    project: &Text,
    of: &Target,
) -> Option<&'x Instance>
    ensures { option_copied result ≡ instance_in (row_of view.now project.now of.now) }
{
    match of.kind {
        ObjectKind::Instance => view.instance_named(project.view(), of.name.view()),
        _ => None,
    }
}

/// The snapshot of a path that names one.
pub(crate) fn snapshot_at<'x>(
    view: &StateRef<'x>,
    project: &Text,
    of: &Target,
) -> Option<&'x Snapshot>
    ensures { option_copied result ≡ snapshot_in (row_of view.now project.now of.now) }
{
    match of.kind {
        ObjectKind::Snapshot => view.snapshot_named(
            project.view(),
            of.instance.view(),
            of.name.view(),
        ),
        _ => None,
    }
}

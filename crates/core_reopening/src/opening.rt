//! What is kept opens again: functions that change nothing, whose contracts say it.
ghost use Rattle.std.specs.Prelude.{◌≡◌};
ghost use Rattle.machine_laws.specs.Reopening.{reopened};
ghost use Rattle.plain_lists.specs.Members.{Each};
ghost use Rattle.row_codec.specs.Rows.{HasTypedParts};
ghost use Rattle.row_machine.specs.facts.Whole.{IsWhole};
ghost use Rattle.row_machine.specs.opening.Opening.{opened, opening_of};
ghost use Rattle.row_machine.specs.opening.Records.{records_of, rows_of};

use crate::rows::{
    instances_are_typed, networks_are_typed, pools_are_typed, profiles_are_typed,
    projects_are_typed, snapshots_are_typed, volumes_are_typed,
};
use machine_laws::kept_rows_open;
use row_readings::StateRef;

/// The rows of every kind have it by their types that they can be kept.
pub(crate) fn rows_are_typed(view: &StateRef<'_>)
    ensures { Each HasTypedParts (rows_of view.now) }
{
    projects_are_typed(view.projects);
    profiles_are_typed(view.profiles);
    networks_are_typed(view.networks);
    pools_are_typed(view.pools);
    volumes_are_typed(view.volumes);
    instances_are_typed(view.instances);
    snapshots_are_typed(view.snapshots);
}

/// The records of rows in which all facts hold open to these rows again: no entry is damaged, and no rule of opening is
/// broken. Every instance is stopped then, and there are no operations and no notices. It does nothing but look.
pub fn view_opens_again(view: &StateRef<'_>)
    requires { IsWhole view.now }
    ensures { opening_of (records_of view.now) ≡ opened (reopened view.now) }
{
    rows_are_typed(view);
    kept_rows_open();
}

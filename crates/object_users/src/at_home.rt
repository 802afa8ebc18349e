//! Which rows may use an object of a home.
ghost use Rattle.std.specs.Prelude.{◌≡◌};
ghost use Rattle.size_values.specs.declared.kinds.ObjectKind.TheVariants as kind;
ghost use Rattle.row_machine.specs.facts.Whole.{Rise};
ghost use Rattle.row_machine.specs.machine.Kinds.{is_of_kind};
ghost use Rattle.object_users.specs.AtHome.{project_may_use, rows_that_may_use};

use records::Target;
use row_readings::{Named, rows_at_home};
use size_values::ObjectKind;

fn is_pool(of: &Target) -> bool
    ensures { result ≡ is_of_kind kind.Pool of.now }
{
    match of.kind {
        ObjectKind::Pool => true,
        ObjectKind::Project
        | ObjectKind::Profile
        | ObjectKind::Network
        | ObjectKind::Volume
        | ObjectKind::Instance
        | ObjectKind::Snapshot
        | ObjectKind::Operation => false,
    }
}

/// The rows that may use an object of this home: all of them where it is a storage pool, which has no home, and else
/// those of projects that may have this home.
pub(crate) fn rows_that_may_use<'x, T: Named>(rows: &'x [T], home: &str, of: &Target) -> &'x [T]
    requires { Rise T.names rows.now }
    ensures { result.now ≡ rows_that_may_use T.names home.now of.now rows.now }
{
    if is_pool(of) {
        rows
    } else {
        rows_at_home(rows, home)
    }
}

/// Whether rows of a project may use an object of this home: each project may use a storage pool, which has no home, and
/// what belongs to `default`, and else only the project of this name may.
pub fn project_may_use(home: &str, of: &Target, project: &str) -> bool
    ensures { result ≡ project_may_use home.now of.now project.now }
{
    is_pool(of) || home == "default" || project == home
}

//! Objects by their kind and names, all of it lent, and whether they are there.
ghost use Rattle.std.specs.Prelude.{◌≡◌};
ghost use Rattle.rules_names.specs.Pointed.{target_at};
ghost use Rattle.row_machine.specs.machine.NameRules.{is_there};

use records::Target;
use row_readings::StateRef;
use size_values::ObjectKind;

/// An object by its kind and names.
#[derive(Clone, Copy)]
pub(crate) struct TargetRef<'a> {
    pub(crate) kind: ObjectKind,
    pub(crate) pool: &'a str,
    pub(crate) instance: &'a str,
    pub(crate) name: &'a str,
}

pub(crate) fn target_ref(of: &Target) -> TargetRef<'_>
    ensures { target_at result ≡ of.now }
{
    TargetRef {
        kind: of.kind,
        pool: of.pool.view(),
        instance: of.instance.view(),
        name: of.name.view(),
    }
}

/// The object under another name.
pub(crate) fn target_named<'x>(of: TargetRef<'x>, name: &'x str) -> TargetRef<'x>
    ensures { target_at result ≡ record (target_at of.entry) { name = name.now } }
{
    TargetRef {
        kind: of.kind,
        pool: of.pool,
        instance: of.instance,
        name,
    }
}

/// The object under another name, in another pool.
pub(crate) fn target_in_pool<'x>(of: TargetRef<'x>, pool: &'x str, name: &'x str) -> TargetRef<'x>
    ensures { target_at result ≡ record (target_at of.entry) { name = name.now; pool = pool.now } }
{
    TargetRef {
        kind: of.kind,
        pool,
        instance: of.instance,
        name,
    }
}

/// Whether the object that is asked for in a project is there, in its home.
pub(crate) fn is_there(view: &StateRef<'_>, project: &str, of: TargetRef<'_>) -> bool
    ensures { result ≡ is_there view.now project.now (target_at of.entry) }
{
    let home = view.home_of(project, of.kind);
    match of.kind {
        ObjectKind::Project => view.project_named(of.name).is_some(),
        ObjectKind::Profile => view.profile_named(home, of.name).is_some(),
        ObjectKind::Network => view.network_named(home, of.name).is_some(),
        ObjectKind::Pool => view.pool_named(of.name).is_some(),
        ObjectKind::Volume => view.volume_named(home, of.pool, of.name).is_some(),
        ObjectKind::Instance => view.instance_named(project, of.name).is_some(),
        ObjectKind::Snapshot => { view.snapshot_named(project, of.instance, of.name).is_some() }
        ObjectKind::Operation => false,
    }
}

//! The first user of a profile, a network, a storage pool or a volume. These functions answer `Ok` where there is none,
//! and else the URL of the first one as the reason why the object may not go.
ghost use Rattle.std.specs.Prelude.{◌≡◌, IfOk, Some, None, [], false, if◌then◌else◌};
ghost use Rattle.std.specs.Option.{option_map_or};
ghost use Rattle.std.specs.Str.{bytes_eq};
ghost use Rattle.plain_lists.specs.Firsts.{first_of};
ghost use Rattle.size_values.specs.Causes.{Says};
ghost use Rattle.row_machine.specs.machine.Claims.{project_of_row};
ghost use Rattle.row_machine.specs.machine.Holders.{first_user_of, profile_user, user_in};
ghost use Rattle.row_machine.specs.shown.Urls.{url_of};
ghost use Rattle.rules_conflicts.specs.Users.{claim_url, instance_url, naming_url, profile_url, volume_url};

use crate::uses::claim_uses;
use object_links::url_of;
use object_users::{instance_uses, names_profile, profile_uses, project_may_use, volume_uses};
use operations::Operation;
use records::{Instance, Profile, Project, Target, Volume};
use row_machine::Task;
use row_readings::{StateRef, project_of_row, rows_at_home, rows_of};
use size_values::{Boxed, NoMemory, ObjectKind, Or, Text};
use std::alloc::Global;

/// The URL of a row, by its kind and names.
fn url_in(
    alloc: Global,
    project: &str,
    kind: ObjectKind,
    pool: &str,
    name: &str,
) -> Result<Text, NoMemory>
    ensures { IfOk result (λ t. t
        ≡ url_of project.now (record { kind = kind; pool = pool.now; instance = []; name = name.now })) }
{
    let pool = Text::from_text(alloc, pool)?;
    let name = Text::from_text(alloc, name)?;
    let of = Target {
        kind,
        pool,
        instance: Text::new(alloc),
        name,
    };
    let url = url_of(alloc, project, &of);
    drop(of);
    url
}

/// The URL of a row of these names, where it is a user.
fn unless_user(
    alloc: Global,
    uses: bool,
    project: &str,
    kind: ObjectKind,
    pool: &str,
    name: &str,
) -> Result<(), Or<Text>>
    ensures { Says result (if uses
        then Some (url_of project.now (record { kind = kind; pool = pool.now; instance = []; name = name.now }))
        else None) }
{
    if !uses {
        return Ok(());
    }
    let url = url_in(alloc, project, kind, pool, name)?;
    Err(Or::Why(url))
}

/// The URL of a profile, where it names the object.
fn unused_by_profile(
    alloc: Global,
    view: &StateRef<'_>,
    home: &str,
    of: &Target,
    row: &Profile,
) -> Result<(), Or<Text>>
    ensures { Says result (profile_url view.now home.now of.now row.now) }
{
    let uses = profile_uses(view, home, of, row);
    unless_user(
        alloc,
        uses,
        row.project.view(),
        ObjectKind::Profile,
        "",
        row.name.view(),
    )
}

/// The first profile that names the object.
fn unused_by_profiles(
    alloc: Global,
    view: &StateRef<'_>,
    home: &str,
    of: &Target,
    rows: &[Boxed<Profile>],
) -> Result<(), Or<Text>>
    ensures { Says result (first_of (profile_url view.now home.now of.now) rows.now) }
{
    for row in rows {
        if let Err(url) = unused_by_profile(alloc, view, home, of, row) {
            return Err(url);
        }
    }
    Ok(())
}

/// The URL of an instance, where it names the object.
fn unused_by_instance(
    alloc: Global,
    view: &StateRef<'_>,
    home: &str,
    of: &Target,
    row: &Instance,
) -> Result<(), Or<Text>>
    ensures { Says result (instance_url view.now home.now of.now row.now) }
{
    let uses = instance_uses(alloc, view, home, of, row)?;
    unless_user(
        alloc,
        uses,
        row.project.view(),
        ObjectKind::Instance,
        "",
        row.name.view(),
    )
}

/// The first instance that names the object.
fn unused_by_instances(
    alloc: Global,
    view: &StateRef<'_>,
    home: &str,
    of: &Target,
    rows: &[Boxed<Instance>],
) -> Result<(), Or<Text>>
    ensures { Says result (first_of (instance_url view.now home.now of.now) rows.now) }
{
    for row in rows {
        if let Err(url) = unused_by_instance(alloc, view, home, of, row) {
            return Err(url);
        }
    }
    Ok(())
}

/// The URL of a volume, where it names the object.
fn unused_by_volume(alloc: Global, of: &Target, row: &Volume) -> Result<(), Or<Text>>
    ensures { Says result (volume_url of.now row.now) }
{
    let uses = volume_uses(of, row);
    unless_user(
        alloc,
        uses,
        row.project.view(),
        ObjectKind::Volume,
        row.pool.view(),
        row.name.view(),
    )
}

/// The first volume that names the object.
fn unused_by_volumes(alloc: Global, of: &Target, rows: &[Boxed<Volume>]) -> Result<(), Or<Text>>
    ensures { Says result (first_of (volume_url of.now) rows.now) }
{
    for row in rows {
        if let Err(url) = unused_by_volume(alloc, of, row) {
            return Err(url);
        }
    }
    Ok(())
}

fn is_claimed_in(work: &Task, project: &str) -> bool
    ensures { result ≡ option_map_or (λ new. bytes_eq (project_of_row new) project.now) work.now.claim false }
{
    match &work.claim {
        Some(row) => project_of_row(row) == project,
        None => false,
    }
}

/// The URL of what an operation is about, where its claim belongs to the project and names the object.
fn unused_by_claim(
    alloc: Global,
    view: &StateRef<'_>,
    home: &str,
    of: &Target,
    project: &str,
    operation: &Operation<Task>,
) -> Result<(), Or<Text>>
    ensures { Says result (claim_url view.now home.now of.now project.now operation.now) }
{
    let work = &operation.work;
    if !is_claimed_in(work, project) || !claim_uses(alloc, view, home, of, work)? {
        return Ok(());
    }
    Err(Or::Why(url_of(alloc, work.project.view(), &work.target)?))
}

/// The first live operation whose claim belongs to the project and names the object.
fn unused_by_claims(
    alloc: Global,
    view: &StateRef<'_>,
    home: &str,
    of: &Target,
    project: &str,
    live: &[Operation<Task>],
) -> Result<(), Or<Text>>
    ensures { Says result (first_of (claim_url view.now home.now of.now project.now) live.now) }
{
    for operation in live {
        if let Err(url) = unused_by_claim(alloc, view, home, of, project, operation) {
            return Err(url);
        }
    }
    Ok(())
}

/// The first user within a project: its profiles, instances, volumes, and then the claims of its live operations. Where
/// the project can't have the home of the object, its rows are no users, and are not gone over.
fn unused_in(
    alloc: Global,
    view: &StateRef<'_>,
    home: &str,
    of: &Target,
    project: &Project,
) -> Result<(), Or<Text>>
    ensures { Says result (user_in view.now home.now of.now project.now.name) }
{
    let project = project.name.view();
    if !project_may_use(home, of, project) {
        return unused_by_claims(alloc, view, home, of, project, view.live);
    }
    unused_by_profiles(alloc, view, home, of, rows_of(view.profiles, project))?;
    unused_by_instances(alloc, view, home, of, rows_of(view.instances, project))?;
    unused_by_volumes(alloc, of, rows_of(view.volumes, project))?;
    unused_by_claims(alloc, view, home, of, project, view.live)
}

/// The first user within the projects, one after another.
fn unused_within(
    alloc: Global,
    view: &StateRef<'_>,
    home: &str,
    of: &Target,
    projects: &[Project],
) -> Result<(), Or<Text>>
    ensures { Says result (first_of (λ p. user_in view.now home.now of.now p.name) projects.now) }
{
    for project in projects {
        if let Err(url) = unused_in(alloc, view, home, of, project) {
            return Err(url);
        }
    }
    Ok(())
}

/// The URL of an instance, where it names the profile.
fn unnamed_by(
    alloc: Global,
    view: &StateRef<'_>,
    home: &str,
    profile: &str,
    row: &Instance,
) -> Result<(), Or<Text>>
    ensures { Says result (naming_url view.now home.now profile.now row.now) }
{
    let uses = names_profile(view, home, profile, row);
    unless_user(
        alloc,
        uses,
        row.project.view(),
        ObjectKind::Instance,
        "",
        row.name.view(),
    )
}

/// The first instance that names the profile.
fn unnamed_by_all(
    alloc: Global,
    view: &StateRef<'_>,
    home: &str,
    profile: &str,
    rows: &[Boxed<Instance>],
) -> Result<(), Or<Text>>
    ensures { Says result (first_of (naming_url view.now home.now profile.now) rows.now) }
{
    for row in rows {
        if let Err(url) = unnamed_by(alloc, view, home, profile, row) {
            return Err(url);
        }
    }
    Ok(())
}

/// The first instance that names the profile of this home. Those of projects that can't have this home are not gone over.
fn unnamed_at_home(
    alloc: Global,
    view: &StateRef<'_>,
    home: &str,
    profile: &str,
) -> Result<(), Or<Text>>
    ensures { Says result (profile_user view.now home.now profile.now) }
{
    let rows = rows_at_home(view.instances, home);
    unnamed_by_all(alloc, view, home, profile, rows)
}

/// The first user of an object of this home. Kinds but profiles, networks, pools and volumes have no users.
#[tactic(auto, unfolding(row_machine::specs::machine::Holders::first_user_of))]
pub(crate) fn refuse_first_user(
    alloc: Global,
    view: &StateRef<'_>,
    home: &str,
    of: &Target,
) -> Result<(), Or<Text>>
    ensures { Says result (first_user_of view.now home.now of.now) }
{
    match of.kind {
        ObjectKind::Profile => unnamed_at_home(alloc, view, home, of.name.view()),
        ObjectKind::Network | ObjectKind::Pool | ObjectKind::Volume => {
            unused_within(alloc, view, home, of, view.projects)
        }
        ObjectKind::Project | ObjectKind::Instance | ObjectKind::Snapshot | ObjectKind::Operation =>
            Ok(()),
    }
}

//! Changes of the rows of one project, which are judged in that project alone.
ghost use Rattle.std.specs.Prelude.{◌≡◌, ◌==◌, ◌&&◌, ◌||◌, ◌∷◌, [], IfOk, codes, false, length, not};
ghost use Rattle.std.specs.List.{before_first, list_all, list_any};
ghost use Rattle.std.specs.Option.{option_copied, option_map_or};
ghost use Rattle.std.specs.Str.{bytes_eq};
ghost use Rattle.size_values.specs.Causes.{Says};
ghost use Rattle.row_codec.specs.Reading.{is_slash};
ghost use Rattle.row_machine.specs.machine.Changes.{applied};
ghost use Rattle.row_machine.specs.machine.Homes.{is_on};
ghost use Rattle.row_machine.specs.machine.Rows.{default_name};
ghost use Rattle.core_totals.specs.OneProject.{are_profiles_shared};
ghost use Rattle.core_totals.specs.OneProject.{in_use, is_after_rename, is_between, is_within};
ghost use Rattle.core_totals.specs.OneProject.{project_of_all, project_of_key, project_put};
ghost use Rattle.core_totals.specs.OneProject.{project_removed, project_renamed, project_touched};
ghost use Rattle.core_totals.specs.OneProject.{project_within, renamed_from, touches_profile};
ghost use Rattle.plain_lists.specs.Firsts.{first};
ghost use Rattle.plain_lists.specs.Members.{Each};
ghost use Rattle.row_machine.specs.machine.Rows.{project_named};
ghost use Rattle.row_machine.specs.machine.State.{State};
ghost use Rattle.row_readings.specs.PoolLimits.{own_limits};
ghost use Rattle.rules_limits.specs.AllProjects.{limits_any};
ghost use Rattle.rules_limits.specs.Limited.{limits_named, pools_named};
ghost use Rattle.rules_limits.specs.OneProject.{uses_over};
ghost use Rattle.core_judging.specs.Before.{FitsProject, Knows, after_change};
ghost use Rattle.core_judging.specs.Judged.{project_exceeds, project_forbidden, project_judged, project_lacks_amount};

use project_limits::{Limits, limits_of};
use records::{Project, Refusal, Row};
use row_machine::RowChange;
use row_readings::{PoolLimits, StateRef, is_on, pool_uses, project_of_row, rows_of, usage_of};
use rules_limits::{
    InUse, Limited, is_limited_by, limited_named, project_without_amount, uses_exceed,
};
use rules_policy::policy_broken_in;
use size_values::{Amounts, NoMemory, ObjectKind, Or, Seq, Text};
use std::alloc::Global;

/// A project of which changes put and remove rows: its limits after them, if it is there then, with the pools that it
/// limits, and what it used of them before.
#[derive(Drop)]
pub struct OneProject {
    pub name: Text,
    pub limits: Option<Limits>,
    pub pools: PoolLimits,
    pub used: InUse,
}

// ---- within which project changes are

/// What stands in front of the first slash of a key.
fn before_slash(key: &str) -> &str
    ensures { result.now ≡ before_first is_slash key.now }
{
    match key.split_once('/') {
        Some((front, _)) => front,
        None => key,
    }
}

/// The project of a row by its key. A pool is of none.
fn project_of_key(of: ObjectKind, key: &str) -> &str
    ensures { result.now ≡ project_of_key of key.now }
{
    match of {
        ObjectKind::Project => key,
        ObjectKind::Pool => "",
        ObjectKind::Profile => before_slash(key),
        ObjectKind::Network => before_slash(key),
        ObjectKind::Volume => before_slash(key),
        ObjectKind::Instance => before_slash(key),
        ObjectKind::Snapshot => before_slash(key),
        ObjectKind::Operation => before_slash(key),
    }
}

/// The project whose row a change puts or removes.
fn project_touched(change: &RowChange) -> &str
    ensures { result.now ≡ project_touched change.now }
{
    match change {
        RowChange::Put(row) => project_of_row(row),
        RowChange::Remove(of, key) => project_of_key(*of, key.view()),
    }
}

/// Whether a change puts or removes a profile.
fn touches_profile(change: &RowChange) -> bool
    ensures { result ≡ touches_profile change.now }
{
    match change {
        RowChange::Put(row) => matches!(row, Row::Profile(_)),
        RowChange::Remove(of, _) => matches!(of, ObjectKind::Profile),
    }
}

/// Whether another project than `default` has the profiles of `default`.
fn are_profiles_shared(view: &StateRef<'_>) -> bool
    ensures { result ≡ are_profiles_shared view.now }
{
    view.projects.iter().any(|project| {
        project.name.view() != "default" && !is_on(&project.config, "features.profiles")
    })
}

/// Whether a change touches rows of this project alone. A profile of `default` is one that instances of other projects
/// may have, which is looked for only then.
fn is_within(view: &StateRef<'_>, project: &str, change: &RowChange) -> bool
    ensures { result ≡ is_within (are_profiles_shared view.now) project.now change.now }
{
    project_touched(change) == project
        && !(touches_profile(change) && "default" == project && are_profiles_shared(view))
}

fn are_within(view: &StateRef<'_>, project: &str, changes: &[RowChange]) -> bool
    ensures { result ≡ list_all (is_within (are_profiles_shared view.now) project.now) changes.now }
{
    changes
        .iter()
        .all(|change| is_within(view, project, change))
}

/// The project whose rows all changes touch.
fn project_of_all<'x>(view: &StateRef<'_>, changes: &'x [RowChange]) -> Option<&'x str>
    ensures { option_copied result ≡ project_of_all (are_profiles_shared view.now) changes.now }
{
    match changes {
        [first, ..] => {
            let project = project_touched(first);
            if are_within(view, project, changes) {
                Some(project)
            } else {
                None
            }
        }
        [] => None,
    }
}

// ---- which project gets another name

/// The project whose row a change removes.
fn project_removed(change: &RowChange) -> Option<&str>
    ensures { option_copied result ≡ project_removed change.now }
{
    match change {
        RowChange::Remove(ObjectKind::Project, key) => Some(key.view()),
        _ => None,
    }
}

/// The project whose row a change puts.
fn project_put(change: &RowChange) -> Option<&str>
    ensures { option_copied result ≡ project_put change.now }
{
    match change {
        RowChange::Put(Row::Project(project)) => Some(project.name.view()),
        _ => None,
    }
}

/// Whether a change touches rows of these two projects alone.
fn is_between(old: &str, new: &str, change: &RowChange) -> bool
    ensures { result ≡ is_between old.now new.now change.now }
{
    let project = project_touched(change);
    (project == old || project == new)
        && !(touches_profile(change) && ("default" == old || "default" == new))
}

/// Whether a change puts the project of this name.
fn puts_project(change: &RowChange, name: &str) -> bool
    ensures { result ≡ option_map_or (λ put. bytes_eq put name.now) (project_put change.now) false }
{
    match project_put(change) {
        Some(project) => project == name,
        None => false,
    }
}

/// Whether a change may follow when the project of the old name is gone.
fn is_after_rename(old: &str, new: &str, change: &RowChange) -> bool
    ensures { result ≡ is_after_rename old.now new.now change.now }
{
    is_between(old, new, change) && !puts_project(change, old)
}

fn are_after_rename(old: &str, new: &str, changes: &[RowChange]) -> bool
    ensures { result ≡ list_all (is_after_rename old.now new.now) changes.now }
{
    changes
        .iter()
        .all(|change| is_after_rename(old, new, change))
}

/// The new name of a project whose row under the old one is gone.
fn renamed_from<'x>(old: &str, changes: &'x [RowChange]) -> Option<&'x str>
    ensures { option_copied result ≡ renamed_from old.now changes.now }
{
    let [first, ..] = changes else {
        return None;
    };
    let new = project_put(first)?;
    if are_after_rename(old, new, changes) {
        Some(new)
    } else {
        None
    }
}

/// The new name of a project that gets one by changes.
fn project_renamed(changes: &[RowChange]) -> Option<&str>
    ensures { option_copied result ≡ project_renamed changes.now }
{
    let [first, rest @ ..] = changes else {
        return None;
    };
    let old = project_removed(first)?;
    renamed_from(old, rest)
}

/// The project within which all changes are, which may get another name by them.
pub(crate) fn project_within<'x>(view: &StateRef<'_>, changes: &'x [RowChange]) -> Option<&'x str>
    ensures { option_copied result ≡ project_within view.now changes.now }
{
    match project_of_all(view, changes) {
        Some(project) => Some(project),
        None => project_renamed(changes),
    }
}

// ---- its limits, and what it uses

/// The project of this name after a change, by what it was before.
fn after_change<'x>(
    change: &'x RowChange,
    name: &str,
    before: Option<&'x Project>,
) -> Option<&'x Project>
    ensures { option_copied result ≡ after_change change.now name.now (option_copied before.entry) }
{
    match change {
        RowChange::Put(Row::Project(project)) => {
            if project.name.view() == name {
                Some(project)
            } else {
                before
            }
        }
        RowChange::Remove(ObjectKind::Project, key) => {
            if key.view() == name { None } else { before }
        }
        _ => before,
    }
}

/// The project of this name after these changes.
fn project_after<'x>(
    view: &StateRef<'x>,
    changes: &'x [RowChange],
    name: &str,
) -> Option<&'x Project>
    ensures { option_copied result ≡ project_named (applied view.now changes.now).projects name.now }
{
    let mut project = view.project_named(name);
    for change in changes {
        project = after_change(change, name, project);
    }
    // The proof needs that the projects of a view rise by their names.
    let _projects = &view.projects;
    project
}

/// The limits of the project of this name after these changes. They are read here, and nowhere else for changes within
/// a project; those on pools below.
fn limits_after(view: &StateRef<'_>, changes: &[RowChange], name: &str) -> Option<Limits>
    ensures { result ≡ limits_named (applied view.now changes.now).projects name.now }
{
    match project_after(view, changes, name) {
        Some(project) => Some(limits_of(&project.config)),
        None => None,
    }
}

/// The pools that the project of this name limits after these changes.
fn pools_after(
    alloc: Global,
    view: &StateRef<'_>,
    changes: &[RowChange],
    name: &str,
) -> Result<PoolLimits, NoMemory>
    ensures { IfOk result (λ pools. pools ≡ pools_named (applied view.now changes.now).projects name.now) }
{
    let Some(project) = project_after(view, changes, name) else {
        return Ok(PoolLimits::none(alloc));
    };
    PoolLimits::of(alloc, project)
}

/// What a project uses of its limits, and of these pools.
fn in_use(
    alloc: Global,
    view: &StateRef<'_>,
    project: &str,
    pools: &PoolLimits,
) -> Result<InUse, NoMemory>
    requires { Each (λ limit. limit.project ≡ project.now) pools.now }
    ensures { IfOk result (λ used. used ≡ in_use view.now project.now pools.now) }
{
    let amounts = usage_of(alloc, view, project)?;
    let networks = rows_of(view.networks, project).len();
    let pools = pool_uses(alloc, view, project, pools)?;
    Ok(InUse {
        amounts,
        networks,
        pools,
    })
}

/// Whether limits, if they are those of a project, set one, or these on pools do.
fn set_one(limits: Option<Limits>, pools: &PoolLimits) -> bool
    ensures { result ≡ (option_map_or limits_any limits false || not (length pools.now == 0)) }
{
    is_limited_by(limits) || !pools.view().is_empty()
}

/// What the project uses before changes that leave it these limits, on these pools too. Where there is none, nothing is
/// summed.
fn use_before(
    alloc: Global,
    view: &StateRef<'_>,
    project: &str,
    limits: Option<Limits>,
    pools: &PoolLimits,
) -> Result<InUse, NoMemory>
    requires { Each (λ limit. limit.project ≡ project.now) pools.now }
    ensures knows { IfOk result (λ used. (later : State) → limits ≡ limits_named later.projects project.now
        → pools.now ≡ pools_named later.projects project.now → Knows project.now pools.now used view.now later) }
    ensures lines { IfOk result (λ used. length used.pools ≡ length pools.now) }
{
    if set_one(limits, pools) {
        return in_use(alloc, view, project, pools);
    }
    Ok(InUse {
        amounts: Amounts::zero(),
        networks: 0,
        pools: Seq::new(alloc),
    })
}

/// The project of these changes, its limits after them, and what it uses before them.
pub(crate) fn project_before(
    alloc: Global,
    view: &StateRef<'_>,
    changes: &[RowChange],
    project: &str,
) -> Result<OneProject, NoMemory>
    ensures name { IfOk result (λ of. of.name ≡ project.now) }
    ensures fits { IfOk result (λ of. FitsProject of (applied view.now changes.now)) }
    ensures used { IfOk result
        (λ of. Knows project.now of.pools of.used view.now (applied view.now changes.now)) }
{
    let limits = limits_after(view, changes, project);
    let pools = pools_after(alloc, view, changes, project)?;
    let used = use_before(alloc, view, project, limits, &pools)?;
    let name = Text::from_text(alloc, project)?;
    Ok(OneProject {
        name,
        limits,
        pools,
        used,
    })
}

// ---- what is judged

/// F1 to F7 of the project.
fn policy_broken(alloc: Global, of: &OneProject, after: &StateRef<'_>) -> Result<(), Or<Refusal>>
    ensures { Says result (project_forbidden of.now.name after.now) }
{
    let projects = rows_of(after.projects, of.name.view());
    policy_broken_in(alloc, after, projects)
}

/// L1 to L9 of the project. Where it has no limit nothing is summed.
fn limits_broken(
    alloc: Global,
    of: &OneProject,
    after: &StateRef<'_>,
    project: &Limited<'_>,
) -> Result<(), Or<Refusal>>
    requires name { project.now.name ≡ of.now.name }
    requires pools { of.now.pools ≡ own_limits project.now }
    requires lines { length of.now.used.pools ≡ length of.now.pools }
    ensures { Says result (uses_over of.now.pools of.now.used (in_use after.now of.now.name of.now.pools) project.now) }
{
    if !project.has_limits() {
        return Ok(());
    }
    let used = in_use(alloc, after, of.name.view(), &of.pools)?;
    uses_exceed(alloc, project, &of.pools, &of.used, &used)
}

/// L0 to L9 of the project, if it is there.
#[tactic(auto, unfolding(crate::specs::Judged::project_lacks_amount, crate::specs::Judged::project_exceeds))]
fn limits_judged(alloc: Global, of: &OneProject, after: &StateRef<'_>) -> Result<(), Or<Refusal>>
    requires limits { of.now.limits ≡ limits_named after.now.projects of.now.name }
    requires pools { of.now.pools ≡ pools_named after.now.projects of.now.name }
    requires lines { length of.now.used.pools ≡ length of.now.pools }
    ensures { Says result
        (first (project_lacks_amount of.now.name after.now
        ∷ project_exceeds of.now.name of.now.pools of.now.used after.now ∷ [])) }
{
    let Some(project) = limited_named(after, of.name.view(), of.limits) else {
        return Ok(());
    };
    project_without_amount(alloc, after, &project)?;
    limits_broken(alloc, of, after, &project)
}

/// The first rule on policy and limits that is broken in the project.
pub(crate) fn project_broken(
    alloc: Global,
    of: &OneProject,
    after: &StateRef<'_>,
) -> Result<(), Or<Refusal>>
    requires limits { of.now.limits ≡ limits_named after.now.projects of.now.name }
    requires pools { of.now.pools ≡ pools_named after.now.projects of.now.name }
    requires lines { length of.now.used.pools ≡ length of.now.pools }
    ensures { Says result (project_judged of.now.name of.now.pools of.now.used after.now) }
{
    policy_broken(alloc, of, after)?;
    limits_judged(alloc, of, after)
}

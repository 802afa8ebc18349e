//! Where rows stand: their projects, pools and instances, the profiles that they name, and the project `default`.
ghost use Rattle.std.specs.Prelude.{◌≡◌, ◌||◌, is_none, not};
ghost use Rattle.std.specs.List.{list_any};
ghost use Rattle.std.specs.Str.{bytes_eq};
ghost use Rattle.records.specs.Forms.{are_distinct, are_profiles};
ghost use Rattle.row_machine.specs.machine.Homes.{home_of};
ghost use Rattle.row_machine.specs.machine.Rows.{project_named};
ghost use Rattle.row_machine.specs.machine.State.{State};
ghost use Rattle.row_machine.specs.opening.Opening.{if_so, home_missing, parent_row_missing, profiles_malformed};
ghost use Rattle.row_machine.specs.opening.Opening.{defaults_missing};
ghost use Rattle.row_machine.specs.opening.Opening.{has_all_features};
ghost use Rattle.rules_opening.specs.Rules.{lacks_defaults};

use records::{Project, Row, Rule};
use row_readings::{StateRef, is_on};
use size_values::{ObjectKind, Text};

/// The most profiles that an instance may name.
const MOST_PROFILES: usize = 64;

/// This rule, where it is broken.
pub(crate) fn if_so(breaks: bool, rule: Rule) -> Option<Rule>
    ensures { result ≡ if_so breaks rule }
{
    if breaks { Some(rule) } else { None }
}

/// Whether a project is missing, or is not its own home for rows of a kind.
fn lacks_home(view: &StateRef<'_>, project: &str, kind: ObjectKind) -> bool
    ensures { result
        ≡ (is_none (project_named view.now.projects project.now)
        || not (bytes_eq (home_of view.now.projects project.now kind) project.now)) }
{
    view.project_named(project).is_none() || view.home_of(project, kind) != project
}

/// A row's project is missing, or is not its own home for rows of this kind.
pub(crate) fn home_missing(view: &StateRef<'_>, row: &Row) -> Option<Rule>
    ensures { result ≡ home_missing view.now row.now }
{
    let (project, kind) = match row {
        Row::Project(_) | Row::Pool(_) => return None,
        Row::Profile(row) => (row.project.view(), ObjectKind::Profile),
        Row::Network(row) => (row.project.view(), ObjectKind::Network),
        Row::Volume(row) => (row.project.view(), ObjectKind::Volume),
        Row::Instance(row) => (row.project.view(), ObjectKind::Instance),
        Row::Snapshot(row) => (row.project.view(), ObjectKind::Snapshot),
    };
    if_so(lacks_home(view, project, kind), Rule::N1)
}

/// A volume's pool or a snapshot's instance is missing.
pub(crate) fn parent_row_missing(view: &StateRef<'_>, row: &Row) -> Option<Rule>
    ensures { result ≡ parent_row_missing view.now row.now }
{
    match row {
        Row::Volume(row) => {
            let pool = view.pool_named(row.pool.view());
            if_so(pool.is_none(), Rule::N2)
        }
        Row::Snapshot(row) => {
            let instance = view.instance_named(row.project.view(), row.instance.view());
            if_so(instance.is_none(), Rule::N2)
        }
        _ => None,
    }
}

fn is_among(name: &Text, names: &[Text]) -> bool
    ensures { result ≡ list_any (bytes_eq name.now) names.now }
{
    names.iter().any(|other| name.is(other))
}

/// Whether no name comes twice. The work grows with the square, so long lists are not asked about.
fn are_distinct(names: &[Text]) -> bool
    ensures { result ≡ are_distinct names.now }
{
    for index in 0..names.len() {
        if is_among(&names[index], &names[index + 1..]) {
            return false;
        }
    }
    true
}

fn are_profiles(names: &[Text]) -> bool
    ensures { result ≡ are_profiles names.now }
{
    names.len() <= MOST_PROFILES && are_distinct(names)
}

/// An instance or a snapshot names too many profiles, or one twice.
pub(crate) fn profiles_malformed(row: &Row) -> Option<Rule>
    ensures { (s : State) → result ≡ profiles_malformed s row.now }
{
    match row {
        Row::Instance(row) => if_so(!are_profiles(row.profiles.view()), Rule::N3),
        Row::Snapshot(row) => if_so(!are_profiles(row.profiles.view()), Rule::N3),
        _ => None,
    }
}

/// Whether a project has every feature.
fn has_all_features(project: &Project) -> bool
    ensures { result ≡ has_all_features project.now }
{
    is_on(&project.config, "features.profiles")
        && is_on(&project.config, "features.networks")
        && is_on(&project.config, "features.storage.volumes")
        && is_on(&project.config, "features.images")
        && is_on(&project.config, "features.storage.buckets")
}

fn lacks_defaults(view: &StateRef<'_>, project: &Project) -> bool
    ensures { result ≡ lacks_defaults view.now project.now }
{
    let name = project.name.view();
    if name == "default" && !has_all_features(project) {
        return true;
    }
    is_on(&project.config, "features.profiles") && view.profile_named(name, "default").is_none()
}

/// The project `default` lacks a feature, or a project with profiles of its own has no profile `default`.
pub(crate) fn defaults_missing(view: &StateRef<'_>, row: &Row) -> Option<Rule>
    ensures { result ≡ defaults_missing view.now row.now }
{
    match row {
        Row::Project(project) => if_so(lacks_defaults(view, project), Rule::B3),
        _ => None,
    }
}

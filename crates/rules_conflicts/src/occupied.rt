//! B5: the project is not empty.
ghost use Rattle.std.specs.Prelude.{◌≡◌, IfOk, not, ◌&&◌};
ghost use Rattle.std.specs.List.{list_any};
ghost use Rattle.std.specs.Str.{bytes_eq};
ghost use Rattle.size_values.specs.Causes.{Says};
ghost use Rattle.row_machine.specs.machine.Rows.{default_name};
ghost use Rattle.row_machine.specs.machine.StandingRules.{is_occupied, must_be_empty, project_occupied};

use crate::asked::{object_changed, renames_or_deletes};
use crate::features::asks_for_features;
use operations::Operation;
use records::{Command, Instance, Network, Profile, Refusal, Rule, Target, Volume, What};
use row_machine::Task;
use row_readings::{StateRef, rows_of};
use rules_refusals::on_name;
use size_values::{Boxed, NoMemory, ObjectKind, Or};
use std::alloc::Global;

fn has_instance(rows: &[Boxed<Instance>], project: &str) -> bool
    ensures { result ≡ list_any (λ r. bytes_eq r.project project.now) rows.now }
{
    rows.iter().any(|r| r.project.view() == project)
}

fn has_network(rows: &[Network], project: &str) -> bool
    ensures { result ≡ list_any (λ r. bytes_eq r.project project.now) rows.now }
{
    rows.iter().any(|r| r.project.view() == project)
}

fn has_volume(rows: &[Boxed<Volume>], project: &str) -> bool
    ensures { result ≡ list_any (λ r. bytes_eq r.project project.now) rows.now }
{
    rows.iter().any(|r| r.project.view() == project)
}

/// Whether a project has a profile other than `default`.
fn has_own_profile(rows: &[Boxed<Profile>], project: &str) -> bool
    ensures { result ≡ list_any (λ r. bytes_eq r.project project.now && not (bytes_eq r.name default_name)) rows.now }
{
    rows.iter().any(|r| r.project.view() == project && r.name.view() != "default")
}

fn has_operation(live: &[Operation<Task>], project: &str) -> bool
    ensures { result ≡ list_any (λ o. bytes_eq o.work.project project.now) live.now }
{
    live.iter().any(|o| o.work.project.view() == project)
}

// ---- of all rows, those of the project alone are gone over

fn project_has_instance(view: &StateRef<'_>, project: &str) -> bool
    ensures { result ≡ list_any (λ r. bytes_eq r.project project.now) view.now.instances }
{
    has_instance(rows_of(view.instances, project), project)
}

fn project_has_network(view: &StateRef<'_>, project: &str) -> bool
    ensures { result ≡ list_any (λ r. bytes_eq r.project project.now) view.now.networks }
{
    has_network(rows_of(view.networks, project), project)
}

fn project_has_volume(view: &StateRef<'_>, project: &str) -> bool
    ensures { result ≡ list_any (λ r. bytes_eq r.project project.now) view.now.volumes }
{
    has_volume(rows_of(view.volumes, project), project)
}

fn project_has_own_profile(view: &StateRef<'_>, project: &str) -> bool
    ensures { result ≡ list_any (λ r. bytes_eq r.project project.now && not (bytes_eq r.name default_name)) view.now.profiles }
{
    has_own_profile(rows_of(view.profiles, project), project)
}

/// Whether a project has an instance, a network, a volume, a profile other than `default`, or a live operation.
fn is_occupied(view: &StateRef<'_>, name: &str) -> bool
    ensures { result ≡ is_occupied view.now name.now }
{
    project_has_instance(view, name)
        || project_has_network(view, name)
        || project_has_volume(view, name)
        || project_has_own_profile(view, name)
        || has_operation(view.live, name)
}

/// Whether a command needs an empty project.
fn must_be_empty(
    alloc: Global,
    view: &StateRef<'_>,
    what: &What,
    of: &Target,
) -> Result<bool, NoMemory>
    ensures { IfOk result (λ b. b ≡ must_be_empty view.now what.now of.now) }
{
    match of.kind {
        ObjectKind::Project => {
            if renames_or_deletes(what) {
                return Ok(true);
            }
            asks_for_features(alloc, view, what)
        }
        ObjectKind::Profile
        | ObjectKind::Network
        | ObjectKind::Pool
        | ObjectKind::Volume
        | ObjectKind::Instance
        | ObjectKind::Snapshot
        | ObjectKind::Operation => Ok(false),
    }
}

/// The project that a command needs empty is not.
#[tactic(auto, unfolding(row_machine::specs::machine::StandingRules::project_occupied))]
pub(crate) fn project_occupied(
    alloc: Global,
    view: &StateRef<'_>,
    command: &Command,
) -> Result<(), Or<Refusal>>
    ensures { Says result (project_occupied view.now command.now) }
{
    let Some(of) = object_changed(&command.what) else {
        return Ok(());
    };
    let name = of.name.view();
    if !must_be_empty(alloc, view, &command.what, of)? || !is_occupied(view, name) {
        return Ok(());
    }
    Err(Or::Why(on_name(alloc, Rule::B5, name)?))
}

//! Whether a command changes the features of a project.
ghost use Rattle.std.specs.Prelude.{◌≡◌, IfOk};
ghost use Rattle.std.specs.List.{list_any};
ghost use Rattle.records.specs.declared.commands.What.TheVariants as what_of;
ghost use Rattle.row_machine.specs.machine.NewRows.{patched_project, put_project};
ghost use Rattle.row_machine.specs.machine.StandingRules.{asks_for_features, changes_features, feature_changes};
ghost use Rattle.row_machine.specs.machine.StandingRules.{feature_keys};

use config_lists::Config;
use records::{Body, Project, Target, What};
use row_readings::{StateRef, is_on};
use rows_made::{new_config, patched_config};
use size_values::{NoMemory, ObjectKind, read_boolean};
use std::alloc::Global;

/// A feature changes where the new value reads as the other boolean. A value that cannot be read changes nothing.
fn feature_changes(old: &Config, new: &Config, key: &str) -> bool
    ensures { result ≡ feature_changes old.now new.now key.now }
{
    let Some(text) = new.get(key) else {
        return is_on(old, key);
    };
    match read_boolean(text) {
        Ok(true) => !is_on(old, key),
        Ok(false) => is_on(old, key),
        Err(_) => false,
    }
}

/// Whether some feature changes.
fn changes_features(old: &Config, new: &Config) -> bool
    ensures { result ≡ list_any (feature_changes old.now new.now) feature_keys }
{
    feature_changes(old, new, "features.profiles")
        || feature_changes(old, new, "features.networks")
        || feature_changes(old, new, "features.storage.volumes")
        || feature_changes(old, new, "features.images")
        || feature_changes(old, new, "features.storage.buckets")
}

fn put_changes(alloc: Global, row: &Project, body: &Body) -> Result<bool, NoMemory>
    ensures { IfOk result (λ b. b ≡ changes_features row.now (put_project row.now body.now)) }
{
    let config = new_config(alloc, body)?;
    let changes = changes_features(&row.config, &config);
    drop(config);
    Ok(changes)
}

fn patch_changes(row: &Project, body: &Body) -> Result<bool, NoMemory>
    ensures { IfOk result (λ b. b ≡ changes_features row.now (patched_project row.now body.now)) }
{
    let config = patched_config(&row.config, body)?;
    let changes = changes_features(&row.config, &config);
    drop(config);
    Ok(changes)
}

/// Whether a PUT changes the features of a project.
fn put_asks(alloc: Global, view: &StateRef<'_>, of: &Target, body: &Body) -> Result<bool, NoMemory>
    ensures { IfOk result (λ b. b ≡ asks_for_features view.now (what_of.Put of.now body.now)) }
{
    match of.kind {
        ObjectKind::Project => match view.project_named(of.name.view()) {
            Some(row) => put_changes(alloc, row, body),
            None => Ok(false),
        },
        ObjectKind::Profile
        | ObjectKind::Network
        | ObjectKind::Pool
        | ObjectKind::Volume
        | ObjectKind::Instance
        | ObjectKind::Snapshot
        | ObjectKind::Operation => Ok(false),
    }
}

/// Whether a PATCH does.
fn patch_asks(view: &StateRef<'_>, of: &Target, body: &Body) -> Result<bool, NoMemory>
    ensures { IfOk result (λ b. b ≡ asks_for_features view.now (what_of.Patch of.now body.now)) }
{
    match of.kind {
        ObjectKind::Project => match view.project_named(of.name.view()) {
            Some(row) => patch_changes(row, body),
            None => Ok(false),
        },
        ObjectKind::Profile
        | ObjectKind::Network
        | ObjectKind::Pool
        | ObjectKind::Volume
        | ObjectKind::Instance
        | ObjectKind::Snapshot
        | ObjectKind::Operation => Ok(false),
    }
}

/// Whether a command changes the features of a project.
pub(crate) fn asks_for_features(
    alloc: Global,
    view: &StateRef<'_>,
    what: &What,
) -> Result<bool, NoMemory>
    ensures { IfOk result (λ b. b ≡ asks_for_features view.now what.now) }
{
    match what {
        What::Put { of, body } => put_asks(alloc, view, of, body),
        What::Patch { of, body } => patch_asks(view, of, body),
        What::Root
        | What::Server
        | What::List { .. }
        | What::Get { .. }
        | What::State { .. }
        | What::Create { .. }
        | What::Move { .. }
        | What::Delete { .. }
        | What::Act { .. }
        | What::Restore { .. }
        | What::GetOp { .. }
        | What::Cancel { .. }
        | What::Wait { .. } => Ok(false),
    }
}

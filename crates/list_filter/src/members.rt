//! The members of objects that are texts, numbers or truths.
ghost use Rattle.std.specs.Prelude.{◌≡◌, ℕ, List, IfOk};
ghost use Rattle.config_lists.specs.Settings.{Settings};
ghost use Rattle.config_lists.specs.Devices.{NamedDevices};
ghost use Rattle.rest_json.specs.Views.{server_data, project_data, profile_data, network_data, pool_data};
ghost use Rattle.rest_json.specs.Views.{volume_data, instance_data, snapshot_data, power_data, view_data};
ghost use Rattle.list_filter.specs.Values.{member_text};

use crate::operation_members::operation_member;
use crate::texts::{expiry, moment, number, text, truth};
use crate::words::{driver_text, instance_kind, power_code, power_text};
use records::{Instance, Network, Pool, Profile, Project, Snapshot, View, Volume};
use rest_json::{Dialect, Terms};
use size_values::{NoMemory, Power, Text};
use std::alloc::Global;

/// A member of the server.
#[tactic(auto, unfolding(rest_json::specs::Views::server_data))]
fn server_member(alloc: Global, dialect: Dialect, name: &str) -> Result<Option<Text>, NoMemory>
    ensures { IfOk result (λ value. value ≡ member_text name.now (server_data dialect)) }
{
    match name {
        "api_status" => text(alloc, "stable"),
        "api_version" => text(alloc, "1.0"),
        "auth" => text(alloc, "trusted"),
        "public" => truth(alloc, false),
        _ => Ok(None),
    }
}

/// A member of a project.
#[tactic(auto, unfolding(rest_json::specs::Views::project_data, rest_json::specs::Settings::settings_data, rest_json::specs::Settings::texts_data))]
fn project_member(alloc: Global, row: &Project, name: &str) -> Result<Option<Text>, NoMemory>
    ensures { IfOk result
        (λ value. (used : List (List ℕ)) → value ≡ member_text name.now (project_data row.now used)) }
{
    match name {
        "description" => text(alloc, row.description.view()),
        "name" => text(alloc, row.name.view()),
        _ => Ok(None),
    }
}

/// A member of a profile.
#[tactic(auto, unfolding(rest_json::specs::Views::profile_data, rest_json::specs::Settings::settings_data, rest_json::specs::Settings::devices_data, rest_json::specs::Settings::texts_data))]
fn profile_member(alloc: Global, row: &Profile, name: &str) -> Result<Option<Text>, NoMemory>
    ensures { IfOk result
        (λ value. (used : List (List ℕ)) → value ≡ member_text name.now (profile_data row.now used)) }
{
    match name {
        "description" => text(alloc, row.description.view()),
        "name" => text(alloc, row.name.view()),
        "project" => text(alloc, row.project.view()),
        _ => Ok(None),
    }
}

/// A member of a network.
#[tactic(auto, unfolding(rest_json::specs::Views::network_data, rest_json::specs::Settings::settings_data, rest_json::specs::Settings::texts_data))]
fn network_member(alloc: Global, row: &Network, name: &str) -> Result<Option<Text>, NoMemory>
    ensures { IfOk result
        (λ value. (used : List (List ℕ)) → value ≡ member_text name.now (network_data row.now used)) }
{
    match name {
        "description" => text(alloc, row.description.view()),
        "managed" => truth(alloc, true),
        "name" => text(alloc, row.name.view()),
        "project" => text(alloc, row.project.view()),
        "type" => text(alloc, "bridge"),
        _ => Ok(None),
    }
}

/// A member of a pool.
#[tactic(auto, unfolding(rest_json::specs::Views::pool_data, rest_json::specs::Settings::settings_data, rest_json::specs::Settings::texts_data))]
fn pool_member(alloc: Global, row: &Pool, name: &str) -> Result<Option<Text>, NoMemory>
    ensures { IfOk result
        (λ value. (used : List (List ℕ)) → value ≡ member_text name.now (pool_data row.now used)) }
{
    match name {
        "description" => text(alloc, row.description.view()),
        "driver" => text(alloc, driver_text(row.driver)),
        "name" => text(alloc, row.name.view()),
        _ => Ok(None),
    }
}

/// A member of a volume.
#[tactic(auto, unfolding(rest_json::specs::Views::volume_data, rest_json::specs::Settings::settings_data, rest_json::specs::Settings::texts_data))]
fn volume_member(alloc: Global, row: &Volume, name: &str) -> Result<Option<Text>, NoMemory>
    ensures { IfOk result
        (λ value. (used : List (List ℕ)) → value ≡ member_text name.now (volume_data row.now used)) }
{
    match name {
        "created_at" => moment(alloc, row.created),
        "description" => text(alloc, row.description.view()),
        "name" => text(alloc, row.name.view()),
        "pool" => text(alloc, row.pool.view()),
        "project" => text(alloc, row.project.view()),
        "type" => text(alloc, "custom"),
        _ => Ok(None),
    }
}

/// A member of an instance.
#[tactic(auto, unfolding(rest_json::specs::Views::instance_data, rest_json::specs::Settings::settings_data, rest_json::specs::Settings::devices_data, rest_json::specs::Settings::texts_data))]
fn instance_member(
    alloc: Global,
    row: &Instance,
    power: Power,
    name: &str,
) -> Result<Option<Text>, NoMemory>
    ensures { IfOk result (λ value. (config : Settings) (devices : NamedDevices)
        → value ≡ member_text name.now (instance_data row.now config devices power)) }
{
    match name {
        "created_at" => moment(alloc, row.created),
        "description" => text(alloc, row.description.view()),
        "ephemeral" => truth(alloc, row.ephemeral),
        "name" => text(alloc, row.name.view()),
        "project" => text(alloc, row.project.view()),
        "stateful" => truth(alloc, false),
        "status" => text(alloc, power_text(power)),
        "status_code" => number(alloc, power_code(power)),
        "type" => text(alloc, instance_kind(row.kind)),
        _ => Ok(None),
    }
}

/// A member of a snapshot.
#[tactic(auto, unfolding(rest_json::specs::Views::snapshot_data, rest_json::specs::Settings::settings_data, rest_json::specs::Settings::devices_data, rest_json::specs::Settings::texts_data))]
fn snapshot_member(alloc: Global, row: &Snapshot, name: &str) -> Result<Option<Text>, NoMemory>
    ensures { IfOk result (λ value. value ≡ member_text name.now (snapshot_data row.now)) }
{
    match name {
        "created_at" => moment(alloc, row.created),
        "expires_at" => expiry(alloc, row.expires),
        "name" => text(alloc, row.name.view()),
        "stateful" => truth(alloc, false),
        _ => Ok(None),
    }
}

/// A member of the state of an instance.
#[tactic(auto, unfolding(rest_json::specs::Views::power_data))]
fn power_member(alloc: Global, power: Power, name: &str) -> Result<Option<Text>, NoMemory>
    ensures { IfOk result (λ value. value ≡ member_text name.now (power_data power)) }
{
    match name {
        "status" => text(alloc, power_text(power)),
        "status_code" => number(alloc, power_code(power)),
        _ => Ok(None),
    }
}

/// The text of a member of an object of any kind. The state of a project has one member alone, an object.
#[tactic(auto, unfolding(rest_json::specs::Views::usage_data, rest_json::specs::Views::lines_data))]
pub(crate) fn member_text(
    alloc: Global,
    terms: Terms,
    shown: &View,
    name: &str,
) -> Result<Option<Text>, NoMemory>
    ensures { IfOk result (λ value. value ≡ member_text name.now (view_data terms shown.now)) }
{
    match shown {
        View::Server => server_member(alloc, terms.dialect, name),
        View::Project(row, _) => project_member(alloc, row, name),
        View::Profile(row, _) => profile_member(alloc, row, name),
        View::Network(row, _) => network_member(alloc, row, name),
        View::Pool(row, _) => pool_member(alloc, row, name),
        View::Volume(row, _) => volume_member(alloc, row, name),
        View::Instance { row, power, .. } => instance_member(alloc, row, *power, name),
        View::Snapshot(row) => snapshot_member(alloc, row, name),
        View::Power(power) => power_member(alloc, *power, name),
        View::Usage(_) => Ok(None),
        View::Op(operation) => operation_member(alloc, terms.boot, operation, name),
    }
}

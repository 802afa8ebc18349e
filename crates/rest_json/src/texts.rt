//! Objects of all kinds as JSON that is written as it is made.
ghost use Rattle.std.specs.Prelude.{◌≡◌, ◌++◌, IfOk};
ghost use Rattle.json.specs.Print.{quoted};
ghost use Rattle.serde_json.specs.Written.{compact_text};
ghost use Rattle.rest_json.specs.Operations.{operation_data};
ghost use Rattle.rest_json.specs.Views.{server_data, project_data, profile_data, network_data, pool_data};
ghost use Rattle.rest_json.specs.Views.{volume_data, instance_data, expiry_text, snapshot_data, power_data};
ghost use Rattle.rest_json.specs.Views.{usage_data, view_data};

use crate::operation::operation_value;
use crate::terms::{Dialect, Terms};
use crate::text::JsonText;
use crate::views::{expiry_text, usage_value};
use crate::words::{driver_text, instance_kind, power_code, power_text};
use config_lists::{Config, Devices};
use records::{
    Instance, Network, OpView, Pool, Profile, Project, Snapshot, UsageLine, View, Volume,
};
use size_values::{NoMemory, Power, Seq, Text};
use std::alloc::Global;

/// The server, and in the client's dialect what the command `incus` asks for only where it is told that it is there.
#[tactic(auto, unfolding(crate::specs::Views::server_data, json::specs::Print::escape_byte))]
fn server_text(dialect: Dialect) -> &'static str
    ensures { result.now ≡ compact_text (server_data dialect) }
{
    match dialect {
        Dialect::Plain => {
            "{\"api_extensions\":[],\"api_status\":\"stable\",\"api_version\":\"1.0\",\"auth\":\"trusted\",\"public\":false}"
        }
        Dialect::Client => {
            "{\"api_extensions\":[\"api_filtering\",\"container_full\",\"instance_nic_network\",\"network\",\"network_acl\",\"network_dns\",\"network_forward\",\"project_usage\",\"projects\",\"storage\",\"storage_api_local_volume_handling\",\"storage_api_volume_rename\",\"storage_buckets\",\"warnings\"],\"api_status\":\"stable\",\"api_version\":\"1.0\",\"auth\":\"trusted\",\"public\":false}"
        }
    }
}

/// A project, with the URLs of what it has.
#[tactic(auto, unfolding(crate::specs::Views::project_data, json::specs::Print::escape_byte))]
fn write_project(text: JsonText, row: &Project, used: &Seq<Text>) -> Result<JsonText, NoMemory>
    ensures { IfOk result (λ t. t ≡ text ++ compact_text (project_data row.now used.now)) }
{
    text.plain("{\"config\":")?
        .settings(&row.config)?
        .plain(",\"description\":")?
        .string(row.description.view())?
        .plain(",\"name\":")?
        .string(row.name.view())?
        .plain(",\"used_by\":")?
        .texts(used)?
        .plain("}")
}

/// A profile, with the URLs of the instances that name it.
#[tactic(auto, unfolding(crate::specs::Views::profile_data, json::specs::Print::escape_byte))]
fn write_profile(text: JsonText, row: &Profile, used: &Seq<Text>) -> Result<JsonText, NoMemory>
    ensures { IfOk result (λ t. t ≡ text ++ compact_text (profile_data row.now used.now)) }
{
    text.plain("{\"config\":")?
        .settings(&row.config)?
        .plain(",\"description\":")?
        .string(row.description.view())?
        .plain(",\"devices\":")?
        .devices(&row.devices)?
        .plain(",\"name\":")?
        .string(row.name.view())?
        .plain(",\"project\":")?
        .string(row.project.view())?
        .plain(",\"used_by\":")?
        .texts(used)?
        .plain("}")
}

/// A network, with the URLs of what names it.
#[tactic(auto, unfolding(crate::specs::Views::network_data, json::specs::Print::escape_byte))]
fn write_network(text: JsonText, row: &Network, used: &Seq<Text>) -> Result<JsonText, NoMemory>
    ensures { IfOk result (λ t. t ≡ text ++ compact_text (network_data row.now used.now)) }
{
    text.plain("{\"config\":")?
        .settings(&row.config)?
        .plain(",\"description\":")?
        .string(row.description.view())?
        .plain(",\"managed\":true,\"name\":")?
        .string(row.name.view())?
        .plain(",\"project\":")?
        .string(row.project.view())?
        .plain(",\"type\":\"bridge\",\"used_by\":")?
        .texts(used)?
        .plain("}")
}

/// A pool, with the URLs of what names it and of its volumes.
#[tactic(auto, unfolding(crate::specs::Views::pool_data, json::specs::Print::escape_byte))]
fn write_pool(text: JsonText, row: &Pool, used: &Seq<Text>) -> Result<JsonText, NoMemory>
    ensures { IfOk result (λ t. t ≡ text ++ compact_text (pool_data row.now used.now)) }
{
    text.plain("{\"config\":")?
        .settings(&row.config)?
        .plain(",\"description\":")?
        .string(row.description.view())?
        .plain(",\"driver\":")?
        .string(driver_text(row.driver))?
        .plain(",\"name\":")?
        .string(row.name.view())?
        .plain(",\"used_by\":")?
        .texts(used)?
        .plain("}")
}

/// A volume, with the URLs of what names it.
#[tactic(auto, unfolding(crate::specs::Views::volume_data, json::specs::Print::escape_byte))]
fn write_volume(text: JsonText, row: &Volume, used: &Seq<Text>) -> Result<JsonText, NoMemory>
    ensures { IfOk result (λ t. t ≡ text ++ compact_text (volume_data row.now used.now)) }
{
    text.plain("{\"config\":")?
        .settings(&row.config)?
        .plain(",\"created_at\":")?
        .moment(row.created)?
        .plain(",\"description\":")?
        .string(row.description.view())?
        .plain(",\"name\":")?
        .string(row.name.view())?
        .plain(",\"pool\":")?
        .string(row.pool.view())?
        .plain(",\"project\":")?
        .string(row.project.view())?
        .plain(",\"type\":\"custom\",\"used_by\":")?
        .texts(used)?
        .plain("}")
}

/// An instance, with its expanded settings and devices and its status.
#[tactic(auto, unfolding(crate::specs::Views::instance_data, json::specs::Print::escape_byte))]
fn write_instance(
    text: JsonText,
    row: &Instance,
    config: &Config,
    devices: &Devices,
    power: Power,
) -> Result<JsonText, NoMemory>
    ensures { IfOk result
        (λ t. t ≡ text ++ compact_text (instance_data row.now config.now devices.now power)) }
{
    text.plain("{\"config\":")?
        .settings(&row.config)?
        .plain(",\"created_at\":")?
        .moment(row.created)?
        .plain(",\"description\":")?
        .string(row.description.view())?
        .plain(",\"devices\":")?
        .devices(&row.devices)?
        .plain(",\"ephemeral\":")?
        .boolean(row.ephemeral)?
        .plain(",\"expanded_config\":")?
        .settings(config)?
        .plain(",\"expanded_devices\":")?
        .devices(devices)?
        .plain(",\"name\":")?
        .string(row.name.view())?
        .plain(",\"profiles\":")?
        .texts(&row.profiles)?
        .plain(",\"project\":")?
        .string(row.project.view())?
        .plain(",\"stateful\":false,\"status\":")?
        .string(power_text(power))?
        .plain(",\"status_code\":")?
        .number(power_code(power))?
        .plain(",\"type\":")?
        .string(instance_kind(row.kind))?
        .plain("}")
}

/// When a snapshot expires.
fn write_expiry(text: JsonText, alloc: Global, expires: u64) -> Result<JsonText, NoMemory>
    ensures { IfOk result (λ t. t ≡ text ++ quoted (expiry_text expires)) }
{
    let expiry = expiry_text(alloc, expires)?;
    text.string(expiry.view())
}

/// A snapshot.
#[tactic(auto, unfolding(crate::specs::Views::snapshot_data, json::specs::Print::escape_byte))]
fn write_snapshot(text: JsonText, alloc: Global, row: &Snapshot) -> Result<JsonText, NoMemory>
    ensures { IfOk result (λ t. t ≡ text ++ compact_text (snapshot_data row.now)) }
{
    let text = text
        .plain("{\"config\":")?
        .settings(&row.config)?
        .plain(",\"created_at\":")?
        .moment(row.created)?
        .plain(",\"devices\":")?
        .devices(&row.devices)?
        .plain(",\"expires_at\":")?;
    write_expiry(text, alloc, row.expires)?
        .plain(",\"name\":")?
        .string(row.name.view())?
        .plain(",\"profiles\":")?
        .texts(&row.profiles)?
        .plain(",\"stateful\":false}")
}

/// The state of an instance.
#[tactic(auto, unfolding(crate::specs::Views::power_data, json::specs::Print::escape_byte))]
fn write_power(text: JsonText, power: Power) -> Result<JsonText, NoMemory>
    ensures { IfOk result (λ t. t ≡ text ++ compact_text (power_data power)) }
{
    text.plain("{\"status\":")?
        .string(power_text(power))?
        .plain(",\"status_code\":")?
        .number(power_code(power))?
        .plain("}")
}

/// The state of a project.
#[tactic(auto, using(crate::proofs::ViewsPlain::usage_plain))]
fn write_usage(text: JsonText, alloc: Global, lines: &Seq<UsageLine>) -> Result<JsonText, NoMemory>
    ensures { IfOk result (λ t. t ≡ text ++ compact_text (usage_data lines.now)) }
{
    let value = usage_value(alloc, lines)?;
    text.value(&value)
}

/// An operation.
#[tactic(auto, using(crate::proofs::ViewsPlain::operation_plain))]
pub fn write_operation(
    text: JsonText,
    alloc: Global,
    boot: u64,
    operation: &OpView,
) -> Result<JsonText, NoMemory>
    ensures { IfOk result (λ t. t ≡ text ++ compact_text (operation_data boot operation.now)) }
{
    let value = operation_value(alloc, boot, operation)?;
    text.value(&value)
}

/// An object of any kind.
pub fn write_view(
    text: JsonText,
    alloc: Global,
    terms: Terms,
    shown: &View,
) -> Result<JsonText, NoMemory>
    ensures { IfOk result (λ t. t ≡ text ++ compact_text (view_data terms shown.now)) }
{
    match shown {
        View::Server => text.plain(server_text(terms.dialect)),
        View::Project(row, used) => write_project(text, row, used),
        View::Profile(row, used) => write_profile(text, row, used),
        View::Network(row, used) => write_network(text, row, used),
        View::Pool(row, used) => write_pool(text, row, used),
        View::Volume(row, used) => write_volume(text, row, used),
        View::Instance {
            row,
            config,
            devices,
            power,
        } => write_instance(text, row, config, devices, *power),
        View::Snapshot(row) => write_snapshot(text, alloc, row),
        View::Power(power) => write_power(text, *power),
        View::Usage(lines) => write_usage(text, alloc, lines),
        View::Op(operation) => write_operation(text, alloc, terms.boot, operation),
    }
}

//! The settings of objects.
ghost use Rattle.std.specs.Prelude.{◌≡◌, IfOk, codes, option_and_then};
ghost use Rattle.rest_json.specs.Settings.{settings_data};
ghost use Rattle.rest_json.specs.Views.{view_data};
ghost use Rattle.list_filter.specs.Values.{member_text, text_within};

use crate::texts::text;
use config_lists::Config;
use records::View;
use rest_json::Terms;
use size_values::{NoMemory, Text};
use std::alloc::Global;

/// The value of a setting.
#[tactic(auto, using(crate::proofs::Found::setting_text))]
fn setting(alloc: Global, config: &Config, key: &str) -> Result<Option<Text>, NoMemory>
    ensures { IfOk result (λ value. value ≡ member_text key.now (settings_data config.now)) }
{
    // The length tells of the settings that their keys rise.
    let _keys = config.len();
    match config.get(key) {
        Some(value) => text(alloc, value),
        None => Ok(None),
    }
}

/// The value of a key of an object's own settings.
#[tactic(auto, unfolding(rest_json::specs::Views::server_data, rest_json::specs::Views::project_data, rest_json::specs::Views::profile_data, rest_json::specs::Views::network_data, rest_json::specs::Views::pool_data, rest_json::specs::Views::volume_data, rest_json::specs::Views::instance_data, rest_json::specs::Views::snapshot_data, rest_json::specs::Views::power_data, rest_json::specs::Views::usage_data, rest_json::specs::Operations::operation_data))]
pub(crate) fn own_setting(alloc: Global, shown: &View, key: &str) -> Result<Option<Text>, NoMemory>
    ensures { IfOk result (λ value. (terms : Terms)
        → value ≡ text_within (codes "config") key.now (view_data terms shown.now)) }
{
    match shown {
        View::Project(row, _) => setting(alloc, &row.config, key),
        View::Profile(row, _) => setting(alloc, &row.config, key),
        View::Network(row, _) => setting(alloc, &row.config, key),
        View::Pool(row, _) => setting(alloc, &row.config, key),
        View::Volume(row, _) => setting(alloc, &row.config, key),
        View::Instance { row, .. } => setting(alloc, &row.config, key),
        View::Snapshot(row) => setting(alloc, &row.config, key),
        View::Server | View::Power(_) | View::Usage(_) | View::Op(_) => Ok(None),
    }
}

/// The value of a key of an instance's expanded settings: its own, and those of its profiles.
#[tactic(auto, unfolding(rest_json::specs::Views::server_data, rest_json::specs::Views::project_data, rest_json::specs::Views::profile_data, rest_json::specs::Views::network_data, rest_json::specs::Views::pool_data, rest_json::specs::Views::volume_data, rest_json::specs::Views::instance_data, rest_json::specs::Views::snapshot_data, rest_json::specs::Views::power_data, rest_json::specs::Views::usage_data, rest_json::specs::Operations::operation_data))]
pub(crate) fn expanded_setting(
    alloc: Global,
    shown: &View,
    key: &str,
) -> Result<Option<Text>, NoMemory>
    ensures { IfOk result (λ value. (terms : Terms)
        → value ≡ text_within (codes "expanded_config") key.now (view_data terms shown.now)) }
{
    match shown {
        View::Instance { config, .. } => setting(alloc, config, key),
        View::Server
        | View::Project(..)
        | View::Profile(..)
        | View::Network(..)
        | View::Pool(..)
        | View::Volume(..)
        | View::Snapshot(_)
        | View::Power(_)
        | View::Usage(_)
        | View::Op(_) => Ok(None),
    }
}

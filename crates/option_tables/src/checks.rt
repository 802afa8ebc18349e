ghost use Rattle.std.specs.Prelude.{◌≡◌};
ghost use Rattle.std.specs.Result.{result_err};
ghost use Rattle.option_tables.specs.Tables.{form_of};
ghost use Rattle.option_tables.specs.Checks.{keys_fault, fault_at, instance_fault, project_fault, network_fault};
ghost use Rattle.option_tables.specs.Checks.{pool_fault, volume_fault};

use crate::faults::{KeyFault, SettingFault};
use crate::tables::{Scope, Table};
use config_lists::Config;

/// Checks the settings of an instance of that kind, or of a profile, which is for instances of any kind. It
/// takes no memory.
#[tactic(auto, unfolding(crate::specs::Checks::instance_fault))]
pub fn check_instance(config: &Config, scope: Scope) -> Result<(), SettingFault>
    ensures { result_err result ≡ instance_fault config.now scope }
{
    check_keys(Table::Instance(scope), config)?;
    Ok(())
}

/// Checks the settings of a project.
#[tactic(auto, unfolding(crate::specs::Checks::project_fault))]
pub fn check_project(config: &Config) -> Result<(), SettingFault>
    ensures { result_err result ≡ project_fault config.now }
{
    check_keys(Table::Project, config)?;
    Ok(())
}

/// Checks the settings of a network.
#[tactic(auto, unfolding(crate::specs::Checks::network_fault))]
pub fn check_network(config: &Config) -> Result<(), SettingFault>
    ensures { result_err result ≡ network_fault config.now }
{
    check_keys(Table::Network, config)?;
    Ok(())
}

/// Checks the settings of a storage pool.
#[tactic(auto, unfolding(crate::specs::Checks::pool_fault))]
pub fn check_pool(config: &Config) -> Result<(), SettingFault>
    ensures { result_err result ≡ pool_fault config.now }
{
    check_keys(Table::Pool, config)?;
    Ok(())
}

/// Checks the settings of a storage volume.
#[tactic(auto, unfolding(crate::specs::Checks::volume_fault))]
pub fn check_volume(config: &Config) -> Result<(), SettingFault>
    ensures { result_err result ≡ volume_fault config.now }
{
    check_keys(Table::Volume, config)?;
    Ok(())
}

/// The first key that the table refuses.
#[tactic(auto, unfolding(crate::specs::Checks::keys_fault))]
pub(crate) fn check_keys(table: Table, config: &Config) -> Result<(), KeyFault>
    ensures { result_err result ≡ keys_fault table config.now }
{
    for place in 0..config.len() {
        if let Err(fault) = check_key(table, place, config.key_at(place), config.value_at(place)) {
            return Err(fault);
        }
    }
    Ok(())
}

fn check_key(table: Table, place: usize, key: &str, value: &str) -> Result<(), KeyFault>
    ensures { result_err result ≡ fault_at place (form_of table key.now) value.now }
{
    let Some(form) = table.form(key) else {
        return Err(KeyFault::Unknown(place));
    };
    form.check(value)
        .map_err(|fault| KeyFault::Bad(place, fault))
}

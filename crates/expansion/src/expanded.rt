ghost use Rattle.std.specs.Prelude.{◌≡◌, IfOk, OnOk, OnErr};
ghost use Rattle.config_lists.specs.Entries.{replaced};

use config_lists::{Config, Devices};
use size_values::NoMemory;
use std::alloc::Global;

/// Layers of settings and devices, laid one over the other. A device of type `none` stays, and stands for no
/// device in every rule.
#[derive(Drop)]
pub struct Expanded {
    pub config: Config,
    pub devices: Devices,
}

impl Expanded {
    ghost use Rattle.expansion.specs.Layers.{nothing, laid};

    /// Without layers. It takes no memory.
    pub fn new(alloc: Global) -> Expanded
        ensures { result ≡ nothing }
    {
        Expanded {
            config: Config::new(alloc),
            devices: Devices::new(alloc),
        }
    }

    /// Lays settings and devices over those that are there: each of the keys is set, and each of the devices
    /// takes the place of the one of its name, whole. Where memory is refused, all is as before.
    #[tactic(auto, unfolding(crate::specs::Layers::laid))]
    pub fn lay(&mut self, config: &Config, devices: &Devices) -> Result<(), NoMemory>
        ensures ok { OnOk result (self.new ≡ laid self.old (record { config = config.now; devices = devices.now })) }
        ensures err { OnErr result (self.new ≡ self.old) }
    {
        let config = overlay(&self.config, config)?;
        let devices = self.devices.replaced(devices)?;
        self.config = config;
        self.devices = devices;
        Ok(())
    }
}

/// The settings with each of the others set.
fn overlay(config: &Config, by: &Config) -> Result<Config, NoMemory>
    ensures { IfOk result (λ c. c ≡ replaced config.now by.now) }
{
    let mut config = config.copy()?;
    for place in 0..by.len() {
        config.set(by.key_at(place), by.value_at(place))?;
    }
    Ok(config)
}

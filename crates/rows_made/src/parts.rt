//! The parts of a row that a request's body gives: of a new row, or over those of the row that stands.
ghost use Rattle.std.specs.Prelude.{◌≡◌, IfOk};
ghost use Rattle.row_machine.specs.machine.NewRows.{new_description, new_config, new_devices, patched_description};
ghost use Rattle.row_machine.specs.machine.NewRows.{patched_config, patched_devices};

use config_lists::{Config, Devices};
use records::Body;
use size_values::{NoMemory, Text};
use std::alloc::Global;

/// The description of a new row: empty where the request gives none.
pub fn new_description(alloc: Global, body: &Body) -> Result<Text, NoMemory>
    ensures { IfOk result (λ t. t ≡ new_description body.now) }
{
    match &body.description {
        Some(text) => text.copy(alloc),
        None => Ok(Text::new(alloc)),
    }
}

/// The settings of a new row: those of the request that have a value.
pub fn new_config(alloc: Global, body: &Body) -> Result<Config, NoMemory>
    ensures { IfOk result (λ c. c ≡ new_config body.now) }
{
    match &body.config {
        Some(asked) => asked.settled(),
        None => Ok(Config::new(alloc)),
    }
}

/// The devices of a new row: those of the request.
pub fn new_devices(alloc: Global, body: &Body) -> Result<Devices, NoMemory>
    ensures { IfOk result (λ d. d ≡ new_devices body.now) }
{
    match &body.devices {
        Some(devices) => devices.copy(),
        None => Ok(Devices::new(alloc)),
    }
}

/// The description that the request gives, or else the old one.
pub fn patched_description(alloc: Global, old: &Text, body: &Body) -> Result<Text, NoMemory>
    ensures { IfOk result (λ t. t ≡ patched_description old.now body.now) }
{
    match &body.description {
        Some(text) => text.copy(alloc),
        None => old.copy(alloc),
    }
}

/// The old settings, with those of the request over them.
pub fn patched_config(old: &Config, body: &Body) -> Result<Config, NoMemory>
    ensures { IfOk result (λ c. c ≡ patched_config old.now body.now) }
{
    match &body.config {
        Some(changes) => old.patched(changes),
        None => old.copy(),
    }
}

/// The old devices, those of the request whole in place of the ones of their names.
pub fn patched_devices(old: &Devices, body: &Body) -> Result<Devices, NoMemory>
    ensures { IfOk result (λ d. d ≡ patched_devices old.now body.now) }
{
    match &body.devices {
        Some(devices) => old.replaced(devices),
        None => old.copy(),
    }
}

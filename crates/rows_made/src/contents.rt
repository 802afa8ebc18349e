//! What rows of most kinds have beside their names: a description and settings.
ghost use Rattle.std.specs.Prelude.{◌≡◌, IfOk};
ghost use Rattle.row_machine.specs.machine.NewRows.{new_description, new_config};
ghost use Rattle.row_machine.specs.machine.NewRows.{patched_description, patched_config};

use crate::parts::{new_config, new_description, patched_config, patched_description};
use config_lists::Config;
use records::Body;
use size_values::{NoMemory, Text};
use std::alloc::Global;

/// The description and the settings of a row.
#[derive(Drop)]
pub(crate) struct Content {
    pub(crate) description: Text,
    pub(crate) config: Config,
}

/// What a request gives.
pub(crate) fn new_content(alloc: Global, body: &Body) -> Result<Content, NoMemory>
    ensures { IfOk result (λ c. c ≡ record { description = new_description body.now; config = new_config body.now }) }
{
    let config = new_config(alloc, body)?;
    let description = new_description(alloc, body)?;
    Ok(Content {
        description,
        config,
    })
}

/// What stands, with what a request gives over it.
pub(crate) fn patched_content(
    alloc: Global,
    description: &Text,
    config: &Config,
    body: &Body,
) -> Result<Content, NoMemory>
    ensures { IfOk result (λ c. c ≡ record {
      description = patched_description description.now body.now;
      config = patched_config config.now body.now;
    }) }
{
    let config = patched_config(config, body)?;
    let description = patched_description(alloc, description, body)?;
    Ok(Content {
        description,
        config,
    })
}

/// What stands, copied.
pub(crate) fn copied_content(
    alloc: Global,
    description: &Text,
    config: &Config,
) -> Result<Content, NoMemory>
    ensures { IfOk result (λ c. c ≡ record { description = description.now; config = config.now }) }
{
    let config = config.copy()?;
    let description = description.copy(alloc)?;
    Ok(Content {
        description,
        config,
    })
}

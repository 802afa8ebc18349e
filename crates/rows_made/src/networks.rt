//! The rows of networks that commands make.
ghost use Rattle.std.specs.Prelude.{◌≡◌, IfOk};
ghost use Rattle.row_machine.specs.machine.NewRows.{made_network, put_network, patched_network};

use crate::contents::{Content, copied_content, new_content, patched_content};
use records::{Body, Network};
use size_values::{NoMemory, Text};
use std::alloc::Global;

/// The network of this name in this project.
fn network_of(
    alloc: Global,
    project: &str,
    name: &Text,
    content: Content,
) -> Result<Network, NoMemory>
    ensures { IfOk result (λ r. r ≡ record {
      project = project.now;
      name = name.now;
      description = content.description;
      config = content.config;
    }) }
{
    let project = Text::from_text(alloc, project)?;
    let name = name.copy(alloc)?;
    Ok(Network {
        project,
        name,
        description: content.description,
        config: content.config,
    })
}

/// A network as it is created in the project that it belongs to.
pub fn made_network(
    alloc: Global,
    project: &str,
    name: &Text,
    body: &Body,
) -> Result<Network, NoMemory>
    ensures { IfOk result (λ r. r ≡ made_network project.now name.now body.now) }
{
    let content = new_content(alloc, body)?;
    network_of(alloc, project, name, content)
}

/// A network after a PUT.
pub fn put_network(alloc: Global, old: &Network, body: &Body) -> Result<Network, NoMemory>
    ensures { IfOk result (λ r. r ≡ put_network old.now body.now) }
{
    made_network(alloc, old.project.view(), &old.name, body)
}

/// A network after a PATCH.
pub fn patched_network(alloc: Global, old: &Network, body: &Body) -> Result<Network, NoMemory>
    ensures { IfOk result (λ r. r ≡ patched_network old.now body.now) }
{
    let content = patched_content(alloc, &old.description, &old.config, body)?;
    network_of(alloc, old.project.view(), &old.name, content)
}

/// A network under another name.
pub fn renamed_network(alloc: Global, old: &Network, to: &Text) -> Result<Network, NoMemory>
    ensures { IfOk result (λ r. r ≡ record old.now { name = to.now }) }
{
    let content = copied_content(alloc, &old.description, &old.config)?;
    network_of(alloc, old.project.view(), to, content)
}

//! What counts for the limits of projects before a change.
ghost use Rattle.std.specs.Prelude.{◌≡◌, IfOk, map};
ghost use Rattle.row_machine.specs.machine.Changes.{applied};
ghost use Rattle.row_readings.specs.Loads.{AreSmall};
ghost use Rattle.rules_limits.specs.Counting.{counts_in};
ghost use Rattle.rules_limits.specs.AllProjects.{Serves};

use crate::parts::{have_limits, is_any_limit_set};
use records::Network;
use row_machine::RowChange;
use row_readings::{Load, StateRef, loads};
use size_values::{NoMemory, Text};
use std::alloc::Global;
use std::marker::Model;

/// What counts for the limits of projects at one time: instances, volumes and the shares of live operations, each with
/// its project, and the project of each network. It stays as it is while the rows change.
#[derive(Drop)]
pub struct Usage {
    loads: Vec<Load>,
    networks: Vec<Text>,
}

impl Model for Usage {
    ghost use Rattle.rules_limits.specs.Counting.{Counts};

    ghost Value = { Counts };

    ghost use Rattle.rules_limits.specs.Counting.{counts_of, AreLow};

    ghost view = { counts_of };

    ghost invariant = { AreLow };
}

impl Usage {
    /// Instances, volumes and the shares of live operations.
    pub(crate) fn loads(&self) -> &[Load]
        ensures same { result.now ≡ self.now.loads }
        ensures small { AreSmall result.now }
    {
        &self.loads
    }

    /// The project of each network.
    pub(crate) fn networks(&self) -> &[Text]
        ensures { result.now ≡ self.now.networks }
    {
        &self.networks
    }
}

/// What counts for limits, taken before a change.
pub fn usage_before(alloc: Global, view: &StateRef<'_>) -> Result<Usage, NoMemory>
    ensures { IfOk result (λ u. u ≡ counts_in view.now) }
{
    let loads = loads(alloc, view)?;
    let networks = network_projects(alloc, view.networks)?;
    Ok(Usage { loads, networks })
}

/// What counts for limits, taken before these changes are made. Where no project has a limit, before or after them,
/// nothing is summed: no limit is exceeded then, whatever counted before.
pub fn usage_before_changes(
    alloc: Global,
    view: &StateRef<'_>,
    changes: &[RowChange],
) -> Result<Usage, NoMemory>
    ensures { IfOk result (λ u. Serves u view.now (applied view.now changes.now)) }
{
    if have_limits(view.projects) || is_any_limit_set(changes) {
        return usage_before(alloc, view);
    }
    Ok(Usage {
        loads: Vec::new(alloc),
        networks: Vec::new(alloc),
    })
}

fn network_projects(alloc: Global, networks: &[Network]) -> Result<Vec<Text>, NoMemory>
    ensures { IfOk result (λ names. names.items ≡ map (λ n. n.project) networks.now) }
{
    let mut names = Vec::new(alloc);
    for network in networks {
        names.push(network.project.copy(alloc)?)?;
    }
    Ok(names)
}

//! The pools that projects limit, each with its limit, in the order of the names of projects and of pools.
ghost use Rattle.std.specs.Prelude.{◌≡◌, ◌<◌, ◌∷◌, ◌++◌, [], IfOk, None, OnOk, length};
ghost use Rattle.std.specs.Option.{option_to_list};
ghost use Rattle.config_lists.specs.Entries.{KeysRise};
ghost use Rattle.row_machine.specs.facts.Whole.{Rise};
ghost use Rattle.row_machine.specs.machine.Rows.{project_names};
ghost use Rattle.row_readings.specs.PoolLimits.{limit_names, limit_at, own_limits, all_limits};

use crate::named::{Named, Names};
use project_limits::pool_of_key;
use records::Project;
use size_values::{NoMemory, Text, read_size};
use std::alloc::Global;
use std::marker::Model;

/// A pool that a project limits, with the limit where it can be read.
#[derive(Drop)]
pub struct PoolLimit {
    pub project: Text,
    pub pool: Text,
    pub limit: Option<u64>,
}

impl Named for PoolLimit {
    ghost names = { limit_names };

    fn lent_names(&self) -> Names<'_> {
        Names::Two(self.project.view(), self.pool.view())
    }
}

/// The pools that projects limit. Contracts see the list of them.
#[derive(Drop)]
pub struct PoolLimits {
    limits: Vec<PoolLimit>,
}

impl Model for PoolLimits {
    ghost use Rattle.std.specs.Prelude.{List};
    ghost use Rattle.row_machine.specs.facts.Whole.{Rise};
    ghost use Rattle.row_readings.specs.declared.pool_limits.PoolLimit.{PoolLimit as PoolLimitValue};
    ghost use Rattle.row_readings.specs.PoolLimits.{limit_names};

    ghost Value = { List PoolLimitValue };

    ghost view = { λ p. p.limits.items };

    ghost invariant = { λ p. Rise limit_names p.limits.items };
}

impl PoolLimits {
    /// None. It takes no memory.
    pub fn none(alloc: Global) -> PoolLimits
        ensures { result ≡ [] }
    {
        PoolLimits {
            limits: Vec::new(alloc),
        }
    }

    /// One pool of a project, whatever its limit is.
    pub fn one(alloc: Global, project: &str, pool: &str) -> Result<PoolLimits, NoMemory>
        ensures { IfOk result (λ p. p ≡ record { project = project.now; pool = pool.now; limit = None } ∷ []) }
    {
        let project = Text::from_text(alloc, project)?;
        let pool = Text::from_text(alloc, pool)?;
        let mut limits = Vec::new(alloc);
        limits.push(PoolLimit {
            project,
            pool,
            limit: None,
        })?;
        Ok(PoolLimits { limits })
    }

    /// The pools that a project limits.
    pub fn of(alloc: Global, project: &Project) -> Result<PoolLimits, NoMemory>
        ensures { IfOk result (λ p. p ≡ own_limits project.now) }
    {
        let mut limits = Vec::new(alloc);
        add_limits(alloc, project, &mut limits)?;
        Ok(PoolLimits { limits })
    }

    /// The pools that each of these projects limits.
    pub fn of_all(alloc: Global, projects: &[Project]) -> Result<PoolLimits, NoMemory>
        requires { Rise project_names projects.now }
        ensures { IfOk result (λ p. p ≡ all_limits projects.now) }
    {
        let mut limits = Vec::new(alloc);
        for project in projects {
            add_limits(alloc, project, &mut limits)?;
        }
        Ok(PoolLimits { limits })
    }

    /// The pools, to be read.
    pub fn view(&self) -> &[PoolLimit]
        ensures same { result.now ≡ self.now }
        ensures rising { Rise limit_names self.now }
    {
        &self.limits
    }
}

/// Adds the pools that a project limits. Its keys are walked once, and each limit is read where its key stands.
fn add_limits(alloc: Global, project: &Project, limits: &mut Vec<PoolLimit>) -> Result<(), NoMemory>
    ensures limits { OnOk result (limits.new.items ≡ limits.old.items ++ own_limits project.now) }
    ensures rising { KeysRise project.now.config }
{
    for place in 0..project.config.len() {
        add_limit(alloc, project, place, limits)?;
    }
    Ok(())
}

/// Adds the pool that the key at a place limits, if it is such a key.
fn add_limit(
    alloc: Global,
    project: &Project,
    place: usize,
    limits: &mut Vec<PoolLimit>,
) -> Result<(), NoMemory>
    requires within { place < length project.now.config }
    requires rising { KeysRise project.now.config }
    ensures { OnOk result (limits.new.items ≡ limits.old.items ++ option_to_list (limit_at project.now place)) }
{
    let Some(pool) = pool_of_key(project.config.key_at(place)) else {
        return Ok(());
    };
    let limit = read_size(project.config.value_at(place)).ok();
    let project = project.name.copy(alloc)?;
    let pool = Text::from_text(alloc, pool)?;
    limits.push(PoolLimit {
        project,
        pool,
        limit,
    })?;
    Ok(())
}

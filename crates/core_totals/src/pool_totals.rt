//! What projects are known to use of the pools that they limit.
ghost use Rattle.std.specs.Prelude.{◌≡◌, ◌+◌, ◌<◌, ◌≤◌, ◌^◌, ◌∷◌, ◌++◌, [], length, IfOk, IfSome, OnOk, OnErr};
ghost use Rattle.std.specs.List.{position};
ghost use Rattle.rules_limits.specs.OneProject.{of_project, part_over};
ghost use Rattle.row_machine.specs.facts.Whole.{IsWhole};
ghost use Rattle.row_machine.specs.machine.Usage.{used_on};
ghost use Rattle.core_totals.specs.Totals.{ArePools, is_on, known_on, pools_grown, pools_lowered};

use row_readings::{PoolLimits, StateRef, pool_uses};
use rules_limits::{limit_on_pool, needs_use_of_pool};
use size_values::{NoMemory, PoolPart, Text};
use std::alloc::Global;
use std::marker::Model;

/// What one project uses of one pool, in bytes.
#[derive(Drop)]
pub(crate) struct PoolTotal {
    project: Text,
    pool: Text,
    used: u128,
}

impl PoolTotal {
    /// Whether it is what this project uses of this pool.
    fn is_on(&self, project: &str, pool: &str) -> bool
        ensures { result ≡ is_on project.now pool.now self.now }
    {
        self.project.view() == project && self.pool.view() == pool
    }
}

/// What projects use of pools, with what live operations claim. Contracts see the list of it. A project whose total on a
/// pool is not there is not known on it; of several the first counts.
#[derive(Drop)]
pub(crate) struct PoolTotals {
    totals: Vec<PoolTotal>,
}

impl Model for PoolTotals {
    ghost use Rattle.std.specs.Prelude.{List};
    ghost use Rattle.core_totals.specs.declared.pool_totals.PoolTotal.{PoolTotal as PoolTotalValue};

    ghost Value = { List PoolTotalValue };

    ghost view = { λ t. t.totals.items };
}

/// The place of the total of a project on a pool.
fn index_of(totals: &[PoolTotal], project: &str, pool: &str) -> Option<usize>
    ensures place { result ≡ position (is_on project.now pool.now) totals.now }
    ensures within { IfSome result (λ place. place < length totals.now) }
{
    totals.iter().position(|total| total.is_on(project, pool))
}

/// What a project uses of one pool, with what live operations claim: the sum over its own rows and claims.
fn use_of_pool(
    alloc: Global,
    view: &StateRef<'_>,
    project: &str,
    pool: &str,
) -> Result<u128, NoMemory>
    ensures { IfOk result (λ used. used ≡ used_on view.now project.now pool.now) }
{
    let limit = PoolLimits::one(alloc, project, pool)?;
    let uses = pool_uses(alloc, view, project, &limit)?;
    Ok(*uses.at(0))
}

impl PoolTotals {
    /// Of no project anything is known. It takes no memory.
    pub(crate) fn new(alloc: Global) -> PoolTotals
        ensures { result ≡ [] }
    {
        PoolTotals {
            totals: Vec::new(alloc),
        }
    }

    /// What the project of this name uses of a pool, where it is known.
    fn known(&self, project: &str, pool: &str) -> Option<u128>
        ensures { result ≡ known_on self.now project.now pool.now }
    {
        match self.totals.iter().find(|total| total.is_on(project, pool)) {
            Some(total) => Some(total.used),
            None => None,
        }
    }

    /// From now on it is known what the project of this name uses of a pool. Where memory is refused, nothing is.
    fn keep(&mut self, alloc: Global, project: &str, pool: &str, used: u128) -> Result<(), NoMemory>
        ensures ok { OnOk result (self.new
            ≡ self.old ++ record { project = project.now; pool = pool.now; used = used } ∷ []) }
        ensures err { OnErr result (self.new ≡ self.old) }
    {
        let project = Text::from_text(alloc, project)?;
        let pool = Text::from_text(alloc, pool)?;
        self.totals.push(PoolTotal {
            project,
            pool,
            used,
        })?;
        Ok(())
    }

    /// What the project of this name uses of the pool of a part, as far as the part is judged by it: where the part is
    /// nothing, or the project does not limit its pool, it is not looked for.
    pub(crate) fn used_beside(
        &mut self,
        alloc: Global,
        view: &StateRef<'_>,
        name: &str,
        part: &PoolPart,
    ) -> Result<u128, NoMemory>
        requires whole { IsWhole view.now }
        requires totals { ArePools view.now self.old }
        ensures few { IfOk result (λ used. used ≤ 2 ^ 127 + 2 ^ 126) }
        ensures serves { IfOk result (λ used. of_project (part_over used part.now) view.now.projects name.now
            ≡ of_project (part_over (used_on view.now name.now part.now.pool) part.now) view.now.projects name.now) }
        ensures totals { ArePools view.now self.new }
    {
        let pool = part.pool.view();
        if !needs_use_of_pool(limit_on_pool(view, name, pool), part) {
            return Ok(0);
        }
        if let Some(used) = self.known(name, pool) {
            return Ok(used);
        }
        let used = use_of_pool(alloc, view, name, pool)?;
        self.keep(alloc, name, pool, used)?;
        Ok(used)
    }

    /// What is known of the project of this name on the pool of a part grows by it. It takes no memory.
    pub(crate) fn grow(&mut self, project: &str, part: &PoolPart)
        requires { IfSome (known_on self.old project.now part.now.pool) (λ used. used + part.now.disk < 2 ^ 128) }
        ensures { self.new ≡ pools_grown project.now part.now self.old }
    {
        let Some(place) = index_of(&self.totals, project, part.pool.view()) else {
            return;
        };
        let total = &mut self.totals[place];
        total.used += part.disk;
    }

    /// What is known of the project of this name on the pool of a part falls by it, which was counted in it. It takes no
    /// memory.
    pub(crate) fn lower(&mut self, project: &str, part: &PoolPart)
        ensures { self.new ≡ pools_lowered project.now part.now self.old }
    {
        let Some(place) = index_of(&self.totals, project, part.pool.view()) else {
            return;
        };
        let total = &mut self.totals[place];
        total.used = total.used.saturating_sub(part.disk);
    }

    /// Of no project anything is known any more. It takes no memory.
    pub(crate) fn forget(&mut self)
        ensures { self.new ≡ [] }
    {
        self.totals.clear();
    }
}

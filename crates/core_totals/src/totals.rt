//! What projects are known to use of their limits and of the pools that they limit.
ghost use Rattle.std.specs.Prelude.{◌≡◌, ◌+◌, ◌<◌, ◌≤◌, ◌^◌, IfOk, IfSome};
ghost use Rattle.size_values.specs.Amounts.{part};
ghost use Rattle.size_values.specs.declared.amounts.Part.{Part};
ghost use Rattle.rules_limits.specs.Limited.{limits_named};
ghost use Rattle.rules_limits.specs.OneProject.{share_broken};
ghost use Rattle.row_machine.specs.facts.Whole.{IsWhole};
ghost use Rattle.core_totals.specs.Alone.{all_beside};
ghost use Rattle.core_totals.specs.Totals.{AreTotals, known, known_on, nothing_known, grown, lowered};

use crate::amount_totals::AmountTotals;
use crate::pool_totals::PoolTotals;
use project_limits::Limits;
use row_readings::{Footprint, StateRef};
use rules_limits::Beside;
use size_values::{Amounts, NoMemory, PoolPart};
use std::alloc::Global;

/// What projects use of their limits, with what live operations claim, and of the pools that they limit. Nothing is
/// known of a project, or of one on a pool, that was not asked for.
#[derive(Drop)]
pub struct Totals {
    amounts: AmountTotals,
    pools: PoolTotals,
}

impl Totals {
    /// Of no project anything is known. It takes no memory.
    pub fn new(alloc: Global) -> Totals
        ensures { result ≡ nothing_known }
    {
        Totals {
            amounts: AmountTotals::new(alloc),
            pools: PoolTotals::new(alloc),
        }
    }

    /// What the project of this name, which has these limits, uses, as far as a share is judged by it. What is not known
    /// of it is summed over its rows and claims, and known from then on.
    pub fn used_beside(
        &mut self,
        alloc: Global,
        view: &StateRef<'_>,
        name: &str,
        limits: Option<Limits>,
        share: &Footprint,
    ) -> Result<Beside, NoMemory>
        requires whole { IsWhole view.now }
        requires limits { limits ≡ limits_named view.now.projects name.now }
        requires totals { AreTotals view.now self.old }
        ensures few { IfOk result (λ used. (k : Part) → part k used.amounts ≤ 2 ^ 127 + 2 ^ 126) }
        ensures few_on_pool { IfOk result (λ used. used.on_pool ≤ 2 ^ 127 + 2 ^ 126) }
        ensures serves { IfOk result (λ used. share_broken view.now.projects name.now used share.now
            ≡ share_broken view.now.projects name.now (all_beside view.now name.now share.now.on.pool) share.now) }
        ensures totals { AreTotals view.now self.new }
    {
        let amounts = self
            .amounts
            .used_beside(alloc, view, name, limits, &share.amounts)?;
        let on_pool = self.pools.used_beside(alloc, view, name, &share.on)?;
        Ok(Beside { amounts, on_pool })
    }

    /// What is known of the project of this name grows by a share: these amounts, and a part of them on a pool. It takes
    /// no memory.
    pub fn grow(&mut self, project: &str, amounts: &Amounts, on: &PoolPart)
        requires amounts { IfSome (known self.old.amounts project.now)
            (λ a. (k : Part) → part k a + part k amounts.now < 2 ^ 128) }
        requires pools { IfSome (known_on self.old.pools project.now on.now.pool)
            (λ used. used + on.now.disk < 2 ^ 128) }
        ensures { self.new ≡ grown project.now amounts.now on.now self.old }
    {
        self.amounts.grow(project, amounts);
        self.pools.grow(project, on);
    }

    /// What is known of the project of this name falls by a share, which was counted in it: by these amounts, and a part
    /// of them on a pool. It takes no memory.
    pub fn lower(&mut self, project: &str, amounts: &Amounts, on: &PoolPart)
        ensures { self.new ≡ lowered project.now amounts.now on.now self.old }
    {
        self.amounts.lower(project, amounts);
        self.pools.lower(project, on);
    }

    /// Of no project anything is known any more. It takes no memory.
    pub fn forget(&mut self)
        ensures { self.new ≡ nothing_known }
    {
        self.amounts.forget();
        self.pools.forget();
    }
}

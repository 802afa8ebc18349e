//! What projects are known to use of their limits, but for those on pools.
ghost use Rattle.std.specs.Prelude.{◌≡◌, ◌+◌, ◌<◌, ◌≤◌, ◌^◌, ◌∷◌, ◌++◌, [], length, IfOk, IfSome, OnOk, OnErr};
ghost use Rattle.std.specs.List.{position};
ghost use Rattle.size_values.specs.Amounts.{part};
ghost use Rattle.size_values.specs.declared.amounts.Part.{Part};
ghost use Rattle.rules_limits.specs.Limited.{limits_named};
ghost use Rattle.rules_limits.specs.OneProject.{asked_over, of_project};
ghost use Rattle.row_machine.specs.facts.Whole.{IsWhole};
ghost use Rattle.row_machine.specs.machine.Usage.{usage_of};
ghost use Rattle.core_totals.specs.Totals.{AreAmounts, is_of, known, amounts_grown, amounts_lowered};

use project_limits::Limits;
use row_readings::{StateRef, usage_of};
use rules_limits::needs_usage;
use size_values::{Amounts, NoMemory, Text};
use std::alloc::Global;
use std::marker::Model;

/// What one project uses of its limits.
#[derive(Drop)]
pub(crate) struct Total {
    project: Text,
    amounts: Amounts,
}

/// What projects use of their limits, with what live operations claim. Contracts see the list of it. A project whose
/// total is not there is not known; of several the first counts.
#[derive(Drop)]
pub(crate) struct AmountTotals {
    totals: Vec<Total>,
}

impl Model for AmountTotals {
    ghost use Rattle.std.specs.Prelude.{List};
    ghost use Rattle.core_totals.specs.declared.amount_totals.Total.{Total as TotalValue};

    ghost Value = { List TotalValue };

    ghost view = { λ t. t.totals.items };
}

/// The place of the total of a project.
fn index_of(totals: &[Total], project: &str) -> Option<usize>
    ensures place { result ≡ position (is_of project.now) totals.now }
    ensures within { IfSome result (λ place. place < length totals.now) }
{
    totals
        .iter()
        .position(|total| total.project.view() == project)
}

impl AmountTotals {
    /// Of no project anything is known. It takes no memory.
    pub(crate) fn new(alloc: Global) -> AmountTotals
        ensures { result ≡ [] }
    {
        AmountTotals {
            totals: Vec::new(alloc),
        }
    }

    /// What the project of this name uses, where it is known.
    fn known(&self, project: &str) -> Option<Amounts>
        ensures { result ≡ known self.now project.now }
    {
        match self
            .totals
            .iter()
            .find(|total| total.project.view() == project)
        {
            Some(total) => Some(total.amounts),
            None => None,
        }
    }

    /// From now on it is known what the project of this name uses. Where memory is refused, nothing is.
    fn keep(&mut self, alloc: Global, project: &str, amounts: Amounts) -> Result<(), NoMemory>
        ensures ok { OnOk result (self.new ≡ self.old ++ record { project = project.now; amounts = amounts } ∷ []) }
        ensures err { OnErr result (self.new ≡ self.old) }
    {
        let project = Text::from_text(alloc, project)?;
        self.totals.push(Total { project, amounts })?;
        Ok(())
    }

    /// What the project of this name, which has these limits, uses, as far as amounts are judged by it: where they are
    /// nothing, or it has no limit, it is not looked for.
    pub(crate) fn used_beside(
        &mut self,
        alloc: Global,
        view: &StateRef<'_>,
        name: &str,
        limits: Option<Limits>,
        asked: &Amounts,
    ) -> Result<Amounts, NoMemory>
        requires whole { IsWhole view.now }
        requires limits { limits ≡ limits_named view.now.projects name.now }
        requires totals { AreAmounts view.now self.old }
        ensures few { IfOk result (λ used. (k : Part) → part k used ≤ 2 ^ 127 + 2 ^ 126) }
        ensures serves { IfOk result (λ used. of_project (asked_over used asked.now) view.now.projects name.now
            ≡ of_project (asked_over (usage_of view.now name.now) asked.now) view.now.projects name.now) }
        ensures totals { AreAmounts view.now self.new }
    {
        if !needs_usage(limits, asked) {
            return Ok(Amounts::zero());
        }
        if let Some(used) = self.known(name) {
            return Ok(used);
        }
        let used = usage_of(alloc, view, name)?;
        self.keep(alloc, name, used)?;
        Ok(used)
    }

    /// What is known of the project of this name grows by these amounts. It takes no memory.
    pub(crate) fn grow(&mut self, project: &str, asked: &Amounts)
        requires { IfSome (known self.old project.now) (λ a. (k : Part) → part k a + part k asked.now < 2 ^ 128) }
        ensures { self.new ≡ amounts_grown project.now asked.now self.old }
    {
        let Some(place) = index_of(&self.totals, project) else {
            return;
        };
        let total = &mut self.totals[place];
        total.amounts = total.amounts.plus(asked);
    }

    /// What is known of the project of this name falls by these amounts, which were counted in it. It takes no memory.
    pub(crate) fn lower(&mut self, project: &str, asked: &Amounts)
        ensures { self.new ≡ amounts_lowered project.now asked.now self.old }
    {
        let Some(place) = index_of(&self.totals, project) else {
            return;
        };
        let total = &mut self.totals[place];
        total.amounts = total.amounts.excess(asked);
    }

    /// Of no project anything is known any more. It takes no memory.
    pub(crate) fn forget(&mut self)
        ensures { self.new ≡ [] }
    {
        self.totals.clear();
    }
}

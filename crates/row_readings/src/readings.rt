ghost use Rattle.std.specs.Prelude.{◌≡◌, IfOk, OnOk, map};
ghost use Rattle.std.specs.Option.{option_copied};
ghost use Rattle.expansion.specs.Layers.{laid, expanded};
ghost use Rattle.row_machine.specs.machine.Rows.{profile_named};
ghost use Rattle.row_machine.specs.machine.Expansions.{layer_of, expanded_of};
ghost use Rattle.row_machine.specs.machine.Usage.{usage_of};

use crate::amounts::{loads, usage_in};
use crate::state_ref::StateRef;
use expansion::Expanded;
use records::{Instance, Profile};
use size_values::{Amounts, NoMemory, Text};
use std::alloc::Global;

impl StateRef<'_> {
    /// What an instance has: the settings and devices of its profiles in their order, and then its own.
    pub fn expansion(&self, alloc: Global, row: &Instance) -> Result<Expanded, NoMemory>
        ensures { IfOk result (λ e. e ≡ expanded_of self.now.projects self.now.profiles row.now) }
    {
        let home = self.profile_home(row.project.view());
        let mut expanded = self.profiles_laid(alloc, home, row.profiles.view())?;
        expanded.lay(&row.config, &row.devices)?;
        Ok(expanded)
    }

    /// The profiles of these names in one project, laid in their order.
    pub fn profiles_laid(
        &self,
        alloc: Global,
        home: &str,
        names: &[Text],
    ) -> Result<Expanded, NoMemory>
        ensures { IfOk result (λ e. e
            ≡ expanded (map (λ name. layer_of (profile_named self.now.profiles home.now name)) names.now)) }
    {
        let mut expanded = Expanded::new(alloc);
        for name in names {
            lay_profile(&mut expanded, self.profile_named(home, name.view()))?;
        }
        Ok(expanded)
    }

    /// What a project uses of its limits, with what live operations claim.
    pub fn usage(&self, alloc: Global, project: &str) -> Result<Amounts, NoMemory>
        ensures { IfOk result (λ a. a ≡ usage_of self.now project.now) }
    {
        let all = loads(alloc, self)?;
        let used = usage_in(&all, project);
        drop(all);
        Ok(used)
    }
}

/// Lays a profile over what is there. One that is missing has no settings.
fn lay_profile(expanded: &mut Expanded, profile: Option<&Profile>) -> Result<(), NoMemory>
    ensures { OnOk result (expanded.new ≡ laid expanded.old (layer_of (option_copied profile.entry))) }
{
    match profile {
        Some(profile) => expanded.lay(&profile.config, &profile.devices),
        None => Ok(()),
    }
}

//! What each project uses of all that counts, summed for all projects at once.
ghost use Rattle.std.specs.Prelude.{◌≡◌, IfOk, map};
ghost use Rattle.row_machine.specs.facts.Whole.{Rise};
ghost use Rattle.row_machine.specs.machine.Rows.{project_names};
ghost use Rattle.size_values.specs.Amounts.{nothing};
ghost use Rattle.row_readings.specs.Loads.{AreSmall};
ghost use Rattle.rules_limits.specs.Sums.{sums_of};

use records::Project;
use row_readings::{Load, Names, place_named};
use size_values::{Amounts, NoMemory};
use std::alloc::Global;

/// A line of nothing for each project.
fn no_sums(alloc: Global, projects: &[Project]) -> Result<Vec<Amounts>, NoMemory>
    ensures { IfOk result (λ sums. sums.items ≡ map (λ p. nothing) projects.now) }
{
    let mut sums = Vec::new(alloc);
    for _project in projects {
        sums.push(Amounts::zero())?;
    }
    Ok(sums)
}

/// What each project uses: its line stands at its place. All loads are walked once, and each is added to the line of its
/// project, which is found by binary search. One of a project that is not there is in no line.
pub(crate) fn sums_of(
    alloc: Global,
    loads: &[Load],
    projects: &[Project],
) -> Result<Vec<Amounts>, NoMemory>
    requires rising { Rise project_names projects.now }
    requires small { AreSmall loads.now }
    ensures { IfOk result (λ sums. sums.items ≡ sums_of loads.now projects.now) }
{
    let mut sums = no_sums(alloc, projects)?;
    for load in loads {
        if let Ok(place) = place_named(projects, Names::One(load.project.view())) {
            let sum = &mut sums[place];
            *sum = sum.plus(&load.amounts);
        }
    }
    Ok(sums)
}

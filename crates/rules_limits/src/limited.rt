//! Projects with their limits, which are read off their settings once.
ghost use Rattle.std.specs.Prelude.{◌≡◌, IfOk};
ghost use Rattle.row_machine.specs.machine.Rows.{project_named};
ghost use Rattle.project_limits.specs.Limits.{limits_of};
ghost use Rattle.rules_limits.specs.AllProjects.{is_any_limited, is_limited, needs_numbers};
ghost use Rattle.rules_limits.specs.Limited.{limits_named};

use crate::parts::{limits_any, limits_sum};
use config_lists::Config;
use project_limits::{Limits, limits_of, limits_pools};
use records::Project;
use row_readings::StateRef;
use size_values::{NoMemory, Text};
use std::alloc::Global;
use std::marker::Model;

/// A project with its limits. All rules on limits that are asked of it read them here.
#[derive(Drop)]
pub struct Limited<'x> {
    project: &'x Project,
    limits: Limits,
}

impl<'x> Model for Limited<'x> {
    ghost use Rattle.records.specs.declared.rows.Project.{Project as ProjectValue};

    ghost Value = { ProjectValue };

    ghost use Rattle.rules_limits.specs.Limited.{project_in, AreItsOwn};

    ghost view = { project_in };

    ghost invariant = { AreItsOwn };
}

impl<'x> Limited<'x> {
    /// The project, whose limits are read here.
    fn of(project: &'x Project) -> Limited<'x>
        ensures { result ≡ project.now }
    {
        let limits = limits_of(&project.config);
        Limited { project, limits }
    }

    /// The project, of which these are the limits.
    fn with(project: &'x Project, limits: Limits) -> Limited<'x>
        requires { limits ≡ limits_of project.now.config }
        ensures { result ≡ project.now }
    {
        Limited { project, limits }
    }

    pub(crate) fn name(&self) -> &'x Text
        ensures { result.now ≡ self.now.name }
    {
        &self.project.name
    }

    pub(crate) fn limits(&self) -> &Limits
        ensures { result.now ≡ limits_of self.now.config }
    {
        &self.limits
    }

    /// Its settings, in which its limits on pools stand.
    pub(crate) fn config(&self) -> &'x Config
        ensures { result.now ≡ self.now.config }
    {
        &self.project.config
    }

    /// Whether it has a limit, on pools too.
    pub fn has_limits(&self) -> bool
        ensures { result ≡ is_limited self.now }
    {
        limits_any(&self.limits) || limits_pools(&self.project.config)
    }

    /// Whether it has a limit for which instances and volumes give numbers.
    pub(crate) fn needs_numbers(&self) -> bool
        ensures { result ≡ needs_numbers self.now }
    {
        limits_sum(&self.limits) || limits_pools(&self.project.config)
    }
}

// ---- one project

/// The limits of the project of this name, if it is there.
pub fn limits_named(view: &StateRef<'_>, name: &str) -> Option<Limits>
    ensures { result ≡ limits_named view.now.projects name.now }
{
    match view.project_named(name) {
        Some(project) => Some(limits_of(&project.config)),
        None => None,
    }
}

/// The project of this name with its limits, which were read before.
pub fn limited_named<'x>(
    view: &StateRef<'x>,
    name: &str,
    limits: Option<Limits>,
) -> Option<Limited<'x>>
    requires { limits ≡ limits_named view.now.projects name.now }
    ensures { result ≡ project_named view.now.projects name.now }
{
    let project = view.project_named(name)?;
    let limits = limits?;
    Some(Limited::with(project, limits))
}

// ---- all projects

/// The projects, each with its limits.
pub fn limited_projects<'x>(
    alloc: Global,
    projects: &'x [Project],
) -> Result<Vec<Limited<'x>>, NoMemory>
    ensures { IfOk result (λ all. all.items ≡ projects.now) }
{
    let mut all = Vec::new(alloc);
    for project in projects {
        all.push(Limited::of(project))?;
    }
    Ok(all)
}

/// Whether one of the projects has a limit.
pub(crate) fn is_any_limited(projects: &[Limited<'_>]) -> bool
    ensures { result ≡ is_any_limited projects.now }
{
    projects.iter().any(|project| project.has_limits())
}

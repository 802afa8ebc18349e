//! The limits of a project by their parts: which are set, and how a refusal tells one.
ghost use Rattle.std.specs.Prelude.{◌≡◌, false};
ghost use Rattle.std.specs.List.{list_any};
ghost use Rattle.std.specs.Option.{option_map_or};
ghost use Rattle.size_values.specs.Amounts.{part};
ghost use Rattle.project_limits.specs.Admission.{key_of, limit_on};
ghost use Rattle.row_machine.specs.machine.LimitRules.{limit_rule, limit_text};
ghost use Rattle.rules_limits.specs.AllProjects.{limits_any, limits_sum, is_limited, is_any_limited};
ghost use Rattle.rules_limits.specs.AllProjects.{is_limited_row, sets_limit};

use project_limits::{LimitKey, Limits, limits_of, limits_pools};
use records::{Project, Row, Rule};
use row_machine::RowChange;
use size_values::{Amounts, Part};

/// The parts of amounts, in the order in which their limits are judged.
pub(crate) const PARTS: [Part; 7] = [
    Part::Instances,
    Part::Containers,
    Part::Machines,
    Part::Cpu,
    Part::Memory,
    Part::Processes,
    Part::Disk,
];

pub(crate) fn part_of(of: Part, amounts: &Amounts) -> u128
    ensures { result ≡ part of amounts.now }
{
    match of {
        Part::Instances => amounts.instances,
        Part::Containers => amounts.containers,
        Part::Machines => amounts.machines,
        Part::Cpu => amounts.cpu,
        Part::Memory => amounts.memory,
        Part::Processes => amounts.processes,
        Part::Disk => amounts.disk,
    }
}

pub(crate) fn limit_on(part: Part, limits: &Limits) -> Option<u64>
    ensures { result ≡ limit_on part limits.now }
{
    match part {
        Part::Instances => limits.instances,
        Part::Containers => limits.containers,
        Part::Machines => limits.machines,
        Part::Cpu => limits.cpu,
        Part::Memory => limits.memory,
        Part::Processes => limits.processes,
        Part::Disk => limits.disk,
    }
}

pub(crate) fn key_of(part: Part) -> LimitKey
    ensures { result ≡ key_of part }
{
    match part {
        Part::Instances => LimitKey::Instances,
        Part::Containers => LimitKey::Containers,
        Part::Machines => LimitKey::Machines,
        Part::Cpu => LimitKey::Cpu,
        Part::Memory => LimitKey::Memory,
        Part::Processes => LimitKey::Processes,
        Part::Disk => LimitKey::Disk,
    }
}

pub(crate) fn limit_rule(key: LimitKey) -> Rule
    ensures { result ≡ limit_rule key }
{
    match key {
        LimitKey::Instances => Rule::L1,
        LimitKey::Containers => Rule::L2,
        LimitKey::Machines => Rule::L3,
        LimitKey::Cpu => Rule::L4,
        LimitKey::Memory => Rule::L5,
        LimitKey::Processes => Rule::L6,
        LimitKey::Disk => Rule::L7,
        LimitKey::Networks => Rule::L8,
        LimitKey::DiskOnPool => Rule::L9,
    }
}

/// The key of a limit; that of a limit on a pool goes on with the pool's name.
pub(crate) fn limit_text(key: LimitKey) -> &'static str
    ensures { result.now ≡ limit_text key }
{
    match key {
        LimitKey::Instances => "limits.instances",
        LimitKey::Containers => "limits.containers",
        LimitKey::Machines => "limits.virtual-machines",
        LimitKey::Cpu => "limits.cpu",
        LimitKey::Memory => "limits.memory",
        LimitKey::Processes => "limits.processes",
        LimitKey::Disk => "limits.disk",
        LimitKey::Networks => "limits.networks",
        LimitKey::DiskOnPool => "limits.disk.pool.",
    }
}

/// Whether one of the sums is limited to which settings of instances and volumes give the numbers.
pub(crate) fn limits_sum(limits: &Limits) -> bool
    ensures { result ≡ limits_sum limits.now }
{
    limits.cpu.is_some()
        || limits.memory.is_some()
        || limits.processes.is_some()
        || limits.disk.is_some()
}

pub(crate) fn limits_any(limits: &Limits) -> bool
    ensures { result ≡ limits_any limits.now }
{
    limits.instances.is_some()
        || limits.containers.is_some()
        || limits.machines.is_some()
        || limits.networks.is_some()
        || limits_sum(limits)
}

/// Whether limits, if they are those of a project, set one. Those on pools are not asked.
pub fn is_limited_by(limits: Option<Limits>) -> bool
    ensures { result ≡ option_map_or limits_any limits false }
{
    match limits {
        Some(limits) => limits_any(&limits),
        None => false,
    }
}

/// Whether a project has a limit, on pools too.
fn is_limited(project: &Project) -> bool
    ensures { result ≡ is_limited project.now }
{
    limits_any(&limits_of(&project.config)) || limits_pools(&project.config)
}

/// Whether one of the projects has a limit. The limits of each are read until one has some.
pub(crate) fn have_limits(projects: &[Project]) -> bool
    ensures { result ≡ is_any_limited projects.now }
{
    projects.iter().any(is_limited)
}

fn is_limited_row(row: &Row) -> bool
    ensures { result ≡ is_limited_row row.now }
{
    match row {
        Row::Project(row) => is_limited(row),
        _ => false,
    }
}

fn sets_limit(change: &RowChange) -> bool
    ensures { result ≡ sets_limit change.now }
{
    match change {
        RowChange::Put(row) => is_limited_row(row),
        RowChange::Remove(_, _) => false,
    }
}

/// Whether one of the changes puts a project with a limit.
pub fn is_any_limit_set(changes: &[RowChange]) -> bool
    ensures { result ≡ list_any sets_limit changes.now }
{
    changes.iter().any(sets_limit)
}

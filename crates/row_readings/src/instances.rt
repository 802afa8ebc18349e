//! What the instances of a project count for.
ghost use Rattle.std.specs.Prelude.{◌≡◌, ◌+◌, ◌≤◌, ◌^◌, IfOk, is_some, if◌then◌else◌};
ghost use Rattle.std.specs.List.{sum_by};
ghost use Rattle.std.specs.Str.{bytes_eq};
ghost use Rattle.size_values.specs.Amounts.{part};
ghost use Rattle.size_values.specs.declared.amounts.Part.{Part};
ghost use Rattle.config_lists.specs.Entries.{replaced};
ghost use Rattle.config_lists.specs.Settings.{setting};
ghost use Rattle.expansion.specs.Layers.{nothing};
ghost use Rattle.project_limits.specs.Instance.{instance_amounts};
ghost use Rattle.row_readings.specs.Counted.{instance_part};
ghost use Rattle.row_readings.specs.Layered.{amounts_over};

use crate::layers::lay_again;
use crate::state_ref::StateRef;
use config_lists::{Config, Devices};
use expansion::Expanded;
use records::Instance;
use size_values::{Amounts, Boxed, NoMemory, Text};
use std::alloc::Global;

/// The amounts with those of the instances of the project.
pub(crate) fn add_instances(
    alloc: Global,
    view: &StateRef<'_>,
    rows: &[Boxed<Instance>],
    project: &str,
    used: Amounts,
) -> Result<Amounts, NoMemory>
    requires { (k : Part) → part k used ≤ 2 ^ 127 }
    ensures sums { IfOk result (λ a. (k : Part)
        → part k a ≡ part k used + sum_by (instance_part view.now project.now k) rows.now) }
    ensures few { IfOk result (λ a. (k : Part) → part k a ≤ part k used + 2 ^ 126) }
{
    let mut expanded = Expanded::new(alloc);
    let sum = add_expanded(alloc, view, rows, project, used, &mut expanded);
    drop(expanded);
    sum
}

/// The same. What the profiles of one instance lay is kept for the next one, which mostly names the same.
fn add_expanded(
    alloc: Global,
    view: &StateRef<'_>,
    rows: &[Boxed<Instance>],
    project: &str,
    used: Amounts,
    expanded: &mut Expanded,
) -> Result<Amounts, NoMemory>
    requires used { (k : Part) → part k used ≤ 2 ^ 127 }
    requires bare { expanded.old ≡ nothing }
    ensures sums { IfOk result (λ a. (k : Part)
        → part k a ≡ part k used + sum_by (instance_part view.now project.now k) rows.now) }
    ensures few { IfOk result (λ a. (k : Part) → part k a ≤ part k used + 2 ^ 126) }
{
    let home = view.profile_home(project);
    let mut last: &[Text] = &[];
    let mut sum = used;
    for row in rows {
        let row: &Instance = row;
        if !is_of(row, project) {
            continue;
        }
        let names = row.profiles.view();
        lay_again(alloc, view, home, last, names, expanded)?;
        last = names;
        let more = amounts_over(row, expanded)?;
        sum = sum.plus(&more);
    }
    Ok(sum)
}

/// Whether an instance is of the project.
fn is_of(row: &Instance, project: &str) -> bool
    ensures { result ≡ bytes_eq row.now.project project.now }
{
    row.project.view() == project
}

/// What an instance counts for over what its profiles lay. Only where it has devices of its own, devices are copied.
fn amounts_over(row: &Instance, below: &Expanded) -> Result<Amounts, NoMemory>
    ensures { IfOk result (λ a. a ≡ amounts_over below.now row.now) }
{
    if row.devices.len() == 0 {
        return Ok(amounts_with(row, &below.config, &below.devices));
    }
    let devices = below.devices.replaced(&row.devices)?;
    let amounts = amounts_with(row, &below.config, &devices);
    drop(devices);
    Ok(amounts)
}

/// What an instance counts for with these devices, and with its own settings over these.
fn amounts_with(row: &Instance, config: &Config, devices: &Devices) -> Amounts
    ensures { result ≡ instance_amounts row.now.kind (replaced config.now row.now.config) devices.now }
{
    let below = project_limits::amounts_of(row.kind, config, devices);
    if row.config.len() == 0 {
        return below;
    }
    let own = project_limits::amounts_of(row.kind, &row.config, devices);
    Amounts {
        cpu: own_or(&row.config, "limits.cpu", own.cpu, below.cpu),
        memory: own_or(&row.config, "limits.memory", own.memory, below.memory),
        processes: own_or(
            &row.config,
            "limits.processes",
            own.processes,
            below.processes,
        ),
        ..below
    }
}

/// The first number if the key is set, and otherwise the second one.
fn own_or(config: &Config, key: &str, own: u128, below: u128) -> u128
    ensures { result ≡ (if is_some (setting config.now key.now) then own else below) }
{
    if config.get(key).is_some() {
        own
    } else {
        below
    }
}

//! Who names a profile, a network, a storage pool or a volume.
ghost use Rattle.std.specs.Prelude.{◌≡◌, IfOk};
ghost use Rattle.std.specs.List.{list_any};
ghost use Rattle.std.specs.Str.{bytes_eq};
ghost use Rattle.row_machine.specs.machine.Holders.{devices_name, instance_uses, names_profile, profile_uses};
ghost use Rattle.row_machine.specs.machine.Holders.{volume_uses};

use config_lists::Devices;
use estate_rules::{names_network, names_pool, names_volume};
use records::{Instance, Profile, Target, Volume};
use row_readings::StateRef;
use size_values::{NoMemory, ObjectKind, Text};
use std::alloc::Global;

fn has_name(names: &[Text], profile: &str) -> bool
    ensures { result ≡ list_any (λ name. bytes_eq name profile.now) names.now }
{
    names.iter().any(|name| name.view() == profile)
}

/// Whether an instance names the profile of this home and name.
pub fn names_profile(view: &StateRef<'_>, home: &str, profile: &str, row: &Instance) -> bool
    ensures { result ≡ names_profile view.now home.now profile.now row.now }
{
    view.profile_home(row.project.view()) == home && has_name(row.profiles.view(), profile)
}

/// Whether devices in a project name the object: a network or volume of this home, or a pool. The
/// devices come first, as they are few, and the home is looked for among all projects.
fn devices_name(
    view: &StateRef<'_>,
    home: &str,
    of: &Target,
    project: &str,
    devices: &Devices,
) -> bool
    ensures { result ≡ devices_name view.now home.now of.now project.now devices.now }
{
    let name = of.name.view();
    match of.kind {
        ObjectKind::Network => names_network(devices, name) && view.network_home(project) == home,
        ObjectKind::Pool => names_pool(devices, name),
        ObjectKind::Volume => names_volume(devices, of.pool.view(), name)
            && view.volume_home(project) == home,
        ObjectKind::Project
        | ObjectKind::Profile
        | ObjectKind::Instance
        | ObjectKind::Snapshot
        | ObjectKind::Operation => false,
    }
}

/// A profile names what its own devices name.
pub fn profile_uses(view: &StateRef<'_>, home: &str, of: &Target, row: &Profile) -> bool
    ensures { result ≡ profile_uses view.now home.now of.now row.now }
{
    devices_name(view, home, of, row.project.view(), &row.devices)
}

/// An instance names what its expanded devices name.
pub fn instance_uses(
    alloc: Global,
    view: &StateRef<'_>,
    home: &str,
    of: &Target,
    row: &Instance,
) -> Result<bool, NoMemory>
    ensures { IfOk result (λ b. b ≡ instance_uses view.now home.now of.now row.now) }
{
    let expanded = view.expansion(alloc, row)?;
    let uses = devices_name(view, home, of, row.project.view(), &expanded.devices);
    drop(expanded);
    Ok(uses)
}

/// A volume names the pool that it stands in.
pub fn volume_uses(of: &Target, row: &Volume) -> bool
    ensures { result ≡ volume_uses of.now row.now }
{
    match of.kind {
        ObjectKind::Pool => row.pool.view() == of.name.view(),
        ObjectKind::Project
        | ObjectKind::Profile
        | ObjectKind::Network
        | ObjectKind::Volume
        | ObjectKind::Instance
        | ObjectKind::Snapshot
        | ObjectKind::Operation => false,
    }
}

use config_lists::Devices;
use expansion::Expanded;
use operations::{OpFault, Operation, Status};
use records::{Instance, Profile, Row, Target, Volume};
use row_machine::Task;
use row_readings::{
    StateRef, claimed_instance, claimed_snapshot, claimed_volume, project_of_row, usage_of,
};
use size_values::{Amounts, Boxed, Deed, Kind, NoMemory, ObjectKind, Seq, Text};
use std::alloc::Global;
use tests_given::{Rows, both, config, device, texts};

/// A setting or a device that the instance has: its own before those of its profiles, and later profiles before earlier
/// ones. The device is empty for a setting of the instance itself; its settings are counted.
const EXPANDED: &[(&str, usize, &str, &str)] = &[
    ("", 0, "limits.cpu", "2"),
    ("", 0, "limits.memory", "2GiB"),
    ("root", 3, "pool", "p0"),
    ("eth0", 1, "type", "none"),
];

/// What a project uses: with the update or without it, how many instances, processors, and GiB of memory and disk.
const USED: &[(bool, &str, u128, u128, u128, u128)] = &[
    (false, "lab", 1, 2, 2, 3),
    (false, "default", 0, 0, 0, 0),
    (true, "lab", 1, 4, 2, 3),
    (true, "default", 0, 0, 0, 0),
];

/// What each of two projects uses: how many instances, processors, and GiB of memory and disk. The shop has an instance
/// like that of the lab with seven processors, two of the profile `base` alone, a volume of 5 GiB, and the claim of one
/// of 4 GiB by an operation of the lab.
const TWO_USED: &[(&str, u128, u128, u128, u128)] = &[
    ("lab", 1, 4, 2, 3),
    ("shop", 3, 9, 3, 11),
    ("default", 0, 0, 0, 0),
];

/// Adds a profile of the project `default` with one device.
fn add_profile(
    alloc: Global,
    profiles: &mut Vec<Boxed<Profile>>,
    name: &str,
    settings: &[(&str, &str)],
    device_name: &str,
    device_settings: &[(&str, &str)],
) -> Result<(), NoMemory> {
    let parts = both(
        config(alloc, settings),
        device(alloc, device_name, device_settings),
    );
    let ((project, name), (config, devices)) = both(texts(alloc, "default", name), parts)?;
    let profile = Profile {
        project,
        name,
        description: Text::new(alloc),
        config,
        devices,
    };
    profiles.push(Boxed::new(alloc, profile)?)?;
    Ok(())
}

/// Adds profiles of the project `default`: one with a root disk of 1 GiB, one with a root disk without size, and one
/// with a network device.
fn add_profiles(alloc: Global, profiles: &mut Vec<Boxed<Profile>>) -> Result<(), NoMemory> {
    let sized = [
        ("type", "disk"),
        ("path", "/"),
        ("pool", "p0"),
        ("size", "1GiB"),
    ];
    let bare = [("type", "disk"), ("path", "/"), ("pool", "p0")];
    let nic = [("type", "nic"), ("network", "n")];
    let settings = [("limits.cpu", "1"), ("limits.memory", "1GiB")];
    add_profile(alloc, profiles, "base", &settings, "root", &sized)?;
    add_profile(
        alloc,
        profiles,
        "more",
        &[("limits.cpu", "2")],
        "root",
        &bare,
    )?;
    add_profile(alloc, profiles, "net", &[], "eth0", &nic)
}

/// The names of four profiles, of which the last is missing.
const PROFILES: [&str; 4] = ["base", "more", "net", "gone"];

fn profile_names(alloc: Global, profiles: &[&str]) -> Result<Seq<Text>, NoMemory> {
    let mut names = Seq::new(alloc);
    for name in profiles {
        names.push(Text::from_text(alloc, name)?)?;
    }
    Ok(names)
}

fn without_network(alloc: Global) -> Result<Devices, NoMemory> {
    device(alloc, "eth0", &[("type", "none")])
}

/// An instance of a project with these profiles, settings and devices.
fn instance_of(
    alloc: Global,
    names: (&str, &str),
    profiles: &[&str],
    settings: &[(&str, &str)],
    devices: Result<Devices, NoMemory>,
) -> Result<Instance, NoMemory> {
    let parts = both(config(alloc, settings), devices);
    let parts = both(profile_names(alloc, profiles), parts);
    let names = texts(alloc, names.0, names.1);
    let ((project, name), (profiles, (config, devices))) = both(names, parts)?;
    Ok(Instance {
        project,
        name,
        kind: Kind::Container,
        ephemeral: false,
        description: Text::new(alloc),
        origin: Text::new(alloc),
        created: 0,
        profiles,
        config,
        devices,
    })
}

/// An instance of the project `lab` with the profiles, and without the device `eth0`.
fn instance(alloc: Global, settings: &[(&str, &str)]) -> Result<Instance, NoMemory> {
    let devices = without_network(alloc);
    instance_of(alloc, ("lab", "a"), &PROFILES, settings, devices)
}

/// Adds an instance of 2 processors and 2 GiB of memory.
fn add_instance(alloc: Global, instances: &mut Vec<Boxed<Instance>>) -> Result<(), NoMemory> {
    let row = instance(alloc, &[("limits.memory", "2GiB")])?;
    instances.push(Boxed::new(alloc, row)?)?;
    Ok(())
}

/// A volume of a project, with this size.
fn volume(alloc: Global, project: &str, size: &str) -> Result<Volume, NoMemory> {
    let sized = both(
        Text::from_text(alloc, "p0"),
        config(alloc, &[("size", size)]),
    );
    let ((project, name), (pool, config)) = both(texts(alloc, project, "v"), sized)?;
    Ok(Volume {
        project,
        pool,
        name,
        description: Text::new(alloc),
        config,
        created: 0,
    })
}

/// Adds a volume of 3 GiB.
fn add_volume(alloc: Global, volumes: &mut Vec<Boxed<Volume>>) -> Result<(), NoMemory> {
    let row = volume(alloc, "lab", "3GiB")?;
    volumes.push(Boxed::new(alloc, row)?)?;
    Ok(())
}

/// The instance `a`.
fn target(alloc: Global) -> Result<Target, NoMemory> {
    let name = Text::from_text(alloc, "a")?;
    Ok(Target {
        kind: ObjectKind::Instance,
        pool: Text::new(alloc),
        instance: Text::new(alloc),
        name,
    })
}

/// The update of the instance to 4 processors and 1 GiB of memory.
fn update(alloc: Global) -> Result<Task, NoMemory> {
    let about = both(Text::from_text(alloc, "lab"), target(alloc));
    let about = both(about, texts(alloc, "lab", "a"));
    let row = instance(alloc, &[("limits.cpu", "4"), ("limits.memory", "1GiB")]);
    let (((project, target), replaces), row) = both(about, Boxed::of(alloc, row))?;
    Ok(Task {
        deed: Deed::Update,
        project,
        target,
        claim: Some(Row::Instance(row)),
        replaces: Some(replaces),
        source: None,
        calls: Seq::new(alloc),
        undo: None,
        done: 0,
    })
}

/// An operation while it runs.
fn running(work: Task) -> Operation<Task> {
    Operation {
        number: 1,
        created: 0,
        updated: 0,
        status: Status::Running,
        may_cancel: false,
        fault: OpFault::None,
        work,
    }
}

fn add_update(alloc: Global, live: &mut Vec<Operation<Task>>) -> Result<(), NoMemory> {
    live.push(running(update(alloc)?))?;
    Ok(())
}

/// Adds the profiles, and the instance and the volume of the project `lab`, and maybe the update.
fn fill(alloc: Global, rows: &mut Rows, updated: bool) -> Result<(), NoMemory> {
    add_profiles(alloc, &mut rows.profiles)?;
    add_instance(alloc, &mut rows.instances)?;
    add_volume(alloc, &mut rows.volumes)?;
    if updated {
        add_update(alloc, &mut rows.live)?;
    }
    Ok(())
}

/// Whether a device has as many settings, this one among them, or the instance itself has the setting.
fn has(expanded: &Expanded, device: &str, len: usize, key: &str, value: &str) -> bool {
    if device.is_empty() {
        return expanded.config.has(key, value);
    }
    match expanded.devices.get(device) {
        Some(found) => found.len() == len && found.has(key, value),
        None => false,
    }
}

/// The same of the first instance.
fn first_has(
    alloc: Global,
    view: &StateRef<'_>,
    device: &str,
    len: usize,
    key: &str,
    value: &str,
) -> bool {
    let Some(row) = view.instances.first() else {
        return false;
    };
    match view.expansion(alloc, row) {
        Ok(expanded) => {
            let right = has(&expanded, device, len, key, value);
            drop(expanded);
            right
        }
        Err(_) => false,
    }
}

fn expands(alloc: Global, device: &str, len: usize, key: &str, value: &str) -> bool {
    let mut rows = Rows::empty(alloc);
    let filled = fill(alloc, &mut rows, false);
    let right = filled.is_ok() && first_has(alloc, &rows.view(), device, len, key, value);
    drop(rows);
    right
}

#[test]
fn the_own_settings_go_before_the_profiles(rt: HostRuntime) {
    for (device, len, key, value) in EXPANDED {
        assert!(rt;
            expands(rt.alloc(), device, *len, key, value),
            "{device} {key}"
        );
    }
}

/// Amounts of containers, processors, and GiB of memory and disk.
fn amounts(containers: u128, cpu: u128, memory: u128, disk: u128) -> Amounts {
    Amounts {
        instances: containers,
        containers,
        machines: 0,
        cpu,
        memory,
        processes: 0,
        disk,
    }
}

/// Whether a project uses these amounts.
fn uses(alloc: Global, view: &StateRef<'_>, project: &str, used: &Amounts) -> bool {
    view.usage(alloc, project) == Ok(*used)
}

fn lab_uses(alloc: Global, updated: bool, project: &str, used: &Amounts) -> bool {
    let mut rows = Rows::empty(alloc);
    let filled = fill(alloc, &mut rows, updated);
    let right = filled.is_ok() && uses(alloc, &rows.view(), project, used);
    drop(rows);
    right
}

/// The update holds two processors above the two that the instance has, and no memory.
#[test]
fn an_update_holds_what_it_adds(rt: HostRuntime) {
    for (updated, project, containers, cpu, memory, disk) in USED {
        let used = amounts(*containers, *cpu, *memory << 30, *disk << 30);
        assert!(rt;
            lab_uses(rt.alloc(), *updated, project, &used),
            "{project} {cpu}"
        );
    }
}

/// Adds the instances of the project `shop`, which name different profiles.
fn add_shop_instances(alloc: Global, instances: &mut Vec<Boxed<Instance>>) -> Result<(), NoMemory> {
    let settings = [("limits.cpu", "7")];
    let devices = without_network(alloc);
    let row = instance_of(alloc, ("shop", "a"), &PROFILES, &settings, devices)?;
    instances.push(Boxed::new(alloc, row)?)?;
    for name in ["b", "c"] {
        let devices = Ok(Devices::new(alloc));
        let row = instance_of(alloc, ("shop", name), &["base"], &[], devices)?;
        instances.push(Boxed::new(alloc, row)?)?;
    }
    Ok(())
}

/// The creation of a volume of the project `shop`, by an operation of the project `lab`.
fn creation(alloc: Global) -> Result<Task, NoMemory> {
    let about = both(Text::from_text(alloc, "lab"), target(alloc));
    let row = volume(alloc, "shop", "4GiB");
    let ((project, target), row) = both(about, Boxed::of(alloc, row))?;
    Ok(Task {
        deed: Deed::CopyVolume,
        project,
        target,
        claim: Some(Row::Volume(row)),
        replaces: None,
        source: None,
        calls: Seq::new(alloc),
        undo: None,
        done: 0,
    })
}

fn add_creation(alloc: Global, live: &mut Vec<Operation<Task>>) -> Result<(), NoMemory> {
    live.push(running(creation(alloc)?))?;
    Ok(())
}

/// Adds what there is in the project `shop`.
fn fill_shop(alloc: Global, rows: &mut Rows) -> Result<(), NoMemory> {
    add_shop_instances(alloc, &mut rows.instances)?;
    let row = volume(alloc, "shop", "5GiB")?;
    rows.volumes.push(Boxed::new(alloc, row)?)?;
    add_creation(alloc, &mut rows.live)
}

/// Whether a project uses these amounts, by either way to sum them.
fn both_sum_to(alloc: Global, view: &StateRef<'_>, project: &str, used: &Amounts) -> bool {
    usage_of(alloc, view, project) == Ok(*used) && uses(alloc, view, project, used)
}

fn one_of_two_uses(alloc: Global, project: &str, used: &Amounts) -> bool {
    let mut rows = Rows::empty(alloc);
    let filled = fill(alloc, &mut rows, true).is_ok() && fill_shop(alloc, &mut rows).is_ok();
    let right = filled && both_sum_to(alloc, &rows.view(), project, used);
    drop(rows);
    right
}

/// Each project uses what its own rows count for, and the claims of its own rows.
#[test]
fn each_project_uses_its_own(rt: HostRuntime) {
    for (project, containers, cpu, memory, disk) in TWO_USED {
        let used = amounts(*containers, *cpu, *memory << 30, *disk << 30);
        assert!(rt;
            one_of_two_uses(rt.alloc(), project, &used),
            "{project} {cpu}"
        );
    }
}

/// Whether each row is found by its names, and none by other ones.
fn finds_rows(view: &StateRef<'_>) -> bool {
    view.profile_named("default", "more").is_some()
        && view.profile_named("lab", "more").is_none()
        && view.volume_named("lab", "p0", "v").is_some()
        && view.volume_named("lab", "p1", "v").is_none()
        && view.instance_named("lab", "a").is_some()
        && view.instance_named("lab", "b").is_none()
        && view.project_named("lab").is_none()
        && view.network_named("default", "n").is_none()
        && view.pool_named("p0").is_none()
        && view.snapshot_named("lab", "a", "s").is_none()
}

/// Whether a project that is missing has its profiles, networks and volumes in the project `default`.
fn finds_homes(view: &StateRef<'_>) -> bool {
    view.profile_home("lab") == "default"
        && view.network_home("lab") == "default"
        && view.volume_home("lab") == "default"
}

/// Whether an operation claims an instance of the project `lab`, and nothing else.
fn claims_instance(work: &Task) -> bool {
    let project = match &work.claim {
        Some(row) => project_of_row(row),
        None => "",
    };
    project == "lab"
        && claimed_instance(work).is_some()
        && claimed_volume(work).is_none()
        && claimed_snapshot(work).is_none()
}

fn first_claims(view: &StateRef<'_>) -> bool {
    match view.live.first() {
        Some(operation) => claims_instance(&operation.work),
        None => false,
    }
}

fn is_found(view: &StateRef<'_>) -> bool {
    finds_rows(view) && finds_homes(view) && first_claims(view)
}

/// Whether the rows and the claim of the lab are found.
fn lab_is_found(alloc: Global) -> bool {
    let mut rows = Rows::empty(alloc);
    let filled = fill(alloc, &mut rows, true);
    let found = filled.is_ok() && is_found(&rows.view());
    drop(rows);
    found
}

#[test]
fn rows_and_claims_are_found(rt: HostRuntime) {
    assert!(rt; lab_is_found(rt.alloc()));
}

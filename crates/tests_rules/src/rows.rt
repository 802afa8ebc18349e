//! Rows of a server for tests. Where memory is refused, a text is empty or a row is missing.
use config_lists::{Config, Devices};
use records::{Instance, Profile, Project, Snapshot, Volume};
use reservations::Books;
use row_readings::StateRef;
use size_values::{Amounts, Boxed, Kind, Seq, Text};
use std::alloc::Global;
use tests_given::in_order;

/// Keys and values.
pub(crate) type Settings = &'static [(&'static str, &'static str)];

pub(crate) fn text(alloc: Global, from: &str) -> Text {
    match Text::from_text(alloc, from) {
        Ok(text) => text,
        Err(_) => Text::new(alloc),
    }
}

pub(crate) fn config(alloc: Global, settings: Settings) -> Config {
    let mut config = Config::new(alloc);
    for (key, value) in settings {
        if !key.is_empty() && !value.is_empty() {
            let _ = config.set(key, value);
        }
    }
    config
}

fn names(alloc: Global, list: &[&str]) -> Seq<Text> {
    let mut names = Seq::new(alloc);
    for name in list {
        let _ = names.push(text(alloc, name));
    }
    names
}

/// The rows of a server, which lend a view.
#[derive(Drop)]
pub(crate) struct Rows {
    projects: Vec<Project>,
    profiles: Vec<Boxed<Profile>>,
    volumes: Vec<Boxed<Volume>>,
    instances: Vec<Boxed<Instance>>,
    snapshots: Vec<Boxed<Snapshot>>,
}

fn add<T: Drop>(rows: &mut Vec<T>, row: T) {
    let _ = rows.push(row);
}

fn add_boxed<T: Drop>(alloc: Global, rows: &mut Vec<Boxed<T>>, row: T) {
    if let Ok(row) = Boxed::new(alloc, row) {
        add(rows, row);
    }
}

fn project(alloc: Global, name: &str, settings: Settings) -> Project {
    Project {
        name: text(alloc, name),
        description: Text::new(alloc),
        config: config(alloc, settings),
    }
}

fn base_profile(alloc: Global) -> Profile {
    Profile {
        project: text(alloc, "default"),
        name: text(alloc, "base"),
        description: Text::new(alloc),
        config: config(alloc, &[("limits.cpu", "2"), ("user.a", "0")]),
        devices: Devices::new(alloc),
    }
}

fn volume(alloc: Global, project: &str, size: Settings) -> Volume {
    Volume {
        project: text(alloc, project),
        pool: text(alloc, "p0"),
        name: text(alloc, "v1"),
        description: Text::new(alloc),
        config: config(alloc, size),
        created: 1,
    }
}

fn instance(alloc: Global, name: &str, ephemeral: bool, profiles: &[&str]) -> Instance {
    Instance {
        project: text(alloc, "default"),
        name: text(alloc, name),
        kind: Kind::Machine,
        ephemeral,
        description: text(alloc, "old"),
        origin: text(alloc, "image"),
        created: 1,
        profiles: names(alloc, profiles),
        config: config(alloc, &[("limits.memory", "1GiB"), ("user.a", "1")]),
        devices: Devices::new(alloc),
    }
}

fn snapshot(alloc: Global) -> Snapshot {
    Snapshot {
        project: text(alloc, "default"),
        instance: text(alloc, "c1"),
        name: text(alloc, "snap0"),
        created: 1,
        expires: 0,
        profiles: Seq::new(alloc),
        config: config(alloc, &[("limits.memory", "512MiB")]),
        devices: Devices::new(alloc),
    }
}

impl Rows {
    /// The projects `default`, `lab`, whose volumes belong to `default`, and `own`, which has volumes of its own; the
    /// profile `base`, the volume `v1` of `default` and of `own`, the instance `c1` with the profile and the snapshot
    /// `snap0`, and the ephemeral instance `e1`.
    pub(crate) fn filled(alloc: Global) -> Rows {
        let mut rows = Rows {
            projects: Vec::new(alloc),
            profiles: Vec::new(alloc),
            volumes: Vec::new(alloc),
            instances: Vec::new(alloc),
            snapshots: Vec::new(alloc),
        };
        rows.add_projects(alloc);
        rows.add_volumes(alloc);
        rows.add_instances(alloc);
        rows
    }

    fn add_projects(&mut self, alloc: Global) {
        add(&mut self.projects, project(alloc, "default", &[]));
        add(&mut self.projects, project(alloc, "lab", &[]));
        let features = &[("features.storage.volumes", "true")];
        add(&mut self.projects, project(alloc, "own", features));
    }

    fn add_volumes(&mut self, alloc: Global) {
        add_boxed(
            alloc,
            &mut self.volumes,
            volume(alloc, "default", &[("size", "1GiB")]),
        );
        add_boxed(
            alloc,
            &mut self.volumes,
            volume(alloc, "own", &[("size", "3GiB")]),
        );
    }

    fn add_instances(&mut self, alloc: Global) {
        add_boxed(alloc, &mut self.profiles, base_profile(alloc));
        add_boxed(
            alloc,
            &mut self.instances,
            instance(alloc, "c1", false, &["base"]),
        );
        add_boxed(alloc, &mut self.instances, instance(alloc, "e1", true, &[]));
        add_boxed(alloc, &mut self.snapshots, snapshot(alloc));
    }

    pub(crate) fn view(&self) -> StateRef<'_> {
        StateRef {
            projects: in_order(&self.projects),
            profiles: in_order(&self.profiles),
            networks: &[],
            pools: &[],
            volumes: in_order(&self.volumes),
            instances: in_order(&self.instances),
            snapshots: in_order(&self.snapshots),
            powers: &[],
            live: &[],
            ended: &[],
            next: 1,
            held: &[],
            books: Books {
                granted: Amounts::zero(),
                converted: Amounts::zero(),
                returned: Amounts::zero(),
                pool_granted: 0,
                pool_converted: 0,
                pool_returned: 0,
            },
            closed: false,
        }
    }
}

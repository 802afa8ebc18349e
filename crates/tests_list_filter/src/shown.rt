//! An object of each kind, as a reply shows it.
use config_lists::{Config, Devices};
use records::{
    Driver, Instance, Network, OpFault, OpView, Pool, Profile, Project, Snapshot, Status, Target,
    View, Volume,
};
use rest_json::{Dialect, Terms};
use size_values::{Kind, NoMemory, ObjectKind, Power, Seq, Text};
use std::alloc::Global;
use tests_given::{both, config, device, texts};

/// The kinds of objects, and what else is shown.
#[derive(Clone, Copy)]
pub enum What {
    Server,
    Project,
    Profile,
    Network,
    Pool,
    Volume,
    Container,
    Machine,
    Snapshot,
    KeptSnapshot,
    Power,
    Usage,
    Operation,
}

/// The boot word 0.
pub fn terms(dialect: Dialect) -> Terms {
    Terms {
        boot: 0,
        dialect,
        refuses_origin: false,
    }
}

/// The first second of the last day of January 2024.
const CREATED: u64 = 1_706_659_200;

fn settings(alloc: Global) -> Result<Config, NoMemory> {
    config(alloc, &[("user.x", "1"), ("user.x.y", "2")])
}

fn root(alloc: Global) -> Result<Devices, NoMemory> {
    device(alloc, "root", &[("type", "disk")])
}

/// What most objects have: the project and a name, a description and settings.
fn parts(
    alloc: Global,
    name: &str,
    description: &str,
) -> Result<((Text, Text), (Text, Config)), NoMemory> {
    let texts_told = texts(alloc, "p", name);
    let others = both(Text::from_text(alloc, description), settings(alloc));
    both(texts_told, others)
}

fn project_view(alloc: Global) -> Result<View, NoMemory> {
    let ((name, description), config) = both(texts(alloc, "p", "a project"), settings(alloc))?;
    let project = Project {
        name,
        description,
        config,
    };
    Ok(View::Project(project, Seq::new(alloc)))
}

fn profile_view(alloc: Global) -> Result<View, NoMemory> {
    let told = both(parts(alloc, "f", "a profile"), root(alloc))?;
    let (((project, name), (description, config)), devices) = told;
    let profile = Profile {
        project,
        name,
        description,
        config,
        devices,
    };
    Ok(View::Profile(profile, Seq::new(alloc)))
}

fn network_view(alloc: Global) -> Result<View, NoMemory> {
    let ((project, name), (description, config)) = parts(alloc, "n", "")?;
    let network = Network {
        project,
        name,
        description,
        config,
    };
    Ok(View::Network(network, Seq::new(alloc)))
}

fn pool_view(alloc: Global) -> Result<View, NoMemory> {
    let ((name, description), config) = both(texts(alloc, "o", "a pool"), settings(alloc))?;
    let pool = Pool {
        name,
        driver: Driver::Zfs,
        description,
        config,
    };
    Ok(View::Pool(pool, Seq::new(alloc)))
}

fn volume_view(alloc: Global) -> Result<View, NoMemory> {
    let told = both(parts(alloc, "v", "a volume"), Text::from_text(alloc, "o"))?;
    let (((project, name), (description, config)), pool) = told;
    let volume = Volume {
        project,
        pool,
        name,
        description,
        config,
        created: CREATED,
    };
    Ok(View::Volume(volume, Seq::new(alloc)))
}

fn instance(alloc: Global, kind: Kind) -> Result<Instance, NoMemory> {
    let told = both(parts(alloc, "i", "an instance"), root(alloc))?;
    let (((project, name), (description, config)), devices) = told;
    Ok(Instance {
        project,
        name,
        kind,
        ephemeral: true,
        description,
        origin: Text::new(alloc),
        created: CREATED,
        profiles: Seq::new(alloc),
        config,
        devices,
    })
}

fn expanded(alloc: Global) -> Result<Config, NoMemory> {
    config(alloc, &[("user.x", "1"), ("user.z", "3")])
}

fn instance_view(alloc: Global, kind: Kind, power: Power) -> Result<View, NoMemory> {
    let (row, (config, devices)) = both(instance(alloc, kind), both(expanded(alloc), root(alloc)))?;
    Ok(View::Instance {
        row,
        config,
        devices,
        power,
    })
}

fn snapshot_view(alloc: Global, expires: u64) -> Result<View, NoMemory> {
    // A snapshot has its instance, and no description.
    let told = both(parts(alloc, "s", "i"), root(alloc))?;
    let (((project, name), (instance, config)), devices) = told;
    let snapshot = Snapshot {
        project,
        instance,
        name,
        created: CREATED,
        expires,
        profiles: Seq::new(alloc),
        config,
        devices,
    };
    Ok(View::Snapshot(snapshot))
}

fn operation_view(alloc: Global) -> Result<View, NoMemory> {
    let (project, name) = texts(alloc, "p", "i")?;
    let target = Target {
        kind: ObjectKind::Instance,
        pool: Text::new(alloc),
        instance: Text::new(alloc),
        name,
    };
    Ok(View::Op(OpView {
        number: 1,
        status: Status::Running,
        may_cancel: true,
        created: CREATED,
        updated: CREATED + 1,
        fault: OpFault::None,
        project,
        target,
    }))
}

/// An object of this kind.
pub fn view_of(alloc: Global, what: What) -> Result<View, NoMemory> {
    match what {
        What::Server => Ok(View::Server),
        What::Project => project_view(alloc),
        What::Profile => profile_view(alloc),
        What::Network => network_view(alloc),
        What::Pool => pool_view(alloc),
        What::Volume => volume_view(alloc),
        What::Container => instance_view(alloc, Kind::Container, Power::Running),
        What::Machine => instance_view(alloc, Kind::Machine, Power::Stopped),
        What::Snapshot => snapshot_view(alloc, 0),
        What::KeptSnapshot => snapshot_view(alloc, CREATED),
        What::Power => Ok(View::Power(Power::Frozen)),
        What::Usage => Ok(View::Usage(Seq::new(alloc))),
        What::Operation => operation_view(alloc),
    }
}

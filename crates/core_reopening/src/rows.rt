//! What the rows of each kind have by their types: functions that do nothing but look.
ghost use Rattle.plain_lists.specs.Members.{Each};
ghost use Rattle.records.specs.declared.rows.Instance.{Instance as InstanceValue};
ghost use Rattle.records.specs.declared.rows.Network.{Network as NetworkValue};
ghost use Rattle.records.specs.declared.rows.Pool.{Pool as PoolValue};
ghost use Rattle.records.specs.declared.rows.Profile.{Profile as ProfileValue};
ghost use Rattle.records.specs.declared.rows.Project.{Project as ProjectValue};
ghost use Rattle.records.specs.declared.rows.Row.TheVariants as row_of;
ghost use Rattle.records.specs.declared.rows.Snapshot.{Snapshot as SnapshotValue};
ghost use Rattle.records.specs.declared.rows.Volume.{Volume as VolumeValue};
ghost use Rattle.row_codec.specs.Rows.{HasTypedParts};

use crate::parts::{devices_are_typed, settings_are_typed, text_is_utf8, texts_are_utf8};
use records::{Instance, Network, Pool, Profile, Project, Snapshot, Volume};
use size_values::Boxed;

fn project_is_typed(project: &Project)
    ensures { HasTypedParts (row_of.Project project.now) }
{
    text_is_utf8(&project.description);
    settings_are_typed(&project.config);
}

fn profile_is_typed(profile: &Profile)
    ensures { HasTypedParts (row_of.Profile profile.now) }
{
    text_is_utf8(&profile.description);
    settings_are_typed(&profile.config);
    devices_are_typed(&profile.devices);
}

fn network_is_typed(network: &Network)
    ensures { HasTypedParts (row_of.Network network.now) }
{
    text_is_utf8(&network.description);
    settings_are_typed(&network.config);
}

fn pool_is_typed(pool: &Pool)
    ensures { HasTypedParts (row_of.Pool pool.now) }
{
    text_is_utf8(&pool.description);
    settings_are_typed(&pool.config);
}

fn volume_is_typed(volume: &Volume)
    ensures { HasTypedParts (row_of.Volume volume.now) }
{
    text_is_utf8(&volume.description);
    settings_are_typed(&volume.config);
}

fn instance_is_typed(instance: &Instance)
    ensures { HasTypedParts (row_of.Instance instance.now) }
{
    text_is_utf8(&instance.description);
    text_is_utf8(&instance.origin);
    texts_are_utf8(&instance.profiles);
    settings_are_typed(&instance.config);
    devices_are_typed(&instance.devices);
}

fn snapshot_is_typed(snapshot: &Snapshot)
    ensures { HasTypedParts (row_of.Snapshot snapshot.now) }
{
    texts_are_utf8(&snapshot.profiles);
    settings_are_typed(&snapshot.config);
    devices_are_typed(&snapshot.devices);
}

pub(crate) fn projects_are_typed(projects: &[Project])
    ensures { Each (λ (r : ProjectValue). HasTypedParts (row_of.Project r)) projects.now }
{
    for project in projects {
        project_is_typed(project);
    }
}

pub(crate) fn profiles_are_typed(profiles: &[Boxed<Profile>])
    ensures { Each (λ (r : ProfileValue). HasTypedParts (row_of.Profile r)) profiles.now }
{
    for profile in profiles {
        profile_is_typed(profile);
    }
}

pub(crate) fn networks_are_typed(networks: &[Network])
    ensures { Each (λ (r : NetworkValue). HasTypedParts (row_of.Network r)) networks.now }
{
    for network in networks {
        network_is_typed(network);
    }
}

pub(crate) fn pools_are_typed(pools: &[Pool])
    ensures { Each (λ (r : PoolValue). HasTypedParts (row_of.Pool r)) pools.now }
{
    for pool in pools {
        pool_is_typed(pool);
    }
}

pub(crate) fn volumes_are_typed(volumes: &[Boxed<Volume>])
    ensures { Each (λ (r : VolumeValue). HasTypedParts (row_of.Volume r)) volumes.now }
{
    for volume in volumes {
        volume_is_typed(volume);
    }
}

pub(crate) fn instances_are_typed(instances: &[Boxed<Instance>])
    ensures { Each (λ (r : InstanceValue). HasTypedParts (row_of.Instance r)) instances.now }
{
    for instance in instances {
        instance_is_typed(instance);
    }
}

pub(crate) fn snapshots_are_typed(snapshots: &[Boxed<Snapshot>])
    ensures { Each (λ (r : SnapshotValue). HasTypedParts (row_of.Snapshot r)) snapshots.now }
{
    for snapshot in snapshots {
        snapshot_is_typed(snapshot);
    }
}

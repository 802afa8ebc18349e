ghost use Rattle.std.specs.Prelude.{◌≡◌};
ghost use Rattle.config_lists.specs.Devices.{is_root_disk};

use crate::config::Device;

/// Which device is the root disk of an instance, by its place among the devices.
#[derive(Clone, Copy, PartialEq, Eq)]
pub enum Root {
    None,
    One(usize),
    Several,
}

impl Root {
    ghost use Rattle.config_lists.specs.Devices.{and_one};

    /// With one more root disk, after those that were found before.
    pub(crate) fn and_one(self, place: usize) -> Root
        ensures { result ≡ and_one self place }
    {
        match self {
            Root::None => Root::One(place),
            Root::One(_) | Root::Several => Root::Several,
        }
    }
}

/// Whether a device is a root disk: a disk at `/` with a pool and without a source.
#[tactic(auto, unfolding(crate::specs::Devices::is_root_disk))]
pub fn is_root_disk(device: &Device) -> bool
    ensures { result ≡ is_root_disk device.now }
{
    device.has("type", "disk")
        && device.has("path", "/")
        && device.get("pool").is_some()
        && device.get("source").is_none()
}

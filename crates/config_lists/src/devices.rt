ghost use Rattle.std.specs.Prelude.{◌≡◌, ◌<◌, [], length, slice_get, is_some, IfOk, OnOk, OnErr, IsTrue};
ghost use Rattle.std.specs.Option.{option_copied};
ghost use Rattle.std.specs.Map.{keys_of, values_of};
ghost use Rattle.config_lists.specs.Entries.{put, without, replaced, KeysRise};
ghost use Rattle.config_lists.specs.Devices.{device, root_of, IsDevices};

use crate::config::Device;
use crate::root::{Root, is_root_disk};
use crate::sorted::Sorted;
use size_values::NoMemory;
use std::alloc::Global;
use std::marker::Model;

/// Devices under names that rise by their bytes. Contracts see the list of names and devices, and read it
/// by `device`. It keeps the allocator that it was made with.
#[derive(Drop)]
pub struct Devices {
    devices: Sorted<Device>,
}

impl Model for Devices {
    ghost use Rattle.std.specs.Prelude.{List, ℕ};

    ghost Value = { List (List ℕ × List (List ℕ × List ℕ)) };

    ghost view = { λ d. d.devices };
}

impl Devices {
    /// No devices. It takes no memory.
    pub fn new(alloc: Global) -> Devices
        ensures { result ≡ [] }
    {
        Devices {
            devices: Sorted::new(alloc),
        }
    }

    /// The device of this name, or `None` where there is none.
    pub fn get(&self, name: &str) -> Option<&Device>
        ensures { option_copied result ≡ device self.now name.now }
    {
        self.devices.get(name)
    }

    /// Puts a device under its name, in place of the old one if there is one. Where memory is refused, the
    /// devices are as before.
    pub fn put(&mut self, name: &str, device: Device) -> Result<(), NoMemory>
        ensures ok { OnOk result (self.new ≡ put self.old name.now device) }
        ensures err { OnErr result (self.new ≡ self.old) }
    {
        self.devices.put(name, device)
    }

    /// Removes the device of a name, and answers whether there was one.
    pub fn remove(&mut self, name: &str) -> bool
        ensures after { self.new ≡ without self.old name.now }
        ensures found { result ≡ is_some (device self.old name.now) }
    {
        self.devices.remove(name)
    }

    /// How many devices there are.
    pub fn len(&self) -> usize
        ensures len { result ≡ length self.now }
        ensures devices { IsDevices self.now }
    {
        self.devices.len()
    }

    /// The name at a place, counted from 0 in the order of the names.
    pub fn name_at(&self, place: usize) -> &str
        requires { place < length self.now }
        ensures { slice_get (keys_of self.now) place ≡ Some result.now }
    {
        self.devices.key_at(place)
    }

    /// The device at a place below the length, in the order of names.
    pub fn device_at(&self, place: usize) -> &Device
        requires { place < length self.now }
        ensures { slice_get (values_of self.now) place ≡ Some result.now }
    {
        self.devices.value_at(place)
    }

    /// No devices, with memory from where these take theirs.
    fn empty_like(&self) -> Devices
        ensures { result ≡ [] }
    {
        Devices {
            devices: self.devices.empty_like(),
        }
    }

    /// Devices of its own with the same names and settings.
    pub fn copy(&self) -> Result<Devices, NoMemory>
        ensures { IfOk result (λ d. d ≡ self.now) }
    {
        let mut copy = self.empty_like();
        copy.put_each(self)?;
        Ok(copy)
    }

    /// The devices with each device of `by` in place of the one of its name, whole.
    pub fn replaced(&self, by: &Devices) -> Result<Devices, NoMemory>
        ensures { IfOk result (λ d. d ≡ replaced self.now by.now) }
    {
        let mut devices = self.copy()?;
        devices.put_each(by)?;
        Ok(devices)
    }

    fn put_each(&mut self, by: &Devices) -> Result<(), NoMemory>
        ensures after { OnOk result (self.new ≡ replaced self.old by.now) }
        ensures rising { KeysRise by.now }
    {
        for place in 0..by.len() {
            let name = by.name_at(place);
            let device = by.device_at(place).copy()?;
            self.put(name, device)?;
        }
        Ok(())
    }

    /// The one root disk: a device of type `disk` at `/` with a pool and without a source.
    pub fn root(&self) -> Root
        ensures { result ≡ root_of self.now }
    {
        let mut root = Root::None;
        for place in 0..self.len() {
            if is_root_disk(self.device_at(place)) {
                root = root.and_one(place);
            }
        }
        root
    }
}

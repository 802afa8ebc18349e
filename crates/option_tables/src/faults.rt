use size_values::ValueFault;

/// The first setting or device that a table refuses. A place counts from 0 in the order of the keys, or of
/// the names of devices.
#[derive(Clone, Copy, PartialEq, Eq)]
pub enum SettingFault {
    /// The key at this place is in no line of the table.
    Unknown(usize),
    /// The value of the key at this place has not the form of its key.
    Bad(usize, ValueFault),
    /// The device at this place has a fault.
    Device(usize, DeviceFault),
}

/// Why a device is refused, answered in this order; but the first faulty key decides between an unknown key
/// and a bad value. A place counts the device's keys.
#[derive(Clone, Copy, PartialEq, Eq)]
pub enum DeviceFault {
    /// The name has not 1 to 64 bytes of letters, digits, `-`, `_`, `.`, `:` and `/`.
    BadName,
    NoType,
    UnknownType,
    UnknownKey(usize),
    BadValue(usize, ValueFault),
    /// A nic has not exactly one of `network` and `nictype`.
    NicSource,
    /// A disk at `/` has no `pool` or has a `source`, or a disk elsewhere has no `source`.
    DiskShape,
}

/// The first key that a table refuses.
#[derive(Clone, Copy, PartialEq, Eq)]
pub enum KeyFault {
    Unknown(usize),
    Bad(usize, ValueFault),
}

impl From<KeyFault> for SettingFault {
    ghost use Rattle.std.specs.Prelude.{◌≡◌};
    ghost use Rattle.option_tables.specs.Faults.{setting_fault};

    ghost from_gives = { λ fault made. made ≡ setting_fault fault };

    fn from(fault: KeyFault) -> Self {
        match fault {
            KeyFault::Unknown(place) => SettingFault::Unknown(place),
            KeyFault::Bad(place, why) => SettingFault::Bad(place, why),
        }
    }
}

impl From<KeyFault> for DeviceFault {
    ghost use Rattle.std.specs.Prelude.{◌≡◌};
    ghost use Rattle.option_tables.specs.Faults.{key_fault};

    ghost from_gives = { λ fault made. made ≡ key_fault fault };

    fn from(fault: KeyFault) -> Self {
        match fault {
            KeyFault::Unknown(place) => DeviceFault::UnknownKey(place),
            KeyFault::Bad(place, why) => DeviceFault::BadValue(place, why),
        }
    }
}

ghost use Rattle.std.specs.Prelude.{◌≡◌};
ghost use Rattle.restrictions.specs.Words.{word_named, is_word, is_judged};
ghost use Rattle.restrictions.specs.Forbids.{is_against, demands, is_meant};

use crate::policy::is_true;
use config_lists::{Device, is_root_disk};

/// What a restriction says.
#[derive(Clone, Copy, PartialEq, Eq)]
pub enum Word {
    Block,
    Allow,
    Managed,
    Unprivileged,
    Isolated,
    Full,
}

/// What is judged: the settings of a profile by themselves, or what an instance of that kind has in all.
#[derive(Clone, Copy, PartialEq, Eq)]
pub enum Subject {
    Profile,
    Container,
    Machine,
}

/// The restrictions on settings and devices.
#[derive(Clone, Copy, PartialEq, Eq)]
pub enum Restriction {
    Nesting,
    Privilege,
    ContainerLow,
    MachineLow,
    Interception,
    Disk,
    Nic,
    Gpu,
    Proxy,
    UnixBlock,
    UnixChar,
    Usb,
}

/// Which subjects a line is for.
#[derive(Clone, Copy, PartialEq, Eq)]
pub enum Judged {
    /// Containers and profiles.
    Containers,
    ContainersAlone,
    /// Virtual machines and profiles.
    Machines,
    MachinesAlone,
}

/// What a line is against in a setting.
#[derive(Clone, Copy, PartialEq, Eq)]
pub enum Against {
    /// Any value.
    Any,
    /// A value that reads as true.
    True,
    /// A value that does not, and the key's absence.
    NotTrue,
}

/// Which devices of its type a line is against.
#[derive(Clone, Copy, PartialEq, Eq)]
pub enum Which {
    Any,
    /// Those without `pool`.
    WithoutPool,
    /// Those that have not the form of a root disk.
    NotRoot,
    /// Those without `network`.
    WithoutNetwork,
}

/// The number of the rule, the subjects, the restriction and the word under which it is forbidden, the key, and the
/// values. A key that ends in `*` stands for every longer key that begins alike.
pub type SettingLine = (u8, Judged, Restriction, Word, &'static str, Against);

/// The number of the rule, the restriction and the word under which it is forbidden, the type, and which devices.
pub type DeviceLine = (u8, Restriction, Word, &'static str, Which);

/// What the restrictions forbid in settings. Rules rise.
pub const SETTINGS: &[SettingLine] = &[
    (
        1,
        Judged::Containers,
        Restriction::Nesting,
        Word::Block,
        "security.nesting",
        Against::True,
    ),
    (
        2,
        Judged::Containers,
        Restriction::Privilege,
        Word::Unprivileged,
        "security.privileged",
        Against::True,
    ),
    (
        2,
        Judged::Containers,
        Restriction::Privilege,
        Word::Isolated,
        "security.privileged",
        Against::True,
    ),
    (
        2,
        Judged::ContainersAlone,
        Restriction::Privilege,
        Word::Isolated,
        "security.idmap.isolated",
        Against::NotTrue,
    ),
    (
        3,
        Judged::Containers,
        Restriction::ContainerLow,
        Word::Block,
        "linux.kernel_modules",
        Against::Any,
    ),
    (
        3,
        Judged::Containers,
        Restriction::ContainerLow,
        Word::Block,
        "raw.apparmor",
        Against::Any,
    ),
    (
        3,
        Judged::Containers,
        Restriction::ContainerLow,
        Word::Block,
        "raw.idmap",
        Against::Any,
    ),
    (
        3,
        Judged::Containers,
        Restriction::ContainerLow,
        Word::Block,
        "raw.lxc",
        Against::Any,
    ),
    (
        3,
        Judged::Containers,
        Restriction::ContainerLow,
        Word::Block,
        "raw.seccomp",
        Against::Any,
    ),
    (
        4,
        Judged::Machines,
        Restriction::MachineLow,
        Word::Block,
        "raw.qemu",
        Against::Any,
    ),
    (
        4,
        Judged::MachinesAlone,
        Restriction::MachineLow,
        Word::Block,
        "raw.apparmor",
        Against::Any,
    ),
    (
        4,
        Judged::MachinesAlone,
        Restriction::MachineLow,
        Word::Block,
        "raw.idmap",
        Against::Any,
    ),
    (
        5,
        Judged::Containers,
        Restriction::Interception,
        Word::Block,
        "security.syscalls.intercept.*",
        Against::True,
    ),
    (
        5,
        Judged::Containers,
        Restriction::Interception,
        Word::Allow,
        "security.syscalls.intercept.mount",
        Against::True,
    ),
];

/// What the restrictions forbid in devices.
pub const DEVICES: &[DeviceLine] = &[
    (
        6,
        Restriction::Disk,
        Word::Managed,
        "disk",
        Which::WithoutPool,
    ),
    (6, Restriction::Disk, Word::Block, "disk", Which::NotRoot),
    (
        6,
        Restriction::Nic,
        Word::Managed,
        "nic",
        Which::WithoutNetwork,
    ),
    (6, Restriction::Nic, Word::Block, "nic", Which::Any),
    (6, Restriction::Gpu, Word::Block, "gpu", Which::Any),
    (6, Restriction::Proxy, Word::Block, "proxy", Which::Any),
    (
        6,
        Restriction::UnixBlock,
        Word::Block,
        "unix-block",
        Which::Any,
    ),
    (
        6,
        Restriction::UnixChar,
        Word::Block,
        "unix-char",
        Which::Any,
    ),
    (6, Restriction::Usb, Word::Block, "usb", Which::Any),
];

impl Word {
    /// Whether both are the same word.
    pub fn is(self, other: Word) -> bool
        ensures { result ≡ is_word self other }
    {
        self as u8 == other as u8
    }

    /// Parses a word as projects write it, such as `block`; `None` for any other text.
    #[tactic(auto, unfolding(crate::specs::Words::word_named))]
    pub fn from_text(text: &str) -> Option<Word>
        ensures { result ≡ word_named text.now }
    {
        match text {
            "block" => Some(Word::Block),
            "allow" => Some(Word::Allow),
            "managed" => Some(Word::Managed),
            "unprivileged" => Some(Word::Unprivileged),
            "isolated" => Some(Word::Isolated),
            "full" => Some(Word::Full),
            _ => None,
        }
    }
}

impl Judged {
    /// Whether a line for these subjects judges this one.
    pub fn judges(self, subject: Subject) -> bool
        ensures { result ≡ is_judged self subject }
    {
        match subject {
            Subject::Profile => matches!(self, Judged::Containers | Judged::Machines),
            Subject::Container => matches!(self, Judged::Containers | Judged::ContainersAlone),
            Subject::Machine => matches!(self, Judged::Machines | Judged::MachinesAlone),
        }
    }
}

impl Against {
    /// Whether a value is forbidden.
    pub fn is_against(self, value: &str) -> bool
        ensures { result ≡ is_against self value.now }
    {
        match self {
            Against::Any => true,
            Against::True => is_true(value),
            Against::NotTrue => !is_true(value),
        }
    }

    /// Whether the key's absence is forbidden.
    pub fn demands(self) -> bool
        ensures { result ≡ demands self }
    {
        matches!(self, Against::NotTrue)
    }
}

impl Which {
    /// Whether a device is one of these.
    pub fn is_meant(self, device: &Device) -> bool
        ensures { result ≡ is_meant self device.now }
    {
        match self {
            Which::Any => true,
            Which::WithoutPool => device.get("pool").is_none(),
            Which::NotRoot => !is_root_disk(device),
            Which::WithoutNetwork => device.get("network").is_none(),
        }
    }
}

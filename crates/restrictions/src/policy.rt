ghost use Rattle.std.specs.Prelude.{◌≡◌};
ghost use Rattle.restrictions.specs.Words.{word_of, is_true};
ghost use Rattle.restrictions.specs.Policies.{seen, policy_of, word_in};

use crate::rows::{Restriction, Word};
use config_lists::Config;
use size_values::read_boolean;

/// The restrictions of a project, each with its word. They act only where the project is restricted. `access`
/// lists the names of the networks that may be used, joined by commas; without it any may.
#[derive(Clone, Copy)]
pub struct Policy<'a> {
    pub restricted: bool,
    pub nesting: Word,
    pub privilege: Word,
    pub container_low: Word,
    pub machine_low: Word,
    pub interception: Word,
    pub disk: Word,
    pub nic: Word,
    pub gpu: Word,
    pub proxy: Word,
    pub unix_block: Word,
    pub unix_char: Word,
    pub usb: Word,
    pub snapshots: Word,
    pub access: Option<&'a str>,
}

/// Reads the restrictions of a project, as "Project restrictions" of the Incus documentation lists them. Where a
/// key is not set, its default stands.
#[tactic(auto, unfolding(crate::specs::Policies::policy_of))]
pub fn policy_of<'a>(project: &'a Config) -> Policy<'a>
    ensures { seen result ≡ policy_of project.entry.now }
{
    Policy {
        restricted: is_restricted(project),
        nesting: word_of(project, "restricted.containers.nesting", Word::Block),
        privilege: word_of(
            project,
            "restricted.containers.privilege",
            Word::Unprivileged,
        ),
        container_low: word_of(project, "restricted.containers.lowlevel", Word::Block),
        machine_low: word_of(project, "restricted.virtual-machines.lowlevel", Word::Block),
        interception: word_of(project, "restricted.containers.interception", Word::Block),
        disk: word_of(project, "restricted.devices.disk", Word::Managed),
        nic: word_of(project, "restricted.devices.nic", Word::Managed),
        gpu: word_of(project, "restricted.devices.gpu", Word::Block),
        proxy: word_of(project, "restricted.devices.proxy", Word::Block),
        unix_block: word_of(project, "restricted.devices.unix-block", Word::Block),
        unix_char: word_of(project, "restricted.devices.unix-char", Word::Block),
        usb: word_of(project, "restricted.devices.usb", Word::Block),
        snapshots: word_of(project, "restricted.snapshots", Word::Block),
        access: project.get("restricted.networks.access"),
    }
}

impl Policy<'_> {
    /// What a restriction is set to, or its default where the project does not set it.
    pub fn word(&self, restriction: Restriction) -> Word
        ensures { result ≡ word_in (seen self.now) restriction }
    {
        match restriction {
            Restriction::Nesting => self.nesting,
            Restriction::Privilege => self.privilege,
            Restriction::ContainerLow => self.container_low,
            Restriction::MachineLow => self.machine_low,
            Restriction::Interception => self.interception,
            Restriction::Disk => self.disk,
            Restriction::Nic => self.nic,
            Restriction::Gpu => self.gpu,
            Restriction::Proxy => self.proxy,
            Restriction::UnixBlock => self.unix_block,
            Restriction::UnixChar => self.unix_char,
            Restriction::Usb => self.usb,
        }
    }
}

/// Whether a project is restricted. It reads one setting, and none of the other restrictions.
#[tactic(auto, unfolding(crate::specs::Policies::policy_of))]
pub fn is_restricted(project: &Config) -> bool
    ensures { result ≡ (policy_of project.now).restricted }
{
    match project.get("restricted") {
        Some(text) => is_true(text),
        None => false,
    }
}

fn word_of(project: &Config, key: &str, default: Word) -> Word
    ensures { result ≡ word_of project.now key.now default }
{
    match project.get(key) {
        Some(text) => Word::from_text(text).unwrap_or(default),
        None => default,
    }
}

/// Whether a text reads as true.
#[tactic(auto, unfolding(crate::specs::Words::is_true))]
pub(crate) fn is_true(text: &str) -> bool
    ensures { result ≡ is_true text.now }
{
    match read_boolean(text) {
        Ok(boolean) => boolean,
        Err(_) => false,
    }
}

//! Settings that read as true, and the home of a project for the objects of a kind.
ghost use Rattle.std.specs.Prelude.{◌≡◌};
ghost use Rattle.size_values.specs.declared.kinds.ObjectKind.TheVariants as kind;
ghost use Rattle.restrictions.specs.Words.{is_true};
ghost use Rattle.row_machine.specs.machine.Homes.{is_on, has_feature, home_by, home_of};

use crate::state_ref::StateRef;
use config_lists::Config;
use size_values::{ObjectKind, read_boolean};

/// Whether a text reads as true.
#[tactic(auto, unfolding(restrictions::specs::Words::is_true))]
pub fn is_true(text: &str) -> bool
    ensures { result ≡ is_true text.now }
{
    match read_boolean(text) {
        Ok(boolean) => boolean,
        Err(_) => false,
    }
}

/// Whether a key is set, and reads as true.
pub fn is_on(config: &Config, key: &str) -> bool
    ensures { result ≡ is_on config.now key.now }
{
    match config.get(key) {
        Some(text) => is_true(text),
        None => false,
    }
}

impl StateRef<'_> {
    fn has_feature(&self, name: &str, key: &str) -> bool
        ensures { result ≡ has_feature self.now.projects name.now key.now }
    {
        match self.project_named(name) {
            Some(project) => is_on(&project.config, key),
            None => false,
        }
    }

    fn home_by<'x>(&self, name: &'x str, key: &str) -> &'x str
        ensures { result.now ≡ home_by self.now.projects name.now key.now }
    {
        if self.has_feature(name, key) {
            name
        } else {
            "default"
        }
    }

    /// The project that the profiles of a project belong to.
    #[tactic(auto, unfolding(row_machine::specs::machine::Homes::home_of))]
    pub fn profile_home<'x>(&self, name: &'x str) -> &'x str
        ensures { result.now ≡ home_of self.now.projects name.now kind.Profile }
    {
        self.home_by(name, "features.profiles")
    }

    /// The project that the networks of a project belong to.
    #[tactic(auto, unfolding(row_machine::specs::machine::Homes::home_of))]
    pub fn network_home<'x>(&self, name: &'x str) -> &'x str
        ensures { result.now ≡ home_of self.now.projects name.now kind.Network }
    {
        self.home_by(name, "features.networks")
    }

    /// The project that the storage volumes of a project belong to.
    #[tactic(auto, unfolding(row_machine::specs::machine::Homes::home_of))]
    pub fn volume_home<'x>(&self, name: &'x str) -> &'x str
        ensures { result.now ≡ home_of self.now.projects name.now kind.Volume }
    {
        self.home_by(name, "features.storage.volumes")
    }

    /// The project that the objects of a kind belong to, which are asked for in a project.
    #[tactic(auto, unfolding(row_machine::specs::machine::Homes::home_of))]
    pub fn home_of<'x>(&self, name: &'x str, kind: ObjectKind) -> &'x str
        ensures { result.now ≡ home_of self.now.projects name.now kind }
    {
        match kind {
            ObjectKind::Profile => self.profile_home(name),
            ObjectKind::Network => self.network_home(name),
            ObjectKind::Volume => self.volume_home(name),
            ObjectKind::Project => name,
            ObjectKind::Pool => name,
            ObjectKind::Instance => name,
            ObjectKind::Snapshot => name,
            ObjectKind::Operation => name,
        }
    }
}

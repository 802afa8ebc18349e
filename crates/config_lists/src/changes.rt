ghost use Rattle.std.specs.Prelude.{◌≡◌, ◌≢◌, ◌<◌, [], length, slice_get, IfOk, OnOk, OnErr};
ghost use Rattle.std.specs.Map.{keys_of, values_of};
ghost use Rattle.config_lists.specs.Entries.{put};
ghost use Rattle.config_lists.specs.Changes.{settled, IsChanges};

use crate::config::Config;
use crate::sorted::Sorted;
use size_values::{NoMemory, Text};
use std::alloc::Global;
use std::marker::Model;

/// What a request makes of settings: each key takes its value, and an empty value removes it. Keys rise by
/// their bytes, and none is empty. Contracts see the list of keys and values.
#[derive(Drop)]
pub struct Changes {
    changes: Sorted<Text>,
}

impl Model for Changes {
    ghost use Rattle.std.specs.Prelude.{List, ℕ, All, ◌≢◌, []};

    ghost Value = { List (List ℕ × List ℕ) };

    ghost view = { λ c. c.changes };

    ghost invariant = { λ c. All (λ e. e.0 ≢ []) c.changes };
}

impl Changes {
    /// No changes. It takes no memory.
    pub fn new(alloc: Global) -> Changes
        ensures { result ≡ [] }
    {
        Changes {
            changes: Sorted::new(alloc),
        }
    }

    /// Adds the change of a key, in place of an earlier one. An empty value removes the key. Where memory is
    /// refused, the changes are as before.
    pub fn put(&mut self, key: &str, value: &str) -> Result<(), NoMemory>
        requires { key.now ≢ [] }
        ensures ok { OnOk result (self.new ≡ put self.old key.now value.now) }
        ensures err { OnErr result (self.new ≡ self.old) }
    {
        let value = self.changes.own_text(value)?;
        self.changes.put(key, value)
    }

    /// The settings that the changes give by themselves: those that are not empty.
    pub fn settled(&self) -> Result<Config, NoMemory>
        ensures { IfOk result (λ c. c ≡ settled self.now) }
    {
        let mut config = Config::empty_like(&self.changes);
        for place in 0..self.len() {
            let key = self.key_at(place);
            let value = self.value_at(place);
            if !value.is_empty() {
                config.set(key, value)?;
            }
        }
        Ok(config)
    }

    /// How many keys are changed.
    pub(crate) fn len(&self) -> usize
        ensures len { result ≡ length self.now }
        ensures changes { IsChanges self.now }
    {
        self.changes.len()
    }

    /// The key at a place, counted from 0 in the order of the keys.
    pub(crate) fn key_at(&self, place: usize) -> &str
        requires { place < length self.now }
        ensures { slice_get (keys_of self.now) place ≡ Some result.now }
    {
        self.changes.key_at(place)
    }

    /// The value at a place, which may be empty.
    pub(crate) fn value_at(&self, place: usize) -> &str
        requires { place < length self.now }
        ensures { slice_get (values_of self.now) place ≡ Some result.now }
    {
        self.changes.value_at(place).view()
    }
}

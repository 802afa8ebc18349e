ghost use Rattle.std.specs.Prelude.{◌≡◌, ◌++◌, ◌≢◌, ◌<◌, [], length, slice_get, is_some, IfOk, OnOk, OnErr};
ghost use Rattle.std.specs.Option.{option_copied};
ghost use Rattle.std.specs.Map.{keys_of, values_of};
ghost use Rattle.config_lists.specs.Entries.{put, without};
ghost use Rattle.config_lists.specs.Settings.{setting, has_setting, IsConfig};
ghost use Rattle.config_lists.specs.Changes.{patched, changed};

use crate::changes::Changes;
use crate::sorted::Sorted;
use size_values::{NoMemory, Text};
use std::alloc::Global;
use std::marker::Model;

/// Settings: texts under keys that rise by their bytes, no key and no value empty. Contracts see the list
/// of keys and values, and read it by `setting`. It keeps the allocator that it was made with.
#[derive(Drop)]
pub struct Config {
    settings: Sorted<Text>,
}

/// A device is the settings that it has, its type among them.
pub type Device = Config;

impl Model for Config {
    ghost use Rattle.std.specs.Prelude.{List, ℕ, All};

    ghost Value = { List (List ℕ × List ℕ) };

    ghost use Rattle.config_lists.specs.Settings.{IsFull};

    ghost view = { λ c. c.settings };

    ghost invariant = { λ c. All IsFull c.settings };
}

impl Config {
    /// No settings. It takes no memory.
    pub fn new(alloc: Global) -> Config
        ensures { result ≡ [] }
    {
        Config {
            settings: Sorted::new(alloc),
        }
    }

    /// No settings, with memory from where this list takes its own.
    pub(crate) fn empty_like(list: &Sorted<Text>) -> Config
        ensures { result ≡ [] }
    {
        Config {
            settings: list.empty_like(),
        }
    }

    /// The value of a key.
    pub fn get(&self, key: &str) -> Option<&str>
        ensures { option_copied result ≡ setting self.now key.now }
    {
        match self.settings.get(key) {
            Some(value) => Some(value.view()),
            None => None,
        }
    }

    /// The value of the key that is `front` with `rest` behind it.
    pub fn get_joined(&self, front: &str, rest: &str) -> Option<&str>
        ensures { option_copied result ≡ setting self.now (front.now ++ rest.now) }
    {
        match self.settings.get_joined(front, rest) {
            Some(value) => Some(value.view()),
            None => None,
        }
    }

    /// Whether the key is set, and to exactly this value.
    pub fn has(&self, key: &str, value: &str) -> bool
        ensures { result ≡ has_setting self.now key.now value.now }
    {
        match self.get(key) {
            Some(found) => found == value,
            None => false,
        }
    }

    /// Sets a key, in place of its old value if it has one. Where memory is refused, the settings are as
    /// before.
    pub fn set(&mut self, key: &str, value: &str) -> Result<(), NoMemory>
        requires key { key.now ≢ [] }
        requires value { value.now ≢ [] }
        ensures ok { OnOk result (self.new ≡ put self.old key.now value.now) }
        ensures err { OnErr result (self.new ≡ self.old) }
    {
        let value = self.settings.own_text(value)?;
        self.settings.put(key, value)
    }

    /// Removes a key, and answers whether it was set.
    pub fn unset(&mut self, key: &str) -> bool
        ensures after { self.new ≡ without self.old key.now }
        ensures found { result ≡ is_some (setting self.old key.now) }
    {
        self.settings.remove(key)
    }

    /// How many keys are set.
    pub fn len(&self) -> usize
        ensures len { result ≡ length self.now }
        ensures config { IsConfig self.now }
    {
        self.settings.len()
    }

    /// The key at a place, counted from 0 in the order of the keys.
    pub fn key_at(&self, place: usize) -> &str
        requires { place < length self.now }
        ensures { slice_get (keys_of self.now) place ≡ Some result.now }
    {
        self.settings.key_at(place)
    }

    /// The value at a place below the length, in the order of keys.
    pub fn value_at(&self, place: usize) -> &str
        requires { place < length self.now }
        ensures { slice_get (values_of self.now) place ≡ Some result.now }
    {
        self.settings.value_at(place).view()
    }

    /// Settings of its own with the same keys and values.
    pub fn copy(&self) -> Result<Config, NoMemory>
        ensures { IfOk result (λ c. c ≡ self.now) }
    {
        let mut copy = Config::empty_like(&self.settings);
        for place in 0..self.len() {
            copy.set(self.key_at(place), self.value_at(place))?;
        }
        Ok(copy)
    }

    /// The settings after each change: it sets its key, or removes it where its value is empty.
    pub fn patched(&self, changes: &Changes) -> Result<Config, NoMemory>
        ensures { IfOk result (λ c. c ≡ patched self.now changes.now) }
    {
        let mut config = self.copy()?;
        for place in 0..changes.len() {
            config.apply_change(changes.key_at(place), changes.value_at(place))?;
        }
        Ok(config)
    }

    fn apply_change(&mut self, key: &str, value: &str) -> Result<(), NoMemory>
        requires { key.now ≢ [] }
        ensures { OnOk result (self.new ≡ changed self.old (key.now, value.now)) }
    {
        if value.is_empty() {
            self.unset(key);
            return Ok(());
        }
        self.set(key, value)
    }
}

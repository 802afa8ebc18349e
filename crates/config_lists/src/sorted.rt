ghost use Rattle.std.specs.Prelude.{◌≡◌, ◌<◌, [], ◌∷◌, ◌++◌, length, slice_get, is_some, IfOk, IfErr, OnOk, OnErr};
ghost use Rattle.std.specs.Cmp.Lexicographic.{slice_cmp};
ghost use Rattle.std.specs.Option.{option_copied};
ghost use Rattle.std.specs.Ordering.{nat_cmp};
ghost use Rattle.std.specs.Map.{keys_of, values_of};
ghost use Rattle.config_lists.specs.Entries.{value_of, put, without, KeysRise, IsAt, IsGap};

use size_values::{NoMemory, Text};
use std::alloc::Global;
use std::cmp::Ordering;
use std::marker::Model;

/// Values under keys, in the order of the keys. Contracts see the list of keys and values.
#[derive(Drop)]
pub struct Sorted<V> {
    entries: Vec<(Text, V)>,
}

impl<V> Model for Sorted<V> {
    ghost use Rattle.std.specs.Prelude.{List, ℕ};

    ghost Value = { List (List ℕ × V) };

    ghost use Rattle.config_lists.specs.Entries.{KeysRise};

    ghost view = { λ s. s.entries.items };

    ghost invariant = { λ s. KeysRise s.entries.items };
}

/// The order of a text and `front` with `rest` behind it.
fn compare_joined(text: &str, front: &str, rest: &str) -> Ordering
    ensures { result ≡ slice_cmp nat_cmp text.now (front.now ++ rest.now) }
{
    match text.strip_prefix(front) {
        Some(behind) => behind.cmp(rest),
        None => text.cmp(front),
    }
}

impl<V> Sorted<V> {
    /// Without entries. It takes no memory.
    pub fn new(alloc: Global) -> Sorted<V>
        ensures { result ≡ [] }
    {
        Sorted {
            entries: Vec::new(alloc),
        }
    }

    /// A list without entries that takes its memory where this one does.
    pub fn empty_like(&self) -> Sorted<V>
        ensures { result ≡ [] }
    {
        Sorted::new(*self.entries.allocator())
    }

    /// A text of its own, in the memory of this list.
    pub fn own_text(&self, text: &str) -> Result<Text, NoMemory>
        ensures { IfOk result (λ t. t ≡ text.now) }
    {
        Text::from_text(*self.entries.allocator(), text)
    }

    /// How many keys there are.
    pub fn len(&self) -> usize
        ensures len { result ≡ length self.now }
        ensures rising { KeysRise self.now }
    {
        self.entries.len()
    }

    /// The place of a key, or else the place that it would take.
    fn index_of(&self, key: &str) -> Result<usize, usize>
        ensures found { IfOk result (IsAt self.now key.now) }
        ensures absent { IfErr result (IsGap self.now key.now) }
    {
        self.entries
            .as_slice()
            .binary_search_by(|entry| entry.0.view().cmp(key))
    }

    /// The value of a key, or `None` where the list lacks it.
    pub fn get(&self, key: &str) -> Option<&V>
        ensures { option_copied result ≡ value_of self.now key.now }
    {
        match self.index_of(key) {
            Ok(place) => Some(&self.entries[place].1),
            Err(_) => None,
        }
    }

    /// The place of the key that is `front` with `rest` behind it, or else the place that it would take.
    fn index_of_joined(&self, front: &str, rest: &str) -> Result<usize, usize>
        ensures found { IfOk result (IsAt self.now (front.now ++ rest.now)) }
        ensures absent { IfErr result (IsGap self.now (front.now ++ rest.now)) }
    {
        self.entries
            .as_slice()
            .binary_search_by(|entry| compare_joined(entry.0.view(), front, rest))
    }

    /// The value of that key, or `None` where the list lacks it. It takes no memory.
    pub fn get_joined(&self, front: &str, rest: &str) -> Option<&V>
        ensures { option_copied result ≡ value_of self.now (front.now ++ rest.now) }
    {
        match self.index_of_joined(front, rest) {
            Ok(place) => Some(&self.entries[place].1),
            Err(_) => None,
        }
    }

    /// The key at a place below the length; keys rise with their places.
    pub fn key_at(&self, place: usize) -> &str
        requires { place < length self.now }
        ensures { slice_get (keys_of self.now) place ≡ Some result.now }
    {
        self.entries[place].0.view()
    }

    /// The value at a place below the length.
    pub fn value_at(&self, place: usize) -> &V
        requires { place < length self.now }
        ensures { slice_get (values_of self.now) place ≡ Some result.now }
    {
        &self.entries[place].1
    }
}

impl<V: Drop> Sorted<V> {
    /// Puts the value under the key, in place of the old one if there is one.
    pub fn put(&mut self, key: &str, value: V) -> Result<(), NoMemory>
        ensures ok { OnOk result (self.new ≡ put self.old key.now value) }
        ensures err { OnErr result (self.new ≡ self.old) }
    {
        match self.index_of(key) {
            Ok(place) => {
                self.entries[place].1 = value;
                Ok(())
            }
            Err(place) => self.insert(place, key, value),
        }
    }

    fn insert(&mut self, place: usize, key: &str, value: V) -> Result<(), NoMemory>
        requires { IsGap self.old key.now place }
        ensures ok { OnOk result (self.new ≡ put self.old key.now value) }
        ensures err { OnErr result (self.new ≡ self.old) }
    {
        let key = self.own_text(key)?;
        self.entries.insert(place, (key, value))?;
        Ok(())
    }

    /// Takes a key out, and answers whether it was there.
    pub fn remove(&mut self, key: &str) -> bool
        ensures after { self.new ≡ without self.old key.now }
        ensures found { result ≡ is_some (value_of self.old key.now) }
    {
        let Ok(place) = self.index_of(key) else {
            return false;
        };
        self.entries.remove(place);
        true
    }
}

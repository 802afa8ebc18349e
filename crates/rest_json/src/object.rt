//! An object of JSON that is being made, and the plain values that go into it.
ghost use Rattle.std.specs.Prelude.{◌≡◌, IfOk, OnOk};
ghost use Rattle.serde_json.specs.Data.{no_members, put, string, boolean, object};
ghost use Rattle.serde_json.specs.View.{view};
ghost use Rattle.rest_json.specs.Ids.{id_text};
ghost use Rattle.rest_json.specs.Moments.{moment_text};
ghost use Rattle.rest_json.specs.Objects.{whole};

use crate::ids::id_text;
use crate::moments::moment_text;
use serde_json::{Map, Value};
use size_values::NoMemory;
use std::alloc::Global;

/// An object of JSON that is being made. Each `with` takes the object and gives it back, so that where memory ends
/// its caller has none to let go. Contracts see its members, in the order of their keys, by `members_in`.
#[derive(Drop)]
pub struct Object {
    alloc: Global,
    map: Map<String, Value>,
}

impl Object {
    ghost use Rattle.rest_json.specs.Objects.{members_in};

    /// An object with no members. It takes no memory.
    pub fn new(alloc: Global) -> Object
        ensures { members_in result ≡ no_members }
    {
        Object {
            alloc,
            map: Map::new(alloc),
        }
    }

    /// Puts a member.
    pub fn put(&mut self, key: &str, value: Value) -> Result<(), NoMemory>
        ensures { OnOk result (members_in self.new ≡ put key.now (view value) (members_in self.old)) }
    {
        serde_json::put(&mut self.map, self.alloc, key, value)?;
        Ok(())
    }

    /// Puts a member whose value is a JSON string.
    pub fn put_text(&mut self, key: &str, text: &str) -> Result<(), NoMemory>
        ensures { OnOk result (members_in self.new ≡ put key.now (string text.now) (members_in self.old)) }
    {
        let text = String::from_str(self.alloc, text)?;
        self.put(key, Value::String(text))
    }

    /// The object with a member more.
    pub fn with(mut self, key: &str, value: Value) -> Result<Object, NoMemory>
        ensures { IfOk result (λ o. members_in o ≡ put key.now (view value) (members_in self)) }
    {
        self.put(key, value)?;
        Ok(self)
    }

    /// The object with a text more.
    pub fn with_text(mut self, key: &str, text: &str) -> Result<Object, NoMemory>
        ensures { IfOk result (λ o. members_in o ≡ put key.now (string text.now) (members_in self)) }
    {
        self.put_text(key, text)?;
        Ok(self)
    }

    /// The object with a number more.
    pub fn with_number(self, key: &str, number: u64) -> Result<Object, NoMemory>
        ensures { IfOk result (λ o. members_in o ≡ put key.now (whole number) (members_in self)) }
    {
        self.with(key, Value::from(number))
    }

    /// The object with one more member, which is `true` or `false`.
    pub fn with_boolean(self, key: &str, value: bool) -> Result<Object, NoMemory>
        ensures { IfOk result (λ o. members_in o ≡ put key.now (boolean value) (members_in self)) }
    {
        self.with(key, Value::Bool(value))
    }

    /// The object with a moment more, as its text.
    pub fn with_moment(self, key: &str, moment: u64) -> Result<Object, NoMemory>
        ensures { IfOk result (λ o. members_in o ≡ put key.now (string (moment_text moment)) (members_in self)) }
    {
        let text = moment_text(self.alloc, moment)?;
        self.with_text(key, text.view())
    }

    /// The object with the id of an operation more.
    pub fn with_id(self, key: &str, boot: u64, number: u64) -> Result<Object, NoMemory>
        ensures { IfOk result (λ o. members_in o ≡ put key.now (string (id_text boot number)) (members_in self)) }
    {
        let text = id_text(self.alloc, boot, number)?;
        self.with_text(key, text.view())
    }

    /// The object as a value.
    pub fn into_value(self) -> Value
        ensures { view result ≡ object (members_in self) }
    {
        Value::Object(self.map)
    }
}

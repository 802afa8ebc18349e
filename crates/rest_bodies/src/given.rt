ghost use Rattle.std.specs.Prelude.{◌≡◌, is_some, option_map};
ghost use Rattle.serde_json.specs.View.{view, members_view};
ghost use Rattle.serde_json.specs.Find.{as_object, get_member};
ghost use Rattle.rest_bodies.specs.Given.{value_at};
ghost use Rattle.rest_bodies.specs.Keys.{word_of};
ghost use Rattle.rest_bodies.specs.Members.{if_given, non_null_member};
ghost use Rattle.rest_bodies.specs.declared.keys.Key.{Key};

use crate::keys::{Key, key_named, place_of};
use serde_json::{Map, Value};
use std::marker::Model;

const KEYS: usize = 18;

/// A place for each key.
type Places<'a> = [Option<&'a Value>; KEYS];

/// The value of each key.
fn found_in<'a>(members: &'a Map<String, Value>) -> Places<'a>
    ensures { (key : Key) → value_at result key ≡ get_member (word_of key) (members_view members.now.entries) }
{
    let mut found = [None; KEYS];
    for (name, value) in members.iter() {
        if let Some(key) = key_named(name) {
            let place = place_of(key);
            if found[place].is_none() {
                found[place] = Some(value);
            }
        }
    }
    found
}

#[tactic(auto, unfolding(crate::specs::Members::if_given))]
fn if_given(value: &Value) -> Option<&Value>
    ensures { option_map (λ m. view m.now) result ≡ if_given (view value.now) }
{
    if value.is_null() { None } else { Some(value) }
}

/// A JSON value whose members are found once, at its making. Contracts see the value.
#[derive(Drop)]
pub(crate) struct Given<'a> {
    value: &'a Value,
    found: Places<'a>,
}

impl<'a> Model for Given<'a> {
    ghost use Rattle.std.specs.Coded.{codes};
    ghost use Rattle.serde_json.specs.declared.value.Value.{Value as Json};
    ghost use Rattle.serde_json.specs.contracts.value.Value as of_value;
    ghost use Rattle.rest_bodies.specs.Found.{IsFound};

    ghost Value = { Json };

    ghost coded = { Prim.hlevel (codes, of_value.the_row.coded) };

    ghost view = { λ g. g.value.now };

    ghost invariant = { IsFound };
}

impl<'a> Given<'a> {
    /// Finds the members of a value, if it is an object.
    pub(crate) fn new(value: &'a Value) -> Given<'a>
        ensures { result ≡ value.now }
    {
        let found = match value.as_object() {
            Some(members) => found_in(members),
            None => [None; KEYS],
        };
        Given { value, found }
    }

    /// Whether the value is an object.
    pub(crate) fn is_object(&self) -> bool
        ensures { result ≡ is_some (as_object (view self.now)) }
    {
        self.value.as_object().is_some()
    }

    /// The value of a member that is there and not null.
    #[tactic(auto, unfolding(crate::specs::Members::non_null_member))]
    pub(crate) fn member(&self, key: Key) -> Option<&'a Value>
        ensures { option_map (λ m. view m.now) result ≡ non_null_member (word_of key) (view self.now) }
    {
        let places = &self.found[..];
        match places[place_of(key)] {
            Some(value) => if_given(value),
            None => None,
        }
    }
}

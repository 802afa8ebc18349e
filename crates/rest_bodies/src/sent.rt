ghost use Rattle.std.specs.Prelude.{◌≡◌, option_map, codes};
ghost use Rattle.serde_json.specs.View.{view};
ghost use Rattle.rest_bodies.specs.Keys.{word_of};
ghost use Rattle.rest_bodies.specs.Members.{non_null_member};

use crate::given::Given;
use crate::keys::Key;
use serde_json::Value;
use std::marker::Model;

/// The JSON value that a request sends. Its members, and those of the source that it names, are found once. Contracts
/// see the value.
#[derive(Drop)]
pub struct SentBody<'a> {
    members: Given<'a>,
    source: Option<Given<'a>>,
}

impl<'a> Model for SentBody<'a> {
    ghost use Rattle.std.specs.Coded.{codes};
    ghost use Rattle.serde_json.specs.declared.value.Value.{Value as Json};
    ghost use Rattle.serde_json.specs.contracts.value.Value as of_value;
    ghost use Rattle.rest_bodies.specs.Sent.{HasSource};

    ghost Value = { Json };

    ghost coded = { Prim.hlevel (codes, of_value.the_row.coded) };

    ghost view = { λ b. b.members };

    ghost invariant = { HasSource };
}

impl<'a> SentBody<'a> {
    /// Reads a value that was sent.
    pub fn new(value: &'a Value) -> SentBody<'a>
        ensures { result ≡ value.now }
    {
        let members = Given::new(value);
        let source = match members.member(Key::Source) {
            Some(source) => Some(Given::new(source)),
            None => None,
        };
        SentBody { members, source }
    }

    /// The value with its members.
    pub(crate) fn members(&self) -> &Given<'a>
        ensures { result.now ≡ self.now }
    {
        &self.members
    }

    /// The value of a field that is there and not null.
    pub(crate) fn field(&self, key: Key) -> Option<&'a Value>
        ensures { option_map (λ m. view m.now) result ≡ non_null_member (word_of key) (view self.now) }
    {
        self.members.member(key)
    }

    /// What a new object is made from, with its members, if it is given.
    pub(crate) fn source(&self) -> Option<&Given<'a>>
        ensures { option_map (λ s. view s.now) result ≡ non_null_member (codes "source") (view self.now) }
    {
        self.source.as_ref()
    }
}

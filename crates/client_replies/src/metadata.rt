//! What an answer tells beside its form.
ghost use Rattle.std.specs.Prelude.{◌≡◌, false, IfOk};
ghost use Rattle.serde_json.specs.View.{view};
ghost use Rattle.serde_json.specs.Written.{compact_text, has_float};

use serde_json::Value;
use size_values::{NoMemory, Text};
use std::alloc::Global;
use std::marker::Model;

/// The metadata of an answer, a JSON value whose numbers are whole numbers of at most 64 bits. Contracts see the value.
#[derive(Drop)]
pub struct Metadata {
    value: Value,
}

impl Model for Metadata {
    ghost use Rattle.std.specs.Coded.{codes};
    ghost use Rattle.serde_json.specs.declared.value.Value.{Value as Json};
    ghost use Rattle.serde_json.specs.contracts.value.Value as of_value;
    ghost use Rattle.client_replies.specs.Metadata.{IsWhole};

    ghost Value = { Json };

    ghost coded = { Prim.hlevel (codes, of_value.the_row.coded) };

    ghost view = { λ m. m.value };

    ghost invariant = { IsWhole };
}

impl Metadata {
    /// The value as metadata.
    pub(crate) fn new(value: Value) -> Metadata
        requires { has_float (view value) ≡ false }
        ensures { result ≡ value }
    {
        Metadata { value }
    }

    /// The value.
    pub fn value(&self) -> &Value
        ensures { result.now ≡ self.now }
    {
        &self.value
    }

    /// The value as JSON with no space between its parts and the members of objects in the order of their keys, which is
    /// how the server prints it.
    pub fn text(&self, alloc: Global) -> Result<Text, NoMemory>
        ensures { IfOk result (λ text. text ≡ compact_text (view self.now)) }
    {
        let text = self.value.to_string(alloc)?;
        Ok(Text::from_string(text))
    }
}

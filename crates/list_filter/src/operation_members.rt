//! The members of operations.
ghost use Rattle.std.specs.Prelude.{◌≡◌, false, IfOk};
ghost use Rattle.serde_json.specs.View.{view};
ghost use Rattle.serde_json.specs.Written.{has_float};
ghost use Rattle.rest_json.specs.Operations.{operation_data};
ghost use Rattle.list_filter.specs.Values.{member_text, text_of};

use crate::texts::{text, truth};
use records::OpView;
use rest_json::operation_value;
use serde_json::Value;
use size_values::{NoMemory, Text};
use std::alloc::Global;

/// The text of a JSON value that has no fraction.
fn value_text(alloc: Global, value: &Value) -> Result<Option<Text>, NoMemory>
    requires { has_float (view value.now) ≡ false }
    ensures { IfOk result (λ told. told ≡ text_of (view value.now)) }
{
    match value {
        Value::String(word) => text(alloc, word.as_str()),
        Value::Bool(word) => truth(alloc, *word),
        Value::Number(_) => Ok(Some(Text::from_string(value.to_string(alloc)?))),
        Value::Null | Value::Array(_) | Value::Object(_) => Ok(None),
    }
}

/// The text of a member of a JSON object.
fn text_in(alloc: Global, object: &Value, name: &str) -> Result<Option<Text>, NoMemory>
    requires { has_float (view object.now) ≡ false }
    ensures { IfOk result (λ told. told ≡ member_text name.now (view object.now)) }
{
    match object.get(name) {
        Some(value) => value_text(alloc, value),
        None => Ok(None),
    }
}

/// A member of an operation.
#[tactic(auto, using(rest_json::proofs::ViewsPlain::operation_plain))]
pub(crate) fn operation_member(
    alloc: Global,
    boot: u64,
    operation: &OpView,
    name: &str,
) -> Result<Option<Text>, NoMemory>
    ensures { IfOk result (λ told. told ≡ member_text name.now (operation_data boot operation.now)) }
{
    let object = operation_value(alloc, boot, operation)?;
    let told = text_in(alloc, &object, name);
    drop(object);
    told
}

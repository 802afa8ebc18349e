//! The members of events that are read.
ghost use Rattle.std.specs.Prelude.{◌≡◌, option_map};
ghost use Rattle.serde_json.specs.View.{view};
ghost use Rattle.client_events.specs.Columns.{text_at};

use serde_json::Value;

/// The text of a member.
pub(crate) fn text_at<'a>(key: &str, value: &'a Value) -> Option<&'a str>
    ensures { option_map (λ text. text.now) result ≡ text_at key.now (view value.now) }
{
    value.get(key).and_then(Value::as_str)
}

//! The members of JSON objects that are read.
ghost use Rattle.std.specs.Prelude.{◌≡◌, option_map};
ghost use Rattle.serde_json.specs.View.{view};
ghost use Rattle.client_steps.specs.Rows.{limit_at, limit_in, text_at, usage_at};

use serde_json::Value;

/// The text of a member.
pub(crate) fn text_at<'a>(key: &str, value: &'a Value) -> Option<&'a str>
    ensures { option_map (λ text. text.now) result ≡ text_at key.now (view value.now) }
{
    value.get(key).and_then(Value::as_str)
}

/// How much is used.
pub(crate) fn usage_at(value: &Value) -> Option<u64>
    ensures { result ≡ usage_at (view value.now) }
{
    value.get("usage").and_then(Value::as_u64)
}

/// What a limit says: None in the inner option for -1, which is no limit.
fn limit_in(value: &Value) -> Option<Option<u64>>
    ensures { result ≡ limit_in (view value.now) }
{
    match value.as_u64() {
        Some(limit) => Some(Some(limit)),
        None => match value.as_i64() {
            Some(-1) => Some(None),
            _ => None,
        },
    }
}

/// The limit beside what is used.
pub(crate) fn limit_at(value: &Value) -> Option<Option<u64>>
    ensures { result ≡ limit_at (view value.now) }
{
    match value.get("limit") {
        Some(limit) => limit_in(limit),
        None => None,
    }
}

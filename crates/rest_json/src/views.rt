//! The parts of objects that are made before they are written: the state of a project, and when a snapshot expires.
ghost use Rattle.std.specs.Prelude.{◌≡◌, IfOk};
ghost use Rattle.serde_json.specs.View.{view};
ghost use Rattle.rest_json.specs.Views.{expiry_text, limit_data, line_data, lines_data, usage_data};

use crate::moments::moment_text;
use crate::object::Object;
use crate::words::limit_name;
use records::UsageLine;
use serde_json::Value;
use size_values::{NoMemory, Seq, Text};
use std::alloc::Global;

/// The most that 63 bits hold.
const MOST: u128 = 0x7FFF_FFFF_FFFF_FFFF;

/// When a snapshot expires; 0 is for one that does not expire.
#[tactic(auto, unfolding(crate::specs::Views::expiry_text))]
pub(crate) fn expiry_text(alloc: Global, expires: u64) -> Result<Text, NoMemory>
    ensures { IfOk result (λ t. t ≡ expiry_text expires) }
{
    if expires == 0 {
        return Text::from_text(alloc, "0001-01-01T00:00:00Z");
    }
    moment_text(alloc, expires)
}

/// A limit, which is -1 where none is set.
fn limit_value(limit: Option<u64>) -> Value
    ensures { view result ≡ limit_data limit }
{
    match limit {
        Some(limit) => Value::from(limit),
        None => Value::from(-1i64),
    }
}

/// A limit and how much of it is used.
#[tactic(auto, unfolding(crate::specs::Views::line_data))]
fn line_value(alloc: Global, line: &UsageLine) -> Result<Value, NoMemory>
    ensures { IfOk result (λ v. view v ≡ line_data line.now) }
{
    let object = Object::new(alloc)
        .with("limit", limit_value(line.limit))?
        .with_number("usage", line.used.min(MOST) as u64)?;
    Ok(object.into_value())
}

/// The limits of a project.
#[tactic(auto, unfolding(crate::specs::Views::lines_data))]
fn lines_value(alloc: Global, lines: &Seq<UsageLine>) -> Result<Value, NoMemory>
    ensures { IfOk result (λ v. view v ≡ lines_data lines.now) }
{
    let mut object = Object::new(alloc);
    for line in lines.view() {
        let name = limit_name(alloc, &line.key)?;
        object.put(name.view(), line_value(alloc, line)?)?;
    }
    Ok(object.into_value())
}

/// The state of a project.
#[tactic(auto, unfolding(crate::specs::Views::usage_data))]
pub(crate) fn usage_value(alloc: Global, lines: &Seq<UsageLine>) -> Result<Value, NoMemory>
    ensures { IfOk result (λ v. view v ≡ usage_data lines.now) }
{
    let lines = lines_value(alloc, lines)?;
    let object = Object::new(alloc).with("resources", lines)?;
    Ok(object.into_value())
}

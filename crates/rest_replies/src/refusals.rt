//! Refusals as JSON: what each rule is called, how it is answered, and what is told with it.
ghost use Rattle.std.specs.Prelude.{◌≡◌, ◌++◌, IfOk, IsTrue, decimal, string_bytes};
ghost use Rattle.http_front.specs.Replies.{is_reply_code};
ghost use Rattle.serde_json.specs.View.{view};
ghost use Rattle.rest_replies.specs.Refusals.{line, said_in, rule_line, rule_name, rule_text, rule_code, phrases_of};
ghost use Rattle.rest_replies.specs.Refusals.{part_key, part_text, part_data, details_data, said, all_said, error_text};
ghost use Rattle.rest_replies.specs.Refusals.{refusal_data};

use records::{Details, Refusal, Rule};
use rest_json::{Dialect, Object};
use serde_json::Value;
use size_values::{NoMemory, Text};
use std::alloc::Global;

/// A part of what a refusal keeps.
#[derive(Clone, Copy)]
pub(crate) enum Part {
    Asked,
    Key,
    Kind,
    Limit,
    Name,
    Number,
    Project,
    Used,
}

/// A part of what a rule tells, and what stands before it in words.
type Phrase = (&'static str, Part);

const KEY: &[Phrase] = &[(": ", Part::Key)];

const NAME: &[Phrase] = &[(": ", Part::Name)];

const NUMBER: &[Phrase] = &[(": ", Part::Number)];

const PROJECT: &[Phrase] = &[(": ", Part::Project)];

/// What is told of an object.
const OBJECT: &[Phrase] = &[(": ", Part::Kind), (" ", Part::Name)];

/// What is told of an object in a project.
const CHANGED: &[Phrase] = &[
    (": ", Part::Kind),
    (" ", Part::Name),
    (" of project ", Part::Project),
];

/// What is told of an object, and of the link that uses it.
const USED: &[Phrase] = &[
    (": ", Part::Kind),
    (" ", Part::Name),
    (", used by ", Part::Key),
];

/// What is told of a name that an operation holds.
const HELD_NAME: &[Phrase] = &[
    (": ", Part::Kind),
    (" ", Part::Name),
    (", operation ", Part::Number),
];

/// What is told of an instance or a profile that an operation holds.
const HELD: &[Phrase] = &[(": ", Part::Name), (", operation ", Part::Number)];

/// What is told of an instance and its status.
const STATE: &[Phrase] = &[(": ", Part::Name), (", ", Part::Key)];

/// What is told of an operation and its status.
const ENDED: &[Phrase] = &[(": ", Part::Number), (", ", Part::Key)];

/// What is told of a value.
const VALUE: &[Phrase] = &[(": ", Part::Key), (", reason ", Part::Number)];

/// What is told of a device.
const DEVICE: &[Phrase] = &[
    (": ", Part::Name),
    (", key ", Part::Key),
    (", reason ", Part::Number),
];

/// What is told of a forbidden setting, or of one that is not countable.
const SETTING: &[Phrase] = &[
    (": ", Part::Key),
    (" of ", Part::Name),
    (" in project ", Part::Project),
];

/// What is told of a limit that is exceeded.
const LIMIT: &[Phrase] = &[
    (": ", Part::Key),
    (" of project ", Part::Project),
    (", used ", Part::Used),
    (", asked ", Part::Asked),
    (", limit ", Part::Limit),
];

/// What is told of a full table.
const TABLE: &[Phrase] = &[(": ", Part::Kind), (", at most ", Part::Number)];

/// What is told of a large row.
const ROW: &[Phrase] = &[(": ", Part::Kind), (", bytes ", Part::Number)];

/// A line of the table of rules.
#[derive(Clone, Copy)]
struct RuleLine {
    /// The name of the rule, as `N4`.
    name: &'static str,
    /// The HTTP status code.
    code: u16,
    /// What went wrong, for a person.
    text: &'static str,
    /// What is told with the rule, in words.
    phrases: &'static [Phrase],
}

/// A line of the table, which as a call stands in one line of code.
fn line(name: &'static str, code: u16, text: &'static str, phrases: &'static [Phrase]) -> RuleLine
    ensures line { line result.name.now result.code result.text.now (said_in result.phrases.now)
        ≡ line name.now code text.now (said_in phrases.now) }
    ensures code { result.code ≡ code }
{
    RuleLine {
        name,
        code,
        text,
        phrases,
    }
}

/// The table of rules.
fn rule_line(rule: Rule) -> RuleLine
    ensures line { line result.name.now result.code result.text.now (said_in result.phrases.now)
        ≡ rule_line rule }
    ensures known { IsTrue (is_reply_code result.code) }
{
    use Rule::*;
    match rule {
        H1 => line("H1", 400, "head is malformed", &[]),
        H2 => line("H2", 400, "head is too long", &[]),
        H3 => line("H3", 400, "length is malformed", &[]),
        H4 => line("H4", 400, "body is too long", &[]),
        H5 => line("H5", 403, "origin is not allowed", &[]),
        A1 => line("A1", 404, "path is unknown", &[]),
        A2 => line("A2", 405, "method is not offered here", &[]),
        A3 => line("A3", 400, "query is malformed", KEY),
        A4 => line("A4", 400, "body is no JSON object", &[]),
        A5 => line("A5", 400, "field is malformed", KEY),
        A6 => line("A6", 400, "events need a WebSocket", &[]),
        N1 => line("N1", 404, "project is missing", PROJECT),
        N2 => line("N2", 404, "object is missing", OBJECT),
        E1 => line("E1", 412, "object has changed", CHANGED),
        N3 => line("N3", 400, "name is malformed", OBJECT),
        N4 => line("N4", 409, "name is taken", OBJECT),
        N5 => line("N5", 409, "name is held by an operation", HELD_NAME),
        B1 => line("B1", 409, "instance is busy", HELD),
        B2 => line("B2", 400, "instance is in the wrong state", STATE),
        B3 => line("B3", 403, "object is protected", OBJECT),
        B4 => line("B4", 400, "object is in use", USED),
        B5 => line("B5", 400, "project is not empty", NAME),
        B6 => line("B6", 409, "profile is held by an operation", HELD),
        V1 => line("V1", 400, "key is unknown", KEY),
        V2 => line("V2", 400, "value is malformed", VALUE),
        V3 => line("V3", 400, "device is malformed", DEVICE),
        V4 => line("V4", 400, "instance needs exactly one root disk", NAME),
        V5 => line("V5", 400, "named object is missing", OBJECT),
        F1 => line("F1", 403, "setting is forbidden", SETTING),
        F2 => line("F2", 403, "setting is forbidden", SETTING),
        F3 => line("F3", 403, "setting is forbidden", SETTING),
        F4 => line("F4", 403, "setting is forbidden", SETTING),
        F5 => line("F5", 403, "setting is forbidden", SETTING),
        F6 => line("F6", 403, "setting is forbidden", SETTING),
        F7 => line("F7", 403, "setting is forbidden", SETTING),
        F8 => line("F8", 403, "snapshots are forbidden", PROJECT),
        L0 => line("L0", 403, "setting is not countable", SETTING),
        L1 => line("L1", 403, "limit is exceeded", LIMIT),
        L2 => line("L2", 403, "limit is exceeded", LIMIT),
        L3 => line("L3", 403, "limit is exceeded", LIMIT),
        L4 => line("L4", 403, "limit is exceeded", LIMIT),
        L5 => line("L5", 403, "limit is exceeded", LIMIT),
        L6 => line("L6", 403, "limit is exceeded", LIMIT),
        L7 => line("L7", 403, "limit is exceeded", LIMIT),
        L8 => line("L8", 403, "limit is exceeded", LIMIT),
        L9 => line("L9", 403, "limit is exceeded", LIMIT),
        O1 => line("O1", 400, "operation has ended", ENDED),
        O2 => line("O2", 400, "operation may not be cancelled", NUMBER),
        O3 => line("O3", 400, "operation is being cancelled", NUMBER),
        O4 => line("O4", 409, "too many live operations", NUMBER),
        O5 => line("O5", 409, "operation numbers are used up", NUMBER),
        C1 => line("C1", 409, "table is full", TABLE),
        C2 => line("C2", 409, "row is too large", ROW),
        K1 => line("K1", 503, "unavailable", &[]),
        M1 => line("M1", 500, "no memory", &[]),
    }
}

/// The name of a rule, as `N4`.
pub fn rule_name(rule: Rule) -> &'static str
    ensures { result.now ≡ rule_name rule }
{
    rule_line(rule).name
}

/// The HTTP status code of a rule.
pub(crate) fn rule_code(rule: Rule) -> u16
    ensures code { result ≡ rule_code rule }
    ensures known { IsTrue (is_reply_code result) }
{
    rule_line(rule).code
}

/// The key of a part.
fn part_key(part: Part) -> &'static str
    ensures { result.now ≡ part_key part }
{
    match part {
        Part::Asked => "asked",
        Part::Key => "key",
        Part::Kind => "kind",
        Part::Limit => "limit",
        Part::Name => "name",
        Part::Number => "number",
        Part::Project => "project",
        Part::Used => "used",
    }
}

/// A part as a text.
fn part_text(alloc: Global, details: &Details, part: Part) -> Result<Text, NoMemory>
    ensures { IfOk result (λ t. t ≡ part_text details.now part) }
{
    match part {
        Part::Asked => amount_text(alloc, details.asked),
        Part::Key => details.key.copy(alloc),
        Part::Kind => details.kind.copy(alloc),
        Part::Limit => amount_text(alloc, details.limit),
        Part::Name => details.name.copy(alloc),
        Part::Number => amount_text(alloc, u128::from(details.number)),
        Part::Project => details.project.copy(alloc),
        Part::Used => amount_text(alloc, details.used),
    }
}

/// The decimal digits of an amount.
fn amount_text(alloc: Global, amount: u128) -> Result<Text, NoMemory>
    ensures { IfOk result (λ t. t ≡ decimal amount) }
{
    Ok(Text::from_string(amount.to_string(alloc)?))
}

/// A part as JSON: a number, or a text.
fn part_value(alloc: Global, details: &Details, part: Part) -> Result<Value, NoMemory>
    ensures { IfOk result (λ v. view v ≡ part_data details.now part) }
{
    match part {
        Part::Number => Ok(Value::from(details.number)),
        _ => {
            let text = part_text(alloc, details, part)?;
            Ok(Value::String(String::from_str(alloc, text.view())?))
        }
    }
}

/// The rule, and what is told with it.
#[tactic(auto, unfolding(crate::specs::Refusals::details_data))]
fn details_value(alloc: Global, refusal: &Refusal) -> Result<Value, NoMemory>
    ensures { IfOk result (λ v. view v ≡ details_data refusal.now) }
{
    let mut object = Object::new(alloc);
    let line = rule_line(refusal.rule);
    object.put_text("rule", line.name)?;
    for phrase in line.phrases {
        let part = phrase.1;
        object.put(part_key(part), part_value(alloc, &refusal.details, part)?)?;
    }
    Ok(object.into_value())
}

/// A text with a part in words after it, if the part isn't empty.
fn with_part(mut text: String, before: &str, part: &str) -> Result<String, NoMemory>
    ensures { IfOk result (λ t. string_bytes t ≡ string_bytes text ++ said before.now part.now) }
{
    if !part.is_empty() {
        text.push_str(before)?;
        text.push_str(part)?;
    }
    Ok(text)
}

/// What went wrong, with the parts in words.
fn text_in_words(alloc: Global, refusal: &Refusal) -> Result<Text, NoMemory>
    ensures { IfOk result
        (λ t. t ≡ rule_text refusal.now.rule ++ all_said refusal.now.details (phrases_of refusal.now.rule)) }
{
    let line = rule_line(refusal.rule);
    let mut text = String::from_str(alloc, line.text)?;
    for phrase in line.phrases {
        let part = part_text(alloc, &refusal.details, phrase.1)?;
        text = with_part(text, phrase.0, part.view())?;
    }
    Ok(Text::from_string(text))
}

/// What went wrong, for a person.
#[tactic(auto, unfolding(crate::specs::Refusals::error_text))]
fn error_text(alloc: Global, dialect: Dialect, refusal: &Refusal) -> Result<Text, NoMemory>
    ensures { IfOk result (λ t. t ≡ error_text dialect refusal.now) }
{
    match dialect {
        Dialect::Plain => Text::from_text(alloc, rule_line(refusal.rule).text),
        Dialect::Client => text_in_words(alloc, refusal),
    }
}

/// A refusal.
#[tactic(auto, unfolding(crate::specs::Refusals::refusal_data))]
pub(crate) fn refusal_value(
    alloc: Global,
    dialect: Dialect,
    refusal: &Refusal,
) -> Result<Value, NoMemory>
    ensures { IfOk result (λ v. view v ≡ refusal_data dialect refusal.now) }
{
    let text = error_text(alloc, dialect, refusal)?;
    let object = Object::new(alloc).with_text("error", text.view())?;
    let object = object.with_number("error_code", u64::from(rule_code(refusal.rule)))?;
    let details = details_value(alloc, refusal)?;
    let object = object
        .with("metadata", details)?
        .with_text("type", "error")?;
    Ok(object.into_value())
}

//! What the values of options say.
ghost use Rattle.std.specs.Prelude.{◌≡◌, ◌≤◌, ◌<◌, [], length, IfOk, IfSome};
ghost use Rattle.std.specs.Prelude.{is_some};
ghost use Rattle.std.specs.List.{filter_map, list_all};
ghost use Rattle.std.specs.Option.{unwrap_or};
ghost use Rattle.size_values.specs.Moments.{moment_limit};
ghost use Rattle.command_words.specs.Values.{are_call_numbers, boot_said, call_number_said};
ghost use Rattle.command_words.specs.Values.{call_numbers_said, count_said, dialect_said};
ghost use Rattle.command_words.specs.Values.{moment_said, pace_said, parts_of, seed_said};

use crate::numbers::number_said;
use crate::run_words::Pace;
use rest_json::Dialect;
use size_values::{MOMENT_LIMIT, NoMemory, Seq};
use std::alloc::Global;

/// The greatest number of steps that a pace may say.
const MOST_STEPS: u64 = 1_000_000;

/// The greatest number of instances that a stream of requests may make.
const MOST_INSTANCES: u64 = 10_000;

/// The greatest number of calls that a list may name.
const MOST_CALLS: usize = 64;

/// The moment that a value of `--now` says.
pub(crate) fn moment_said(value: &str) -> Option<u64>
    ensures said { result ≡ moment_said value.now }
    ensures early { IfSome result (λ moment. moment < moment_limit) }
{
    number_said(0, MOMENT_LIMIT - 1, value)
}

/// The word of the start that a value of `--boot` says.
pub(crate) fn boot_said(value: &str) -> Option<u64>
    ensures { result ≡ boot_said value.now }
{
    number_said(0, u64::MAX, value)
}

/// The pace that a value of `--steps` says.
pub(crate) fn pace_said(value: &str) -> Option<Pace>
    ensures { result ≡ pace_said value.now }
{
    if value == "all" {
        return Some(Pace::All);
    }
    match number_said(0, MOST_STEPS, value) {
        Some(steps) => Some(Pace::Steps(steps as u32)),
        None => None,
    }
}

/// The dialect that a value of `--dialect` says.
pub(crate) fn dialect_said(value: &str) -> Option<Dialect>
    ensures { result ≡ dialect_said value.now }
{
    if value == "plain" {
        Some(Dialect::Plain)
    } else if value == "client" {
        Some(Dialect::Client)
    } else {
        None
    }
}

/// The seed of a stream of requests.
pub(crate) fn seed_said(value: &str) -> Option<u64>
    ensures { result ≡ seed_said value.now }
{
    number_said(0, u64::MAX, value)
}

/// How many instances a stream of requests makes.
pub(crate) fn count_said(value: &str) -> Option<u32>
    ensures said { result ≡ count_said value.now }
    ensures few { IfSome result (λ count. count ≤ 10000) }
{
    match number_said(0, MOST_INSTANCES, value) {
        Some(count) => Some(count as u32),
        None => None,
    }
}

fn call_number_said(text: &str) -> Option<u64>
    ensures { result ≡ call_number_said text.now }
{
    number_said(1, u64::MAX, text)
}

/// How many parts there are between the commas of a text.
fn part_count(text: &str) -> usize
    ensures { result ≡ length (parts_of text.now) }
{
    text.split(',').count()
}

/// Whether each part between the commas of a text is the number of a call.
fn are_calls(text: &str) -> bool
    ensures { result ≡ list_all (λ part. is_some (call_number_said part)) (parts_of text.now) }
{
    text.split(',').all(|part| call_number_said(part).is_some())
}

/// Whether a text is 1 to 64 numbers of calls, joined by commas.
pub(crate) fn are_call_numbers(value: &str) -> bool
    ensures { result ≡ are_call_numbers value.now }
{
    part_count(value) <= MOST_CALLS && are_calls(value)
}

/// The numbers of calls among the parts between the commas of a text.
fn calls_among(alloc: Global, text: &str) -> Result<Seq<u64>, NoMemory>
    ensures { IfOk result (λ calls. calls ≡ filter_map call_number_said (parts_of text.now)) }
{
    let mut calls = Vec::new(alloc);
    for part in text.split(',') {
        if let Some(call) = call_number_said(part) {
            calls.push(call)?;
        }
    }
    Ok(Seq::from_vec(calls))
}

/// The numbers of calls that a value of `--fail-host` or `--fail-keeper` says; none where it says
/// no such list.
pub(crate) fn call_numbers_said(alloc: Global, value: &str) -> Result<Seq<u64>, NoMemory>
    ensures { IfOk result (λ calls. calls ≡ unwrap_or (call_numbers_said value.now) []) }
{
    if are_call_numbers(value) {
        calls_among(alloc, value)
    } else {
        Ok(Seq::new(alloc))
    }
}

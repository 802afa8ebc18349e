ghost use Rattle.std.specs.Prelude.{◌≡◌, ◌≤◌, ◌&&◌, [], Some, IfOk, IfSome, codes, ok_or, option_map};
ghost use Rattle.std.specs.Result.{result_ok};
ghost use Rattle.std.specs.Str.{bytes_eq};
ghost use Rattle.form_urlencoded.specs.Form.{raw_pairs};
ghost use Rattle.filter_texts.specs.Reading.{choice_read};
ghost use Rattle.records.specs.Forms.{longest_wait};
ghost use Rattle.records.specs.declared.refusals.Rule.TheVariants as rule;
ghost use Rattle.rest_routes.specs.Answers.{Gives};
ghost use Rattle.rest_routes.specs.Refusals.{on_key};
ghost use Rattle.rest_routes.specs.Queries.{recursion_of, has_leading_zero, timeout_seconds, timeout_of, is_type};
ghost use Rattle.rest_routes.specs.Queries.{are_types, lists_word, types_of};
ghost use Rattle.rest_routes.specs.Queries.{no_query, flags_after, filter_after, project_after, query_after};
ghost use Rattle.rest_routes.specs.Queries.{pairs_passing, query_of, query_from_text};
ghost use Rattle.rest_routes.specs.Queries.{project_of, wants_objects, asks_objects, wait_timeout, wanted_types};

use crate::refusals::refusal_on_key;
use filter_texts::{Choice, read_choice};
use form_urlencoded::parse;
use records::{Refusal, Rule};
use size_values::{NoMemory, Or, Text, read_count};
use std::alloc::Global;

/// Which types of events are wanted.
#[derive(Clone, Copy)]
pub struct Types {
    pub lifecycle: bool,
    pub operation: bool,
}

/// What a query says besides the project: whether objects are listed and not their URLs alone, how many seconds to
/// wait for an operation, with -1 for no end, and which types of events are wanted.
#[derive(Clone, Copy)]
pub struct Flags {
    pub recursion: Option<bool>,
    pub timeout: Option<i64>,
    pub types: Option<Types>,
}

/// What the query of a target says, as far as it is read.
#[derive(Drop)]
pub struct Query {
    pub project: Option<Text>,
    pub flags: Flags,
    /// The filter that chooses among the objects of a list.
    pub filter: Option<Choice>,
}

/// Whether objects are listed: `0`, `1`, or `2`, which is the same as `1`.
#[tactic(auto, unfolding(crate::specs::Queries::recursion_of))]
fn recursion_of(value: &str) -> Option<bool>
    ensures { result ≡ recursion_of value.now }
{
    if value == "0" {
        return Some(false);
    }
    if value == "1" || value == "2" {
        return Some(true);
    }
    None
}

#[tactic(auto, unfolding(crate::specs::Queries::has_leading_zero))]
fn has_leading_zero(value: &str) -> bool
    ensures { result ≡ has_leading_zero value.now }
{
    value.len() > 1 && value.as_bytes()[0] == b'0'
}

/// Seconds from 0 to 1000000 without leading zeros.
#[tactic(auto, unfolding(crate::specs::Queries::timeout_seconds), using(crate::proofs::Timeouts::count_within))]
fn timeout_seconds(value: &str) -> Option<u64>
    ensures is { result ≡ timeout_seconds value.now }
    ensures within { IfSome result (λ n. n ≤ longest_wait) }
{
    if has_leading_zero(value) {
        return None;
    }
    match read_count(value, 0, 1_000_000) {
        Ok(seconds) => Some(seconds),
        Err(_) => None,
    }
}

/// The time to wait that a text says: seconds, or `-1` for no end.
#[tactic(auto, unfolding(crate::specs::Queries::timeout_of))]
fn timeout_of(value: &str) -> Option<i64>
    ensures { result ≡ timeout_of value.now }
{
    if value == "-1" {
        return Some(-1);
    }
    match timeout_seconds(value) {
        Some(seconds) => Some(seconds as i64),
        None => None,
    }
}

#[tactic(auto, unfolding(crate::specs::Queries::is_type))]
fn is_type(word: &[u8]) -> bool
    ensures { result ≡ is_type word.now }
{
    word == b"lifecycle".as_slice() || word == b"operation".as_slice()
}

/// Whether a text is types of events with commas between.
fn are_types(value: &[u8]) -> bool
    ensures { result ≡ are_types value.now }
{
    value.split(|byte| *byte == b',').all(|word| is_type(word))
}

/// Whether one of the words with commas between is this one.
fn lists_word(word: &[u8], value: &[u8]) -> bool
    ensures { result ≡ lists_word word.now value.now }
{
    value
        .split(|byte| *byte == b',')
        .any(|part| is_word(part, word))
}

fn is_word(part: &[u8], word: &[u8]) -> bool
    ensures { result ≡ bytes_eq part.now word.now }
{
    part == word
}

/// The types of events that a text lists, if it lists nothing else.
#[tactic(auto, unfolding(crate::specs::Queries::types_of))]
fn types_of(value: &[u8]) -> Option<Types>
    ensures { result ≡ types_of value.now }
{
    if !are_types(value) {
        return None;
    }
    Some(Types {
        lifecycle: lists_word(b"lifecycle", value),
        operation: lists_word(b"operation", value),
    })
}

/// The flags after one more pair, or none if the pair is bad. The first of equal keys counts, and keys of no meaning
/// are passed over.
#[tactic(auto, unfolding(crate::specs::Queries::flags_after))]
fn flags_after(mut flags: Flags, key: &str, value: &str) -> Option<Flags>
    ensures { result ≡ flags_after flags key.now value.now }
{
    if key == "recursion" && flags.recursion.is_none() {
        flags.recursion = Some(recursion_of(value)?);
    } else if key == "timeout" && flags.timeout.is_none() {
        flags.timeout = Some(timeout_of(value)?);
    } else if key == "type" && flags.types.is_none() {
        flags.types = Some(types_of(value.as_bytes())?);
    } else if key == "all-projects" {
        return None;
    }
    Some(flags)
}

/// The project after one more pair: the first that is named.
#[tactic(auto, unfolding(crate::specs::Queries::project_after))]
fn project_after(
    alloc: Global,
    project: Option<Text>,
    key: &str,
    value: &str,
) -> Result<Option<Text>, NoMemory>
    ensures { IfOk result (λ next. next ≡ project_after project key.now value.now) }
{
    if key == "project" && project.is_none() {
        return Ok(Some(Text::from_text(alloc, value)?));
    }
    Ok(project)
}

/// The filter that a value says, or the refusal of its key where it says none.
fn filter_said(alloc: Global, key: &str, value: &str) -> Result<Option<Choice>, Or<Refusal>>
    ensures { Gives result (ok_or (option_map Some (result_ok (choice_read value.now))) (on_key rule.A3 key.now)) }
{
    match read_choice(alloc, value) {
        Ok(choice) => Ok(Some(choice)),
        Err(Or::Why(_)) => Err(refusal_on_key(alloc, Rule::A3, key)),
        Err(Or::NoMemory) => Err(Or::NoMemory),
    }
}

/// The filter after one more pair, where one is taken or not: the first that is said.
#[tactic(auto, unfolding(crate::specs::Queries::filter_after))]
fn filter_after(
    alloc: Global,
    taken: bool,
    filter: Option<Choice>,
    key: &str,
    value: &str,
) -> Result<Option<Choice>, Or<Refusal>>
    ensures { Gives result (ok_or (filter_after taken filter key.now value.now) (on_key rule.A3 key.now)) }
{
    if key != "filter" {
        return Ok(filter);
    }
    if !taken {
        return Err(refusal_on_key(alloc, Rule::A3, key));
    }
    if filter.is_some() {
        return Ok(filter);
    }
    filter_said(alloc, key, value)
}

/// The query after one more pair, where a filter is taken or not, or the refusal of a bad pair by its key.
#[tactic(auto, unfolding(crate::specs::Queries::query_after))]
fn query_after(
    alloc: Global,
    taken: bool,
    query: Query,
    key: &str,
    value: &str,
) -> Result<Query, Or<Refusal>>
    ensures { Gives result (query_after taken query key.now value.now) }
{
    let Query {
        project,
        flags,
        filter,
    } = query;
    let Some(flags) = flags_after(flags, key, value) else {
        return Err(refusal_on_key(alloc, Rule::A3, key));
    };
    let filter = filter_after(alloc, taken, filter, key, value)?;
    let project = project_after(alloc, project, key, value)?;
    Ok(Query {
        project,
        flags,
        filter,
    })
}

/// Whether a pair of a query is a filter that filters nothing.
fn is_empty_filter(key: &str, value: &str) -> bool
    ensures { result ≡ (bytes_eq key.now (codes "filter") && bytes_eq value.now []) }
{
    key == "filter" && value.is_empty()
}

/// What a query says, or the refusal of its first bad pair. Keys and values are those of a form (URL Standard,
/// section 5), and bytes that are no UTF-8 are replaced. A filter is taken or not, and empty filters may be passed over.
pub(crate) fn query_read(
    alloc: Global,
    text: &str,
    taken: bool,
    passes_empty_filters: bool,
) -> Result<Query, Or<Refusal>>
    ensures { Gives result (query_of taken (pairs_passing passes_empty_filters (raw_pairs text.now))) }
{
    let mut query = Query {
        project: None,
        flags: Flags {
            recursion: None,
            timeout: None,
            types: None,
        },
        filter: None,
    };
    for pair in parse(alloc, text.as_bytes()) {
        let (key, value) = pair?;
        if !(passes_empty_filters && is_empty_filter(&key, &value)) {
            query = query_after(alloc, taken, query, &key, &value)?;
        }
    }
    Ok(query)
}

/// What a query says where no filter is taken, or the refusal of its first bad pair.
#[tactic(auto, unfolding(crate::specs::Queries::query_from_text), using(crate::proofs::Passing::none_passed))]
pub fn query_from_text(alloc: Global, text: &str) -> Result<Query, Or<Refusal>>
    ensures { Gives result (query_from_text text.now) }
{
    query_read(alloc, text, false, false)
}

/// The project that is asked in.
pub fn project_of(alloc: Global, query: Query) -> Result<Text, NoMemory>
    ensures { IfOk result (λ t. t ≡ project_of query) }
{
    let Query {
        project,
        flags: _,
        filter,
    } = query;
    drop(filter);
    match project {
        Some(project) => Ok(project),
        None => Text::from_text(alloc, "default"),
    }
}

/// Whether objects are listed, and not their URLs alone.
pub fn wants_objects(query: &Query) -> bool
    ensures { result ≡ wants_objects query.now }
{
    match query.flags.recursion {
        Some(objects) => objects,
        None => false,
    }
}

/// Whether objects are asked for: where they are listed, and where a filter chooses among them.
pub(crate) fn asks_objects(query: &Query) -> bool
    ensures { result ≡ asks_objects query.now }
{
    wants_objects(query) || query.filter.is_some()
}

/// How many seconds to wait for an operation, or -1 for no end, which is also where nothing is said.
pub fn wait_timeout(query: &Query) -> i64
    ensures { result ≡ wait_timeout query.now }
{
    match query.flags.timeout {
        Some(time) => time,
        None => -1,
    }
}

/// Which types of events are wanted: both, where nothing is said.
pub fn wanted_types(query: &Query) -> Types
    ensures { result ≡ wanted_types query.now }
{
    match query.flags.types {
        Some(types) => types,
        None => Types {
            lifecycle: true,
            operation: true,
        },
    }
}

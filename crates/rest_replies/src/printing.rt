//! Replies: the code, the Location, the entity tag and the body of each.
ghost use Rattle.std.specs.Prelude.{◌≡◌, ◌++◌, [], Some, false, map, IfOk, IsTrue};
ghost use Rattle.std.specs.Option.{option_copied};
ghost use Rattle.http_front.specs.Replies.{is_reply_code};
ghost use Rattle.serde_json.specs.View.{view};
ghost use Rattle.serde_json.specs.Written.{has_float, compact_text};
ghost use Rattle.list_filter.specs.Urls.{view_url};
ghost use Rattle.rest_json.specs.Objects.{list_of};
ghost use Rattle.rest_json.specs.Settings.{texts_data};
ghost use Rattle.rest_json.specs.Views.{view_data};
ghost use Rattle.rest_replies.specs.Chosen.{chosen, chosen_reply, is_chosen};
ghost use Rattle.rest_replies.specs.Refusals.{refusal_data};
ghost use Rattle.rest_replies.specs.Replies.{success_data, nothing_data, started_data, urls_data, by_status, operations_data};
ghost use Rattle.rest_replies.specs.Replies.{whole_by_status, no_memory_refusal, reply_data, reply_code};
ghost use Rattle.rest_replies.specs.Replies.{reply_location, printed_of};

use crate::refusals::{refusal_value, rule_code};
use crate::tags::reply_tag;
use filter_texts::Choice;
use http_front::Printed;
use list_filter::{takes, url_of_view};
use records::{Details, OpView, Refusal, Reply, Rule, Status, View};
use rest_json::{
    Dialect, JsonText, Object, Terms, operation_url, operation_value, status_key, write_operation,
    write_view,
};
use serde_json::Value;
use size_values::{NoMemory, Seq, Text};
use std::alloc::Global;

/// What stands in a reply before what it tells, and after that where the command was carried out at once.
const FRONT: &str = "{\"metadata\":";

const BACK: &str = ",\"status\":\"Success\",\"status_code\":200,\"type\":\"sync\"}";

/// The reply to a command that was carried out at once, with what it tells.
fn told_body(alloc: Global, told: &Value) -> Result<Seq<u8>, NoMemory>
    requires { has_float (view told.now) ≡ false }
    ensures { IfOk result (λ b. b ≡ compact_text (success_data (view told.now))) }
{
    let text = JsonText::new(alloc, 1_024)?
        .plain(FRONT)?
        .value(told)?
        .plain(BACK)?;
    Ok(text.into_bytes())
}

/// What is told where a command tells nothing.
fn nothing_text(dialect: Dialect) -> &'static str
    ensures { result.now ≡ compact_text (nothing_data dialect) }
{
    match dialect {
        Dialect::Plain => "{}",
        Dialect::Client => "{\"status_code\":200}",
    }
}

/// The reply to a command that tells nothing.
fn empty_body(alloc: Global, dialect: Dialect) -> Result<Seq<u8>, NoMemory>
    ensures { IfOk result (λ b. b ≡ compact_text (success_data (nothing_data dialect))) }
{
    let text = JsonText::new(alloc, 128)?
        .plain(FRONT)?
        .plain(nothing_text(dialect))?
        .plain(BACK)?;
    Ok(text.into_bytes())
}

/// The reply that tells URLs.
fn urls_body(alloc: Global, urls: &Seq<Text>) -> Result<Seq<u8>, NoMemory>
    ensures { IfOk result (λ b. b ≡ compact_text (success_data (texts_data urls.now))) }
{
    let text = JsonText::new(alloc, 1_024)?
        .plain(FRONT)?
        .texts(urls)?
        .plain(BACK)?;
    Ok(text.into_bytes())
}

/// The reply that tells of one object.
fn one_body(alloc: Global, terms: Terms, shown: &View) -> Result<Seq<u8>, NoMemory>
    ensures { IfOk result (λ b. b ≡ compact_text (success_data (view_data terms shown.now))) }
{
    let front = JsonText::new(alloc, 1_024)?.plain(FRONT)?;
    let text = write_view(front, alloc, terms, shown)?.plain(BACK)?;
    Ok(text.into_bytes())
}

/// Whether a filter chooses an object; without one each is chosen.
fn is_chosen(
    alloc: Global,
    terms: Terms,
    choice: Option<&Choice>,
    shown: &View,
) -> Result<bool, NoMemory>
    ensures { IfOk result (λ b. b ≡ is_chosen terms (option_copied choice.entry) shown.now) }
{
    match choice {
        Some(choice) => takes(alloc, terms, choice, shown),
        None => Ok(true),
    }
}

/// The chosen objects of any kind, as a list.
fn write_views(
    text: JsonText,
    alloc: Global,
    terms: Terms,
    choice: Option<&Choice>,
    views: &Seq<View>,
) -> Result<JsonText, NoMemory>
    ensures { IfOk result (λ t. t ≡ text ++ compact_text (list_of (map (view_data terms)
        (chosen terms (option_copied choice.entry) views.now)))) }
{
    let mut written = text.plain("[")?;
    let mut later = false;
    for shown in views.view() {
        if is_chosen(alloc, terms, choice, shown)? {
            written = write_view(written.comma(later)?, alloc, terms, shown)?;
            later = true;
        }
    }
    written.plain("]")
}

/// The reply that tells of chosen objects.
fn many_body(
    alloc: Global,
    terms: Terms,
    choice: Option<&Choice>,
    views: &Seq<View>,
) -> Result<Seq<u8>, NoMemory>
    ensures { IfOk result (λ b. b ≡ compact_text (success_data (list_of (map (view_data terms)
        (chosen terms (option_copied choice.entry) views.now))))) }
{
    let front = JsonText::new(alloc, 1_024)?.plain(FRONT)?;
    let text = write_views(front, alloc, terms, choice, views)?.plain(BACK)?;
    Ok(text.into_bytes())
}

/// The URLs of the objects that a filter chooses.
fn chosen_urls(
    alloc: Global,
    terms: Terms,
    choice: &Choice,
    views: &Seq<View>,
) -> Result<Seq<Text>, NoMemory>
    ensures { IfOk result (λ urls. urls ≡ map view_url (chosen terms (Some choice.now) views.now)) }
{
    let mut urls = Seq::new(alloc);
    for shown in views.view() {
        if takes(alloc, terms, choice, shown)? {
            urls.push(url_of_view(alloc, shown)?)?;
        }
    }
    Ok(urls)
}

/// The reply that tells of the objects that a filter chooses, whole or by their URLs.
fn chosen_body(
    alloc: Global,
    terms: Terms,
    choice: &Choice,
    whole: bool,
    views: &Seq<View>,
) -> Result<Seq<u8>, NoMemory>
    ensures { IfOk result
        (λ b. b ≡ compact_text (reply_data terms (chosen_reply terms (Some choice.now) whole views.now))) }
{
    if whole {
        return many_body(alloc, terms, Some(choice), views);
    }
    let urls = chosen_urls(alloc, terms, choice, views)?;
    urls_body(alloc, &urls)
}

/// The reply to a command that began an operation.
fn started_body(alloc: Global, boot: u64, operation: &OpView) -> Result<Seq<u8>, NoMemory>
    ensures { IfOk result (λ b. b ≡ compact_text (started_data boot operation.now)) }
{
    let front = JsonText::new(alloc, 1_024)?.plain(FRONT)?;
    let text = write_operation(front, alloc, boot, operation)?
        .plain(",\"operation\":")?
        .url(boot, operation.number)?
        .plain(",\"status\":\"Operation created\",\"status_code\":100,\"type\":\"async\"}")?;
    Ok(text.into_bytes())
}

/// Operations by their URLs.
#[tactic(auto, unfolding(crate::specs::Replies::urls_data))]
fn urls_value(alloc: Global, boot: u64, numbers: &Seq<u64>) -> Result<Value, NoMemory>
    ensures { IfOk result (λ v. view v ≡ urls_data boot numbers.now) }
{
    let mut values = Vec::new(alloc);
    for number in numbers.view() {
        let url = operation_url(alloc, boot, *number)?;
        values.push(Value::String(String::from_str(alloc, url.view())?))?;
    }
    Ok(Value::Array(values))
}

/// The URLs of operations by status.
#[tactic(auto, unfolding(crate::specs::Replies::by_status))]
fn by_status(alloc: Global, boot: u64, groups: &Seq<(Status, Seq<u64>)>) -> Result<Value, NoMemory>
    ensures { IfOk result (λ v. view v ≡ by_status boot groups.now) }
{
    let mut object = Object::new(alloc);
    for group in groups.view() {
        object.put(status_key(group.0), urls_value(alloc, boot, &group.1)?)?;
    }
    Ok(object.into_value())
}

/// Operations as objects.
#[tactic(auto, unfolding(crate::specs::Replies::operations_data))]
fn operations_value(alloc: Global, boot: u64, operations: &Seq<OpView>) -> Result<Value, NoMemory>
    ensures { IfOk result (λ v. view v ≡ operations_data boot operations.now) }
{
    let mut values = Vec::new(alloc);
    for operation in operations.view() {
        values.push(operation_value(alloc, boot, operation)?)?;
    }
    Ok(Value::Array(values))
}

/// Operations by status.
#[tactic(auto, unfolding(crate::specs::Replies::whole_by_status))]
fn whole_by_status(
    alloc: Global,
    boot: u64,
    groups: &Seq<(Status, Seq<OpView>)>,
) -> Result<Value, NoMemory>
    ensures { IfOk result (λ v. view v ≡ whole_by_status boot groups.now) }
{
    let mut object = Object::new(alloc);
    for group in groups.view() {
        object.put(
            status_key(group.0),
            operations_value(alloc, boot, &group.1)?,
        )?;
    }
    Ok(object.into_value())
}

/// The refusal where there is no memory. It takes none itself.
fn no_memory_refusal(alloc: Global) -> Refusal
    ensures { result ≡ no_memory_refusal }
{
    Refusal {
        rule: Rule::M1,
        details: Details {
            kind: Text::new(alloc),
            project: Text::new(alloc),
            name: Text::new(alloc),
            key: Text::new(alloc),
            number: 0,
            used: 0,
            asked: 0,
            limit: 0,
        },
    }
}

/// The reply that tells operations by status, by their URLs.
#[tactic(auto, using(crate::proofs::Plain::by_status_plain))]
fn by_status_body(
    alloc: Global,
    boot: u64,
    groups: &Seq<(Status, Seq<u64>)>,
) -> Result<Seq<u8>, NoMemory>
    ensures { IfOk result (λ b. b ≡ compact_text (success_data (by_status boot groups.now))) }
{
    let told = by_status(alloc, boot, groups)?;
    told_body(alloc, &told)
}

/// The reply that tells operations by status.
#[tactic(auto, using(crate::proofs::Plain::whole_by_status_plain))]
fn whole_by_status_body(
    alloc: Global,
    boot: u64,
    groups: &Seq<(Status, Seq<OpView>)>,
) -> Result<Seq<u8>, NoMemory>
    ensures { IfOk result
        (λ b. b ≡ compact_text (success_data (whole_by_status boot groups.now))) }
{
    let told = whole_by_status(alloc, boot, groups)?;
    told_body(alloc, &told)
}

/// The reply that refuses a command.
#[tactic(auto, using(crate::proofs::Plain::refusal_plain))]
fn refused_body(alloc: Global, dialect: Dialect, refusal: &Refusal) -> Result<Seq<u8>, NoMemory>
    ensures { IfOk result (λ b. b ≡ compact_text (refusal_data dialect refusal.now)) }
{
    let value = refusal_value(alloc, dialect, refusal)?;
    let text = JsonText::new(alloc, 256)?.value(&value)?;
    Ok(text.into_bytes())
}

/// The body of a reply as its bytes.
fn reply_body(alloc: Global, terms: Terms, reply: &Reply) -> Result<Seq<u8>, NoMemory>
    ensures { IfOk result (λ b. b ≡ compact_text (reply_data terms reply.now)) }
{
    match reply {
        Reply::Empty => empty_body(alloc, terms.dialect),
        Reply::Links(urls) => urls_body(alloc, urls),
        Reply::One(shown) => one_body(alloc, terms, shown),
        Reply::Many(views) => many_body(alloc, terms, None, views),
        Reply::OpLinks(groups) => by_status_body(alloc, terms.boot, groups),
        Reply::OpMany(groups) => whole_by_status_body(alloc, terms.boot, groups),
        Reply::Started(operation) => started_body(alloc, terms.boot, operation),
        Reply::Refused(refusal) => refused_body(alloc, terms.dialect, refusal),
        Reply::NoMemory => refused_body(alloc, terms.dialect, &no_memory_refusal(alloc)),
    }
}

/// The HTTP status code of a reply.
fn reply_code(reply: &Reply) -> u16
    ensures code { result ≡ reply_code reply.now }
    ensures known { IsTrue (is_reply_code result) }
{
    match reply {
        Reply::Started(_) => 202,
        Reply::Refused(refusal) => rule_code(refusal.rule),
        Reply::NoMemory => rule_code(Rule::M1),
        Reply::Empty
        | Reply::Links(_)
        | Reply::One(_)
        | Reply::Many(_)
        | Reply::OpLinks(_)
        | Reply::OpMany(_) => 200,
    }
}

/// The Location of a reply, which only the start of an operation has.
fn reply_location(alloc: Global, boot: u64, reply: &Reply) -> Result<Text, NoMemory>
    ensures { IfOk result (λ t. t ≡ reply_location boot reply.now) }
{
    match reply {
        Reply::Started(operation) => operation_url(alloc, boot, operation.number),
        Reply::Empty
        | Reply::Links(_)
        | Reply::One(_)
        | Reply::Many(_)
        | Reply::OpLinks(_)
        | Reply::OpMany(_)
        | Reply::Refused(_)
        | Reply::NoMemory => Ok(Text::new(alloc)),
    }
}

/// A reply as it is printed: its code, its body as JSON, its Location, and in the client's dialect the entity tag of the
/// row that it shows, if it shows one (RFC 9110, section 8.8.3). With `last` the connection ends after the reply.
#[tactic(auto, unfolding(crate::specs::Replies::printed_of))]
pub fn print(alloc: Global, reply: &Reply, terms: Terms, last: bool) -> Result<Printed, NoMemory>
    ensures text { IfOk result (λ p. p ≡ printed_of reply.now terms last) }
    ensures code { IfOk result (λ p. IsTrue (is_reply_code p.code)) }
{
    Ok(Printed {
        code: reply_code(reply),
        body: reply_body(alloc, terms, reply)?,
        location: reply_location(alloc, terms.boot, reply)?,
        tag: reply_tag(alloc, terms.dialect, reply)?,
        last,
    })
}

/// The list of the objects that a filter chooses as it is printed, whole or by their URLs. With `last` the connection
/// ends after the reply.
#[tactic(auto, unfolding(crate::specs::Replies::printed_of))]
pub fn print_chosen(
    alloc: Global,
    views: &Seq<View>,
    choice: &Choice,
    whole: bool,
    terms: Terms,
    last: bool,
) -> Result<Printed, NoMemory>
    ensures text { IfOk result
        (λ p. p ≡ printed_of (chosen_reply terms (Some choice.now) whole views.now) terms last) }
    ensures code { IfOk result (λ p. IsTrue (is_reply_code p.code)) }
{
    Ok(Printed {
        code: 200,
        body: chosen_body(alloc, terms, choice, whole, views)?,
        location: Text::new(alloc),
        tag: Text::new(alloc),
        last,
    })
}

//! What is written for a reply.
ghost use Rattle.std.specs.Prelude.{◌≡◌, true, false, IfOk, IsTrue};
ghost use Rattle.http_heads.specs.declared.request.Request.{Request as RequestValue};
ghost use Rattle.http_front.specs.Replies.{head_text, is_reply_code, reply_text};
ghost use Rattle.records.specs.declared.replies.Reply.TheVariants as reply;
ghost use Rattle.records.specs.declared.replies.View.TheVariants as view;
ghost use Rattle.row_machine.specs.machine.Refusals.{plain_refusal};
ghost use Rattle.rest_replies.specs.Replies.{printed_of};
ghost use Rattle.rest_answers.specs.Texts.{HasText, IsUnprinted, asks_head, malformed_text, no_memory_printed};
ghost use Rattle.rest_answers.specs.Texts.{no_memory_text, no_terms, printed, rule_of, whole_text};
ghost use Rattle.rest_answers.specs.Told.{told_to};

use crate::reply_text::ReplyText;
use http_front::{HeadFault, Printed, Request, no_memory_reply, reply_bytes};
use records::{Refusal, Reply, Rule};
use rest_replies::{
    Dialect, Terms, known_reply, no_memory_is_known, print, print_chosen, server_text,
};
use rest_routes::{list_query, wants_objects};
use rules_refusals::no_details;
use size_values::{NoMemory, Seq};
use std::alloc::Global;

/// What is to be written for a request.
#[derive(Drop)]
pub enum PrintedReply {
    /// These bytes.
    Printed(ReplyText),
    /// Memory was refused before anything changed: the reply that takes none
    /// (`http_front::no_memory_reply`).
    NoMemory,
    /// The request was carried out, but memory for its reply was refused, so nothing can be
    /// written.
    Unprinted,
}

/// Whether the method of a request is HEAD.
pub(crate) fn asks_head(request: &Request) -> bool
    ensures { result ≡ asks_head request.now }
{
    request.method.view() == "HEAD"
}

/// All bytes of a reply.
#[tactic(auto, unfolding(crate::specs::Texts::whole_text))]
fn whole_text(alloc: Global, reply: &Reply, terms: Terms, last: bool) -> Result<Seq<u8>, NoMemory>
    ensures { IfOk result (λ bytes. bytes ≡ whole_text reply.now terms last) }
{
    let printed = print(alloc, reply, terms, last)?;
    reply_bytes(alloc, &printed)
}

/// The bytes of a printed reply before its body.
#[tactic(auto, using(crate::proofs::Printing::before_body, crate::proofs::Printing::body_fits))]
fn head_text(alloc: Global, printed: &Printed) -> Result<Seq<u8>, NoMemory>
    requires { IsTrue (is_reply_code printed.now.code) }
    ensures { IfOk result (λ bytes. bytes ≡ head_text printed.now) }
{
    let whole = reply_bytes(alloc, printed)?;
    let len = whole.len() - printed.body.len();
    Seq::of_bytes(alloc, &whole.view()[..len])
}

/// What is told to a request of a reply, as it is printed: of a list with a filter, the objects that it chooses.
fn print_told(
    alloc: Global,
    reply: &Reply,
    terms: Terms,
    request: &Request,
) -> Result<Printed, NoMemory>
    ensures text { IfOk result
        (λ p. p ≡ printed_of (told_to request.now terms reply.now) terms request.now.last) }
    ensures code { IfOk result (λ p. IsTrue (is_reply_code p.code)) }
{
    if let Reply::Many(views) = reply {
        if let Some(query) = list_query(alloc, terms.dialect, request.target.view())? {
            if let Some(choice) = &query.filter {
                let whole = wants_objects(&query);
                return print_chosen(alloc, views, choice, whole, terms, request.last);
            }
        }
    }
    print(alloc, reply, terms, request.last)
}

/// The head of what is told to a request, as HEAD is answered.
fn told_head(
    alloc: Global,
    reply: &Reply,
    terms: Terms,
    request: &Request,
) -> Result<Seq<u8>, NoMemory>
    ensures { IfOk result
        (λ bytes. bytes ≡ head_text (printed_of (told_to request.now terms reply.now) terms request.now.last)) }
{
    let printed = print_told(alloc, reply, terms, request)?;
    head_text(alloc, &printed)
}

/// All bytes of what is told to a request.
fn told_text(
    alloc: Global,
    reply: &Reply,
    terms: Terms,
    request: &Request,
) -> Result<Seq<u8>, NoMemory>
    ensures { IfOk result
        (λ bytes. bytes ≡ reply_text (printed_of (told_to request.now terms reply.now) terms request.now.last)) }
{
    let printed = print_told(alloc, reply, terms, request)?;
    reply_bytes(alloc, &printed)
}

/// The bytes of the reply to a request: those that stand ready, or else they are made.
#[tactic(auto, unfolding(crate::specs::Texts::printed), using(crate::proofs::Printing::ready_told))]
fn text_of(
    alloc: Global,
    reply: &Reply,
    terms: Terms,
    request: &Request,
) -> Result<ReplyText, NoMemory>
    ensures { IfOk result (λ bytes. bytes ≡ printed reply.now terms request.now) }
{
    if asks_head(request) {
        return Ok(ReplyText::made(told_head(alloc, reply, terms, request)?));
    }
    match known_reply(reply, terms, request.last) {
        Some(text) => Ok(ReplyText::ready(text)),
        None => Ok(ReplyText::made(told_text(alloc, reply, terms, request)?)),
    }
}

/// What is to be written for the reply to a request, which says whether the connection ends after it: for HEAD the
/// head of the reply alone (RFC 9110, section 9.3.2).
pub fn answer_for(alloc: Global, reply: &Reply, terms: Terms, request: &Request) -> PrintedReply
    ensures { HasText result reply.now terms request.now }
{
    match reply {
        Reply::NoMemory => {
            no_memory_is_known();
            PrintedReply::NoMemory
        }
        _ => match text_of(alloc, reply, terms, request) {
            Ok(bytes) => PrintedReply::Printed(bytes),
            Err(NoMemory) => PrintedReply::Unprinted,
        },
    }
}

/// How many bytes of the reply that takes no memory are its body.
const NO_MEMORY_BODY: usize = 78;

/// The head of the reply that takes no memory.
#[tactic(auto, using(crate::proofs::Printing::no_memory_front))]
fn no_memory_head(last: bool) -> &'static [u8]
    ensures { result.now ≡ head_text (no_memory_printed last) }
{
    let reply = no_memory_reply(last);
    &reply[..reply.len() - NO_MEMORY_BODY]
}

/// What is written of the reply that takes no memory. It takes none.
pub fn no_memory_text(request: &Request) -> &'static [u8]
    ensures { result.now ≡ no_memory_text request.now }
{
    if asks_head(request) {
        no_memory_head(request.last)
    } else {
        no_memory_reply(request.last)
    }
}

/// What is to be written for who asks for the server by GET, where the connection stays open after it. It takes no
/// memory.
pub fn server_answer(terms: Terms) -> PrintedReply
    ensures text { (request : RequestValue) → request.last ≡ false → asks_head request ≡ false
        → HasText result (reply.One view.Server) terms request }
    ensures printed { ¬ (IsUnprinted result) }
{
    PrintedReply::Printed(ReplyText::ready(server_text(terms)))
}

/// The rule that a malformed place breaks.
fn rule_of(fault: HeadFault) -> Rule
    ensures { result ≡ rule_of fault }
{
    match fault {
        HeadFault::H1 => Rule::H1,
        HeadFault::H2 => Rule::H2,
        HeadFault::H3 => Rule::H3,
        HeadFault::H4 => Rule::H4,
        HeadFault::H5 => Rule::H5,
    }
}

/// The refusal of a malformed place.
fn refusal_of(alloc: Global, fault: HeadFault) -> Refusal
    ensures { result ≡ plain_refusal (rule_of fault) }
{
    Refusal {
        rule: rule_of(fault),
        details: no_details(alloc),
    }
}

/// No boot word, in the plain dialect.
fn no_terms() -> Terms
    ensures { result ≡ no_terms }
{
    Terms {
        boot: 0,
        dialect: Dialect::Plain,
        refuses_origin: false,
    }
}

/// The bytes that answer a place in which no request can begin: its rule, and that the connection
/// ends (RFC 9112, section 9.6). Such a refusal tells no id and no part, so any terms serve.
pub fn print_malformed(alloc: Global, fault: HeadFault) -> Result<Seq<u8>, NoMemory>
    ensures { IfOk result (λ bytes. bytes ≡ malformed_text fault) }
{
    let reply = Reply::Refused(refusal_of(alloc, fault));
    let text = whole_text(alloc, &reply, no_terms(), true);
    drop(reply);
    text
}

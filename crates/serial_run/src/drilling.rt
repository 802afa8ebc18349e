ghost use Rattle.std.specs.Prelude.{◌≡◌, ◌≤◌, ◌++◌, ◌⊎◌, [], List, IfOk, string_bytes};
ghost use Rattle.http_heads.specs.Messages.{ended, Splits};
ghost use Rattle.http_heads.specs.declared.request.Request.{Request as RequestValue};
ghost use Rattle.serial_run.specs.Commands.{Answers, Drills, DrillsOver};
ghost use Rattle.serial_run.specs.Commands.{DrillsText, Tells, TellsDrill, drilled_text};
ghost use Rattle.serial_run.specs.Worlds.{outlet};
ghost use Rattle.serial_steps.specs.Steps.{hosted, serial_world};
ghost use Rattle.workload.specs.Stream.{stream_of};

use crate::report::check_report;
use crate::service::Service;
use crate::session::SessionEnd;
use crate::session_loop::serve;
use crate::telling::{OUT_OF_MEMORY, open_status, tell};
use command_words::Pace;
use host_model::Host;
use http_front::{Buffer, ByteSink, ByteSource, Clock, Sink};
use record_keeper::Keeper;
use rest_json::Terms;
use size_values::{NoMemory, Seq};
use std::alloc::Global;
use workload::{make_stream, summary_of};

/// How many bytes a source of made requests gives at once.
const PIECE: usize = 4096;

/// What is read of a drill before its first request, and where its replies go.
#[derive(Drop)]
struct Input {
    buffer: Buffer,
    source: ByteSource,
}

/// The replies of a drill summed up, and what the rows are after them.
#[tactic(auto, unfolding(crate::specs::Report::counts_of, crate::specs::Report::books_of))]
fn drilled_text(alloc: Global, replies: &[u8], service: &Service) -> Result<String, NoMemory>
    ensures { IfOk result (λ text. string_bytes text ≡ drilled_text replies.now service.now.state) }
{
    let bytes = Seq::of_bytes(alloc, replies)?;
    let summary = summary_of(alloc, &bytes)?;
    drop(bytes);
    let report = check_report(alloc, &service.view())?;
    let text = joined(alloc, summary.view(), report.view());
    drop(report);
    drop(summary);
    text
}

/// One text and then another one.
fn joined(alloc: Global, first: &str, second: &str) -> Result<String, NoMemory>
    ensures { IfOk result (λ text. string_bytes text ≡ first.now ++ second.now) }
{
    Ok(format!(in alloc; "{first}{second}")?)
}

/// An empty buffer, and a source of the requests that a number stands for.
fn input_of(alloc: Global, seed: u64, count: u32) -> Result<Input, NoMemory>
    requires { count ≤ 10000 }
    ensures buffer { IfOk result (λ input. input.buffer ≡ []) }
    ensures source { IfOk result (λ input. input.source.left ≡ stream_of seed count) }
{
    let stream = make_stream(alloc, seed, count)?;
    let buffer = Buffer::new(alloc)?;
    Ok(Input {
        buffer,
        source: ByteSource::new(stream, PIECE, Seq::new(alloc)),
    })
}

/// Answers the requests of a source, and the worker makes all of its steps after each.
fn answer_all<R: Keeper, H: Host, C: Clock>(
    alloc: Global,
    input: Input,
    replies: &mut ByteSink,
    keeper: &mut R,
    host: &mut H,
    clock: &mut C,
    service: &mut Service,
    terms: Terms,
) -> SessionEnd
    requires buffer { input.buffer ≡ [] }
    requires empty { replies.old.held ≡ [] }
    ensures { Answers terms input.source.left
        (serial_world service.old (R.store keeper.old) (hosted H.contents H.failures host.old) (C.readings clock.old))
        (serial_world service.new (R.store keeper.new) (hosted H.contents H.failures host.new) (C.readings clock.new))
        replies.new.held result }
{
    let Input {
        mut buffer,
        mut source,
    } = input;
    let ends = serve(
        alloc,
        &mut buffer,
        &mut source,
        replies,
        keeper,
        host,
        clock,
        service,
        terms,
        Pace::All,
    );
    drop(source);
    drop(buffer);
    ends
}

/// Tells what the replies of a drill and the rows after them come to.
fn tell_text<K: Sink>(alloc: Global, sink: &mut K, replies: &[u8], service: &Service) -> u8
    ensures { Tells result (drilled_text replies.now service.now.state)
        (outlet K.held K.failures sink.old) (outlet K.held K.failures sink.new) }
{
    match drilled_text(alloc, replies, service) {
        Ok(text) => {
            let status = tell(sink, text.as_bytes());
            drop(text);
            status
        }
        Err(NoMemory) => OUT_OF_MEMORY,
    }
}

/// Tells what a drill came to, where all of its requests were answered.
fn tell_drill<K: Sink>(
    alloc: Global,
    sink: &mut K,
    replies: &[u8],
    service: &Service,
    ends: SessionEnd,
) -> u8
    ensures { TellsDrill ends result (drilled_text replies.now service.now.state)
        (outlet K.held K.failures sink.old) (outlet K.held K.failures sink.new) }
{
    match ends {
        SessionEnd::Ended => tell_text(alloc, sink, replies, service),
        SessionEnd::Cut => OUT_OF_MEMORY,
        SessionEnd::Malformed(_) => OUT_OF_MEMORY,
        SessionEnd::ReadFault => OUT_OF_MEMORY,
        SessionEnd::WriteFault => OUT_OF_MEMORY,
        SessionEnd::Spent => OUT_OF_MEMORY,
        SessionEnd::NoMemory => OUT_OF_MEMORY,
    }
}

/// A drill over rows that were opened.
fn drill_over<K: Sink, R: Keeper, H: Host, C: Clock>(
    alloc: Global,
    sink: &mut K,
    keeper: &mut R,
    host: &mut H,
    clock: &mut C,
    mut service: Service,
    terms: Terms,
    seed: u64,
    count: u32,
) -> u8
    requires { count ≤ 10000 }
    ensures { DrillsOver terms (stream_of seed count) result
        (serial_world service (R.store keeper.old) (hosted H.contents H.failures host.old) (C.readings clock.old))
        (outlet K.held K.failures sink.old) (R.store keeper.new) (hosted H.contents H.failures host.new)
        (C.readings clock.new) (outlet K.held K.failures sink.new) }
{
    let Ok(input) = input_of(alloc, seed, count) else {
        drop(service);
        return OUT_OF_MEMORY;
    };
    let mut replies = ByteSink::new(alloc, Seq::new(alloc));
    let ends = answer_all(
        alloc,
        input,
        &mut replies,
        keeper,
        host,
        clock,
        &mut service,
        terms,
    );
    let status = tell_drill(alloc, sink, replies.bytes(), &service, ends);
    drop(replies);
    drop(service);
    status
}

/// Answers the requests that a number stands for, over the rows that a keeper has and in memory, and tells how many
/// replies of each code that gave, and what the rows are afterwards. The worker makes all of its steps after each
/// reply. It gives the exit status.
pub fn drill<K: Sink, R: Keeper, H: Host, C: Clock>(
    alloc: Global,
    sink: &mut K,
    keeper: &mut R,
    host: &mut H,
    clock: &mut C,
    terms: Terms,
    seed: u64,
    count: u32,
) -> u8
    requires { count ≤ 10000 }
    ensures done { Drills terms (stream_of seed count) result
        (R.store keeper.old) (hosted H.contents H.failures host.old) (C.readings clock.old)
        (outlet K.held K.failures sink.old) (R.store keeper.new) (hosted H.contents H.failures host.new)
        (C.readings clock.new) (outlet K.held K.failures sink.new) }
    // Where something was written, each request was answered as the machine says.
    ensures text { (messages : List RequestValue) → Splits (stream_of seed count) messages ended
        → (result ≡ 0) ⊎ (result ≡ 5) → DrillsText terms messages result
        (R.store keeper.old) (hosted H.contents H.failures host.old) (C.readings clock.old)
        (outlet K.held K.failures sink.old) (R.store keeper.new) (hosted H.contents H.failures host.new)
        (C.readings clock.new) (outlet K.held K.failures sink.new) }
{
    drill_from(alloc, sink, keeper, host, clock, terms, seed, count)
}

/// The same without the clause on its text, which follows.
fn drill_from<K: Sink, R: Keeper, H: Host, C: Clock>(
    alloc: Global,
    sink: &mut K,
    keeper: &mut R,
    host: &mut H,
    clock: &mut C,
    terms: Terms,
    seed: u64,
    count: u32,
) -> u8
    requires { count ≤ 10000 }
    ensures { Drills terms (stream_of seed count) result
        (R.store keeper.old) (hosted H.contents H.failures host.old) (C.readings clock.old)
        (outlet K.held K.failures sink.old) (R.store keeper.new) (hosted H.contents H.failures host.new)
        (C.readings clock.new) (outlet K.held K.failures sink.new) }
{
    match Service::new(alloc, keeper) {
        Ok(service) => drill_over(
            alloc, sink, keeper, host, clock, service, terms, seed, count,
        ),
        Err(why) => {
            let status = open_status(&why);
            drop(why);
            status
        }
    }
}

ghost use Rattle.std.specs.Prelude.{◌≡◌, ◌<◌, ◌⊎◌, ℕ, List, [], true, length, None, Some, is_some};
ghost use Rattle.std.specs.Prelude.{IfSome, map};
ghost use Rattle.std.specs.Prelude.{string_bytes};
ghost use Rattle.size_values.specs.Causes.{Rose};
ghost use Rattle.size_values.specs.declared.entry.Entry.{Entry as EntryValue};
ghost use Rattle.size_values.specs.Moments.{moment_limit};
ghost use Rattle.http_heads.specs.Messages.{Ending, ended, Splits};
ghost use Rattle.http_heads.specs.declared.request.Request.{Request};
ghost use Rattle.record_keeper.specs.Store.{after_calls};
ghost use Rattle.row_machine.specs.machine.State.{State};
ghost use Rattle.row_machine.specs.opening.Opening.{opened, opening_of};
ghost use Rattle.start_faults.specs.core_rows.specs.Opening.{is_refused};
ghost use Rattle.command_words.specs.RunWords.{AreInRange, is_run, now_of, pace_of, words_of};
ghost use Rattle.command_words.specs.declared.run_words.CommandWords.TheVariants as command_of;
ghost use Rattle.serial_steps.specs.Steps.{hosted};
ghost use Rattle.serial_run.specs.Most.{most_requests};
ghost use Rattle.serial_run.specs.Does.{Does, IsReadyFor};
ghost use Rattle.serial_run.specs.Runs.{Runs, RunsOver, SessionFrom, terms_with, seen_with};
ghost use Rattle.serial_run.specs.Inputs.{status_of};
ghost use Rattle.serial_run.specs.Texts.{RunsText, is_fault};
ghost use Rattle.serial_run.specs.Worlds.{inlet, outlet, outside, session_world};

use crate::checking::check;
use crate::drilling::drill;
use crate::making::make;
use crate::service::Service;
use crate::session::SessionEnd;
use crate::session_loop::serve;
use command_words::{CommandWords, Pace, RunWords, read_words};
use host_model::Host;
use http_front::{Buffer, Clock, Sink, Source, StillClock};
use record_keeper::Keeper;
use rest_json::{Dialect, Terms};
use size_values::NoMemory;
use start_faults::StartFault;
use std::alloc::Global;

/// One session, from an empty buffer on.
fn session<S: Source, K: Sink, R: Keeper, H: Host, C: Clock>(
    alloc: Global,
    source: &mut S,
    sink: &mut K,
    keeper: &mut R,
    host: &mut H,
    clock: &mut C,
    mut buffer: Buffer,
    mut service: Service,
    terms: Terms,
    pace: Pace,
) -> SessionEnd
    requires { buffer ≡ [] }
    ensures { SessionFrom terms pace
        (session_world []
        (outside (inlet S.left S.ended S.failures source.old) (outlet K.held K.failures sink.old)
        (R.store keeper.old) (hosted H.contents H.failures host.old) (C.readings clock.old)) service)
        (outside (inlet S.left S.ended S.failures source.new) (outlet K.held K.failures sink.new)
        (R.store keeper.new) (hosted H.contents H.failures host.new) (C.readings clock.new)) result }
{
    let ends = serve(
        alloc,
        &mut buffer,
        source,
        sink,
        keeper,
        host,
        clock,
        &mut service,
        terms,
        pace,
    );
    drop(service);
    drop(buffer);
    ends
}

/// A run whose words are read, over its clock.
fn run_over<S: Source, K: Sink, R: Keeper, H: Host, C: Clock>(
    alloc: Global,
    source: &mut S,
    sink: &mut K,
    mut keeper: R,
    host: &mut H,
    clock: &mut C,
    terms: Terms,
    pace: Pace,
) -> (u8, R)
    ensures { RunsOver terms pace
        (outside (inlet S.left S.ended S.failures source.old) (outlet K.held K.failures sink.old)
        (R.store keeper) (hosted H.contents H.failures host.old) (C.readings clock.old))
        (outside (inlet S.left S.ended S.failures source.new) (outlet K.held K.failures sink.new)
        (R.store result.1) (hosted H.contents H.failures host.new) (C.readings clock.new)) result.0 }
{
    let Ok(buffer) = Buffer::new(alloc) else {
        return (StartFault::NoMemory.status(), keeper);
    };
    match Service::new(alloc, &mut keeper) {
        Ok(service) => {
            let ends = session(
                alloc,
                source,
                sink,
                &mut keeper,
                host,
                clock,
                buffer,
                service,
                terms,
                pace,
            );
            (ends.status(), keeper)
        }
        Err(fault) => (StartFault::of(fault).status(), keeper),
    }
}

/// A run, as its options say.
fn run_said<S: Source, K: Sink, R: Keeper, H: Host, C: Clock>(
    alloc: Global,
    said: RunWords,
    source: &mut S,
    sink: &mut K,
    keeper: R,
    host: &mut H,
    clock: &mut C,
    boot: u64,
) -> (u8, R)
    requires early { IfSome said.now (λ moment. moment < moment_limit) }
    ensures { (words : List (List ℕ)) → words_of words ≡ Some (command_of.Run said) → Runs words boot
        (outside (inlet S.left S.ended S.failures source.old) (outlet K.held K.failures sink.old)
        (R.store keeper) (hosted H.contents H.failures host.old) (C.readings clock.old))
        (outside (inlet S.left S.ended S.failures source.new) (outlet K.held K.failures sink.new)
        (R.store result.1) (hosted H.contents H.failures host.new) (C.readings clock.new)) result.0 }
{
    let boot = said.boot.unwrap_or(boot);
    let terms = Terms {
        boot,
        dialect: said.dialect,
        refuses_origin: false,
    };
    match said.now {
        Some(moment) => {
            let mut still = StillClock::new(moment);
            run_over(
                alloc, source, sink, keeper, host, &mut still, terms, said.pace,
            )
        }
        None => run_over(alloc, source, sink, keeper, host, clock, terms, said.pace),
    }
}

/// Carries out a command.
fn carry_out<S: Source, K: Sink, R: Keeper, H: Host, C: Clock>(
    alloc: Global,
    command: CommandWords,
    source: &mut S,
    sink: &mut K,
    mut keeper: R,
    host: &mut H,
    clock: &mut C,
    boot: u64,
) -> (u8, R)
    requires range { AreInRange command }
    ensures { (words : List (List ℕ)) → words_of words ≡ Some command → Does words boot
        (outside (inlet S.left S.ended S.failures source.old) (outlet K.held K.failures sink.old)
        (R.store keeper) (hosted H.contents H.failures host.old) (C.readings clock.old))
        (outside (inlet S.left S.ended S.failures source.new) (outlet K.held K.failures sink.new)
        (R.store result.1) (hosted H.contents H.failures host.new) (C.readings clock.new)) result.0 }
{
    match command {
        CommandWords::Run(said) => {
            run_said(alloc, said, source, sink, keeper, host, clock, boot)
        }
        CommandWords::Make { seed, count } => (make(alloc, sink, seed, count), keeper),
        CommandWords::Drill { seed, count } => {
            let terms = Terms {
                boot,
                dialect: Dialect::Plain,
                refuses_origin: false,
            };
            let status = drill(alloc, sink, &mut keeper, host, clock, terms, seed, count);
            (status, keeper)
        }
        CommandWords::Check => {
            let status = check(alloc, sink, &mut keeper);
            (status, keeper)
        }
    }
}

/// What the words ask for.
fn run<S: Source, K: Sink, R: Keeper, H: Host, C: Clock>(
    alloc: Global,
    words: &[String],
    source: &mut S,
    sink: &mut K,
    keeper: R,
    host: &mut H,
    clock: &mut C,
    boot: u64,
) -> (u8, R)
    ensures { Does (map (λ w. string_bytes w) words.now) boot
        (outside (inlet S.left S.ended S.failures source.old) (outlet K.held K.failures sink.old)
        (R.store keeper) (hosted H.contents H.failures host.old) (C.readings clock.old))
        (outside (inlet S.left S.ended S.failures source.new) (outlet K.held K.failures sink.new)
        (R.store result.1) (hosted H.contents H.failures host.new) (C.readings clock.new)) result.0 }
{
    match read_words(alloc, words) {
        Ok(Some(command)) => { carry_out(alloc, command, source, sink, keeper, host, clock, boot) }
        Ok(None) => (StartFault::Words.status(), keeper),
        Err(NoMemory) => (StartFault::NoMemory.status(), keeper),
    }
}

/// All that the program does, by the words of the command line. `run` is one session over the source
/// and the sink, in which the worker of the server makes the calls of background operations on the
/// host. `make` writes requests that a number stands for, `drill` answers them in memory and tells
/// what they came to, and `check` tells what the keeper has. The boot word is that of the ids of
/// operations, where the words say none; the words say the dialect. It gives the exit status, and the keeper back.
pub fn run_main<S: Source, K: Sink, R: Keeper, H: Host, C: Clock>(
    alloc: Global,
    words: &[String],
    source: &mut S,
    sink: &mut K,
    keeper: R,
    host: &mut H,
    clock: &mut C,
    boot: u64,
) -> (u8, R)
    // There was a session, or there was none; or another command was carried out.
    ensures done { Does (map (λ w. string_bytes w) words.now) boot
        (outside (inlet S.left S.ended S.failures source.old) (outlet K.held K.failures sink.old)
        (R.store keeper) (hosted H.contents H.failures host.old) (C.readings clock.old))
        (outside (inlet S.left S.ended S.failures source.new) (outlet K.held K.failures sink.new)
        (R.store result.1) (hosted H.contents H.failures host.new) (C.readings clock.new)) result.0 }

    // A run over a source that tells its bytes: a fault, or what these bytes ask.
    ensures text { IfSome (S.left source.old) (λ text. (messages : List Request) (ending : Ending)
        → Splits text messages ending → is_run (map (λ w. string_bytes w) words.now) ≡ true →
        (is_fault result.0 ≡ true) ⊎ RunsText (terms_with (map (λ w. string_bytes w) words.now) boot)
        (pace_of (map (λ w. string_bytes w) words.now)) messages ending result.0
        (seen_with (map (λ w. string_bytes w) words.now)
        (outside (inlet S.left S.ended S.failures source.old) (outlet K.held K.failures sink.old)
        (R.store keeper) (hosted H.contents H.failures host.old) (C.readings clock.old)))
        (seen_with (map (λ w. string_bytes w) words.now)
        (outside (inlet S.left S.ended S.failures source.new) (outlet K.held K.failures sink.new)
        (R.store result.1) (hosted H.contents H.failures host.new) (C.readings clock.new)))) }

    // Whole messages, entries that open to rows and no fault: all messages are answered, or memory
    // was refused. A call of the host that fails makes an operation fail, and no request.
    ensures complete { IfSome (S.left source.old)
        (λ text. (messages : List Request) → Splits text messages ended
        → length messages < most_requests →
        (entries : List EntryValue) (s : State)
        → is_run (map (λ w. string_bytes w) words.now) ≡ true
        → (R.store keeper).contents ≡ Some entries → opening_of entries ≡ opened s →
        ¬ (Rose (S.failures source.old) (S.failures source.new))
        → ¬ (Rose (K.failures sink.old) (K.failures sink.new))
        → ¬ (Rose (R.store keeper).failures (R.store result.1).failures) →
        (result.0 ≡ 0) ⊎ (result.0 ≡ 9)) }

    // Another command, entries that open to rows where it opens some, and no fault: all was done, or memory was
    // refused.
    ensures others { IsReadyFor (words_of (map (λ w. string_bytes w) words.now)) (R.store keeper)
        → ¬ (Rose (K.failures sink.old) (K.failures sink.new))
        → ¬ (Rose (R.store keeper).failures (R.store result.1).failures) →
        (result.0 ≡ 0) ⊎ (result.0 ≡ 9) }

    ensures cut { result.0 ≡ 2 → S.ended source.new ≡ true }
    ensures read_fault { result.0 ≡ 4 → Rose (S.failures source.old) (S.failures source.new) }
    ensures write_fault { result.0 ≡ 5 → Rose (K.failures sink.old) (K.failures sink.new) }
    ensures keeper_fault { result.0 ≡ 6
        → Rose (R.store keeper).failures (R.store result.1).failures }
    ensures words { result.0 ≡ 8 → words_of (map (λ w. string_bytes w) words.now) ≡ None }
    ensures not_read { words_of (map (λ w. string_bytes w) words.now) ≡ None
        → (result.0 ≡ 8) ⊎ (result.0 ≡ 9) }
    // Where the words say a moment, the clock that is handed in is not read.
    ensures still { IfSome (now_of (map (λ w. string_bytes w) words.now))
        (λ _. C.readings clock.new ≡ C.readings clock.old) }
    // Entries that open to no rows: nothing is written, and the keeper is as it was but for a load.
    ensures unopened { result.0 ≡ 7 → (is_some (words_of (map (λ w. string_bytes w) words.now)) ≡ true)
        × (R.store result.1 ≡ after_calls 1 (R.store keeper))
        × IfSome (R.store keeper).contents (λ entries. is_refused (opening_of entries) ≡ true) }
    ensures refused { IfSome (R.store keeper).contents (λ entries.
        is_refused (opening_of entries) ≡ true → is_run (map (λ w. string_bytes w) words.now) ≡ true →
        ¬ (Rose (R.store keeper).failures (R.store result.1).failures)
        → (K.held sink.new ≡ K.held sink.old) × ((result.0 ≡ 7) ⊎ (result.0 ≡ 9))) }
{
    run(alloc, words, source, sink, keeper, host, clock, boot)
}

ghost use Rattle.std.specs.Prelude.{◌≡◌, ℕ, ◌+◌, ◌^◌, ◌⊎◌, ◌≤◌, List, map, option_map, Some, None, IfSome};
ghost use Rattle.std.specs.Prelude.{is_some, string_bytes, true, false};
ghost use Rattle.size_values.specs.Causes.{Rose};
ghost use Rattle.row_machine.specs.machine.State.{State};
ghost use Rattle.row_machine.specs.opening.Opening.{opened, opening_of};
ghost use Rattle.start_faults.specs.core_rows.specs.Opening.{is_refused};
ghost use Rattle.start_faults.specs.Starts.{IsUnopened};
ghost use Rattle.serving.specs.Counts.{none_begun};
ghost use Rattle.serving.specs.Serves.{AreHandled, GivesFirst};
ghost use Rattle.command_words.specs.ServeWords.{serve_setup_of, serve_words_of};
ghost use Rattle.server_main.specs.Servers.{EndsBy, GivesBack, Serves, ServesAll, at_once_in, connections_of};
ghost use Rattle.server_main.specs.Servers.{outside};

use crate::door_terms::ServerLogs;
use crate::jobs::ServerJob;
use crate::slots::JobSlots;
use command_words::{ServeWords, read_serve_words};
use host_model::Host;
use http_front::Clock;
use record_keeper::Keeper;
use serve_loop::{Daemon, DaemonMachine, Log};
use serving::{Doors, Spawner, Trouble, serve, status_of};
use size_values::NoMemory;
use start_faults::StartFault;
use std::alloc::Global;
use std::sync::Wait;
use std::sync::ledger::{Blank, Ledger};
use std::time;

/// How many connections are served in all: more than ever come, where the words say no number of them.
fn most_connections(said: ServeWords) -> u64
    ensures count { result ≡ connections_of said }
    ensures few { result ≤ 2 ^ 62 }
{
    match said.connections {
        Some(connections) => u64::from(connections),
        None => 1 << 62,
    }
}

/// Serves links and workers over a server that stands.
#[tactic(auto, using(crate::proofs::Beginning::ends_so, crate::proofs::Beginning::gives_none, crate::proofs::Beginning::none_handled))]
fn serve_over<R, H, C, L, T, D, P, O>(
    rt: T,
    alloc: Global,
    said: ServeWords,
    doors: &mut D,
    spawner: &mut P,
    machine: DaemonMachine<R>,
    host: H,
    clock: C,
    boot: u64,
    logs: ServerLogs<O>,
    blank: Blank,
) -> Result<(), Trouble>
where
    R: Keeper + Drop,
    H: Host + Drop,
    C: Clock + Drop,
    L: Ledger,
    T: Wait + time::Clock + Copy + Drop,
    D: Doors,
    P: Spawner<ServerJob<D::Source, D::Sink, R, H, C, L, T, O>>,
    O: Log + Copy + Drop,
    requires few { (said.at_once ≤ 4096) × (said.workers ≤ 8) }
    requires name { blank.name ≡ L.name }
    requires parts { (blank.parts ≡ L.parts) × (blank.parts ≡ said.at_once + said.workers + 1) }
    requires doors { (D.seen doors.old).given ≡ 0 }
    requires idle { P.counts spawner.old ≡ none_begun }
    requires ready { P.ready spawner.old }
    ensures ends { EndsBy said result
        (outside (D.seen doors.old) (P.counts spawner.old) (P.failures spawner.old))
        (outside (D.seen doors.new) (P.counts spawner.new) (P.failures spawner.new)) }
    ensures handled { AreHandled said.at_once (D.seen doors.new).given (P.counts spawner.new) }
    ensures first { GivesFirst 0 (D.seen doors.new).given (D.left doors.old) (D.left doors.new) }
    ensures beside { (P.counts spawner.new).late ≡ false }
    ensures out { (P.counts spawner.new).out ≡ 0 }
{
    let tickets = said.at_once + said.workers + 1;
    let slots = JobSlots::<R, H, C, L, T, O>::new(
        rt, alloc, machine, host, clock, boot, logs, tickets, blank,
    );
    let Ok(mut slots) = slots else {
        return Err(Trouble::NoMemory);
    };
    serve(
        alloc,
        &mut slots,
        doors,
        spawner,
        most_connections(said),
        said.at_once as usize,
        said.workers,
    )
}

/// Opens the rows of the keeper and serves links and workers over them. Where they are not opened,
/// the keeper is given back.
#[tactic(auto, using(crate::proofs::Beginning::server_begun, crate::proofs::Beginning::rows_unopened, crate::proofs::Beginning::gives_none, crate::proofs::Beginning::none_handled))]
fn serve_said<R, H, C, L, T, D, P, O>(
    rt: T,
    alloc: Global,
    said: ServeWords,
    doors: &mut D,
    spawner: &mut P,
    mut keeper: R,
    host: H,
    clock: C,
    boot: u64,
    logs: ServerLogs<O>,
    blank: Blank,
) -> (u8, Option<R>)
where
    R: Keeper + Drop,
    H: Host + Drop,
    C: Clock + Drop,
    L: Ledger,
    T: Wait + time::Clock + Copy + Drop,
    D: Doors,
    P: Spawner<ServerJob<D::Source, D::Sink, R, H, C, L, T, O>>,
    O: Log + Copy + Drop,
    requires few { (said.at_once ≤ 4096) × (said.workers ≤ 8) }
    requires name { blank.name ≡ L.name }
    requires parts { (blank.parts ≡ L.parts) × (blank.parts ≡ said.at_once + said.workers + 1) }
    requires doors { (D.seen doors.old).given ≡ 0 }
    requires idle { P.counts spawner.old ≡ none_begun }
    requires ready { P.ready spawner.old }
    ensures serves { (words : List (List ℕ)) → serve_words_of words ≡ Some said →
        Serves words (R.store keeper) (option_map R.store result.1)
        (outside (D.seen doors.old) (P.counts spawner.old) (P.failures spawner.old))
        (outside (D.seen doors.new) (P.counts spawner.new) (P.failures spawner.new)) result.0 }
    ensures handled { AreHandled said.at_once (D.seen doors.new).given (P.counts spawner.new) }
    ensures first { GivesFirst 0 (D.seen doors.new).given (D.left doors.old) (D.left doors.new) }
    ensures beside { (P.counts spawner.new).late ≡ false }
    ensures out { (P.counts spawner.new).out ≡ 0 }
{
    match Daemon::begin(alloc, &mut keeper) {
        Ok(daemon) => {
            let machine = DaemonMachine::new(alloc, daemon, keeper);
            let served = serve_over::<R, H, C, L, T, D, P, O>(
                rt, alloc, said, doors, spawner, machine, host, clock, boot, logs, blank,
            );
            (status_of(served), None)
        }
        Err(fault) => (StartFault::of(fault).status(), Some(keeper)),
    }
}

/// Reads the words, and serves what they ask for.
#[tactic(auto, using(crate::proofs::Beginning::words_unread, crate::proofs::Beginning::words_refused, crate::proofs::Beginning::gives_none, crate::proofs::Beginning::none_handled, crate::proofs::Beginning::at_once_said))]
fn serve_any<R, H, C, L, T, D, P, O>(
    rt: T,
    alloc: Global,
    words: &[String],
    doors: &mut D,
    spawner: &mut P,
    keeper: R,
    host: H,
    clock: C,
    boot: u64,
    logs: ServerLogs<O>,
    blank: Blank,
) -> (u8, Option<R>)
where
    R: Keeper + Drop,
    H: Host + Drop,
    C: Clock + Drop,
    L: Ledger,
    T: Wait + time::Clock + Copy + Drop,
    D: Doors,
    P: Spawner<ServerJob<D::Source, D::Sink, R, H, C, L, T, O>>,
    O: Log + Copy + Drop,
    requires name { blank.name ≡ L.name }
    requires parts { (blank.parts ≡ L.parts)
        × (blank.parts ≡ (serve_setup_of (map (λ w. string_bytes w) words.now)).tickets) }
    requires doors { (D.seen doors.old).given ≡ 0 }
    requires idle { P.counts spawner.old ≡ none_begun }
    requires ready { P.ready spawner.old }
    ensures serves { Serves (map (λ w. string_bytes w) words.now)
        (R.store keeper) (option_map R.store result.1)
        (outside (D.seen doors.old) (P.counts spawner.old) (P.failures spawner.old))
        (outside (D.seen doors.new) (P.counts spawner.new) (P.failures spawner.new)) result.0 }
    ensures handled { AreHandled (at_once_in (map (λ w. string_bytes w) words.now)) (D.seen doors.new).given
        (P.counts spawner.new) }
    ensures first { GivesFirst 0 (D.seen doors.new).given (D.left doors.old) (D.left doors.new) }
    ensures beside { (P.counts spawner.new).late ≡ false }
    ensures out { (P.counts spawner.new).out ≡ 0 }
{
    match read_serve_words(alloc, words) {
        Ok(Some(said)) => serve_said::<R, H, C, L, T, D, P, O>(
            rt, alloc, said, doors, spawner, keeper, host, clock, boot, logs, blank,
        ),
        Ok(None) => (StartFault::Words.status(), Some(keeper)),
        Err(NoMemory) => (StartFault::NoMemory.status(), Some(keeper)),
    }
}

/// All that the program does, by the words of its command line. It starts the workers, serves so
/// many connections as the words say, or all that there are, each by a job of its own, and so many of
/// them at once as the words say: others are turned away. It takes in all that it started: links that
/// have ended as others come, the rest of them at the end, and the workers after the server was
/// closed. Each job tells a copy of its log. The links of a port speak the plain dialect and refuse
/// requests with an `Origin`, those of a socket file speak that of the command `incus`. The boot word
/// is that of the ids of operations. It gives the exit status, and the keeper back where no server was
/// begun.
pub fn serve_main<R, H, C, L, T, D, P, O>(
    rt: T,
    alloc: Global,
    words: &[String],
    doors: &mut D,
    spawner: &mut P,
    keeper: R,
    host: H,
    clock: C,
    boot: u64,
    logs: ServerLogs<O>,
    blank: Blank,
) -> (u8, Option<R>)
where
    R: Keeper + Drop,
    H: Host + Drop,
    C: Clock + Drop,
    L: Ledger,
    T: Wait + time::Clock + Copy + Drop,
    D: Doors,
    P: Spawner<ServerJob<D::Source, D::Sink, R, H, C, L, T, O>>,
    O: Log + Copy + Drop,
    // The ledger counts the turns of the server, in a part for each ticket that the words ask for.
    requires name { blank.name ≡ L.name }
    requires parts { (blank.parts ≡ L.parts)
        × (blank.parts ≡ (serve_setup_of (map (λ w. string_bytes w) words.now)).tickets) }
    // Nothing was begun yet.
    requires doors { (D.seen doors.old).given ≡ 0 }
    requires idle { P.counts spawner.old ≡ none_begun }
    requires ready { P.ready spawner.old }

    // A server was begun, and ended as the status says; or none was begun.
    ensures serves { Serves (map (λ w. string_bytes w) words.now)
        (R.store keeper) (option_map R.store result.1)
        (outside (D.seen doors.old) (P.counts spawner.old) (P.failures spawner.old))
        (outside (D.seen doors.new) (P.counts spawner.new) (P.failures spawner.new)) result.0 }

    // Of every end: each link that was given had its job begun, or declined, or was turned away; they
    // were the first of those that the doors told, no job was begun after one that had not ended had
    // been waited for, and nothing that was started is left.
    ensures handled { AreHandled (at_once_in (map (λ w. string_bytes w) words.now)) (D.seen doors.new).given
        (P.counts spawner.new) }
    ensures first { GivesFirst 0 (D.seen doors.new).given (D.left doors.old) (D.left doors.new) }
    ensures beside { (P.counts spawner.new).late ≡ false }
    ensures out { (P.counts spawner.new).out ≡ 0 }

    // What each status says.
    ensures served { result.0 ≡ 0 → ServesAll (map (λ w. string_bytes w) words.now)
        (outside (D.seen doors.new) (P.counts spawner.new) (P.failures spawner.new)) }
    ensures keeper_fault { result.0 ≡ 6 → GivesBack (option_map R.store result.1)
        (λ left. Rose (R.store keeper).failures left.failures) }
    ensures unopened { result.0 ≡ 7 → GivesBack (option_map R.store result.1)
        (IsUnopened (R.store keeper)) }
    ensures words { result.0 ≡ 8 → serve_words_of (map (λ w. string_bytes w) words.now) ≡ None }
    ensures accept_fault { result.0 ≡ 11 → Rose (D.seen doors.old).failed (D.seen doors.new).failed }
    ensures start_fault { result.0 ≡ 12 → Rose (P.failures spawner.old) (P.failures spawner.new) }

    // Words that are not read, and entries that open to no rows: no server is begun.
    ensures not_read { serve_words_of (map (λ w. string_bytes w) words.now) ≡ None
        → (result.0 ≡ 8) ⊎ (result.0 ≡ 9) }
    ensures refused { IfSome (R.store keeper).contents (λ entries.
        is_refused (opening_of entries) ≡ true
        → is_some (serve_words_of (map (λ w. string_bytes w) words.now)) ≡ true
        → (result.0 ≡ 6) ⊎ ((result.0 ≡ 7) ⊎ (result.0 ≡ 9))) }

    // Words that are read, entries that open to rows, and no fault of keeper, doors and spawner: the
    // links are served, or memory was refused.
    ensures complete { IfSome (R.store keeper).contents (λ entries. (s : State)
        → opening_of entries ≡ opened s
        → is_some (serve_words_of (map (λ w. string_bytes w) words.now)) ≡ true
        → (result.0 ≡ 0) ⊎ ((result.0 ≡ 6) ⊎ ((result.0 ≡ 9) ⊎ ((result.0 ≡ 11) ⊎ (result.0 ≡ 12))))) }
{
    serve_any::<R, H, C, L, T, D, P, O>(
        rt, alloc, words, doors, spawner, keeper, host, clock, boot, logs, blank,
    )
}

//! A server whose jobs run on threads.
ghost use Rattle.std.specs.Prelude.{◌≡◌, map, string_bytes};
ghost use Rattle.command_words.specs.ServeWords.{serve_setup_of};

use crate::doors::{Listening, doors_of};
use crate::telling::DoorNotes;
use crate::threads::{Spawning, on_threads};
use host_model::ModelHost;
use http_front::SystemClock;
use record_keeper::Keeper;
use serve_loop::Log;
use server_main::{ServerJob, ServerLogs, serve_main};
use serving::{Doors, NetDoors, Spawner, Stop, status_of};
use size_values::Seq;
use std::alloc::Global;
use std::fs::Files;
use std::marker::{Brand, PhantomData};
use std::net::{Net, TcpListener, TcpStream};
use std::sync::Wait;
use std::sync::ledger::{Blank, Ledger};
use std::thread::Threads;
use std::time;

/// What a server is begun with, but for its spawner.
struct Beginning<'a, D, R, L, T, O> {
    system: T,
    alloc: Global,
    words: &'a [String],
    doors: D,
    keeper: R,
    boot: u64,
    logs: ServerLogs<O>,
    blank: Blank,
    ledger: PhantomData<L>,
}

/// The jobs of a server over these doors.
type Job<D, R, L, T, O> = ServerJob<
    <D as Doors>::Source,
    <D as Doors>::Sink,
    R,
    ModelHost,
    SystemClock<T>,
    L,
    T,
    O,
>;

impl<'a, D, R, L, T, O> Spawning<Job<D, R, L, T, O>> for Beginning<'a, D, R, L, T, O>
where
    D: Doors + Drop,
    R: Keeper + Drop,
    L: Ledger,
    T: Wait + time::Clock + Copy + Drop,
    O: Log + Copy + Drop,
{
    type Out = (u8, Option<R>);

    ghost is_sound = { λ b. ((D.seen b.doors).given ≡ 0) × (b.blank.name ≡ L.name) × (b.blank.parts ≡ L.parts)
        × (b.blank.parts ≡ (serve_setup_of (map (λ w. string_bytes w) b.words.now)).tickets) };

    fn run<P: Spawner<Job<D, R, L, T, O>>>(self, spawner: &mut P) -> (u8, Option<R>) {
        let Beginning {
            system,
            alloc,
            words,
            mut doors,
            keeper,
            boot,
            logs,
            blank,
            ledger: _,
        } = self;
        let host = ModelHost::new(alloc, Seq::new(alloc));
        let clock = SystemClock::new(system);
        serve_main::<R, ModelHost, SystemClock<T>, L, T, D, P, O>(
            system, alloc, words, &mut doors, spawner, keeper, host, clock, boot, logs, blank,
        )
    }
}

/// Serves the links of doors, each job on a thread, over a modelled host and by the clock of the system.
fn serve_at<L, R, T, O>(
    system: T,
    alloc: Global,
    words: &[String],
    doors: NetDoors<T, DoorNotes>,
    keeper: R,
    boot: u64,
    logs: ServerLogs<O>,
    blank: Blank,
) -> (u8, Option<R>)
where
    L: Ledger + Send + Sync + 'static,
    R: Keeper + Drop + Send + 'static,
    T: Net<Listener = TcpListener, Stream = TcpStream> + Files + Threads + Wait + time::Clock,
    T: Copy + Drop + Send + Sync + 'static,
    O: Log + Copy + Drop + Send + 'static,
    requires doors { doors.given ≡ 0 }
    requires name { blank.name ≡ L.name }
    requires parts { (blank.parts ≡ L.parts)
        × (blank.parts ≡ (serve_setup_of (map (λ w. string_bytes w) words.now)).tickets) }
{
    let beginning = Beginning::<'_, NetDoors<T, DoorNotes>, R, L, T, O> {
        system,
        alloc,
        words,
        doors,
        keeper,
        boot,
        logs,
        blank,
        ledger: PhantomData,
    };
    on_threads(system, alloc, beginning)
}

/// The same at a port, a socket file or both, at a ledger of its own, with a part for each ticket, until the server
/// stops. They are listened on once the rows are opened. The boot word is that of the ids of operations.
pub(crate) fn serve_over<R, T, O>(
    rt: HostRuntime,
    system: T,
    words: &[String],
    setup: Listening,
    keeper: R,
    stop: Stop,
    boot: u64,
    logs: ServerLogs<O>,
) -> (u8, Option<R>)
where
    R: Keeper + Drop + Send + 'static,
    T: Net<Listener = TcpListener, Stream = TcpStream> + Files + Threads + Wait + time::Clock,
    T: Copy + Drop + Send + Sync + 'static,
    O: Log + Copy + Drop + Send + 'static,
    requires { setup.tickets ≡ (serve_setup_of (map (λ w. string_bytes w) words.now)).tickets }
{
    let doors = match doors_of(rt, system, &setup, stop) {
        Ok(doors) => doors,
        Err(trouble) => return (status_of(Err(trouble)), Some(keeper)),
    };
    let blank = Blank::new(u64::from(setup.tickets));
    serve_at::<Brand, R, T, O>(system, rt.alloc(), words, doors, keeper, boot, logs, blank)
}

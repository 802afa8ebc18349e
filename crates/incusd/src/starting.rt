//! What a server is started with.
ghost use Rattle.std.specs.Prelude.{◌≡◌, map, string_bytes};
ghost use Rattle.command_words.specs.ServeWords.{serve_setup_of};

use crate::alarm::Alarm;
use crate::doors::Listening;
use crate::listening::serve_over;
use crate::request_log::RequestLog;
use crate::telling::PROGRAM;
use crate::told_keeper::ToldKeeper;
use command_words::{RowsPath, ServeSetup, serve_setup_of};
use http_front::{Clock, SystemClock};
use program_start::{RowsKeeper, StartFault, end_rows};
use server_main::ServerLogs;
use size_values::Seq;
use std::fs::Files;
use std::net::{Net, TcpListener, TcpStream};
use std::sync::Wait;
use std::thread::Threads;
use std::time;

/// The exit status of a server over the rows that are kept there. Standard error tells why they were not opened, and when
/// they are not kept. Where they are lost, the server stops, and the status says that the keeper failed.
fn serve_rows<T>(
    rt: HostRuntime,
    system: T,
    words: &[String],
    listening: Listening,
    path: RowsPath,
) -> u8
where
    T: Net<Listener = TcpListener, Stream = TcpStream> + Files + Threads + Wait + time::Clock,
    T: Copy + Drop + Send + Sync + 'static,
    requires { listening.tickets ≡ (serve_setup_of (map (λ w. string_bytes w) words.now)).tickets }
{
    let Ok(alarm) = Alarm::new(rt.alloc()) else {
        return StartFault::NoMemory.status();
    };
    let Ok(twin) = alarm.share() else {
        return StartFault::NoMemory.status();
    };
    let Ok(stop) = alarm.stop() else {
        return StartFault::NoMemory.status();
    };
    let keeper = RowsKeeper::at(rt, path, Seq::new(rt.alloc()), true);
    let keeper = ToldKeeper::over(rt, keeper, twin);
    let boot = SystemClock::new(system).now();
    let logs = logs_of(rt, &listening, boot);
    let (status, back) = serve_over(rt, system, words, listening, keeper, stop, boot, logs);
    if let Some(keeper) = back {
        let mut keeper = keeper.into_keeper();
        end_rows(rt, PROGRAM, status, &mut keeper);
        drop(keeper);
    }
    if alarm.is_raised() {
        StartFault::KeeperFailed.status()
    } else {
        status
    }
}

/// The logs of a server that listens so.
fn logs_of(rt: HostRuntime, listening: &Listening, boot: u64) -> ServerLogs<RequestLog> {
    let at_socket = RequestLog::new(rt, listening.logs, None, boot);
    ServerLogs {
        port: RequestLog::new(rt, listening.logs, listening.port, boot),
        socket: at_socket,
        workers: at_socket,
    }
}

/// Serves as the words say, and gives the exit status. Where they are not read, nothing is opened.
pub fn serve<T>(rt: HostRuntime, system: T, words: &[String]) -> u8
where
    T: Net<Listener = TcpListener, Stream = TcpStream> + Files + Threads + Wait + time::Clock,
    T: Copy + Drop + Send + Sync + 'static,
{
    let Ok(setup) = serve_setup_of(rt.alloc(), words) else {
        return StartFault::NoMemory.status();
    };
    let ServeSetup {
        port,
        socket,
        rows,
        idle,
        stops,
        logs,
        tickets,
    } = setup;
    if port.is_none() && socket.is_none() {
        return StartFault::Words.status();
    }
    let listening = Listening {
        port: port_number(port),
        socket,
        idle,
        stops,
        logs,
        tickets,
    };
    serve_rows(rt, system, words, listening, rows)
}

/// A port of TCP, which the words give as a number of 16 bits.
fn port_number(port: Option<u32>) -> Option<u16> {
    match port {
        Some(port) => u16::try_from(port).ok(),
        None => None,
    }
}

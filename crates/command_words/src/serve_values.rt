//! What the values of options say.
ghost use Rattle.std.specs.Prelude.{◌≡◌, ◌≤◌, IfSome};
ghost use Rattle.command_words.specs.Numbers.{number_said};
ghost use Rattle.command_words.specs.ServeWords.{at_once_said, connections_said, idle_said, port_said, workers_said};

use crate::numbers::number_said;

/// The greatest number of a port.
const LAST_PORT: u64 = 65_535;

/// The greatest number of connections that one run takes.
const MOST_CONNECTIONS: u64 = 1_000_000;

/// The greatest number of connections that are served at once.
const MOST_AT_ONCE: u64 = 4_096;

/// The most seconds that a connection may be told to send nothing: an hour.
const LONGEST_IDLE: u64 = 3_600;

/// The greatest number of workers.
const MOST_WORKERS: u64 = 8;

/// The number from 1 to `most` that a text says.
fn small_said(most: u64, value: &str) -> Option<u32>
    requires { most ≤ 1000000 }
    ensures said { result ≡ number_said 1 most value.now }
    ensures within { IfSome result (λ number. number ≤ most) }
{
    match number_said(1, most, value) {
        Some(number) => Some(number as u32),
        None => None,
    }
}

/// The port that a value of `--port` says.
pub(crate) fn port_said(value: &str) -> Option<u32>
    ensures { result ≡ port_said value.now }
{
    small_said(LAST_PORT, value)
}

/// How many connections a value of `--connections` says.
pub(crate) fn connections_said(value: &str) -> Option<u32>
    ensures { result ≡ connections_said value.now }
{
    small_said(MOST_CONNECTIONS, value)
}

/// How many connections at once a value of `--at-once` says.
pub(crate) fn at_once_said(value: &str) -> Option<u32>
    ensures said { result ≡ at_once_said value.now }
    ensures few { IfSome result (λ number. number ≤ 4096) }
{
    small_said(MOST_AT_ONCE, value)
}

/// How many seconds a value of `--idle` says.
pub(crate) fn idle_said(value: &str) -> Option<u32>
    ensures { result ≡ idle_said value.now }
{
    small_said(LONGEST_IDLE, value)
}

/// How many workers a value of `--workers` says.
pub(crate) fn workers_said(value: &str) -> Option<u32>
    ensures said { result ≡ workers_said value.now }
    ensures few { IfSome result (λ number. number ≤ 8) }
{
    small_said(MOST_WORKERS, value)
}

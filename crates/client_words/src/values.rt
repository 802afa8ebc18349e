//! What the values of options and the words behind a command say.
ghost use Rattle.std.specs.Prelude.{◌≡◌, option_map, IfOk, IfSome, ◌≤◌};
ghost use Rattle.command_words.specs.ServeWords.{port_said};
ghost use Rattle.client_words.specs.Values.{door_said, format_said, id_said, instance_said, is_socket_path};
ghost use Rattle.client_words.specs.Values.{project_said, socket_said};

use crate::words::{Door, Format};
use client_replies::is_id;
use command_words::number_said;
use estate_rules::good_name;
use size_values::{NoMemory, ObjectKind, Text};
use std::alloc::Global;

/// The greatest number of a port.
const LAST_PORT: u64 = 65_535;

/// How many bytes the path of a socket file may have: the address of a socket has room for one more, a zero.
const LONGEST_PATH: usize = 107;

/// The project of words that name none.
const DEFAULT_PROJECT: &str = "default";

/// The name of an instance that a word says.
pub(crate) fn instance_said(alloc: Global, value: &str) -> Result<Option<Text>, NoMemory>
    ensures { IfOk result (λ said. said ≡ instance_said value.now) }
{
    if good_name(ObjectKind::Instance, value) {
        Ok(Some(Text::from_text(alloc, value)?))
    } else {
        Ok(None)
    }
}

/// The id of an operation that a word says.
pub(crate) fn id_said(alloc: Global, value: &str) -> Result<Option<Text>, NoMemory>
    ensures { IfOk result (λ said. said ≡ id_said value.now) }
{
    if is_id(value) {
        Ok(Some(Text::from_text(alloc, value)?))
    } else {
        Ok(None)
    }
}

/// The port that a value of `--port` says.
fn port_said(value: &str) -> Option<u16>
    ensures { result ≡ port_said value.now }
{
    match number_said(1, LAST_PORT, value) {
        Some(number) => Some(number as u16),
        None => None,
    }
}

/// Whether a value may be the path of a socket file.
fn is_socket_path(value: &str) -> bool
    ensures { result ≡ is_socket_path value.now }
{
    !value.is_empty() && value.len() <= LONGEST_PATH
}

/// The socket file that a value of `--socket` names.
fn socket_said(alloc: Global, value: &str) -> Result<Option<Door>, NoMemory>
    ensures { IfOk result (λ said. said ≡ socket_said value.now) }
{
    if is_socket_path(value) {
        Ok(Some(Door::Socket(Text::from_text(alloc, value)?)))
    } else {
        Ok(None)
    }
}

/// Where the server listens, by the values of `--port` and `--socket`.
pub(crate) fn door_said(
    alloc: Global,
    port: Option<&str>,
    socket: Option<&str>,
) -> Result<Option<Door>, NoMemory>
    ensures { IfOk result (λ said. said
        ≡ door_said (option_map (λ v. v.now) port.entry) (option_map (λ v. v.now) socket.entry)) }
{
    match (port, socket) {
        (Some(port), None) => match port_said(port) {
            Some(port) => Ok(Some(Door::Port(port))),
            None => Ok(None),
        },
        (None, Some(path)) => socket_said(alloc, path),
        _ => Ok(None),
    }
}

/// The project that a value of `--project` names, or else `default`.
pub(crate) fn project_said(alloc: Global, value: Option<&str>) -> Result<Option<Text>, NoMemory>
    ensures { IfOk result (λ said. said ≡ project_said (option_map (λ v. v.now) value.entry)) }
{
    match value {
        Some(value) => {
            if good_name(ObjectKind::Project, value) {
                Ok(Some(Text::from_text(alloc, value)?))
            } else {
                Ok(None)
            }
        }
        None => Ok(Some(Text::from_text(alloc, DEFAULT_PROJECT)?)),
    }
}

/// How replies are printed, by the value of `--format`.
pub(crate) fn format_said(value: Option<&str>) -> Option<Format>
    ensures { result ≡ format_said (option_map (λ v. v.now) value.entry) }
{
    match value {
        Some(value) => {
            if value == "plain" {
                Some(Format::Plain)
            } else if value == "json" {
                Some(Format::Json)
            } else if value == "table" {
                Some(Format::Table)
            } else {
                None
            }
        }
        None => Some(Format::Plain),
    }
}

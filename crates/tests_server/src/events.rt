//! What happens in a random run: requests of every kind, and workers that take calls and report of
//! them.

use crate::chance::Chance;
use crate::judging::{PROJECTS, mark_of, may_change};
use crate::server::{POOLS, Server};
use host_model::Report;
use size_values::{NoMemory, Rise};
use std::alloc::Global;

/// What is there before the first event.
pub(crate) const SETUP: &[&str] = &[
    r#"POST /1.0/storage-pools {"driver":"dir","name":"p0"}"#,
    r#"POST /1.0/storage-pools {"driver":"dir","name":"p1"}"#,
    r#"POST /1.0/networks {"name":"br0"}"#,
    r#"POST /1.0/projects {"config":{"limits.instances":"6"},"name":"lab"}"#,
    r#"POST /1.0/projects {"config":{"features.profiles":"false"},"name":"off"}"#,
    r#"POST /1.0/projects {"config":{"features.networks":"true","restricted":"true"},"name":"shop"}"#,
    r#"POST /1.0/profiles {"config":{"limits.cpu":"1"},"name":"small"}"#,
    r#"POST /1.0/profiles?project=lab {"config":{"limits.cpu":"2","limits.memory":"1GiB"},"name":"small"}"#,
    r#"POST /1.0/profiles?project=shop {"config":{"limits.processes":"5"},"name":"small"}"#,
    r#"PUT /1.0/profiles/default {"devices":{"root":{"path":"/","pool":"p0","size":"1GiB","type":"disk"}}}"#,
    r#"PUT /1.0/profiles/default?project=lab {"devices":{"root":{"path":"/","pool":"p0","size":"2GiB","type":"disk"}}}"#,
    r#"PUT /1.0/profiles/default?project=shop {"devices":{"root":{"path":"/","pool":"p0","size":"3GiB","type":"disk"}}}"#,
    r#"PATCH /1.0/projects/default {"config":{"limits.disk":"20GiB"}}"#,
];

/// Requests of every kind, each as often as it stands here. A sign `$` and the letter after it
/// stand for one of the texts of that letter.
const REQUESTS: &[&str] = &[
    CREATION,
    CREATION,
    CREATION,
    CREATION,
    r#"POST /1.0/instances?project=$p {"name":"$n","config":{"limits.cpu":"$c"},"source":{"type":"copy","source":"$n"}}"#,
    r#"POST /1.0/instances?project=$p {"name":"$n","source":{"type":"copy","source":"$n/$x"}}"#,
    CHANGE,
    CHANGE,
    r#"PUT /1.0/instances/$n?project=$p {"restore":"$x"}"#,
    r#"PATCH /1.0/instances/$n?project=$p {"config":{"limits.memory":"$s"},"devices":{$d}}"#,
    r#"POST /1.0/instances/$n?project=$p {"name":"$n"}"#,
    "DELETE /1.0/instances/$n?project=$p",
    r#"PUT /1.0/instances/$n/state?project=$p {"action":"$a"}"#,
    r#"PUT /1.0/instances/$n/state?project=$p {"action":"$a"}"#,
    r#"POST /1.0/instances/$n/snapshots?project=$p {"name":"$x"}"#,
    r#"POST /1.0/instances/$n/snapshots?project=$p {"name":"$x"}"#,
    "DELETE /1.0/instances/$n/snapshots/$x?project=$p",
    r#"PATCH /1.0/projects/$p {"config":{"limits.memory":"$s"}}"#,
    r#"PATCH /1.0/projects/$p {"config":{"limits.disk":"$s"}}"#,
    r#"PATCH /1.0/projects/$p {"config":{"limits.disk.pool.$q":"$s"}}"#,
    r#"PATCH /1.0/projects/$p {"config":{"limits.disk.pool.$q":"$s"}}"#,
    r#"PATCH /1.0/projects/$p {"config":{"$l":"$c"}}"#,
    r#"PATCH /1.0/profiles/small?project=$p {"config":{"limits.memory":"$s","limits.processes":"$c"}}"#,
    r#"PUT /1.0/profiles/small?project=$p {"config":{"limits.cpu":"$c"}}"#,
    r#"PATCH /1.0/profiles/default?project=$p {"config":{"limits.cpu":"$c"},"devices":{$d}}"#,
    r#"POST /1.0/storage-pools/$q/volumes?project=$p {"config":{"size":"$s"},"name":"$n"}"#,
    r#"POST /1.0/storage-pools/p0/volumes?project=$p {"name":"$n","source":{"type":"copy","name":"$n"}}"#,
    r#"PATCH /1.0/storage-pools/p0/volumes/custom/$n?project=$p {"config":{"size":"$s"}}"#,
    "DELETE /1.0/storage-pools/p0/volumes/custom/$n?project=$p",
    r#"POST /1.0/networks?project=$p {"name":"br$n"}"#,
    "DELETE /1.0/networks/br$n?project=$p",
    "GET $r",
];

const CREATION: &str =
    r#"POST /1.0/instances?project=$p {"name":"$n","type":"$k","ephemeral":$e,"profiles":[$f],"config":{"limits.cpu":"$c","limits.memory":"$s"},"devices":{$d},"source":{"type":"none"}}"#;

const CHANGE: &str =
    r#"PUT /1.0/instances/$n?project=$p {"profiles":[$f],"config":{"limits.cpu":"$c","limits.memory":"$s"},"devices":{$d}}"#;

/// The texts of the letters.
const TEXTS: &[(char, &[&str])] = &[
    ('p', &PROJECTS),
    ('q', &POOLS),
    ('n', &["a", "b", "c", "d", "e", "f", "9"]),
    ('x', &["s0", "s1", "s2", ""]),
    (
        'a',
        &["start", "start", "stop", "restart", "freeze", "unfreeze"],
    ),
    ('e', &["false", "false", "true"]),
    ('k', &["container", "container", "virtual-machine"]),
    (
        'f',
        &[
            r#""default""#,
            r#""default","small""#,
            r#""small","default""#,
            r#""small""#,
            r#""default","nope""#,
        ],
    ),
    ('c', &["", "0", "1", "2", "3", "5", "8", "0-1"]),
    (
        's',
        &[
            "", "0", "1", "512MiB", "1GiB", "2GiB", "3GiB", "5GiB", "50%",
        ],
    ),
    (
        'd',
        &[
            "",
            "",
            r#""root":{"path":"/","pool":"p0","size":"1GiB","type":"disk"}"#,
            r#""root":{"path":"/","pool":"p1","size":"2GiB","type":"disk"}"#,
            r#""root":{"path":"/","pool":"p0","type":"disk"}"#,
            r#""other":{"path":"/","pool":"p0","size":"2GiB","type":"disk"},"root":{"type":"none"}"#,
            r#""eth0":{"network":"br0","type":"nic"}"#,
        ],
    ),
    (
        'l',
        &[
            "limits.instances",
            "limits.containers",
            "limits.virtual-machines",
            "limits.cpu",
            "limits.processes",
            "limits.networks",
        ],
    ),
    (
        'r',
        &[
            "/1.0/instances?recursion=1",
            "/1.0/operations?recursion=1&project=lab",
            "/1.0/operations/00000000-0001-8000-8000-000000000005/wait?timeout=0",
            "/1.0/operations/00000000-0001-8000-8000-000000000009/wait",
            "/1.0/storage-pools/p0",
            "/1.0/instances/a/snapshots?recursion=1",
            "/1.0/instances/a/snapshots/s0",
            "/1.0/instances/a/state?project=off",
            "/1.0/projects?recursion=1",
        ],
    ),
];

/// One of the texts of a letter.
fn text_of(chance: &mut Chance, letter: char) -> &'static str {
    match TEXTS.iter().find(|(sign, _)| *sign == letter) {
        Some((_, texts)) => chance.one_of(texts),
        None => "",
    }
}

/// Writes a request of some kind into an empty line.
fn write_request(line: &mut String, chance: &mut Chance) -> Result<(), NoMemory> {
    for piece in chance.one_of(REQUESTS).split('$') {
        let mut letters = piece.chars();
        let sign = if line.is_empty() {
            None
        } else {
            letters.next()
        };
        match sign {
            Some(letter) => {
                line.push_str(text_of(chance, letter))?;
                line.push_str(letters.as_str())?;
            }
            None => line.push_str(piece)?,
        }
    }
    Ok(())
}

/// A request of some kind.
fn request(alloc: Global, chance: &mut Chance) -> String {
    let mut line = String::new(alloc);
    if write_request(&mut line, chance).is_err() {
        line.clear();
    }
    line
}

/// Asks for something of some kind, and says whether nothing changed where it was refused.
fn asks(server: &mut Server, chance: &mut Chance) -> bool {
    let before = mark_of(&server.view());
    let line = request(server.alloc, chance);
    let said = server.ask(line.as_str());
    drop(line);
    may_change(said) || mark_of(&server.view()) == before
}

/// Cancels an operation, and says whether nothing changed where that was refused.
fn cancels(server: &mut Server, number: u64) -> bool {
    let before = mark_of(&server.view());
    let said = server.cancel(number);
    may_change(said) || mark_of(&server.view()) == before
}

/// The number of an operation, mostly of a live one.
fn number(server: &Server, chance: &mut Chance) -> u64 {
    let view = server.view();
    let place = chance.below(view.live.len().saturating_add(1));
    match view.live.get(place) {
        Some(operation) => operation.number,
        None => u64::try_from(chance.below(50)).unwrap_or(0),
    }
}

/// What became of a call.
fn report(chance: &mut Chance) -> Report {
    let faults = u64::try_from(chance.below(5)).unwrap_or(0);
    match (chance.below(8), Rise::of(faults, faults.saturating_add(1))) {
        (0, Some(rise)) => Report::Failed(rise),
        (1, _) => Report::NoMemory,
        _ => Report::Done,
    }
}

/// One event, and whether nothing changed where nothing should have.
pub(crate) fn happens(server: &mut Server, chance: &mut Chance) -> bool {
    match chance.below(12) {
        0 | 1 | 2 => {
            server.take();
            true
        }
        3 | 4 | 5 | 6 => {
            let number = number(server, chance);
            server.report(number, report(chance));
            true
        }
        7 => {
            let number = number(server, chance);
            cancels(server, number)
        }
        _ => asks(server, chance),
    }
}

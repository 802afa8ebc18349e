//! A server with its keeper, asked by requests of the REST API.

use crate::links::TCP;
use host_model::Report;
use http_heads::Request;
use record_keeper::{Keeper, MapKeeper};
use records::{Command, LimitKeyName, Reply, UsageLine, View, What};
use rest_routes::Router;
use row_machine::{Answer, Event};
use serve_loop::Daemon;
use size_values::{Seq, Text};
use std::alloc::Global;

/// The moment of every turn.
const NOW: u64 = 1_700_000_000;

/// What an answer says.
#[derive(Clone, Copy, PartialEq, Eq)]
pub(crate) enum Said {
    /// A command was carried out at once.
    Done,
    /// An operation of this number began.
    Begun(u64),
    /// A call is to be made for the operation of this number.
    Call(u64),
    /// The operation of this number has ended.
    Ended(u64),
    /// The server was closed.
    Closed,
    Other,
}

/// The pools of random runs.
pub(crate) const POOLS: [&str; 2] = ["p0", "p1"];

/// What a project uses of each of its limits, and that limit; and the same of these pools, where it limits them.
#[derive(Clone, Copy)]
pub(crate) struct Usage {
    pub(crate) sums: [(u128, Option<u64>); 8],
    pub(crate) pools: [Option<(u128, Option<u64>)>; 2],
}

/// A text; an empty one where memory is refused, which no test expects.
pub(crate) fn text(alloc: Global, of: &str) -> Text {
    Text::from_text(alloc, of).unwrap_or(Text::new(alloc))
}

/// The request of a line: the method, the target and the body, with a space between them.
pub(crate) fn request_of(alloc: Global, line: &str) -> Request {
    let (method, rest) = line.split_once(' ').unwrap_or((line, ""));
    let (target, body) = rest.split_once(' ').unwrap_or((rest, ""));
    Request {
        method: text(alloc, method),
        target: text(alloc, target),
        body: Seq::of_bytes(alloc, body.as_bytes()).unwrap_or(Seq::new(alloc)),
        last: false,
        expects: false,
        upgrade: None,
        origin: false,
        if_match: None,
    }
}

/// What an answer says, which is let go.
pub(crate) fn said_by(answer: Answer) -> Said {
    let said = match &answer {
        Answer::Reply(Reply::Empty) => Said::Done,
        Answer::Reply(Reply::Started(view)) => Said::Begun(view.number),
        Answer::Job(number, _) => Said::Call(*number),
        Answer::Ended(number) => Said::Ended(*number),
        Answer::Closed => Said::Closed,
        _ => Said::Other,
    };
    drop(answer);
    said
}

/// The place of a limit among those of a project. Those on pools come last.
fn place_of(key: &LimitKeyName) -> usize {
    match key {
        LimitKeyName::Instances => 0,
        LimitKeyName::Containers => 1,
        LimitKeyName::Machines => 2,
        LimitKeyName::Cpu => 3,
        LimitKeyName::Memory => 4,
        LimitKeyName::Processes => 5,
        LimitKeyName::Disk => 6,
        LimitKeyName::Networks => 7,
        LimitKeyName::DiskOnPool(_) => 8,
    }
}

/// What a line tells of the limit at a place; where none does, more than there can be.
fn line_of(lines: &[UsageLine], place: usize) -> (u128, Option<u64>) {
    match lines.iter().find(|line| place_of(&line.key) == place) {
        Some(line) => (line.used, line.limit),
        None => (u128::MAX, None),
    }
}

fn is_on(key: &LimitKeyName, pool: &str) -> bool {
    match key {
        LimitKeyName::DiskOnPool(name) => name.view() == pool,
        _ => false,
    }
}

/// What a line tells of the limit on a pool, where one does.
fn pool_line_of(lines: &[UsageLine], pool: &str) -> Option<(u128, Option<u64>)> {
    let line = lines.iter().find(|line| is_on(&line.key, pool))?;
    Some((line.used, line.limit))
}

/// What an answer tells of a project, which is let go.
fn usage_by(answer: Answer) -> Option<Usage> {
    let usage = match &answer {
        Answer::Reply(Reply::One(View::Usage(lines))) => {
            if lines.len() >= 8 {
                let lines = lines.view();
                Some(Usage {
                    sums: [0, 1, 2, 3, 4, 5, 6, 7].map(|place| line_of(lines, place)),
                    pools: POOLS.map(|pool| pool_line_of(lines, pool)),
                })
            } else {
                None
            }
        }
        _ => None,
    };
    drop(answer);
    usage
}

/// A new server over a keeper of which these calls fail; none where it does not open.
pub(crate) fn opened(alloc: Global, fails: &[u64]) -> Option<(Daemon, MapKeeper)> {
    let fails = Vec::from_slice(alloc, fails).unwrap_or(Vec::new(alloc));
    opened_over(alloc, MapKeeper::new(alloc, Seq::from_vec(fails)))
}

/// A server and its keeper; none where it does not open.
pub(crate) fn opened_over<R: Keeper + Drop>(alloc: Global, keeper: R) -> Option<(Daemon, R)> {
    let mut keeper = keeper;
    match Daemon::begin(alloc, &mut keeper) {
        Ok(daemon) => Some((daemon, keeper)),
        Err(fault) => {
            drop(fault);
            drop(keeper);
            None
        }
    }
}

/// A server, the store of its rows, and the reader of its requests.
#[derive(Drop)]
pub(crate) struct ServerOver<R> {
    pub(crate) alloc: Global,
    router: Router,
    daemon: Daemon,
    keeper: R,
}

/// One whose rows are kept in memory.
pub(crate) type Server = ServerOver<MapKeeper>;

/// A new server over a keeper of which these calls fail; none where it does not open.
pub(crate) fn new_server(alloc: Global, fails: &[u64]) -> Option<Server> {
    let (daemon, keeper) = opened(alloc, fails)?;
    ServerOver::of(alloc, daemon, keeper)
}

impl<R: Keeper + Drop> ServerOver<R> {
    /// The server that opened over a keeper.
    pub(crate) fn of(alloc: Global, daemon: Daemon, keeper: R) -> Option<ServerOver<R>> {
        match Router::new(alloc) {
            Ok(router) => Some(ServerOver {
                alloc,
                router,
                daemon,
                keeper,
            }),
            Err(_) => {
                drop(daemon);
                drop(keeper);
                None
            }
        }
    }

    /// What the server shows.
    pub(crate) fn view(&self) -> row_readings::StateRef<'_> {
        self.daemon.view()
    }

    /// The answer to what a request wants, or the reply as which it is read.
    pub(crate) fn answer(&mut self, line: &str) -> Result<Answer, Reply> {
        let request = request_of(self.alloc, line);
        let routed = self.router.route(self.alloc, &request, TCP);
        drop(request);
        match routed {
            Ok(command) => {
                let event = Event::Ask(command, NOW);
                Ok(self.daemon.turn(self.alloc, &mut self.keeper, event))
            }
            Err(why) => Err(why),
        }
    }

    /// Asks for what a request wants.
    pub(crate) fn ask(&mut self, line: &str) -> Said {
        match self.answer(line) {
            Ok(answer) => said_by(answer),
            Err(why) => {
                drop(why);
                Said::Other
            }
        }
    }

    /// Asks for what a project uses of its limits; none where that is not told.
    pub(crate) fn usage(&mut self, line: &str) -> Option<Usage> {
        match self.answer(line) {
            Ok(answer) => usage_by(answer),
            Err(why) => {
                drop(why);
                None
            }
        }
    }

    /// Whether all that these requests want is carried out at once.
    pub(crate) fn does_all(&mut self, lines: &[&str]) -> bool {
        let mut is_done = true;
        for line in lines {
            is_done = is_done && self.ask(line) == Said::Done;
        }
        is_done
    }

    /// Asks for the cancel of an operation.
    pub(crate) fn cancel(&mut self, number: u64) -> Said {
        let command = Command {
            project: Text::new(self.alloc),
            what: What::Cancel { op: number },
            expects: None,
        };
        let event = Event::Ask(command, NOW);
        said_by(self.daemon.turn(self.alloc, &mut self.keeper, event))
    }

    /// A worker asks for a call.
    pub(crate) fn take(&mut self) -> Said {
        said_by(self.daemon.take(NOW))
    }

    /// A worker reports of a call that was made for this operation, or was not.
    pub(crate) fn report(&mut self, number: u64, report: Report) -> Said {
        let answer = self
            .daemon
            .report(self.alloc, &mut self.keeper, number, report, NOW);
        said_by(answer)
    }
}

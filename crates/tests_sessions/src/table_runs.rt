//! One run of a table: a session over objects in memory, and what it leaves.

use crate::headers::words_of;
use crate::tables::Fault;
use command_words::{CommandWords, RunWords, read_words};
use host_model::{Host, ModelHost};
use http_front::{Buffer, ByteSink, ByteSource, PIECE, Sink, Source, StillClock};
use operations::{OpFault, Status};
use record_keeper::{Keeper, MapKeeper};
use rest_json::Terms;
use row_readings::StateRef;
use serial_run::{OpenFault, Service, serve};
use size_values::{Entry, NoMemory, Or, Seq};
use std::alloc::Global;

/// The moment of the clock of a run whose words say none, and the latest one.
const MOMENT: u64 = 86_400;

const LATEST: u64 = 253_402_300_799;

/// The boot word of a run whose words say none.
const BOOT: u64 = 7;

/// What is tried in a run: which call fails, by its number, or none.
#[derive(Clone, Copy)]
pub(crate) struct Trial {
    pub said: RunWords,
    pub piece: usize,
    pub fault: Fault,
    pub number: u64,
}

impl Trial {
    /// The number of the call of this part that fails; no call has the number 0.
    fn number_at(&self, part: Fault) -> u64 {
        if self.fault == part { self.number } else { 0 }
    }
}

/// What a run leaves: its exit status, how many operations are live, how many shares are held, how many ended
/// operations failed for the keeper and for the host, and how many calls failed.
#[derive(Clone, Copy)]
pub(crate) struct Left {
    pub status: u8,
    pub live: usize,
    pub held: usize,
    pub unkept: u64,
    pub undone: u64,
    pub faults: u64,
}

/// The words of a run, if they are such.
pub(crate) fn run_words(alloc: Global, text: &str) -> Result<Option<RunWords>, NoMemory> {
    let words = words_of(alloc, text)?;
    let read = read_words(alloc, &words);
    drop(words);
    match read? {
        Some(CommandWords::Run(said)) => Ok(Some(said)),
        _ => Ok(None),
    }
}

/// A list of one number.
fn only(alloc: Global, number: u64) -> Result<Seq<u64>, NoMemory> {
    let mut numbers = Vec::new(alloc);
    numbers.push(number)?;
    Ok(Seq::from_vec(numbers))
}

/// A source of these bytes.
fn source_of(alloc: Global, trial: Trial, bytes: &[u8]) -> Result<ByteSource, NoMemory> {
    let bytes = Seq::of_bytes(alloc, bytes)?;
    match only(alloc, trial.number_at(Fault::Read)) {
        Ok(fails) => Ok(ByteSource::new(bytes, trial.piece.max(1), fails)),
        Err(why) => {
            drop(bytes);
            Err(why)
        }
    }
}

/// What a session left.
fn left_of(status: u8, view: &StateRef<'_>) -> Left {
    let mut left = Left {
        status,
        live: view.live.len(),
        held: view.held.len(),
        unkept: 0,
        undone: 0,
        faults: 0,
    };
    for operation in view.ended {
        if operation.status == Status::Failure {
            match operation.fault {
                OpFault::Keeper { .. } => left.unkept = left.unkept.saturating_add(1),
                OpFault::Host { .. } => left.undone = left.undone.saturating_add(1),
                OpFault::None => {}
                OpFault::NoMemory => {}
            }
        }
    }
    left
}

/// What is left where the rows were not opened.
fn unopened(why: &OpenFault) -> Left {
    let status = match why {
        OpenFault::KeeperFailed => 6,
        OpenFault::Damaged { .. } => 7,
        OpenFault::Broken { .. } => 7,
        OpenFault::NoMemory => 9,
    };
    Left {
        status,
        live: 0,
        held: 0,
        unkept: 0,
        undone: 0,
        faults: 0,
    }
}

/// One session over rows that were opened.
fn run_service(
    alloc: Global,
    said: RunWords,
    source: &mut ByteSource,
    sink: &mut ByteSink,
    keeper: &mut MapKeeper,
    host: &mut ModelHost,
    service: &mut Service,
) -> Result<Left, NoMemory> {
    let mut buffer = Buffer::new(alloc)?;
    let mut clock = StillClock::new(said.now.unwrap_or(MOMENT).min(LATEST));
    let terms = Terms {
        boot: said.boot.unwrap_or(BOOT),
        dialect: said.dialect,
        refuses_origin: false,
    };
    let ends = serve(
        alloc,
        &mut buffer,
        source,
        sink,
        keeper,
        host,
        &mut clock,
        service,
        terms,
        said.pace,
    );
    drop(buffer);
    Ok(left_of(ends.status(), &service.view()))
}

/// One run over this keeper and this host.
fn run_kept(
    alloc: Global,
    said: RunWords,
    source: &mut ByteSource,
    sink: &mut ByteSink,
    keeper: &mut MapKeeper,
    host: &mut ModelHost,
) -> Result<Left, NoMemory> {
    match Service::new(alloc, keeper) {
        Ok(mut service) => {
            let left = run_service(alloc, said, source, sink, keeper, host, &mut service);
            drop(service);
            left
        }
        Err(why) => {
            let left = unopened(&why);
            drop(why);
            Ok(left)
        }
    }
}

/// How many calls failed in all.
fn faults_of(source: &ByteSource, sink: &ByteSink, keeper: &MapKeeper, host: &ModelHost) -> u64 {
    let of_streams = source.faults().saturating_add(sink.faults());
    let of_stores = keeper.faults().saturating_add(host.faults());
    of_streams.saturating_add(of_stores)
}

/// One run over this source and sink, with a keeper and a host of its own.
fn run_over(
    alloc: Global,
    trial: Trial,
    source: &mut ByteSource,
    sink: &mut ByteSink,
    fails_keeper: Seq<u64>,
    fails_host: Seq<u64>,
) -> Result<Left, NoMemory> {
    let mut keeper = MapKeeper::new(alloc, fails_keeper);
    let mut host = ModelHost::new(alloc, fails_host);
    let left = run_kept(alloc, trial.said, source, sink, &mut keeper, &mut host);
    let faults = faults_of(source, sink, &keeper, &host);
    drop(host);
    drop(keeper);
    let mut left = left?;
    left.faults = faults;
    Ok(left)
}

/// One run over this source and sink.
fn run_streams(
    alloc: Global,
    trial: Trial,
    source: &mut ByteSource,
    sink: &mut ByteSink,
) -> Result<Left, NoMemory> {
    let fails_keeper = only(alloc, trial.number_at(Fault::Keeper))?;
    match only(alloc, trial.number_at(Fault::Host)) {
        Ok(fails_host) => run_over(alloc, trial, source, sink, fails_keeper, fails_host),
        Err(why) => {
            drop(fails_keeper);
            Err(why)
        }
    }
}

/// One run over these bytes, and what is written in it.
pub(crate) fn run_trial(
    alloc: Global,
    trial: Trial,
    bytes: &[u8],
    written: &mut Vec<u8>,
) -> Result<Left, NoMemory> {
    let mut source = source_of(alloc, trial, bytes)?;
    let left = match only(alloc, trial.number_at(Fault::Write)) {
        Ok(fails) => {
            let mut sink = ByteSink::new(alloc, fails);
            let left = run_streams(alloc, trial, &mut source, &mut sink);
            let copied = written.extend_from_slice(sink.bytes());
            drop(sink);
            match copied {
                Ok(()) => left,
                Err(_) => Err(NoMemory),
            }
        }
        Err(why) => Err(why),
    };
    drop(source);
    left
}

/// The entries that a keeper has.
fn loaded(keeper: &mut MapKeeper) -> Result<Seq<Entry>, NoMemory> {
    match keeper.load() {
        Ok(entries) => Ok(entries),
        Err(Or::NoMemory) => Err(NoMemory),
        Err(Or::Why(_)) => Err(NoMemory),
    }
}

/// The entries that a run over these bytes leaves, in which no call fails.
pub(crate) fn entries_after(
    alloc: Global,
    said: RunWords,
    bytes: &[u8],
) -> Result<Seq<Entry>, NoMemory> {
    let bytes = Seq::of_bytes(alloc, bytes)?;
    let mut source = ByteSource::new(bytes, PIECE, Seq::new(alloc));
    let mut sink = ByteSink::new(alloc, Seq::new(alloc));
    let mut keeper = MapKeeper::new(alloc, Seq::new(alloc));
    let mut host = ModelHost::new(alloc, Seq::new(alloc));
    let left = run_kept(alloc, said, &mut source, &mut sink, &mut keeper, &mut host);
    drop(host);
    drop(sink);
    drop(source);
    let entries = loaded(&mut keeper);
    drop(keeper);
    match left {
        Ok(_) => entries,
        Err(why) => {
            drop(entries);
            Err(why)
        }
    }
}

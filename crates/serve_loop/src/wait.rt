//! How a command comes to its reply at a gate: the answer of a wait is held back while its
//! operation is live.
ghost use Rattle.std.specs.Prelude.{◌≡◌, ◌≢◌, ◌<◌, ◌≤◌, true, IfOk, IfSome, if◌then◌else◌, None, Some, Option, ℕ};
ghost use Rattle.size_values.specs.Moments.{moment_limit};
ghost use Rattle.http_front.specs.Clocks.{Readings};
ghost use Rattle.records.specs.Forms.{is_formed};
ghost use Rattle.records.specs.declared.commands.Command.{Command as CommandValue};
ghost use Rattle.gates.specs.Gates.{Walk, seen};
ghost use Rattle.serve_loop.specs.Moments.{IsLate, deadline_by, deadline_of};
ghost use Rattle.gates.specs.Answers.{IsForLooker};
ghost use Rattle.serve_loop.specs.Waits.{Looked, ServeBy, due, goes_on, going_on, idles_after};
ghost use Rattle.serve_loop.specs.Waits.{looking, most_idles, replied, command_world, unasked, wait_of, waiting};

use gates::{Bell, Gate, ReplyOrWait, reply_of, reply_or_wait_of};
use http_front::Clock;
use records::{Command, Reply, What};
use row_machine::{Answer, Event};
use size_values::{NoMemory, Text};
use std::alloc::Global;
use std::sync::Wait;

/// How often one wait idles at most until the time of an idle is up.
pub const MOST_IDLES: u32 = 1_000_000;

/// The constant is the number that definitions speak of.
pub fn waits_end_after_a_million_idles()
    ensures { MOST_IDLES ≡ most_idles }
{}

/// What is kept of a wait while its answer is held back: its project, and its seconds, where a
/// negative number has no end.
#[derive(Drop)]
pub struct Waiting {
    project: Text,
    timeout: i64,
}

/// What is kept of a command, if it is a wait.
pub(crate) fn wait_of(alloc: Global, command: &Command) -> Result<Option<Waiting>, NoMemory>
    ensures { IfOk result (λ wait. wait ≡ wait_of command.now) }
{
    match &command.what {
        What::Wait { timeout, .. } => {
            let project = command.project.copy(alloc)?;
            Ok(Some(Waiting {
                project,
                timeout: *timeout,
            }))
        }
        _ => Ok(None),
    }
}

/// When a wait ends that was asked for at this moment, in seconds since 1970.
fn deadline_of(moment: u64, timeout: i64) -> Option<u64>
    requires { moment < moment_limit }
    ensures { result ≡ deadline_of moment timeout }
{
    match u64::try_from(timeout) {
        Ok(seconds) => Some(moment + seconds),
        Err(_) => None,
    }
}

/// Whether a deadline is reached. Without one the clock is not read.
fn is_late<C: Clock>(clock: &mut C, deadline: Option<u64>) -> bool
    ensures { IsLate deadline (C.readings clock.old) result (C.readings clock.new) }
{
    match deadline {
        Some(deadline) => deadline <= clock.now(),
        None => false,
    }
}

/// Whether the operation that was looked at is live.
fn is_live(answer: Answer) -> bool
    requires { IsForLooker answer }
    ensures { Looked answer result }
{
    match answer {
        Answer::NotYet(_) => true,
        Answer::Ended(_) => false,
        _ => unreachable!(),
    }
}

/// Looks at an operation, and says whether it is live.
fn look<G: Gate>(gate: &mut G, number: u64) -> bool
    ensures { (c : CommandValue) (deadline : Option ℕ) (idles : ℕ) (clock : Readings)
        → Walk (ServeBy c)
        (seen G.contents G.turned G.idled gate.old) (seen G.contents G.turned G.idled gate.new)
        (command_world (looking number deadline idles) clock)
        (command_world (if result then waiting number deadline idles else due number) clock) }
{
    let answer = gate.turn(Event::Look(number));
    is_live(answer)
}

/// How often it idled until the time was up, after one more idle.
fn idles_after(is_up: bool, idles: u32) -> u32
    requires { idles < most_idles }
    ensures is { result ≡ idles_after is_up idles }
    ensures few { result ≤ most_idles }
{
    if is_up { idles + 1 } else { idles }
}

/// How often it idled, where a wait goes on that idled so often and whose deadline is reached or not.
fn goes_on(late: bool, idles: u32) -> Option<u32>
    requires { idles ≤ most_idles }
    ensures is { result ≡ goes_on late idles }
    ensures few { IfSome result (λ more. more < most_idles) }
{
    if late || idles == MOST_IDLES {
        None
    } else {
        Some(idles)
    }
}

/// Idles once, until the operation may have ended or a while is over, and then looks at the deadline:
/// how often it idled until the time was up, where the wait goes on.
fn idle<G: Gate, C: Clock>(
    gate: &mut G,
    clock: &mut C,
    deadline: Option<u64>,
    idles: u32,
) -> Option<u32>
    requires few { idles < most_idles }
    ensures few { IfSome result (λ more. more < most_idles) }
    ensures walks { (c : CommandValue) (op : ℕ) → Walk (ServeBy c)
        (seen G.contents G.turned G.idled gate.old) (seen G.contents G.turned G.idled gate.new)
        (command_world (waiting op deadline idles) (C.readings clock.old))
        (command_world (going_on op deadline result) (C.readings clock.new)) }
{
    let is_up = gate.idle(Bell::Ends);
    let late = is_late(clock, deadline);
    goes_on(late, idles_after(is_up, idles))
}

/// Looks at an operation until it has ended, and idles once after each look that shows it live:
/// until the deadline, and until it idled so often for the whole time of an idle. It may look any
/// number of times.
fn wait_for<T: Wait, G: Gate, C: Clock>(
    rt: &T,
    gate: &mut G,
    clock: &mut C,
    number: u64,
    deadline: Option<u64>,
)
    ensures { (c : CommandValue) → Walk (ServeBy c)
        (seen G.contents G.turned G.idled gate.old) (seen G.contents G.turned G.idled gate.new)
        (command_world (looking number deadline 0) (C.readings clock.old))
        (command_world (due number) (C.readings clock.new)) }
{
    let mut idles = 0;
    for _ in rt.forever() {
        if !look(gate, number) {
            return;
        }
        match idle(gate, clock, deadline, idles) {
            Some(more) => idles = more,
            None => return,
        }
    }
    unreachable!()
}

/// Asks for an operation in a project.
fn show<G: Gate, C: Clock>(gate: &mut G, clock: &mut C, project: Text, number: u64) -> Reply
    ensures { (c : CommandValue) → c.project ≡ project → Walk (ServeBy c)
        (seen G.contents G.turned G.idled gate.old) (seen G.contents G.turned G.idled gate.new)
        (command_world (due number) (C.readings clock.old))
        (command_world (replied result) (C.readings clock.new)) }
{
    let command = Command {
        project,
        what: What::GetOp { op: number },
        expects: None,
    };
    let moment = clock.now();
    let answer = gate.turn(Event::Ask(command, moment));
    reply_of(answer)
}

/// Holds the answer of a wait back, and then asks for its operation.
fn wait_and_show<T: Wait, G: Gate, C: Clock>(
    rt: &T,
    gate: &mut G,
    clock: &mut C,
    wait: Waiting,
    moment: u64,
    number: u64,
) -> Reply
    requires early { moment < moment_limit }
    ensures { (c : CommandValue) → Some wait ≡ wait_of c → Walk (ServeBy c)
        (seen G.contents G.turned G.idled gate.old) (seen G.contents G.turned G.idled gate.new)
        (command_world (looking number (deadline_by moment c.what) 0) (C.readings clock.old))
        (command_world (replied result) (C.readings clock.new)) }
{
    let Waiting { project, timeout } = wait;
    wait_for(rt, gate, clock, number, deadline_of(moment, timeout));
    show(gate, clock, project, number)
}

/// The same for what was kept of a command whose answer is held back: it is a wait.
fn hold<T: Wait, G: Gate, C: Clock>(
    rt: &T,
    gate: &mut G,
    clock: &mut C,
    kept: Option<Waiting>,
    moment: u64,
    number: u64,
) -> Reply
    requires early { moment < moment_limit }
    requires kept { kept ≢ None }
    ensures { (c : CommandValue) → kept ≡ wait_of c → Walk (ServeBy c)
        (seen G.contents G.turned G.idled gate.old) (seen G.contents G.turned G.idled gate.new)
        (command_world (looking number (deadline_by moment c.what) 0) (C.readings clock.old))
        (command_world (replied result) (C.readings clock.new)) }
{
    match kept {
        Some(wait) => wait_and_show(rt, gate, clock, wait, moment, number),
        None => unreachable!(),
    }
}

/// Asks for a command, of which this was kept. The answer of a wait is held back until its
/// operation has ended, its time is over, or it idled as often as it may, and is then what is told
/// of that operation.
pub(crate) fn ask<T: Wait, G: Gate, C: Clock>(
    rt: &T,
    gate: &mut G,
    clock: &mut C,
    command: Command,
    kept: Option<Waiting>,
) -> Reply
    requires formed { is_formed command ≡ true }
    requires kept { kept ≡ wait_of command }
    ensures { Walk (ServeBy command)
        (seen G.contents G.turned G.idled gate.old) (seen G.contents G.turned G.idled gate.new)
        (command_world unasked (C.readings clock.old)) (command_world (replied result) (C.readings clock.new)) }
{
    let moment = clock.now();
    let answer = gate.turn(Event::Ask(command, moment));
    match reply_or_wait_of(answer) {
        ReplyOrWait::Reply(reply) => {
            drop(kept);
            reply
        }
        ReplyOrWait::Hold(number) => hold(rt, gate, clock, kept, moment, number),
    }
}

//! What the calls of the modelled host do, and which of them fail.
use crate::given::text_of;
use host_model::{Host, HostCall, HostFailed, ModelHost, Place, Report, Spec, perform};
use size_values::{Or, Seq, Text};
use std::alloc::Global;

/// A host that does not tell its roots and always fails, with a count of faults at its last value.
#[derive(Drop)]
struct Worn;

impl Host for Worn {
    ghost use Rattle.std.specs.Prelude.{None};

    ghost contents = { λ _. None };

    ghost failures = { λ _. 18446744073709551615 };

    fn call(&mut self, _call: &HostCall) -> Result<(), Or<HostFailed>> {
        Err(Or::Why(HostFailed))
    }

    fn faults(&self) -> u64 {
        u64::MAX
    }
}

/// Which call, of one instance and with one text.
#[derive(Clone, Copy)]
enum Step {
    Clear,
    Make,
    CopyTo,
    Start,
    Stop,
    Freeze,
    Thaw,
    Apply,
    Rename,
    Snap,
    Unsnap,
    Restore,
}

fn place(alloc: Global, name: &str) -> Place {
    Place {
        volume: false,
        project: text_of(alloc, "default"),
        pool: Text::new(alloc),
        name: text_of(alloc, name),
    }
}

fn spec(alloc: Global, cpu: &str) -> Spec {
    let mut spec = Spec::new(alloc);
    if !cpu.is_empty() {
        let _ = spec.config.set("limits.cpu", cpu);
    }
    spec
}

/// A call that needs the place alone.
fn plain_call(step: Step, at: Place) -> HostCall {
    match step {
        Step::Freeze => HostCall::Freeze { at },
        Step::Stop => HostCall::Stop { at },
        Step::Thaw => HostCall::Thaw { at },
        _ => HostCall::Clear { at },
    }
}

/// A call with the name of a snapshot, or with an origin.
fn named_call(step: Step, at: Place, name: Text) -> HostCall {
    match step {
        Step::Snap => HostCall::Snap { at, name },
        Step::Unsnap => HostCall::Unsnap { at, name },
        Step::Restore => HostCall::Restore { at, name },
        _ => HostCall::MakeRoot { at, origin: name },
    }
}

/// A call of an instance, with a text. A copy goes into the instance `b`, and is of a snapshot or of the root.
fn call_of(alloc: Global, step: Step, name: &str, text: &str) -> HostCall {
    let at = place(alloc, name);
    match step {
        Step::Clear | Step::Freeze | Step::Stop | Step::Thaw => plain_call(step, at),
        Step::Start => HostCall::Start {
            at,
            spec: spec(alloc, text),
        },
        Step::Apply => HostCall::Apply {
            at,
            spec: spec(alloc, text),
        },
        Step::Rename => HostCall::Rename {
            from: at,
            to: place(alloc, text),
        },
        Step::CopyTo => HostCall::CopyRoot {
            from: at,
            snapshot: text_of(alloc, text),
            to: place(alloc, "b"),
        },
        Step::Make | Step::Snap | Step::Unsnap | Step::Restore => {
            named_call(step, at, text_of(alloc, text))
        }
    }
}

/// What became of a step.
fn report_of<H: Host>(alloc: Global, host: &mut H, step: Step, name: &str, text: &str) -> Report {
    let call = call_of(alloc, step, name, text);
    let report = perform(host, &call);
    drop(call);
    report
}

const STEPS: &[(Step, &str, &str)] = &[
    (Step::Make, "a", "img"),
    (Step::Start, "a", "2"),
    (Step::Freeze, "a", ""),
    (Step::Thaw, "a", ""),
    (Step::Stop, "a", ""),
    (Step::Apply, "a", "4"),
    (Step::Snap, "a", "s0"),
    (Step::CopyTo, "a", "s0"),
    (Step::Restore, "a", "s0"),
    (Step::Unsnap, "a", "s0"),
    (Step::Rename, "a", "c"),
    (Step::Clear, "b", ""),
];

/// How many of the steps are done.
fn steps_done(alloc: Global) -> usize {
    let mut host = ModelHost::new(alloc, Seq::new(alloc));
    let mut done = 0_usize;
    for (step, name, text) in STEPS {
        if report_of(alloc, &mut host, *step, name, text) == Report::Done {
            done = done.saturating_add(1);
        }
    }
    drop(host);
    done
}

// What a call does to the roots is proved; here each is done.
#[test]
fn each_call_is_done(rt: HostRuntime) {
    let done = steps_done(rt.alloc());
    assert!(rt; done == STEPS.len(), "{done} steps");
}

/// The two counts of a failed report.
fn counts_of(report: Report) -> Option<(u64, u64)> {
    match report {
        Report::Failed(rise) => Some((rise.before, rise.after)),
        _ => None,
    }
}

// The counts of the first three calls.
const COUNTS: &[Option<(u64, u64)>] = &[None, Some((0, 1)), None];

/// Whether the second of three calls fails and changes nothing.
fn is_second_told(alloc: Global) -> bool {
    let mut fails = Seq::new(alloc);
    let _ = fails.push(2u64);
    let mut host = ModelHost::new(alloc, fails);
    let mut is = true;
    for want in COUNTS {
        let report = report_of(alloc, &mut host, Step::Make, "a", "img");
        is = counts_of(report) == *want && host.roots().len() <= 1 && is;
    }
    is = host.faults() == 1 && is;
    drop(host);
    is
}

fn are_worn_counts_told(alloc: Global) -> bool {
    let report = report_of(alloc, &mut Worn, Step::Stop, "a", "");
    counts_of(report) == Some((u64::MAX, u64::MAX))
}

fn is_place_copied(alloc: Global) -> bool {
    let a = place(alloc, "a");
    let b = place(alloc, "b");
    let copy = a.copy(alloc);
    let is = match &copy {
        Ok(copy) => copy.is(&a) && !copy.is(&b),
        Err(_) => false,
    };
    drop(copy);
    drop(b);
    drop(a);
    is
}

fn is_spec_copied(alloc: Global) -> bool {
    let two = spec(alloc, "2");
    let copy = two.copy();
    drop(two);
    let is = match &copy {
        Ok(copy) => copy.config.has("limits.cpu", "2") && copy.devices.len() == 0,
        Err(_) => false,
    };
    drop(copy);
    is
}

#[test]
fn failing_calls_change_nothing_and_copies_have_the_same_parts(rt: HostRuntime) {
    let alloc = rt.alloc();
    assert!(rt; is_second_told(alloc) && are_worn_counts_told(alloc));
    assert!(rt; is_place_copied(alloc) && is_spec_copied(alloc));
}

//! A host behind a lock.
use host_model::{Host, HostCall, ModelHost, Place, Report, perform};
use serving::LockedHost;
use size_values::{NoMemory, Seq, Text};
use std::alloc::Global;
use std::sync::Wait;

/// What three calls came to, two by one handle and one by another: failed or not, and the counts of failures.
type Told = ([bool; 3], u64, u64);

/// Makes three calls on a modelled host whose second call fails.
fn three_calls<R: Wait + Copy>(rt: R, alloc: Global) -> Result<Told, NoMemory> {
    let mut fails = Seq::new(alloc);
    fails.push(2)?;
    let mut first = LockedHost::new(rt, alloc, ModelHost::new(alloc, fails))?;
    let mut second = first.share()?;
    let call = HostCall::Clear { at: place(alloc)? };
    let one = fails_at(&mut first, &call);
    let two = fails_at(&mut first, &call);
    let three = fails_at(&mut second, &call);
    let told = ([one, two, three], first.faults(), second.faults());
    drop(call);
    Ok(told)
}

fn place(alloc: Global) -> Result<Place, NoMemory> {
    let project = Text::from_text(alloc, "default")?;
    let name = Text::from_text(alloc, "a")?;
    Ok(Place {
        volume: false,
        project,
        pool: Text::new(alloc),
        name,
    })
}

fn fails_at<H: Host>(host: &mut H, call: &HostCall) -> bool {
    matches!(perform(host, call), Report::Failed(_))
}

#[test]
fn the_second_of_three_calls_fails(rt: HostRuntime) {
    let told = three_calls(rt, rt.alloc());
    assert!(rt;
        told == Ok(([false, true, false], 1, 1)),
        "failures, and their counts"
    );
}

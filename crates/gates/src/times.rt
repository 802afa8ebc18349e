//! The moments of turns, which never fall.
ghost use Rattle.std.specs.Prelude.{◌≡◌, ◌<◌, ◌≤◌};
ghost use Rattle.size_values.specs.Moments.{moment_limit};
ghost use Rattle.serial_steps.specs.core_turns.specs.Turns.{IsServed};
ghost use Rattle.gates.specs.Times.{at_moment, latest_after};

use row_machine::Event;

/// The latest moment of turns after this event, where it was `latest` before.
pub(crate) fn latest_after(latest: u64, event: &Event) -> u64
    requires early { latest < moment_limit }
    requires served { IsServed event.now }
    ensures is { result ≡ latest_after latest event.now }
    ensures early { result < moment_limit }
    ensures rises { latest ≤ result }
{
    match event {
        Event::Ask(_, moment) => latest.max(*moment),
        Event::Take(moment) => latest.max(*moment),
        Event::Done(_, _, moment) => latest.max(*moment),
        Event::Look(_) | Event::Fetch(_, _) | Event::Close => latest,
    }
}

/// The event with this moment in the place of its own, if it has one.
pub(crate) fn at_moment(moment: u64, event: Event) -> Event
    requires early { moment < moment_limit }
    requires served { IsServed event }
    ensures is { result ≡ at_moment moment event }
    ensures served { IsServed result }
{
    match event {
        Event::Ask(command, _) => Event::Ask(command, moment),
        Event::Take(_) => Event::Take(moment),
        Event::Done(number, report, _) => Event::Done(number, report, moment),
        other => other,
    }
}

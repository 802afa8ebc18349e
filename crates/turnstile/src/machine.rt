ghost use Rattle.std.specs.Prelude.{◌≡◌};
ghost use Rattle.turnstile.specs.declared.bells.Rings.{Rings as RingsValue};

use crate::bells::Rings;

/// What takes one event after the other, and answers each.
pub trait Machine {
    type Event;

    type Answer;

    // Which events it takes.
    ghost takes: { Self.Event → Type 0 };

    // Which answers it may give to an event, from some state that has its type's facts.
    ghost may_answer: { Self.Event → Self.Answer → Type 0 };

    // Which bells ring after an event with its answer: those of all that wait for what it may have brought about.
    ghost rung: { Self.Event → Self.Answer → RingsValue };

    /// Takes one event and answers it, and says which bells ring.
    fn turn(&mut self, event: Self::Event) -> (Self::Answer, Rings)
        requires { takes event }
        ensures answer { may_answer event result.0 }
        ensures rings { result.1 ≡ rung event result.0 };
}

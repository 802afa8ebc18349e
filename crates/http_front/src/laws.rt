//! Laws of reading: functions that do nothing, whose contracts are the laws.
ghost use Rattle.std.specs.Prelude.{◌≡◌, ℕ, List};
ghost use Rattle.http_heads.specs.declared.request.Request.{Request};
ghost use Rattle.http_heads.specs.Messages.{Ending, Splits};
ghost use Rattle.http_front.specs.Reading.{Answers};

/// Reading one message after the other gives the messages and the ending of the whole text.
pub fn steps_split()
    ensures { (text : List ℕ) (messages : List Request) (ending : Ending) →
        Answers text messages ending → Splits text messages ending }
{}

/// The same bytes give the same messages and the same ending, in whatever pieces they come.
pub fn pieces_agree()
    ensures { (text : List ℕ) (messages : List Request) (others : List Request) (ending : Ending) (other : Ending) →
        Answers text messages ending → Answers text others other → (messages ≡ others) × (ending ≡ other) }
{}

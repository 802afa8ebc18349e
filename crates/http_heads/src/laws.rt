//! Laws of the definitions: functions that do nothing, whose contracts are the laws.
ghost use Rattle.std.specs.Prelude.{◌≡◌, ℕ, List, ◌++◌};
ghost use Rattle.http_heads.specs.declared.request.Request.{Request};
ghost use Rattle.http_heads.specs.declared.request.HeadFault.{HeadFault};
ghost use Rattle.http_heads.specs.Messages.{IsMessage, IsMalformed, Ending, EndsAs, Splits};

/// A text begins with one message at most, and then has one rest.
pub fn one_next_message()
    ensures { (bytes : List ℕ) (m : Request) (n : Request) (rest : List ℕ) (other : List ℕ) →
        IsMessage bytes m rest → IsMessage bytes n other → (m ≡ n) × (rest ≡ other) }
{}

/// Where a message stands, the text does not end; and it ends in one way only.
pub fn one_ending()
    ensures message { (bytes : List ℕ) (ending : Ending) (m : Request) (rest : List ℕ) →
        EndsAs bytes ending → ¬ (IsMessage bytes m rest) }
    ensures one { (bytes : List ℕ) (ending : Ending) (other : Ending) →
        EndsAs bytes ending → EndsAs bytes other → ending ≡ other }
{}

/// A text has one list of messages and one ending.
pub fn one_reading()
    ensures { (text : List ℕ) (messages : List Request) (others : List Request) (ending : Ending) (other : Ending) →
        Splits text messages ending → Splits text others other → (messages ≡ others) × (ending ≡ other) }
{}

/// Every text has such a reading.
pub fn some_reading()
    ensures { (text : List ℕ) → (messages : List Request) × (ending : Ending) × Splits text messages ending }
{}

/// Bytes that follow a message, or a place at which none can begin, change nothing of it.
pub fn later_bytes()
    ensures message { (bytes : List ℕ) (m : Request) (rest : List ℕ) (more : List ℕ) →
        IsMessage bytes m rest → IsMessage (bytes ++ more) m (rest ++ more) }
    ensures malformed { (bytes : List ℕ) (fault : HeadFault) (more : List ℕ) →
        IsMalformed bytes fault → IsMalformed (bytes ++ more) fault }
{}

//! Laws of the definitions: functions that do nothing, whose contracts are the laws.
ghost use Rattle.std.specs.Prelude.{◌≡◌, ℕ, ◌<◌, List, ◌++◌, length, take};
ghost use Rattle.client_replies.specs.Forms.{Told};
ghost use Rattle.client_replies.specs.Replies.{IsReply, Begins, HasBegun, IsMalformed};

/// Bytes begin with one reply at most; and where one stands, or has begun, they are nothing else.
pub fn one_reading_of_replies()
    ensures reply { (bytes : List ℕ) (tells : Told) (other : Told) (len : ℕ) (long : ℕ) →
        IsReply bytes tells len → IsReply bytes other long → (tells ≡ other) × (len ≡ long) }
    ensures begun { (bytes : List ℕ) (tells : Told) (len : ℕ) → HasBegun bytes → ¬ (IsReply bytes tells len) }
    ensures malformed { (bytes : List ℕ) (tells : Told) (len : ℕ) → IsMalformed bytes → ¬ (IsReply bytes tells len) }
    ensures either { (bytes : List ℕ) → HasBegun bytes → ¬ (IsMalformed bytes) }
{}

/// Bytes that follow a reply, or a place at which none can begin, change nothing of it.
pub fn bytes_behind_replies()
    ensures reply { (bytes : List ℕ) (more : List ℕ) (tells : Told) (len : ℕ) →
        IsReply bytes tells len → IsReply (bytes ++ more) tells len }
    ensures malformed { (bytes : List ℕ) (more : List ℕ) → IsMalformed bytes → IsMalformed (bytes ++ more) }
{}

/// The first bytes of a reply, as long as they are not all of it, are one that has begun.
pub fn parts_of_replies()
    ensures { (bytes : List ℕ) (tells : Told) (len : ℕ) (n : ℕ) →
        IsReply bytes tells len → n < len → HasBegun (take n bytes) }
{}

/// Bytes begin with one list of so many replies, and then have one rest.
pub fn one_list_of_replies()
    ensures { (bytes : List ℕ) (replies : List Told) (others : List Told) (rest : List ℕ) (other : List ℕ) →
        Begins bytes replies rest → Begins bytes others other → length replies ≡ length others
        → (replies ≡ others) × (rest ≡ other) }
{}

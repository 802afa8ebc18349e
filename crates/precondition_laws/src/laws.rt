//! The laws. Each is the contract of a function that does nothing.
ghost use Rattle.precondition_laws.specs.Preconditions.{OtherTagIsRefused, SameTagIsJudgedAsNone, SameTagIsSameBody};

/// A command that expects the tag that its row has breaks the rules that it breaks without a precondition, in the same
/// order.
pub fn the_same_tag_expects_nothing_more()
    ensures { SameTagIsJudgedAsNone }
{}

/// A command that expects another tag than its row has is refused by E1, whatever else it breaks but the rules on what
/// is missing (N1 and N2), and changes nothing.
pub fn another_tag_is_refused()
    ensures { OtherTagIsRefused }
{}

/// Two rows with the same tag have the same body, or their bodies are a collision of the hash.
pub fn the_same_tag_is_the_same_body()
    ensures { SameTagIsSameBody }
{}

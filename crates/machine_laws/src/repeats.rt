//! Creations that are sent again: a function that does nothing, whose contract is the law.
ghost use Rattle.machine_laws.specs.Again.{SentAgain};

/// A creation that names its object and is sent again while its row, or the claim of its operation, stands is refused
/// and changes nothing; where no earlier rule is broken, by the rule on names that are taken (N4) or claimed (N5).
pub fn a_creation_sent_again_is_refused()
    ensures { SentAgain }
{}

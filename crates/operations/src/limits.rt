ghost use Rattle.std.specs.Prelude.{◌≡◌};
ghost use Rattle.operations.specs.Limits.{most_live, most_ended, number_limit};

/// At most this many operations are live.
pub const LIVE_LIMIT: usize = 1_024;

/// At most this many ended operations are kept.
pub const ENDED_LIMIT: usize = 256;

/// Every operation's number lies below this one, 2^40.
pub const NUMBER_LIMIT: u64 = 1_099_511_627_776;

/// The constants are the numbers that definitions speak of.
pub fn limits_are_the_defined_numbers()
    ensures live { LIVE_LIMIT ≡ most_live }
    ensures ended { ENDED_LIMIT ≡ most_ended }
    ensures numbers { NUMBER_LIMIT ≡ number_limit }
{}

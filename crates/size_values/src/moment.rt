ghost use Rattle.std.specs.Prelude.{◌≡◌};
ghost use Rattle.size_values.specs.Moments.{moment_limit};

/// Moments are seconds since 1970-01-01T00:00:00Z, and each lies below this one: the first second after the
/// year 9999.
pub const MOMENT_LIMIT: u64 = 253_402_300_800;

/// The constant is the number that definitions speak of.
pub fn moments_end_with_the_year_9999()
    ensures { MOMENT_LIMIT ≡ moment_limit }
{}

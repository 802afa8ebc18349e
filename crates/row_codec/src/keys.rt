//! The names of which keys are made.
ghost use Rattle.std.specs.Prelude.{◌≡◌};
ghost use Rattle.std.specs.List.{before_first, after_first};
ghost use Rattle.row_codec.specs.Reading.{IsRead, is_slash, two_names_in, three_names_in};

use crate::damage::Damaged;
use estate_rules::good_name;
use size_values::ObjectKind;

/// What stands before the first slash, and what stands after it.
fn parts_of(key: &str) -> (&str, &str)
    ensures front { result.0.now ≡ before_first is_slash key.now }
    ensures back { result.1.now ≡ after_first is_slash key.now }
{
    match key.split_once('/') {
        Some((front, back)) => (front, back),
        None => (key, ""),
    }
}

#[tactic(auto, unfolding(crate::specs::Reading::two_names_in))]
pub(crate) fn two_names_in(
    first: ObjectKind,
    second: ObjectKind,
    key: &str,
) -> Result<(&str, &str), Damaged>
    ensures { IsRead (λ x. (x.0.now, x.1.now)) result (two_names_in first second key.now) }
{
    let (front, back) = parts_of(key);
    if good_name(first, front) && good_name(second, back) {
        Ok((front, back))
    } else {
        Err(Damaged::Key)
    }
}

#[tactic(auto, unfolding(crate::specs::Reading::three_names_in))]
pub(crate) fn three_names_in(
    first: ObjectKind,
    second: ObjectKind,
    third: ObjectKind,
    key: &str,
) -> Result<(&str, &str, &str), Damaged>
    ensures { IsRead (λ x. (x.0.now, x.1.now, x.2.now)) result (three_names_in first second third key.now) }
{
    let (front, back) = parts_of(key);
    if !good_name(first, front) {
        return Err(Damaged::Key);
    }
    let (middle, last) = two_names_in(second, third, back)?;
    Ok((front, middle, last))
}

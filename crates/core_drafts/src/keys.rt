//! Keys that are made of several names.
ghost use Rattle.std.specs.Prelude.{◌≡◌, ◌&&◌, ℕ, List, [], IfSome};
ghost use Rattle.std.specs.Option.{option_copied};
ghost use Rattle.std.specs.Str.{bytes_eq};
ghost use Rattle.row_codec.specs.Spelling.{two_names, three_names};
ghost use Rattle.core_drafts.specs.Keys.{IsRest};

/// What stands after a slash.
fn rest_after_slash(key: &[u8]) -> Option<&[u8]>
    ensures { IsRest [] key.now (option_copied result) }
{
    match key.split_first() {
        Some((first, rest)) => { if *first == b'/' { Some(rest) } else { None } }
        None => None,
    }
}

/// What stands in a key after this name and a slash.
fn rest_after<'x>(key: &'x [u8], first: &[u8]) -> Option<&'x [u8]>
    ensures { IsRest first.now key.now (option_copied result) }
{
    match key.strip_prefix(first) {
        Some(rest) => rest_after_slash(rest),
        None => None,
    }
}

/// Whether a key is of these two names.
pub(crate) fn is_two_names(key: &[u8], first: &[u8], second: &[u8]) -> bool
    ensures { result ≡ bytes_eq (two_names first.now second.now) key.now }
{
    match rest_after(key, first) {
        Some(rest) => second == rest,
        None => false,
    }
}

/// Whether a key is of these three names.
pub(crate) fn is_three_names(key: &[u8], first: &[u8], second: &[u8], third: &[u8]) -> bool
    ensures { result ≡ bytes_eq (three_names first.now second.now third.now) key.now }
{
    match rest_after(key, first) {
        Some(rest) => is_two_names(rest, second, third),
        None => false,
    }
}

/// The two names of which a key with exactly one slash is made. No other two names have this key.
pub(crate) fn two_names_in(key: &str) -> Option<(&str, &str)>
    ensures { IfSome result (λ names. (first second : List ℕ) →
        bytes_eq (two_names first second) key.now ≡ (bytes_eq first names.0.now && bytes_eq second names.1.now)) }
{
    match key.split_once('/') {
        Some((first, second)) => match second.split_once('/') {
            Some(_) => None,
            None => Some((first, second)),
        },
        None => None,
    }
}

/// The three names of which a key with exactly two slashes is made. No other three names have this key.
pub(crate) fn three_names_in(key: &str) -> Option<(&str, &str, &str)>
    ensures { IfSome result (λ names. (first second third : List ℕ) →
        bytes_eq (three_names first second third) key.now
        ≡ (bytes_eq first names.0.now && bytes_eq second names.1.now && bytes_eq third names.2.now)) }
{
    match key.split_once('/') {
        Some((first, rest)) => match two_names_in(rest) {
            Some((second, third)) => Some((first, second, third)),
            None => None,
        },
        None => None,
    }
}

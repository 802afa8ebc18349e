ghost use Rattle.std.specs.Prelude.{◌≡◌, find};
ghost use Rattle.std.specs.Option.{option_map};
ghost use Rattle.std.specs.Str.{str_eq_ignore_ascii_case};
ghost use Rattle.size_values.specs.Boolean.{boolean_of, boolean_named};

use crate::fault::ValueFault;

/// The words for true and false.
const BOOLEANS: [(&str, bool); 8] = [
    ("true", true),
    ("1", true),
    ("yes", true),
    ("on", true),
    ("false", false),
    ("0", false),
    ("no", false),
    ("off", false),
];

/// Parses a boolean: `true`, `1`, `yes` or `on`, and `false`, `0`, `no` or `off`, in any ASCII case, as the Incus
/// documentation lists them for options of type bool.
pub fn read_boolean(text: &str) -> Result<bool, ValueFault>
    ensures { result ≡ boolean_of text.now }
{
    if text.is_empty() {
        return Err(ValueFault::Empty);
    }
    boolean_named(text).ok_or(ValueFault::OutOfRange)
}

fn boolean_named(text: &str) -> Option<bool>
    ensures { result ≡ boolean_named text.now }
{
    boolean_in(&BOOLEANS, text)
}

fn boolean_in(rows: &[(&str, bool)], text: &str) -> Option<bool>
    ensures { result ≡ option_map (λ row. row.1) (find (λ row. str_eq_ignore_ascii_case row.0.now text.now) rows.now) }
{
    rows.iter()
        .find(|row| row.0.eq_ignore_ascii_case(text))
        .map(|row| row.1)
}

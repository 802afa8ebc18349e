//! The values of the fields by which a filter chooses.
ghost use Rattle.std.specs.Prelude.{◌≡◌, IfOk, codes};
ghost use Rattle.std.specs.Option.{option_copied};
ghost use Rattle.rest_json.specs.Views.{view_data};
ghost use Rattle.list_filter.specs.Values.{behind, value_of};

use crate::members::member_text;
use crate::settings::{expanded_setting, own_setting};
use records::View;
use rest_json::Terms;
use size_values::{NoMemory, Text};
use std::alloc::Global;

/// The key of the settings that a field names.
fn own_key(field: &str) -> Option<&str>
    ensures { option_copied result ≡ behind (codes "config.") field.now }
{
    field.strip_prefix("config.")
}

/// The key of the expanded settings that a field names.
fn expanded_key(field: &str) -> Option<&str>
    ensures { option_copied result ≡ behind (codes "expanded_config.") field.now }
{
    field.strip_prefix("expanded_config.")
}

/// The value of a field of an object as a reply shows it: `config.K` and `expanded_config.K` are the value of the key
/// K, which may have dots of its own; any other field is the member of its name where that is a text, a number or a
/// truth, as text. Other members, as lists and objects, and those that are not there have no value.
#[tactic(auto, unfolding(crate::specs::Values::value_of))]
pub fn value_of(
    alloc: Global,
    terms: Terms,
    shown: &View,
    field: &str,
) -> Result<Option<Text>, NoMemory>
    ensures { IfOk result (λ value. value ≡ value_of (view_data terms shown.now) field.now) }
{
    match own_key(field) {
        Some(key) => return own_setting(alloc, shown, key),
        None => {}
    }
    match expanded_key(field) {
        Some(key) => return expanded_setting(alloc, shown, key),
        None => {}
    }
    member_text(alloc, terms, shown, field)
}

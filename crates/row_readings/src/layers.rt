//! What profiles lay, which is made anew only where other profiles are named.
ghost use Rattle.std.specs.Prelude.{◌≡◌, OnOk, IsTrue};
ghost use Rattle.row_readings.specs.Layered.{profiles_of};

use crate::state_ref::StateRef;
use expansion::Expanded;
use size_values::{NoMemory, Text};
use std::alloc::Global;

/// Lays the profiles of these names, in their order, in place of those of the names `last`.
pub(crate) fn lay_again(
    alloc: Global,
    view: &StateRef<'_>,
    home: &str,
    last: &[Text],
    names: &[Text],
    expanded: &mut Expanded,
) -> Result<(), NoMemory>
    requires { expanded.old ≡ profiles_of view.now.profiles home.now last.now }
    ensures { OnOk result (expanded.new ≡ profiles_of view.now.profiles home.now names.now) }
{
    if are_same(last, names) {
        return Ok(());
    }
    *expanded = view.profiles_laid(alloc, home, names)?;
    Ok(())
}

/// Whether the texts are the same in the same order.
fn are_same(texts: &[Text], others: &[Text]) -> bool
    ensures { IsTrue result → texts.now ≡ others.now }
{
    if texts.len() != others.len() {
        return false;
    }
    for place in 0..texts.len() {
        if !texts[place].is(&others[place]) {
            return false;
        }
    }
    true
}

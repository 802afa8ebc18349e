//! What a report makes of what projects are known to use.
ghost use Rattle.std.specs.Prelude.{◌≡◌};
ghost use Rattle.operations.specs.OperationTable.{kept_at};
ghost use Rattle.core_rows.specs.Counted.{after_turn};

use core_judging::{Counted, Totals, Turned, follow_end};
use row_readings::StateRef;

/// The report of a call of an operation that counted for this came to this. Where the operation ended, what its
/// project uses has changed. It takes no memory.
pub(crate) fn follow_report(
    totals: &mut Totals,
    view: &StateRef<'_>,
    number: u64,
    counted: &Counted,
    turned: &Turned,
)
    ensures { totals.new ≡ after_turn turned.now (kept_at view.now.operations number) counted.now totals.old }
{
    match turned {
        Turned::Ended => follow_end(totals, view, number, counted),
        Turned::Stray | Turned::Next(_) => {}
    }
}

//! What the keeper of a server has opens again, at every moment: a function that changes nothing, whose contract says
//! it.
ghost use Rattle.std.specs.Prelude.{◌≡◌};
ghost use Rattle.core_turns.specs.core_rows.specs.Opening.{AreContents, OpensTo};
ghost use Rattle.machine_laws.specs.Reopening.{reopened};
ghost use Rattle.record_keeper.specs.Store.{Store};
ghost use Rattle.core_reopening.specs.Reopened.{OpensAgain};
ghost use Rattle.row_machine.specs.machine.State.{State};
ghost use Rattle.row_machine.specs.opening.Opening.{opened, opening_of};
ghost use Rattle.row_machine.specs.opening.Records.{records_of};
ghost use Rattle.core_turns.specs.core_reports.specs.Stores.{KeepsRecords};

use crate::opening::rows_are_typed;
use core_turns::Daemon;
use machine_laws::kept_rows_open;

/// At every moment, so after each turn: the records of the rows that the server has open to these rows again, with
/// every instance stopped, no operations and no notices (`records`). So do the entries that a keeper tells where they
/// are these records (`kept`): they are once the server was opened (`begun`), and after each turn that found them so
/// (`turned`). No condition is made. It does nothing but look.
pub fn daemon_opens_again(daemon: &Daemon)
    ensures records { opening_of (records_of daemon.now) ≡ opened (reopened daemon.now) }
    ensures kept { (store : Store) → AreContents (records_of daemon.now) store → OpensAgain daemon.now store }
    ensures begun { (before now : Store) → OpensTo daemon.now before now → OpensAgain daemon.now now }
    ensures turned { (s : State) (before now : Store) → AreContents (records_of s) before
        → KeepsRecords before.contents s now.contents daemon.now → OpensAgain daemon.now now }
{
    rows_are_typed(&daemon.view());
    kept_rows_open();
}

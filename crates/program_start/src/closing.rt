//! How the programs let go of the keeper of their rows.
ghost use Rattle.std.specs.Prelude.{◌≡◌};
ghost use Rattle.program_start.specs.Closing.{is_lost, mended};

use crate::file_messages::tell_why;
use crate::rows_keeper::RowsKeeper;
use crate::start_messages::tell_line;
use size_values::{NoMemory, Or};
use sqlite_keeper::{SqliteKeeper, Trouble};
use start_faults::StartFault;
use std::alloc::Global;

impl RowsKeeper {
    /// Whether the file of the rows failed and could not be opened again: from then on each commit fails.
    pub fn is_lost(&self) -> bool
        ensures { result ≡ is_lost self.now }
    {
        match self {
            RowsKeeper::File(keeper) => keeper.is_lost(),
            RowsKeeper::Memory(_) | RowsKeeper::Journal(_) => false,
        }
    }

    /// How many commits were well though the disk had failed.
    pub fn mended(&self) -> u64
        ensures { result ≡ mended self.now }
    {
        match self {
            RowsKeeper::File(keeper) => keeper.mended(),
            RowsKeeper::Memory(_) | RowsKeeper::Journal(_) => 0,
        }
    }
}

/// The line that says that the file alone does not hold all rows.
fn log_line(
    alloc: Global,
    program: &str,
    path: &str,
    trouble: Trouble,
) -> Result<String, NoMemory> {
    Ok(format!(in alloc;
        "{program}: {path}: the last rows stand in {path}-wal alone, since they could not be copied: {trouble}\n"
    )?)
}

fn close_file(rt: HostRuntime, program: &str, keeper: &mut SqliteKeeper) {
    if let Err(Or::Why(trouble)) = keeper.close() {
        tell_line(rt, log_line(rt.alloc(), program, keeper.path(), trouble));
    }
}

/// Lets go of the rows: a file holds all of them then, without the log beside it. Standard error tells where it does not.
pub fn close_rows(rt: HostRuntime, program: &str, keeper: &mut RowsKeeper) {
    if let RowsKeeper::File(keeper) = keeper {
        close_file(rt, program, keeper);
    }
}

/// Ends with the rows at this exit status. Where the keeper or its rows are why the program ends, or the rows are lost,
/// standard error tells of it, and a file stays as it is; else it is closed.
pub fn end_rows(rt: HostRuntime, program: &str, status: u8, keeper: &mut RowsKeeper) {
    let failed = StartFault::KeeperFailed.status();
    if keeper.is_lost() {
        tell_why(rt, program, failed, keeper);
    } else if status == failed || status == StartFault::Unopened.status() {
        tell_why(rt, program, status, keeper);
    } else {
        close_rows(rt, program, keeper);
    }
}

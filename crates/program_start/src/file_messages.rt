use crate::rows_keeper::RowsKeeper;
use crate::start_messages::{tell_fault, tell_line};
use size_values::NoMemory;
use start_faults::StartFault;
use std::alloc::Global;
use std::fmt::Display;

/// The line that says why a file keeps no rows.
fn trouble_line<T: Display + Drop>(
    alloc: Global,
    program: &str,
    path: &str,
    trouble: Option<T>,
) -> Result<String, NoMemory> {
    match trouble {
        Some(trouble) => Ok(format!(in alloc; "{program}: {path}: {trouble}\n")?),
        None => Ok(format!(in alloc;
            "{program}: {path}: the rows could not be read or written\n"
        )?),
    }
}

/// Why a file keeps no rows, where rows are kept in one.
fn tell_trouble(rt: HostRuntime, program: &str, keeper: &RowsKeeper) {
    match keeper {
        RowsKeeper::Memory(_) => {}
        RowsKeeper::File(file) => tell_line(
            rt,
            trouble_line(rt.alloc(), program, file.path(), file.trouble()),
        ),
        RowsKeeper::Journal(file) => tell_line(
            rt,
            trouble_line(rt.alloc(), program, file.path(), file.trouble()),
        ),
    }
}

/// Why a program ended with this exit status, where the keeper or its rows are why: a file keeps no rows, or they open
/// to none.
pub fn tell_why(rt: HostRuntime, program: &str, status: u8, keeper: &mut RowsKeeper) {
    if matches!(keeper, RowsKeeper::Memory(_)) {
        return;
    }
    if status == StartFault::KeeperFailed.status() {
        tell_trouble(rt, program, keeper);
    }
    if status == StartFault::Unopened.status() {
        tell_fault(rt, program, keeper);
    }
}

use http_front::{Sink, WriterSink};
use record_keeper::Keeper;
use rest_replies::rule_name;
use size_values::NoMemory;
use start_faults::{OpenFault, opening_fault};
use std::alloc::Global;

/// Writes a text on standard error.
pub fn tell(rt: HostRuntime, text: &str) {
    let mut errors = WriterSink::new(rt.stderr());
    let _told = errors.write(text.as_bytes());
}

/// Writes a text on standard output.
pub(crate) fn print(rt: HostRuntime, text: &str) {
    let mut output = WriterSink::new(rt.stdout());
    let _told = output.write(text.as_bytes());
}

/// Writes a line on standard error, if there is one.
pub fn tell_line(rt: HostRuntime, line: Result<String, NoMemory>) {
    if let Ok(line) = line {
        tell(rt, &line);
        drop(line);
    }
}

/// The line that says which entry or which row is at fault, by its kind and its key.
fn fault_line(alloc: Global, program: &str, fault: &OpenFault) -> Result<String, NoMemory> {
    match fault {
        OpenFault::Damaged { kind, key } => Ok(format!(in alloc;
            "{program}: the entry of kind {kind} with the key \"{}\" is damaged\n",
            key.view()
        )?),
        OpenFault::Broken { rule, kind, key } => Ok(format!(in alloc;
            "{program}: the row of kind {kind} with the key \"{}\" breaks the rule {}\n",
            key.view(),
            rule_name(*rule)
        )?),
        _ => Ok(format!(in alloc; "{program}: the entries are not opened\n")?),
    }
}

/// Why the entries of a keeper open to no rows.
pub fn tell_fault<R: Keeper>(rt: HostRuntime, program: &str, keeper: &mut R) {
    let Some(fault) = opening_fault(rt.alloc(), keeper) else {
        return;
    };
    let line = fault_line(rt.alloc(), program, &fault);
    drop(fault);
    tell_line(rt, line);
}

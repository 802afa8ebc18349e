//! Whether an operation is the one that a table names.
use crate::rows::Settings;
use config_lists::Config;
use host_model::{HostCall, Place};
use instance_states::CallName;
use records::{Row, Target};
use row_machine::Task;
use size_values::{Deed, Text};

/// A call, the name of the root that it is made on, and a text that it gives: an image, the name that a root gets, a
/// snapshot, or how many processors a specification has.
#[derive(Clone, Copy)]
pub(crate) struct Call(
    pub(crate) CallName,
    pub(crate) &'static str,
    pub(crate) &'static str,
);

/// An operation: its deed, project and the name of its object; the name and the settings of its claimed row; the
/// instance that this row replaces, and the source of a copy; its calls, and the one that takes it back. Texts are
/// empty where there is nothing.
#[derive(Clone, Copy)]
pub(crate) struct Begun {
    pub(crate) deed: Deed,
    pub(crate) project: &'static str,
    pub(crate) name: &'static str,
    pub(crate) claim: Option<(&'static str, Settings)>,
    pub(crate) replaces: &'static str,
    pub(crate) source: &'static str,
    pub(crate) calls: &'static [Call],
    pub(crate) undo: Option<Call>,
}

/// The name of a call, where it is made, and its text.
fn parts(call: &HostCall) -> (CallName, &Place, &str) {
    match call {
        HostCall::Clear { at } => (CallName::Clear, at, ""),
        HostCall::MakeRoot { at, origin } => (CallName::MakeRoot, at, origin.view()),
        HostCall::CopyRoot { from, snapshot, .. } => (CallName::CopyRoot, from, snapshot.view()),
        HostCall::Start { at, spec } => (CallName::Start, at, processors(&spec.config)),
        HostCall::Stop { at } => (CallName::Stop, at, ""),
        HostCall::Freeze { at } => (CallName::Freeze, at, ""),
        HostCall::Thaw { at } => (CallName::Thaw, at, ""),
        HostCall::Apply { at, spec } => (CallName::Apply, at, processors(&spec.config)),
        HostCall::Rename { from, to } => (CallName::Rename, from, to.name.view()),
        HostCall::Snap { at, name } => (CallName::Snap, at, name.view()),
        HostCall::Unsnap { at, name } => (CallName::Unsnap, at, name.view()),
        HostCall::Restore { at, name } => (CallName::Restore, at, name.view()),
    }
}

fn processors(config: &Config) -> &str {
    config.get("limits.cpu").unwrap_or("")
}

fn is_call(call: &HostCall, project: &str, wanted: Call) -> bool {
    let (name, at, more) = parts(call);
    name == wanted.0
        && at.project.view() == project
        && at.name.view() == wanted.1
        && more == wanted.2
}

fn are_calls(calls: &[HostCall], project: &str, wanted: &[Call]) -> bool {
    for (place, call) in calls.iter().enumerate() {
        match wanted.get(place) {
            Some(wanted) => {
                if !is_call(call, project, *wanted) {
                    return false;
                }
            }
            None => return false,
        }
    }
    calls.len() == wanted.len()
}

fn is_undo(undo: &Option<HostCall>, project: &str, wanted: Option<Call>) -> bool {
    match (undo, wanted) {
        (Some(call), Some(wanted)) => is_call(call, project, wanted),
        (None, None) => true,
        _ => false,
    }
}

fn is_config(config: &Config, settings: Settings) -> bool {
    for (key, value) in settings {
        if !config.has(key, value) {
            return false;
        }
    }
    config.len() == settings.len()
}

fn is_row(project: &Text, name: &Text, config: &Config, begun: &Begun) -> bool {
    match begun.claim {
        Some((wanted, settings)) => {
            project.view() == begun.project && name.view() == wanted && is_config(config, settings)
        }
        None => false,
    }
}

fn is_claim(claim: &Option<Row>, begun: &Begun) -> bool {
    match claim {
        Some(Row::Volume(row)) => is_row(&row.project, &row.name, &row.config, begun),
        Some(Row::Instance(row)) => is_row(&row.project, &row.name, &row.config, begun),
        Some(Row::Snapshot(row)) => is_row(&row.project, &row.name, &row.config, begun),
        Some(_) => false,
        None => begun.claim.is_none(),
    }
}

fn is_replaced(replaces: &Option<(Text, Text)>, begun: &Begun) -> bool {
    match replaces {
        Some((project, name)) => {
            project.view() == begun.project && name.view() == begun.replaces
        }
        None => begun.replaces.is_empty(),
    }
}

fn is_source(source: &Option<Target>, name: &str) -> bool {
    match source {
        Some(of) => of.name.view() == name,
        None => name.is_empty(),
    }
}

/// Whether the operation is this one.
pub(crate) fn is_begun(work: &Task, begun: &Begun) -> bool {
    work.deed == begun.deed
        && work.project.view() == begun.project
        && work.target.name.view() == begun.name
        && work.done == 0
        && is_claim(&work.claim, begun)
        && is_replaced(&work.replaces, begun)
        && is_source(&work.source, begun.source)
        && are_calls(work.calls.view(), begun.project, begun.calls)
        && is_undo(&work.undo, begun.project, begun.undo)
}

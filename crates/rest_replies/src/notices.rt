//! Notices as JSON.
ghost use Rattle.std.specs.Prelude.{◌≡◌, IfOk};
ghost use Rattle.serde_json.specs.View.{view};
ghost use Rattle.rest_replies.specs.Notices.{life_text, event_type, life_data, event_data, notice_data, notice_text};

use records::{EventBody, Life, Notice};
use rest_json::{Object, Terms, operation_value};
use serde_json::Value;
use size_values::{NoMemory, Text};
use std::alloc::Global;

/// How an action is written.
fn life_text(action: Life) -> &'static str
    ensures { result.now ≡ life_text action }
{
    match action {
        Life::ProjectCreated => "project-created",
        Life::ProjectUpdated => "project-updated",
        Life::ProjectRenamed => "project-renamed",
        Life::ProjectDeleted => "project-deleted",
        Life::ProfileCreated => "profile-created",
        Life::ProfileUpdated => "profile-updated",
        Life::ProfileRenamed => "profile-renamed",
        Life::ProfileDeleted => "profile-deleted",
        Life::NetworkCreated => "network-created",
        Life::NetworkUpdated => "network-updated",
        Life::NetworkRenamed => "network-renamed",
        Life::NetworkDeleted => "network-deleted",
        Life::PoolCreated => "storage-pool-created",
        Life::PoolUpdated => "storage-pool-updated",
        Life::PoolDeleted => "storage-pool-deleted",
        Life::VolumeCreated => "storage-volume-created",
        Life::VolumeUpdated => "storage-volume-updated",
        Life::VolumeRenamed => "storage-volume-renamed",
        Life::VolumeDeleted => "storage-volume-deleted",
        Life::InstanceCreated => "instance-created",
        Life::InstanceUpdated => "instance-updated",
        Life::InstanceDeleted => "instance-deleted",
        Life::InstanceRenamed => "instance-renamed",
        Life::InstanceStarted => "instance-started",
        Life::InstanceStopped => "instance-stopped",
        Life::InstanceRestarted => "instance-restarted",
        Life::InstancePaused => "instance-paused",
        Life::InstanceResumed => "instance-resumed",
        Life::InstanceRestored => "instance-restored",
        Life::SnapshotCreated => "instance-snapshot-created",
        Life::SnapshotDeleted => "instance-snapshot-deleted",
    }
}

/// The type of a notice.
fn event_type(body: &EventBody) -> &'static str
    ensures { result.now ≡ event_type body.now }
{
    match body {
        EventBody::Life { .. } => "lifecycle",
        EventBody::Op(_) => "operation",
    }
}

/// An action, with the URL of its object.
#[tactic(auto, unfolding(crate::specs::Notices::life_data))]
fn life_value(alloc: Global, action: Life, source: &Text) -> Result<Value, NoMemory>
    ensures { IfOk result (λ v. view v ≡ life_data action source.now) }
{
    let object = Object::new(alloc)
        .with_text("action", life_text(action))?
        .with_text("source", source.view())?;
    Ok(object.into_value())
}

/// What a notice tells: an action, or an operation as it stands.
fn event_value(alloc: Global, boot: u64, body: &EventBody) -> Result<Value, NoMemory>
    ensures { IfOk result (λ v. view v ≡ event_data boot body.now) }
{
    match body {
        EventBody::Life { action, source } => life_value(alloc, *action, source),
        EventBody::Op(operation) => operation_value(alloc, boot, operation),
    }
}

/// A notice as an object.
#[tactic(auto, unfolding(crate::specs::Notices::notice_data))]
fn notice_value(alloc: Global, notice: &Notice, boot: u64) -> Result<Value, NoMemory>
    ensures { IfOk result (λ v. view v ≡ notice_data boot notice.now) }
{
    let metadata = event_value(alloc, boot, &notice.body)?;
    let object = Object::new(alloc)
        .with("metadata", metadata)?
        .with_number("number", notice.number)?
        .with_text("project", notice.project.view())?
        .with_moment("timestamp", notice.moment)?
        .with_text("type", event_type(&notice.body))?;
    Ok(object.into_value())
}

/// A notice as the text of its event.
#[tactic(auto, unfolding(crate::specs::Notices::notice_text))]
pub fn print_notice(alloc: Global, notice: &Notice, terms: Terms) -> Result<Text, NoMemory>
    ensures { IfOk result (λ t. t ≡ notice_text notice.now terms) }
{
    let value = notice_value(alloc, notice, terms.boot)?;
    let text = value.to_string(alloc);
    drop(value);
    Ok(Text::from_string(text?))
}

//! Operations as JSON.
ghost use Rattle.std.specs.Prelude.{◌≡◌, [], ◌∷◌, IfOk};
ghost use Rattle.serde_json.specs.View.{view};
ghost use Rattle.rest_json.specs.Operations.{fault_data, resource_key, resources_data, may_stop, operation_data};
ghost use Rattle.rest_json.specs.Objects.{list_of};
ghost use Rattle.serde_json.specs.Data.{string};
ghost use Rattle.operations.specs.declared.operation.OpFault.TheVariants as fault;

use crate::object::Object;
use crate::words::{error_text, status_code, status_text};
use object_links::url_of;
use records::{OpFault, OpView, Status};
use serde_json::Value;
use size_values::{NoMemory, ObjectKind};
use std::alloc::Global;

/// The failed call of the host, and the counts of its faults before and after it.
fn host_fault(alloc: Global, call: u8, before: u64, after: u64) -> Result<Value, NoMemory>
    ensures { IfOk result (λ v. view v ≡ fault_data (fault.Host call before after)) }
{
    let object = Object::new(alloc)
        .with_number("after", after)?
        .with_number("before", before)?
        .with_number("call", u64::from(call))?;
    Ok(object.into_value())
}

/// The counts of the store's faults before and after the failed commit.
fn keeper_fault(alloc: Global, before: u64, after: u64) -> Result<Value, NoMemory>
    ensures { IfOk result (λ v. view v ≡ fault_data (fault.Keeper before after)) }
{
    let object = Object::new(alloc)
        .with_number("after", after)?
        .with_number("before", before)?;
    Ok(object.into_value())
}

/// What is told of the call that failed.
fn fault_value(alloc: Global, fault: OpFault) -> Result<Value, NoMemory>
    ensures { IfOk result (λ v. view v ≡ fault_data fault) }
{
    match fault {
        OpFault::None => Ok(Value::Null),
        OpFault::Host {
            call,
            before,
            after,
        } => host_fault(alloc, call, before, after),
        OpFault::Keeper { before, after } => keeper_fault(alloc, before, after),
        OpFault::NoMemory => Ok(Value::Null),
    }
}

/// The key of the objects that an operation is about.
fn resource_key(kind: ObjectKind) -> &'static str
    ensures { result.now ≡ resource_key kind }
{
    match kind {
        ObjectKind::Snapshot => "snapshots",
        ObjectKind::Volume => "storage_volumes",
        ObjectKind::Project
        | ObjectKind::Profile
        | ObjectKind::Network
        | ObjectKind::Pool
        | ObjectKind::Instance
        | ObjectKind::Operation => "instances",
    }
}

/// A list of one text.
fn one_text(alloc: Global, text: &str) -> Result<Value, NoMemory>
    ensures { IfOk result (λ v. view v ≡ list_of (string text.now ∷ [])) }
{
    let mut values = Vec::new(alloc);
    values.push(Value::String(String::from_str(alloc, text)?))?;
    Ok(Value::Array(values))
}

/// The object that an operation is about, by its URL.
#[tactic(auto, unfolding(crate::specs::Operations::resources_data))]
fn resources_value(alloc: Global, operation: &OpView) -> Result<Value, NoMemory>
    ensures { IfOk result (λ v. view v ≡ resources_data operation.now) }
{
    let url = url_of(alloc, operation.project.view(), &operation.target)?;
    let urls = one_text(alloc, url.view());
    drop(url);
    let urls = urls?;
    let object = Object::new(alloc).with(resource_key(operation.target.kind), urls)?;
    Ok(object.into_value())
}

/// Whether an operation of a status can still be cancelled.
fn may_stop(status: Status) -> bool
    ensures { result ≡ may_stop status }
{
    match status {
        Status::Pending | Status::Running => true,
        Status::Cancelling | Status::Success | Status::Failure | Status::Cancelled => false,
    }
}

/// An operation as an object.
#[tactic(auto, unfolding(crate::specs::Operations::operation_data))]
pub fn operation_value(alloc: Global, boot: u64, operation: &OpView) -> Result<Value, NoMemory>
    ensures { IfOk result (λ v. view v ≡ operation_data boot operation.now) }
{
    let status = operation.status;
    let may_cancel = operation.may_cancel && may_stop(status);
    let object = Object::new(alloc)
        .with_text("class", "task")?
        .with_moment("created_at", operation.created)?
        .with_text("err", error_text(status, operation.fault))?
        .with_id("id", boot, operation.number)?
        .with_boolean("may_cancel", may_cancel)?;
    let fault = fault_value(alloc, operation.fault)?;
    let object = object.with("metadata", fault)?;
    let resources = resources_value(alloc, operation)?;
    let object = object
        .with("resources", resources)?
        .with_text("status", status_text(status))?
        .with_number("status_code", status_code(status))?
        .with_moment("updated_at", operation.updated)?;
    Ok(object.into_value())
}

ghost use Rattle.std.specs.Prelude.{◌≡◌, IfOk};

use size_values::{NoMemory, Text};
use std::alloc::Global;

/// The rules by which a request is refused, in the order in which they are judged: of the head of a request (H), its
/// form (A), names (N), what it expects (E), what stands in the way (B), settings (V), the policy of a restricted project (F), its limits
/// (L), operations (O), the size of tables and rows (C), the store (K) and memory (M).
#[derive(Clone, Copy, PartialEq, Eq)]
pub enum Rule {
    /// 400: the head of the request is malformed (RFC 9112, section 2.1).
    H1,
    /// 400: the head is longer than 16,384 bytes.
    H2,
    /// 400: the length of the body is malformed, or told twice (RFC 9112, section 6.3).
    H3,
    /// 400: the body is longer than 1,048,576 bytes.
    H4,
    /// 403: a web page asks over TCP: the head has a field `Origin` (RFC 6454, section 7).
    H5,
    /// 404: the path is none of the REST API.
    A1,
    /// 405: the method is not offered at this path.
    A2,
    /// 400: a key of the query has a malformed value, or is not served; tells the key.
    A3,
    /// 400: the body is no JSON object.
    A4,
    /// 400: a field of the body is malformed; tells its key.
    A5,
    /// 400: events are sent over a WebSocket alone.
    A6,
    /// 404: the project is missing; tells it.
    N1,
    /// 404: the object of the path, or the source of a copy, is missing; tells its kind and name.
    N2,
    /// 412: the object is not as the request expects it (RFC 9110, section 13.1.1); tells kind, name and project.
    E1,
    /// 400: the new name is malformed; tells kind and name.
    N3,
    /// 409: an object has the new name; tells kind and name.
    N4,
    /// 409: a live operation claims the new name; tells kind, name and the number of the operation.
    N5,
    /// 409: a live operation keeps the instance busy; tells its name and the number of the operation.
    B1,
    /// 400: the instance is in the wrong state; tells the state and the name.
    B2,
    /// 403: the object is protected; tells kind and name.
    B3,
    /// 400: another object uses this one; tells the first user, kind and name.
    B4,
    /// 400: the project is not empty; tells its name.
    B5,
    /// 409: a live operation holds the profile; tells its name and the number of the operation.
    B6,
    /// 400: a key is unknown; tells it.
    V1,
    /// 400: a value is malformed; tells its key and the number of the fault.
    V2,
    /// 400: a device is malformed; tells its name, the key, if one is at fault, and the number of the fault.
    V3,
    /// 400: the instance has not exactly one root disk; tells its name.
    V4,
    /// 400: an object that a row or a device names is missing; tells kind and name.
    V5,
    /// 403: nesting of containers is forbidden; tells the setting, its subject and the project, as all of F1 to F7.
    F1,
    /// 403: the privilege of a container is forbidden.
    F2,
    /// 403: a low-level setting of containers is forbidden.
    F3,
    /// 403: a low-level setting of virtual machines is forbidden.
    F4,
    /// 403: the interception of system calls is forbidden.
    F5,
    /// 403: a device of this type is forbidden.
    F6,
    /// 403: the network is not one that the project has access to.
    F7,
    /// 403: snapshots are forbidden; tells the project.
    F8,
    /// 403: a limited project has a setting that is not countable; tells the setting, its object and the project.
    L0,
    /// 403: too many instances; tells used, asked and limit, the limit's key and the project, as all of L1 to L9.
    L1,
    /// 403: too many containers.
    L2,
    /// 403: too many virtual machines.
    L3,
    /// 403: too many processors.
    L4,
    /// 403: too much memory, in bytes.
    L5,
    /// 403: too many processes.
    L6,
    /// 403: too much disk, in bytes.
    L7,
    /// 403: too many networks.
    L8,
    /// 403: too much disk on a storage pool, in bytes.
    L9,
    /// 400: the operation has ended; tells its status and number.
    O1,
    /// 400: the operation may not be cancelled; tells its number.
    O2,
    /// 400: the operation is being cancelled already; tells its number.
    O3,
    /// 409: 1,024 operations are live, which is the most.
    O4,
    /// 409: the numbers of operations are used up.
    O5,
    /// 409: the table of this kind is full; tells kind and the most rows.
    C1,
    /// 409: the row would have more than 65,536 bytes; tells kind and its bytes.
    C2,
    /// 503: the store failed; nothing was changed.
    K1,
    /// 500: out of memory; nothing was changed.
    M1,
}

/// What a refusal tells of its rule: the kind and name of an object, its project, a key, a number, or the used,
/// asked and allowed amounts of a limit. The parts that a rule does not tell are empty or 0.
#[derive(Drop)]
pub struct Details {
    pub kind: Text,
    pub project: Text,
    pub name: Text,
    pub key: Text,
    pub number: u64,
    pub used: u128,
    pub asked: u128,
    pub limit: u128,
}

/// Why a request is refused: the rule, and its details.
#[derive(Drop)]
pub struct Refusal {
    pub rule: Rule,
    pub details: Details,
}

impl Details {
    /// The same parts, of its own.
    pub fn copy(&self, alloc: Global) -> Result<Details, NoMemory>
        ensures { IfOk result (λ k. k ≡ self.now) }
    {
        Ok(Details {
            kind: self.kind.copy(alloc)?,
            project: self.project.copy(alloc)?,
            name: self.name.copy(alloc)?,
            key: self.key.copy(alloc)?,
            number: self.number,
            used: self.used,
            asked: self.asked,
            limit: self.limit,
        })
    }
}

impl Refusal {
    /// A refusal of its own with the same parts.
    pub fn copy(&self, alloc: Global) -> Result<Refusal, NoMemory>
        ensures { IfOk result (λ r. r ≡ self.now) }
    {
        Ok(Refusal {
            rule: self.rule,
            details: self.details.copy(alloc)?,
        })
    }
}

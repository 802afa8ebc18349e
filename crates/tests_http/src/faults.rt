//! Bodies of requests by their shapes, with the key of the first field that is at fault, empty where none is.

use crate::bodies::Bodies;
use rest_bodies::Shape;

/// New instances.
pub(crate) const NEW: &[Bodies] = &[
    Bodies {
        shape: Shape::NewInstance,
        head: "",
        tail: "",
        cases: NEW_INSTANCES,
    },
    Bodies {
        shape: Shape::NewInstance,
        head: r#"{"name":"a","source":"#,
        tail: "}",
        cases: SOURCES,
    },
];

/// New instances by the fields after their source.
pub(crate) const AFTER_SOURCE: &[Bodies] = &[
    Bodies {
        shape: Shape::NewInstance,
        head: r#"{"name":"a","source":{"type":"none"},"#,
        tail: "}",
        cases: FIELDS,
    },
    Bodies {
        shape: Shape::NewInstance,
        head: r#"{"name":"a","source":{"type":"none"},"#,
        tail: "}",
        cases: TWO_FIELDS,
    },
    Bodies {
        shape: Shape::NewInstance,
        head: r#"{"name":"a","source":{"type":"none"},"#,
        tail: "}",
        cases: LONG_LISTS,
    },
];

/// Copies and changes of instances.
pub(crate) const CHANGED: &[Bodies] = &[
    Bodies {
        shape: Shape::InstanceCopy,
        head: "",
        tail: "",
        cases: COPIES,
    },
    Bodies {
        shape: Shape::InstancePut,
        head: "",
        tail: "",
        cases: CHANGES,
    },
    Bodies {
        shape: Shape::InstancePatch,
        head: "",
        tail: "",
        cases: CHANGES,
    },
    Bodies {
        shape: Shape::InstancePut,
        head: "",
        tail: "",
        cases: PUTS,
    },
    Bodies {
        shape: Shape::InstancePatch,
        head: "",
        tail: "",
        cases: PATCHES,
    },
];

/// Renames, changes of state and new snapshots.
pub(crate) const OTHERS: &[Bodies] = &[
    Bodies {
        shape: Shape::Rename,
        head: "",
        tail: "",
        cases: RENAMES,
    },
    Bodies {
        shape: Shape::Rename,
        head: "",
        tail: "",
        cases: PLAIN_RENAMES,
    },
    Bodies {
        shape: Shape::InstanceRename,
        head: "",
        tail: "",
        cases: RENAMES,
    },
    Bodies {
        shape: Shape::InstanceRename,
        head: "",
        tail: "",
        cases: INSTANCE_RENAMES,
    },
    Bodies {
        shape: Shape::StateChange,
        head: "",
        tail: "",
        cases: STATES,
    },
    Bodies {
        shape: Shape::NewSnapshot,
        head: "",
        tail: "",
        cases: SNAPSHOTS,
    },
];

/// New instances.
const NEW_INSTANCES: &[(&str, &str)] = &[
    (r#"{"name":"a","source":{"type":"none"}}"#, ""),
    (r#"{"source":{"type":"none"}}"#, "name"),
    (r#"{"name":null,"source":{"type":"none"}}"#, "name"),
    (r#"{"name":5,"source":{"type":"none"}}"#, "name"),
    (
        r#"{"name":"a","type":"container","source":{"type":"none"}}"#,
        "",
    ),
    (
        r#"{"name":"a","type":"virtual-machine","source":{"type":"none"}}"#,
        "",
    ),
    (r#"{"name":"a","type":null,"source":{"type":"none"}}"#, ""),
    (
        r#"{"name":"a","type":"vm","source":{"type":"none"}}"#,
        "type",
    ),
    (r#"{"name":"a","type":"","source":{"type":"none"}}"#, "type"),
    (r#"{"name":"a","type":7,"source":{"type":"none"}}"#, "type"),
];

/// Sources of a new instance.
const SOURCES: &[(&str, &str)] = &[
    ("null", "source"),
    (r#""none""#, "source"),
    ("[]", "source"),
    ("{}", "type"),
    (r#"{"type":null}"#, "type"),
    (r#"{"type":1}"#, "type"),
    (r#"{"type":"None"}"#, "type"),
    (r#"{"type":"migration"}"#, "type"),
    (r#"{"type":"none"}"#, ""),
    (r#"{"type":"none","alias":5}"#, ""),
    (r#"{"type":"image"}"#, "alias"),
    (r#"{"type":"image","alias":null}"#, "alias"),
    (r#"{"type":"image","alias":5}"#, "alias"),
    (r#"{"type":"image","alias":""}"#, ""),
    (r#"{"type":"image","alias":"debian"}"#, ""),
    (r#"{"type":"image","fingerprint":""}"#, ""),
    (r#"{"type":"image","fingerprint":5}"#, "fingerprint"),
    (
        r#"{"type":"image","fingerprint":5,"alias":"debian"}"#,
        "fingerprint",
    ),
    (r#"{"type":"image","fingerprint":"f","alias":5}"#, ""),
    (
        r#"{"type":"image","fingerprint":null,"alias":"debian"}"#,
        "",
    ),
    (r#"{"type":"image","fingerprint":null,"alias":5}"#, "alias"),
];

/// Fields of a new instance after its source.
const FIELDS: &[(&str, &str)] = &[
    (r#""profiles":null"#, ""),
    (r#""profiles":[]"#, ""),
    (r#""profiles":["default"]"#, ""),
    (r#""profiles":["b","a",""]"#, ""),
    (r#""profiles":["a","b","a"]"#, "profiles"),
    (r#""profiles":["a",5]"#, "profiles"),
    (r#""profiles":[null]"#, "profiles"),
    (r#""profiles":"default""#, "profiles"),
    (r#""profiles":{}"#, "profiles"),
    (r#""config":null"#, ""),
    (r#""config":{"user.a":""}"#, ""),
    (r#""config":{"user.a":null}"#, "config"),
    (r#""config":{"":"a"}"#, "config"),
    (r#""config":[]"#, "config"),
    (r#""devices":null"#, ""),
    (r#""devices":{"eth0":{"type":"nic"}}"#, ""),
    (r#""devices":{"eth0":null}"#, "devices"),
    (r#""devices":{"eth0":{"":"a"}}"#, "devices"),
    (r#""ephemeral":null"#, ""),
    (r#""ephemeral":true"#, ""),
    (r#""ephemeral":false"#, ""),
    (r#""ephemeral":"true""#, "ephemeral"),
    (r#""ephemeral":0"#, "ephemeral"),
    (r#""description":null"#, ""),
    (r#""description":"""#, ""),
    (r#""description":5"#, "description"),
    (r#""start":null"#, ""),
    (r#""start":false"#, ""),
    (r#""start":true"#, "start"),
    (r#""start":0"#, "start"),
    (r#""start":"false""#, "start"),
    (r#""other":5"#, ""),
];

/// Two fields of a new instance that are at fault, since 5 has the form of no field. The one that is judged first
/// stands last.
const TWO_FIELDS: &[(&str, &str)] = &[
    (r#""type":5,"name":5"#, "name"),
    (r#""source":5,"type":5"#, "type"),
    (r#""profiles":5,"source":5"#, "source"),
    (r#""config":5,"profiles":5"#, "profiles"),
    (r#""devices":5,"config":5"#, "config"),
    (r#""ephemeral":5,"devices":5"#, "devices"),
    (r#""description":5,"ephemeral":5"#, "ephemeral"),
    (r#""start":5,"description":5"#, "description"),
];

/// A list of 64 profiles, which is the longest, and one more.
const LONG_LISTS: &[(&str, &str)] = &[
    (
        "\"profiles\":[\"default\",\"1\",\"2\",\"3\",\"4\",\"5\",\"6\",\"7\",\"8\",\"9\",\
        \"10\",\"11\",\"12\",\"13\",\"14\",\"15\",\"16\",\"17\",\"18\",\"19\",\"20\",\"21\",\
        \"22\",\"23\",\"24\",\"25\",\"26\",\"27\",\"28\",\"29\",\"30\",\"31\",\"32\",\"33\",\
        \"34\",\"35\",\"36\",\"37\",\"38\",\"39\",\"40\",\"41\",\"42\",\"43\",\"44\",\"45\",\
        \"46\",\"47\",\"48\",\"49\",\"50\",\"51\",\"52\",\"53\",\"54\",\"55\",\"56\",\"57\",\
        \"58\",\"59\",\"60\",\"61\",\"62\",\"63\"]",
        "",
    ),
    (
        "\"profiles\":[\"default\",\"1\",\"2\",\"3\",\"4\",\"5\",\"6\",\"7\",\"8\",\"9\",\
        \"10\",\"11\",\"12\",\"13\",\"14\",\"15\",\"16\",\"17\",\"18\",\"19\",\"20\",\"21\",\
        \"22\",\"23\",\"24\",\"25\",\"26\",\"27\",\"28\",\"29\",\"30\",\"31\",\"32\",\"33\",\
        \"34\",\"35\",\"36\",\"37\",\"38\",\"39\",\"40\",\"41\",\"42\",\"43\",\"44\",\"45\",\
        \"46\",\"47\",\"48\",\"49\",\"50\",\"51\",\"52\",\"53\",\"54\",\"55\",\"56\",\"57\",\
        \"58\",\"59\",\"60\",\"61\",\"62\",\"63\",\"64\"]",
        "profiles",
    ),
];

/// Copies of instances, whose own type is ignored.
const COPIES: &[(&str, &str)] = &[
    (r#"{"name":"b","source":{"type":"copy","source":"a"}}"#, ""),
    (
        r#"{"name":"b","type":"vm","source":{"type":"copy","source":"a"}}"#,
        "",
    ),
    (
        r#"{"name":"b","type":5,"source":{"type":"copy","source":"a"}}"#,
        "",
    ),
    (
        r#"{"name":"b","type":null,"source":{"type":"copy","source":"a"}}"#,
        "",
    ),
    (r#"{"source":{"type":"copy","source":"a"}}"#, "name"),
    (
        r#"{"name":null,"source":{"type":"copy","source":"a"}}"#,
        "name",
    ),
    (r#"{"name":5,"source":{"type":"copy"}}"#, "name"),
    (
        r#"{"name":"b","profiles":5,"source":{"type":"copy"}}"#,
        "source",
    ),
    (
        r#"{"name":"b","config":5,"profiles":["p","p"],"source":{"type":"copy","source":"a"}}"#,
        "profiles",
    ),
    (
        r#"{"name":"b","devices":5,"config":5,"source":{"type":"copy","source":"a"}}"#,
        "config",
    ),
    (
        r#"{"name":"b","ephemeral":5,"devices":5,"source":{"type":"copy","source":"a"}}"#,
        "devices",
    ),
    (
        r#"{"name":"b","description":5,"ephemeral":0,"source":{"type":"copy","source":"a"}}"#,
        "ephemeral",
    ),
    (
        r#"{"name":"b","start":true,"description":5,"source":{"type":"copy","source":"a"}}"#,
        "description",
    ),
    (
        r#"{"name":"b","start":true,"source":{"type":"copy","source":"a"}}"#,
        "start",
    ),
    (
        r#"{"name":"b","start":0,"source":{"type":"copy","source":"a"}}"#,
        "start",
    ),
    (
        r#"{"name":"b","start":false,"restore":5,"source":{"type":"copy","source":"a"}}"#,
        "",
    ),
];

/// Changes of instances, by PUT and by PATCH.
const CHANGES: &[(&str, &str)] = &[
    ("{}", ""),
    (
        r#"{"description":"d","config":{},"devices":{},"profiles":[],"ephemeral":false}"#,
        "",
    ),
    (
        r#"{"description":null,"config":null,"devices":null,"profiles":null,"ephemeral":null}"#,
        "",
    ),
    (
        r#"{"name":5,"type":"vm","source":5,"start":true,"stateful":true,"action":5}"#,
        "",
    ),
    (r#"{"config":5,"description":5}"#, "description"),
    (r#"{"devices":5,"config":{"":"a"}}"#, "config"),
    (r#"{"profiles":5,"devices":{"eth0":5}}"#, "devices"),
    (r#"{"ephemeral":5,"profiles":["a","a"]}"#, "profiles"),
    (r#"{"ephemeral":0}"#, "ephemeral"),
    (r#"{"profiles":"a"}"#, "profiles"),
];

/// Changes by PUT, which may put the instance back to a snapshot.
const PUTS: &[(&str, &str)] = &[
    (r#"{"restore":"s"}"#, ""),
    (r#"{"restore":""}"#, ""),
    (
        r#"{"restore":"s","description":5,"config":5,"devices":5,"profiles":5,"ephemeral":5}"#,
        "",
    ),
    (r#"{"restore":5}"#, "restore"),
    (r#"{"restore":false}"#, "restore"),
    (r#"{"restore":{}}"#, "restore"),
    (r#"{"restore":["s"]}"#, "restore"),
    (r#"{"restore":5,"ephemeral":0}"#, "ephemeral"),
    (r#"{"restore":5,"description":5}"#, "description"),
    (r#"{"restore":null,"config":5}"#, "config"),
];

/// Changes by PATCH, which has no such field.
const PATCHES: &[(&str, &str)] = &[
    (r#"{"restore":5}"#, ""),
    (r#"{"restore":"s"}"#, ""),
    (r#"{"restore":"s","config":5}"#, "config"),
];

/// Renames of all objects.
const RENAMES: &[(&str, &str)] = &[
    ("{}", "name"),
    (r#"{"name":null}"#, "name"),
    (r#"{"name":5}"#, "name"),
    (r#"{"name":""}"#, ""),
    (r#"{"name":"b"}"#, ""),
    (
        r#"{"name":"b","description":5,"config":5,"stateful":5}"#,
        "",
    ),
];

/// Renames of objects that are no instances.
const PLAIN_RENAMES: &[(&str, &str)] = &[(r#"{"name":"b","migration":true,"project":"p"}"#, "")];

/// Renames of instances, which stay where they are.
const INSTANCE_RENAMES: &[(&str, &str)] = &[
    (r#"{"name":"b","migration":false}"#, ""),
    (r#"{"name":"b","migration":null,"project":null}"#, ""),
    (r#"{"name":"b","migration":true}"#, "migration"),
    (r#"{"name":"b","migration":0}"#, "migration"),
    (r#"{"name":"b","migration":"false"}"#, "migration"),
    (r#"{"name":"b","project":"p"}"#, "project"),
    (r#"{"name":"b","project":""}"#, "project"),
    (r#"{"name":"b","project":5}"#, "project"),
    (r#"{"name":"b","project":false}"#, "project"),
    (r#"{"name":5,"project":"p","migration":true}"#, "name"),
    (
        r#"{"name":"b","project":"p","migration":true}"#,
        "migration",
    ),
];

/// Changes of the state of an instance.
const STATES: &[(&str, &str)] = &[
    (r#"{"action":"start"}"#, ""),
    (r#"{"action":"stop"}"#, ""),
    (r#"{"action":"restart"}"#, ""),
    (r#"{"action":"freeze"}"#, ""),
    (r#"{"action":"unfreeze"}"#, ""),
    ("{}", "action"),
    (r#"{"action":null}"#, "action"),
    (r#"{"action":5}"#, "action"),
    (r#"{"action":""}"#, "action"),
    (r#"{"action":"Start"}"#, "action"),
    (r#"{"action":"starts"}"#, "action"),
    (r#"{"action":"pause"}"#, "action"),
    (r#"{"action":["start"]}"#, "action"),
    (r#"{"action":"stop","timeout":"x","force":"x"}"#, ""),
    (r#"{"action":"stop","stateful":false}"#, ""),
    (r#"{"action":"stop","stateful":null}"#, ""),
    (r#"{"action":"stop","stateful":true}"#, "stateful"),
    (r#"{"action":"stop","stateful":0}"#, "stateful"),
    (r#"{"action":"stop","stateful":"false"}"#, "stateful"),
    (r#"{"stateful":true}"#, "action"),
];

/// New snapshots.
const SNAPSHOTS: &[(&str, &str)] = &[
    ("{}", ""),
    (r#"{"name":null}"#, ""),
    (r#"{"name":""}"#, ""),
    (r#"{"name":"s"}"#, ""),
    (r#"{"name":5}"#, "name"),
    (r#"{"name":false}"#, "name"),
    (r#"{"name":"s","stateful":false}"#, ""),
    (r#"{"stateful":null}"#, ""),
    (r#"{"stateful":true}"#, "stateful"),
    (r#"{"stateful":0}"#, "stateful"),
    (r#"{"stateful":"false"}"#, "stateful"),
    (r#"{"stateful":true,"name":5}"#, "name"),
    (r#"{"description":5,"config":5,"expires_at":5}"#, ""),
];

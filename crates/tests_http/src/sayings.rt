//! What bodies of requests say: the parts that each shape has, what is copied, which action is asked for, what is
//! restored, and the parts of a new instance.

use crate::bodies::Want;
use crate::bodies::Want::{Asks, Copies, CopiesNothing, HasParts, IsNew, Restores};
use rest_bodies::Shape;
use size_values::{Action, Kind};

/// A body with every field.
const WHOLE: &str = r#"{
    "name": "n", "description": "d", "config": {"a": "b"},
    "devices": {"eth0": {"type": "nic"}}, "profiles": ["p"],
    "type": "container", "ephemeral": true, "driver": "dir",
    "source": {"type": "copy", "name": "v", "source": "a/s"},
    "action": "start", "restore": "s"
}"#;

/// Bodies by their shapes, with what they say.
pub(crate) const SAID: &[(Shape, &str, Want)] = &[
    // The parts that a body of each shape has, of all those that the whole body could say.
    (Shape::NewProject, WHOLE, HasParts("description config")),
    (
        Shape::NewProfile,
        WHOLE,
        HasParts("description config devices"),
    ),
    (Shape::NewNetwork, WHOLE, HasParts("description config")),
    (Shape::NewPool, WHOLE, HasParts("description config driver")),
    (
        Shape::NewVolume,
        WHOLE,
        HasParts("description config origin"),
    ),
    (
        Shape::NewInstance,
        WHOLE,
        HasParts("description config devices profiles ephemeral kind"),
    ),
    (
        Shape::InstanceCopy,
        WHOLE,
        HasParts("description config devices profiles ephemeral origin"),
    ),
    (Shape::NewSnapshot, WHOLE, HasParts("")),
    (Shape::Change, WHOLE, HasParts("description config")),
    (
        Shape::ProfileChange,
        WHOLE,
        HasParts("description config devices"),
    ),
    (
        Shape::InstancePut,
        WHOLE,
        HasParts("description config devices profiles ephemeral"),
    ),
    (
        Shape::InstancePatch,
        WHOLE,
        HasParts("description config devices profiles ephemeral"),
    ),
    (Shape::Rename, WHOLE, HasParts("")),
    (Shape::InstanceRename, WHOLE, HasParts("")),
    (Shape::StateChange, WHOLE, HasParts("")),
    // What the source of a copy names: the instance and its snapshot, or nothing, which is at fault.
    (
        Shape::InstanceCopy,
        r#"{"name":"b","source":{"type":"copy","source":"a"}}"#,
        Copies("a", ""),
    ),
    (
        Shape::InstanceCopy,
        r#"{"name":"b","source":{"type":"copy","source":"a/s"}}"#,
        Copies("a", "s"),
    ),
    (
        Shape::InstanceCopy,
        r#"{"name":"b","source":{"type":"copy","source":"A b/snap0"}}"#,
        Copies("A b", "snap0"),
    ),
    (
        Shape::InstanceCopy,
        r#"{"name":"b","source":{"type":"copy","source":"../s"}}"#,
        Copies("..", "s"),
    ),
    (
        Shape::InstanceCopy,
        r#"{"name":"b","source":{"type":"copy","source":""}}"#,
        CopiesNothing,
    ),
    (
        Shape::InstanceCopy,
        r#"{"name":"b","source":{"type":"copy","source":"/"}}"#,
        CopiesNothing,
    ),
    (
        Shape::InstanceCopy,
        r#"{"name":"b","source":{"type":"copy","source":"a/"}}"#,
        CopiesNothing,
    ),
    (
        Shape::InstanceCopy,
        r#"{"name":"b","source":{"type":"copy","source":"/s"}}"#,
        CopiesNothing,
    ),
    (
        Shape::InstanceCopy,
        r#"{"name":"b","source":{"type":"copy","source":"//"}}"#,
        CopiesNothing,
    ),
    (
        Shape::InstanceCopy,
        r#"{"name":"b","source":{"type":"copy","source":"a//s"}}"#,
        CopiesNothing,
    ),
    (
        Shape::InstanceCopy,
        r#"{"name":"b","source":{"type":"copy","source":"a/s/"}}"#,
        CopiesNothing,
    ),
    (
        Shape::InstanceCopy,
        r#"{"name":"b","source":{"type":"copy","source":"/a/s"}}"#,
        CopiesNothing,
    ),
    (
        Shape::InstanceCopy,
        r#"{"name":"b","source":{"type":"copy","source":"a/b/c"}}"#,
        CopiesNothing,
    ),
    (
        Shape::InstanceCopy,
        r#"{"name":"b","source":{"type":"copy","source":null}}"#,
        CopiesNothing,
    ),
    (
        Shape::InstanceCopy,
        r#"{"name":"b","source":{"type":"copy","source":5}}"#,
        CopiesNothing,
    ),
    (
        Shape::InstanceCopy,
        r#"{"name":"b","source":{"type":"copy","source":false}}"#,
        CopiesNothing,
    ),
    (
        Shape::InstanceCopy,
        r#"{"name":"b","source":{"type":"copy","source":["a"]}}"#,
        CopiesNothing,
    ),
    (
        Shape::InstanceCopy,
        r#"{"name":"b","source":{"type":"copy","source":{"a":"s"}}}"#,
        CopiesNothing,
    ),
    // The action that a body asks for.
    (
        Shape::StateChange,
        r#"{"action":"start"}"#,
        Asks(Some(Action::Start)),
    ),
    (
        Shape::StateChange,
        r#"{"action":"stop"}"#,
        Asks(Some(Action::Stop)),
    ),
    (
        Shape::StateChange,
        r#"{"action":"restart"}"#,
        Asks(Some(Action::Restart)),
    ),
    (
        Shape::StateChange,
        r#"{"action":"freeze"}"#,
        Asks(Some(Action::Freeze)),
    ),
    (
        Shape::StateChange,
        r#"{"action":"unfreeze"}"#,
        Asks(Some(Action::Unfreeze)),
    ),
    (Shape::StateChange, r#"{"action":"Stop"}"#, Asks(None)),
    (Shape::StateChange, r#"{"action":""}"#, Asks(None)),
    (Shape::StateChange, r#"{"action":5}"#, Asks(None)),
    (Shape::StateChange, r#"{"action":null}"#, Asks(None)),
    (Shape::StateChange, "{}", Asks(None)),
    (Shape::StateChange, r#"{"start":"action"}"#, Asks(None)),
    // The snapshot that a body restores.
    (
        Shape::InstancePut,
        r#"{"restore":"s"}"#,
        Restores(Some("s")),
    ),
    (
        Shape::InstancePut,
        r#"{"restore":"","config":5}"#,
        Restores(Some("")),
    ),
    (Shape::InstancePut, r#"{"restore":null}"#, Restores(None)),
    (Shape::InstancePut, r#"{"restore":5}"#, Restores(None)),
    (Shape::InstancePut, "{}", Restores(None)),
    // The kind of a new instance, whether it is ephemeral, its profiles and its image, which may have an empty name.
    (
        Shape::NewInstance,
        r#"{"name":"a","source":{"type":"none","alias":"debian"}}"#,
        IsNew(None, None, None, None),
    ),
    (
        Shape::NewInstance,
        "{\"name\":\"a\",\"type\":\"container\",\"ephemeral\":false,\"profiles\":[],\
        \"source\":{\"type\":\"image\",\"alias\":\"debian\"}}",
        IsNew(
            Some(Kind::Container),
            Some(false),
            Some(&[]),
            Some("debian"),
        ),
    ),
    (
        Shape::NewInstance,
        "{\"name\":\"a\",\"type\":\"virtual-machine\",\"ephemeral\":true,\
        \"profiles\":[\"b\",\"a\"],\
        \"source\":{\"type\":\"image\",\"alias\":\"debian\",\"fingerprint\":\"f0\"}}",
        IsNew(
            Some(Kind::Machine),
            Some(true),
            Some(&["b", "a"]),
            Some("f0"),
        ),
    ),
    (
        Shape::NewInstance,
        "{\"name\":\"a\",\"profiles\":null,\"type\":null,\"ephemeral\":null,\
        \"source\":{\"type\":\"image\",\"alias\":\"debian\",\"fingerprint\":\"\"}}",
        IsNew(None, None, None, Some("")),
    ),
];

//! Bodies of requests: the first field that is at fault in each, and what it says.

use crate::answers::{is_text, text_of};
use crate::faults::{AFTER_SOURCE, CHANGED, NEW, OTHERS};
use crate::sayings::SAID;
use records::{Body, Origin};
use rest_bodies::{SentBody, Shape, action_at, body_of, judge_fields, object_in, restore_at};
use serde_json::Value;
use size_values::{Action, Kind, Seq, Text};
use std::alloc::Global;

/// Bodies of one shape: how all of them begin and end, and what stands between, with the key of the first field that is
/// at fault, empty where none is.
pub(crate) struct Bodies {
    pub(crate) shape: Shape,
    pub(crate) head: &'static str,
    pub(crate) tail: &'static str,
    pub(crate) cases: &'static [(&'static str, &'static str)],
}

/// What is wanted of a body.
#[derive(Clone, Copy)]
pub(crate) enum Want {
    /// The key of the first field that is at fault, empty where none is.
    Fault(&'static str),
    Asks(Option<Action>),
    Restores(Option<&'static str>),
    /// No field is at fault, and the source is this instance and this snapshot.
    Copies(&'static str, &'static str),
    /// The source is at fault, and says nothing.
    CopiesNothing,
    /// It has the parts of this list and no others.
    HasParts(&'static str),
    /// It is of a new instance of this kind, ephemeral or not, with these profiles and this image.
    IsNew(Option<Kind>, Option<bool>, Option<&'static [&'static str]>, Option<&'static str>),
}

fn is_image(origin: &Origin, image: Option<&str>) -> bool {
    match (origin, image) {
        (Origin::None, None) => true,
        (Origin::Image(name), Some(image)) => name.view() == image,
        _ => false,
    }
}

fn is_copy(origin: &Origin, name: &str, of: &str) -> bool {
    match origin {
        Origin::Copy {
            from,
            snapshot,
            pool,
        } => (from.view() == name) & (snapshot.view() == of) & pool.view().is_empty(),
        _ => false,
    }
}

fn are_names(names: &Option<Seq<Text>>, wanted: Option<&[&str]>) -> bool {
    match (names, wanted) {
        (Some(names), Some(wanted)) => names
            .view()
            .iter()
            .map(|name| name.view())
            .eq(wanted.iter().copied()),
        (None, None) => true,
        _ => false,
    }
}

fn has_parts(body: &Body, parts: &str) -> bool {
    (body.description.is_some() == parts.contains("description"))
        & (body.config.is_some() == parts.contains("config"))
        & (body.devices.is_some() == parts.contains("devices"))
        & (body.profiles.is_some() == parts.contains("profiles"))
        & (body.ephemeral.is_some() == parts.contains("ephemeral"))
        & (body.kind.is_some() == parts.contains("kind"))
        & (body.driver.is_some() == parts.contains("driver"))
        & (is_image(&body.origin, None) != parts.contains("origin"))
}

fn is_said(body: &Body, want: Want) -> bool {
    match want {
        Want::Copies(name, snapshot) => is_copy(&body.origin, name, snapshot),
        Want::CopiesNothing => is_image(&body.origin, None),
        Want::HasParts(parts) => has_parts(body, parts),
        Want::IsNew(kind, ephemeral, profiles, image) => {
            (body.kind == kind)
                & (body.ephemeral == ephemeral)
                & are_names(&body.profiles, profiles)
                & is_image(&body.origin, image)
                & body.driver.is_none()
        }
        _ => false,
    }
}

fn says(alloc: Global, shape: Shape, body: &SentBody, want: Want) -> bool {
    let said = body_of(alloc, shape, body, "pool");
    let is = match &said {
        Ok(said) => is_said(said, want),
        Err(_) => false,
    };
    drop(said);
    is
}

fn restores(alloc: Global, body: &SentBody, snapshot: Option<&str>) -> bool {
    let restored = restore_at(alloc, body);
    let is = match &restored {
        Ok(text) => is_text(text, snapshot),
        Err(_) => false,
    };
    drop(restored);
    is
}

fn has_fault(shape: Shape, body: &SentBody, key: &str) -> bool {
    judge_fields(shape, body).unwrap_or("") == key
}

fn is_wanted(alloc: Global, shape: Shape, body: &SentBody, want: Want) -> bool {
    match want {
        Want::Fault(key) => has_fault(shape, body, key),
        Want::Asks(action) => action_at(body) == action,
        Want::Restores(snapshot) => restores(alloc, body, snapshot),
        Want::Copies(_, _) => has_fault(shape, body, "") & says(alloc, shape, body, want),
        Want::CopiesNothing => has_fault(shape, body, "source") & says(alloc, shape, body, want),
        _ => says(alloc, shape, body, want),
    }
}

/// What begins, stands between and ends a body.
type Texts = (&'static str, &'static str, &'static str);

/// The JSON object that a body spells, if it is one.
fn value_of(alloc: Global, texts: Texts) -> Option<Value> {
    let (head, between, tail) = texts;
    let parts = [
        (head.as_bytes(), 1),
        (between.as_bytes(), 1),
        (tail.as_bytes(), 1),
    ];
    let body = text_of(alloc, &parts).ok()?;
    let value = object_in(alloc, body.view());
    drop(body);
    value.unwrap_or(None)
}

/// Whether a body is as wanted.
fn is_body(alloc: Global, shape: Shape, texts: Texts, want: Want) -> bool {
    match value_of(alloc, texts) {
        Some(value) => {
            let is = is_wanted(alloc, shape, &SentBody::new(&value), want);
            drop(value);
            is
        }
        None => false,
    }
}

/// What stands between head and tail of the first body whose fault is another, empty where there is none.
fn first_wrong(alloc: Global, bodies: &Bodies) -> &'static str {
    for (between, key) in bodies.cases {
        let texts = (bodies.head, *between, bodies.tail);
        if !is_body(alloc, bodies.shape, texts, Want::Fault(key)) {
            return between;
        }
    }
    ""
}

#[test]
fn new_instances_tell_their_first_fault(rt: HostRuntime) {
    for bodies in NEW {
        let wrong = first_wrong(rt.alloc(), bodies);
        assert!(rt; wrong.is_empty(), "{wrong}");
    }
}

#[test]
fn fields_after_a_source_tell_their_fault(rt: HostRuntime) {
    for bodies in AFTER_SOURCE {
        let wrong = first_wrong(rt.alloc(), bodies);
        assert!(rt; wrong.is_empty(), "{wrong}");
    }
}

#[test]
fn copies_and_changes_tell_their_first_fault(rt: HostRuntime) {
    for bodies in CHANGED {
        let wrong = first_wrong(rt.alloc(), bodies);
        assert!(rt; wrong.is_empty(), "{wrong}");
    }
}

#[test]
fn other_bodies_tell_their_first_fault(rt: HostRuntime) {
    for bodies in OTHERS {
        let wrong = first_wrong(rt.alloc(), bodies);
        assert!(rt; wrong.is_empty(), "{wrong}");
    }
}

#[test]
fn bodies_say_what_they_ask_for(rt: HostRuntime) {
    for (shape, body, want) in SAID {
        assert!(rt;
            is_body(rt.alloc(), *shape, ("", body, ""), *want),
            "{body}"
        );
    }
}

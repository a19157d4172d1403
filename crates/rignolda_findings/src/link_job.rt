//! What is wrong with a link job.

use crate::begin::look_at_begin;
use crate::events::look_at_events;
use crate::explanation::Matter;
use crate::known::{Known, look_at_members};
use crate::notes::{Notes, Piece};
use crate::place::Place;
use crate::refusal::Refusal;
use crate::shape::{list_of, look_at_numbers, look_at_params, look_at_start, uncut};
use serde_json::Value;
use stab_json::u16_member;
use stab_script::{LinkJobFault, MAX_EVENTS};
use std::alloc::AllocError;

/// What a link job is.
const LINK_JOB: &str =
    "a link job is an object with \"capacity\", \"labels\", \"start\" and \"events\"";

/// What the events are.
const EVENT_LIST: &str = "the events are a list of at most 1000000 events";

/// What the start is.
const START: &str = "a link job has a start, an object with \"send\" and \"recv\"";

/// The members of a link job.
const MEMBERS: Known = Known {
    what: "a link job",
    names: &["capacity", "labels", "start", "events"],
    idle: &[],
    reason: "",
};

/// The members of a start.
pub const START_MEMBERS: Known = Known {
    what: "a start",
    names: &["frames", "acks", "send", "recv"],
    idle: &[],
    reason: "",
};

/// Looks at a link job: its checks in their order, and then for members that are not known.
pub fn look_at_link_job(notes: &mut Notes, value: &Value) -> Result<(), AllocError> {
    if !value.is_object() {
        return notes.wrong(&Place::whole(), value, LINK_JOB);
    }
    look_at_numbers(notes, Place::whole(), value)?;
    look_at_start_member(notes, value.get("start"))?;
    let events = events_of(notes, value.get("events"))?;
    look_at_params(notes, Place::whole(), value, None)?;
    look_at_all_events(notes, events)?;
    look_at_link_start(notes, value)?;
    look_at_members(notes, Place::whole(), value, MEMBERS)
}

/// Looks at the shape of the start.
fn look_at_start_member(notes: &mut Notes, start: Option<&Value>) -> Result<(), AllocError> {
    match start {
        Some(start) => look_at_start(notes, Place::member("start"), start),
        None => notes.missing(&Place::member("start"), START),
    }
}

/// The entries of the events; none where there is no such list, which is noted.
fn events_of<'v>(notes: &mut Notes, events: Option<&'v Value>) -> Result<&'v [Value], AllocError> {
    let place = Place::member("events");
    match events {
        Some(events) => list_of(notes, &place, events, EVENT_LIST),
        None => {
            notes.missing(&place, EVENT_LIST)?;
            Ok(&[])
        }
    }
}

/// Looks at the number of the events, and at each of them.
fn look_at_all_events(notes: &mut Notes, events: &[Value]) -> Result<(), AllocError> {
    let place = Place::member("events");
    if events.len() > MAX_EVENTS {
        notes.add(
            Matter::Refused(Refusal::LinkJob(LinkJobFault::TooManyEvents)),
            &place,
            &[
                Piece::Number(events.len() as u64),
                Piece::Words(" events are too many; at most 1000000 are allowed"),
            ],
        )?;
    }
    look_at_events(notes, place, events)
}

/// Looks whether the link can begin, and for unknown members of the start.
fn look_at_link_start(notes: &mut Notes, value: &Value) -> Result<(), AllocError> {
    let Some(start) = value.get("start") else {
        return Ok(());
    };
    if let Some(capacity) = uncut(u16_member(value, "capacity")) {
        look_at_begin(notes, Place::member("start"), start, capacity)?;
    }
    look_at_members(notes, Place::member("start"), start, START_MEMBERS)
}

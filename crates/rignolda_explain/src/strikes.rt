//! The strikes of a scenario.

ghost use Rattle.std.specs.Prelude.{◌≡◌, Some, codes, option_and_then, option_map};
ghost use Rattle.serde_json.specs.Find.{at, get};
ghost use Rattle.serde_json.specs.View.{view};
ghost use Rattle.rignolda_explain.specs.Capacities.{capacity_at, entry_capacity};

use crate::names::{Whole, look_at_link};
use rignolda_findings::{
    Matter, Notes, Piece, Place, START_MEMBERS, count_of, look_at_members, uncut,
};
use serde_json::Value;
use stab_json::{item, label, pair, u16_member};
use std::alloc::AllocError;

/// What the labels of a start are.
const LABELS: &str = "a start has \"send\" and \"recv\", whole numbers from 0 to 65535";

/// What the frames of a start are.
const FRAMES: &str =
    "the frames of a start are a list of frames, each a list of a label and an item";

/// What the acknowledgements of a start are.
const ACKS: &str = "the acknowledgements of a start are a list of labels";

/// Looks at the link and the start of a strike.
pub(crate) fn look_at_strike(
    notes: &mut Notes,
    whole: Whole<'_>,
    place: Place<'_>,
    strike: (&Value, &Value),
) -> Result<(), AllocError> {
    let (name, start) = strike;
    let link = look_at_link(notes, whole, place.item(1), name)?;
    match fault_of_start(start) {
        Some(want) => notes.add(Matter::Command, &place.item(2), &[Piece::Words(want)]),
        None => look_at_queues(notes, whole, place.item(2), link, start),
    }
}

/// Looks for members of the starts of strikes that are not known.
pub(crate) fn look_at_members_of_strikes(
    notes: &mut Notes,
    steps: Option<&Value>,
) -> Result<(), AllocError> {
    let Some(Value::Array(steps)) = steps else {
        return Ok(());
    };
    for (i, step) in steps.iter().enumerate() {
        if notes.is_done() {
            break;
        }
        if let Some(start) = struck(step) {
            let place = Place::member("steps").entry(i).item(2);
            look_at_members(notes, place, start, START_MEMBERS)?;
        }
    }
    Ok(())
}

/// The start of a step that is a strike.
fn struck(step: &Value) -> Option<&Value> {
    match step.as_array()?.as_slice() {
        [_, _, Value::Object(_)] => step.get(2),
        _ => None,
    }
}

/// What is wanted of an object that is no start.
fn fault_of_start(start: &Value) -> Option<&'static str> {
    if !is_label(start.get("send")) || !is_label(start.get("recv")) {
        return Some(LABELS);
    }
    if !are_frames(start.get("frames")) {
        return Some(FRAMES);
    }
    if !are_acks(start.get("acks")) {
        return Some(ACKS);
    }
    None
}

/// Whether a value is there, and a label.
pub(crate) fn is_label(value: Option<&Value>) -> bool {
    match value {
        Some(value) => label(value).is_some(),
        None => false,
    }
}

/// Whether a value is a frame.
fn is_frame(value: &Value) -> bool {
    match pair(value) {
        Some((its_label, its_item)) => label(its_label).is_some() && item(its_item).is_some(),
        None => false,
    }
}

/// Whether a value is absent, or a list of frames.
fn are_frames(value: Option<&Value>) -> bool {
    match value {
        None => true,
        Some(Value::Array(list)) => list.iter().all(|entry| is_frame(entry)),
        Some(_) => false,
    }
}

/// Whether a value is absent, or a list of labels.
fn are_acks(value: Option<&Value>) -> bool {
    match value {
        None => true,
        Some(Value::Array(list)) => list.iter().all(|entry| label(entry).is_some()),
        Some(_) => false,
    }
}

/// Looks whether the queues of a start fit the capacity of the link at this place.
fn look_at_queues(
    notes: &mut Notes,
    whole: Whole<'_>,
    place: Place<'_>,
    link: Option<u16>,
    start: &Value,
) -> Result<(), AllocError> {
    let Some(link) = link else {
        return Ok(());
    };
    let Some(capacity) = uncut(capacity_at(whole.job, usize::from(link))) else {
        return Ok(());
    };
    let frames = count_of(start.get("frames"));
    look_at_length(
        notes,
        place,
        (frames, " frames, and the capacity is "),
        capacity,
    )?;
    let acks = count_of(start.get("acks"));
    look_at_length(
        notes,
        place,
        (acks, " acknowledgements, and the capacity is "),
        capacity,
    )
}

/// Adds a queue that is longer than the capacity.
fn look_at_length(
    notes: &mut Notes,
    place: Place<'_>,
    found: (usize, &str),
    capacity: u16,
) -> Result<(), AllocError> {
    if found.0 <= usize::from(capacity) {
        return Ok(());
    }
    notes.add(
        Matter::Command,
        &place,
        &[
            Piece::Number(found.0 as u64),
            Piece::Words(found.1),
            Piece::Number(u64::from(capacity)),
        ],
    )
}

/// The capacity of the link at a place: its own, or the job's.
pub fn capacity_at(job: &Value, place: usize) -> Option<u16>
    ensures { result ≡ capacity_at (view job.now) place }
{
    match link_entry(job, place) {
        Some(entry) => entry_capacity(job, entry),
        None => u16_member(job, "capacity"),
    }
}

/// The entry of the link at a place.
fn link_entry(job: &Value, place: usize) -> Option<&Value>
    ensures { option_map (λ entry. view entry.now) result
        ≡ option_and_then (at place) (get (codes "links") (view job.now)) }
{
    job.get("links")?.get(place)
}

/// The capacity of a link with this entry.
fn entry_capacity(job: &Value, entry: &Value) -> Option<u16>
    ensures { result ≡ entry_capacity (view job.now) (Some (view entry.now)) }
{
    match entry {
        Value::Object(_) => u16_member(entry, "capacity"),
        _ => u16_member(job, "capacity"),
    }
}

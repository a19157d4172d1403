//! Whether values have the shapes that the readers want.

ghost use Rattle.std.specs.Prelude.{◌≡◌, ◌<◌, ◌≤◌, IfOk, OnErr, OnOk, length, unwrap_or};
ghost use Rattle.serde_json.specs.Data.{no_items};
ghost use Rattle.serde_json.specs.Find.{as_array};
ghost use Rattle.serde_json.specs.View.{items_view, view};
ghost use Rattle.rignolda_findings.specs.Gathered.{Adds, Counts, most_findings};
ghost use Rattle.rignolda_findings.specs.Shapes.{of_shape};

use crate::explanation::Matter;
use crate::notes::{Notes, Piece};
use crate::place::Place;
use serde_json::Value;
use stab_frames::{Params, ParamsFault};
use stab_json::{item, label, pair, u16_member};
use stab_tree::NodeId;
use std::alloc::AllocError;

/// What a capacity is.
pub const CAPACITY: &str = "a capacity is a whole number from 1 to 64";

/// What a number of labels is.
pub const LABELS: &str =
    "the number of labels is a whole number from twice the capacity and two to 1000";

/// What a label is.
const LABEL: &str = "a label is a whole number from 0 to 65535";

/// What an item is.
const ITEM: &str = "an item is a whole number from 0 to 4294967295";

/// What a frame is.
const FRAME: &str = "a frame is a list of two, a label and an item";

/// What the frames of a start are.
const FRAMES: &str = "the frames are a list of frames, the front first";

/// What the acknowledgements of a start are.
const ACKS: &str = "the acknowledgements are a list of labels, the front first";

/// What a start is.
const START: &str = "a start has \"send\" and \"recv\", whole numbers from 0 to 65535";

impl Notes {
    /// Adds that a member is missing.
    pub fn missing(&mut self, place: &Place<'_>, want: &str) -> Result<(), AllocError>
        ensures added { OnOk result (length self.old.findings < most_findings
            → Adds (Matter.Refused (of_shape self.old.kind)) self.old self.new) }
        ensures full { most_findings ≤ length self.old.findings → Counts self.old self.new }
        ensures kind { self.new.kind ≡ self.old.kind }
        ensures unchanged { OnErr result (self.new ≡ self.old) }
    {
        self.add(
            self.of_shape(),
            place,
            &[Piece::Words("missing; "), Piece::Words(want)],
        )
    }

    /// Adds that a value has another shape.
    pub fn wrong<'x>(
        &mut self,
        place: &Place<'_>,
        value: &'x Value,
        want: &'x str,
    ) -> Result<(), AllocError>
        ensures added { OnOk result (length self.old.findings < most_findings
            → Adds (Matter.Refused (of_shape self.old.kind)) self.old self.new) }
        ensures full { most_findings ≤ length self.old.findings → Counts self.old self.new }
        ensures kind { self.new.kind ≡ self.old.kind }
        ensures unchanged { OnErr result (self.new ≡ self.old) }
    {
        self.add(
            self.of_shape(),
            place,
            &[Piece::Found(value), Piece::Words("; "), Piece::Words(want)],
        )
    }
}

/// Looks whether a value that has to be there is a whole number.
pub fn look_at_whole(
    notes: &mut Notes,
    place: &Place<'_>,
    value: Option<&Value>,
    want: &str,
) -> Result<(), AllocError> {
    match value {
        None => notes.missing(place, want),
        Some(value) if value.is_u64() => Ok(()),
        Some(value) => notes.wrong(place, value, want),
    }
}

/// Looks whether the capacity and the number of labels of an object are whole numbers.
pub fn look_at_numbers(
    notes: &mut Notes,
    place: Place<'_>,
    value: &Value,
) -> Result<(), AllocError> {
    look_at_whole(
        notes,
        &place.part("capacity"),
        value.get("capacity"),
        CAPACITY,
    )?;
    look_at_whole(notes, &place.part("labels"), value.get("labels"), LABELS)
}

/// Looks whether a value is a label.
fn look_at_label(notes: &mut Notes, place: &Place<'_>, value: &Value) -> Result<(), AllocError> {
    match label(value) {
        Some(_) => Ok(()),
        None => notes.wrong(place, value, LABEL),
    }
}

/// Looks whether a value is an item.
pub fn look_at_item(notes: &mut Notes, place: &Place<'_>, value: &Value) -> Result<(), AllocError> {
    match item(value) {
        Some(_) => Ok(()),
        None => notes.wrong(place, value, ITEM),
    }
}

/// Looks whether a value is a frame.
fn look_at_frame(notes: &mut Notes, place: Place<'_>, value: &Value) -> Result<(), AllocError> {
    let Some((its_label, its_item)) = pair(value) else {
        return notes.wrong(&place, value, FRAME);
    };
    look_at_label(notes, &place.half(0), its_label)?;
    look_at_item(notes, &place.half(1), its_item)
}

/// Looks at the frames of a start.
fn look_at_frames(notes: &mut Notes, place: Place<'_>, values: &[Value]) -> Result<(), AllocError> {
    for (i, value) in values.iter().enumerate() {
        if notes.is_done() {
            break;
        }
        look_at_frame(notes, place.item(i), value)?;
    }
    Ok(())
}

/// Looks at the acknowledgements of a start.
fn look_at_acks(notes: &mut Notes, place: Place<'_>, values: &[Value]) -> Result<(), AllocError> {
    for (i, value) in values.iter().enumerate() {
        if notes.is_done() {
            break;
        }
        look_at_label(notes, &place.item(i), value)?;
    }
    Ok(())
}

/// Looks at a list of items.
pub fn look_at_items(
    notes: &mut Notes,
    place: Place<'_>,
    values: &[Value],
) -> Result<(), AllocError> {
    for (i, value) in values.iter().enumerate() {
        if notes.is_done() {
            break;
        }
        look_at_item(notes, &place.item(i), value)?;
    }
    Ok(())
}

/// The entries of a value that has to be a list; none where it is another value, which is noted.
pub fn list_of<'v>(
    notes: &mut Notes,
    place: &Place<'_>,
    value: &'v Value,
    want: &str,
) -> Result<&'v [Value], AllocError>
    ensures { IfOk result (λ list. items_view list.now
        ≡ unwrap_or (as_array (view value.now)) no_items) }
{
    match value.as_array() {
        Some(list) => Ok(list.as_slice()),
        None => {
            notes.wrong(place, value, want)?;
            Ok(&[])
        }
    }
}

/// The entries of a list that may be absent; none where it is.
pub fn list_or_absent<'v>(
    notes: &mut Notes,
    place: &Place<'_>,
    value: Option<&'v Value>,
    want: &str,
) -> Result<&'v [Value], AllocError> {
    match value {
        Some(value) => list_of(notes, place, value, want),
        None => Ok(&[]),
    }
}

/// Looks whether a member of an object is there and a label.
fn look_at_label_member(
    notes: &mut Notes,
    place: &Place<'_>,
    value: Option<&Value>,
) -> Result<(), AllocError> {
    match value {
        None => notes.missing(place, START),
        Some(value) => look_at_label(notes, place, value),
    }
}

/// Looks whether a value has the shape of a start.
pub fn look_at_start(notes: &mut Notes, place: Place<'_>, value: &Value) -> Result<(), AllocError> {
    if !value.is_object() {
        return notes.wrong(&place, value, START);
    }
    look_at_queues(notes, place, value)?;
    look_at_label_member(notes, &place.part("send"), value.get("send"))?;
    look_at_label_member(notes, &place.part("recv"), value.get("recv"))
}

/// Looks at the two lists of a start.
fn look_at_queues(notes: &mut Notes, place: Place<'_>, value: &Value) -> Result<(), AllocError> {
    let at_frames = place.part("frames");
    let frames = list_or_absent(notes, &at_frames, value.get("frames"), FRAMES)?;
    look_at_frames(notes, at_frames, frames)?;
    let at_acks = place.part("acks");
    let acks = list_or_absent(notes, &at_acks, value.get("acks"), ACKS)?;
    look_at_acks(notes, at_acks, acks)
}

/// Looks whether the capacity and the number of labels of an object are parameters of a link.
pub fn look_at_params(
    notes: &mut Notes,
    place: Place<'_>,
    value: &Value,
    owner: Option<NodeId>,
) -> Result<(), AllocError> {
    let (Some(capacity), Some(labels)) = (
        u16_member(value, "capacity"),
        u16_member(value, "labels"),
    ) else {
        return Ok(());
    };
    match Params::new(capacity, labels) {
        Ok(_) => Ok(()),
        Err(fault) => refuse_params(notes, place, fault, value, owner),
    }
}

/// The number that is written there, where [`u16_member`] has one, which cuts it to 16 bits.
fn whole_at(value: &Value, member: &str) -> u64 {
    match value.get(member) {
        Some(number) => number.as_u64().unwrap_or(0),
        None => 0,
    }
}

/// A number of 16 bits that was not cut to these.
pub fn uncut(number: Option<u16>) -> Option<u16> {
    match number {
        Some(u16::MAX) => None,
        _ => number,
    }
}

/// Adds that two numbers are no parameters of a link.
fn refuse_params(
    notes: &mut Notes,
    place: Place<'_>,
    fault: ParamsFault,
    value: &Value,
    owner: Option<NodeId>,
) -> Result<(), AllocError> {
    let matter = notes.of_params(fault, owner);
    let (capacity, labels) = (whole_at(value, "capacity"), whole_at(value, "labels"));
    match fault {
        ParamsFault::CapacityOutOfRange => notes.add(
            matter,
            &place.part("capacity"),
            &[
                Piece::Number(capacity),
                Piece::Words(" is out of range; "),
                Piece::Words(CAPACITY),
            ],
        ),
        ParamsFault::LabelsTooFew => notes.add(
            matter,
            &place.part("labels"),
            &[
                Piece::Number(labels),
                Piece::Words(" are too few for the capacity "),
                Piece::Number(capacity),
                Piece::Words("; "),
                Piece::Words(LABELS),
            ],
        ),
        ParamsFault::LabelsTooMany => notes.add(
            matter,
            &place.part("labels"),
            &[
                Piece::Number(labels),
                Piece::Words(" are too many; "),
                Piece::Words(LABELS),
            ],
        ),
    }
}

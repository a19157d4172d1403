//! The events of a link job.

use crate::explanation::Matter;
use crate::nearest::{add_nearest, nearest_known};
use crate::notes::{Notes, Piece};
use crate::place::Place;
use crate::refusal::Refusal;
use serde_json::Value;
use stab_core::LinkAct;
use stab_json::{item, label, pair};
use stab_script::{LinkJobFault, plain_act};
use std::alloc::AllocError;

/// The words that name an event.
pub const EVENTS: &[&str] = &[
    "offer",
    "send_frame",
    "recv_frame",
    "recv_frame_keep",
    "send_ack",
    "recv_ack",
    "recv_ack_keep",
    "lose_frame",
    "lose_ack",
    "close",
];

/// What an event is.
const EVENT: &str = "an event is a word, or a list of a word and a number";

/// What an offer is.
const OFFER: &str = "an offer is written [\"offer\", item], the item from 0 to 4294967295";

/// What a loss is.
const LOSS: &str = "a loss is written with its place, as [\"lose_frame\", 0], from 0 to 65535";

/// What an event without a number is.
const PLAIN: &str = "this event has no number, and is written as a word alone";

/// What is wrong with a word, where something is.
#[derive(Clone, Copy, Debug, PartialEq, Eq)]
enum Mistake<'v> {
    /// The value has another shape.
    Shape,
    /// The word names no event.
    Word(&'v str),
    /// The number of this event is wrong or missing, or it has none; these words say what it is.
    Number(&'static str),
}

/// Looks at the events of a link job.
pub fn look_at_events(
    notes: &mut Notes,
    place: Place<'_>,
    values: &[Value],
) -> Result<(), AllocError> {
    for (i, value) in values.iter().enumerate() {
        if notes.is_done() {
            break;
        }
        look_at_event(notes, place.entry(i), value)?;
    }
    Ok(())
}

/// Looks at one event.
fn look_at_event(notes: &mut Notes, place: Place<'_>, value: &Value) -> Result<(), AllocError> {
    let matter = Matter::Refused(Refusal::LinkJob(LinkJobFault::Event));
    match mistake_in(value) {
        None => Ok(()),
        Some(Mistake::Shape) => notes.add(
            matter,
            &place,
            &[Piece::Found(value), Piece::Words("; "), Piece::Words(EVENT)],
        ),
        Some(Mistake::Word(word)) => add_word(notes, matter, &place, word),
        Some(Mistake::Number(want)) => notes.add(matter, &place, &[Piece::Words(want)]),
    }
}

/// Adds a word that names no event, with the nearest one that does.
pub fn add_word(
    notes: &mut Notes,
    matter: Matter,
    place: &Place<'_>,
    word: &str,
) -> Result<(), AllocError> {
    if notes.is_full() {
        return notes.add(matter, place, &[]);
    }
    let near = nearest_known(notes.alloc(), word, EVENTS)?;
    add_nearest(notes, matter, place, word, (" is no event", ""), near)
}

/// What is wrong with an event, where something is.
fn mistake_in(value: &Value) -> Option<Mistake<'_>> {
    match value {
        Value::String(word) => mistake_in_word(word.as_str()),
        Value::Array(_) => mistake_in_list(value),
        _ => Some(Mistake::Shape),
    }
}

/// What is wrong with an event that is a word alone, where something is.
fn mistake_in_word(word: &str) -> Option<Mistake<'_>> {
    match plain_act(word) {
        Some(LinkAct::Offer) => Some(Mistake::Number(OFFER)),
        Some(_) => None,
        None if is_loss(word) => Some(Mistake::Number(LOSS)),
        None => Some(Mistake::Word(word)),
    }
}

/// Whether a word names a loss.
pub fn is_loss(word: &str) -> bool {
    word == "lose_frame" || word == "lose_ack"
}

/// What is wrong with an event that is a list, where something is.
fn mistake_in_list(value: &Value) -> Option<Mistake<'_>> {
    let Some((first, number)) = pair(value) else {
        return Some(Mistake::Shape);
    };
    match first.as_str() {
        Some(word) => mistake_in_numbered(word, number),
        None => Some(Mistake::Shape),
    }
}

/// What is wrong with an event of a word and a number, where something is.
fn mistake_in_numbered<'v>(word: &'v str, number: &Value) -> Option<Mistake<'v>> {
    if word == "offer" {
        return wanted(item(number).is_some(), OFFER);
    }
    if is_loss(word) {
        return wanted(label(number).is_some(), LOSS);
    }
    match plain_act(word) {
        Some(_) => Some(Mistake::Number(PLAIN)),
        None => Some(Mistake::Word(word)),
    }
}

/// No mistake where the number is right.
fn wanted<'v>(is_right: bool, want: &'static str) -> Option<Mistake<'v>> {
    if is_right {
        None
    } else {
        Some(Mistake::Number(want))
    }
}

//! Events and effects in their columns.

use crate::cells::pad;
use crate::words::push_decimal;
use stab_core::{Effect, Event};
use std::alloc::AllocError;

/// Adds an event and its effect in their columns, or the offer of no item.
pub(crate) fn push_act_cells(
    text: &mut String,
    event: Option<Event>,
    effect: Effect,
) -> Result<(), AllocError> {
    if let Some(cells) = both_cells(event, effect) {
        return text.push_str(cells);
    }
    match event {
        Some(event) => push_event_cell(text, event)?,
        None => text.push_str("\"offer\"             ")?,
    }
    push_effect_cell(text, effect)
}

/// The cells of an event without a number and of its effect, where it is one that this event often
/// has.
fn both_cells(event: Option<Event>, effect: Effect) -> Option<&'static str> {
    match (event, effect) {
        (Some(Event::SendFrame), Effect::Sent) => Some("\"send_frame\"        Sent    "),
        (Some(Event::RecvFrame { keep: false }), Effect::Fresh(_)) => {
            Some("\"recv_frame\"        Fresh   ")
        }
        (Some(Event::RecvFrame { keep: false }), Effect::Old) => {
            Some("\"recv_frame\"        Old     ")
        }
        (Some(Event::SendAck), Effect::Sent) => Some("\"send_ack\"          Sent    "),
        (Some(Event::RecvAck { keep: false }), Effect::Acked) => {
            Some("\"recv_ack\"          Acked   ")
        }
        (Some(Event::RecvAck { keep: false }), Effect::Ignored) => {
            Some("\"recv_ack\"          Ignored ")
        }
        (None, Effect::Nothing) => Some("\"offer\"             Nothing "),
        _ => None,
    }
}

/// Adds an event in its column, as a job has it.
fn push_event_cell(text: &mut String, event: Event) -> Result<(), AllocError> {
    match event {
        Event::SendFrame => text.push_str("\"send_frame\"        "),
        Event::RecvFrame { keep: false } => text.push_str("\"recv_frame\"        "),
        Event::RecvFrame { keep: true } => text.push_str("\"recv_frame_keep\"   "),
        Event::SendAck => text.push_str("\"send_ack\"          "),
        Event::RecvAck { keep: false } => text.push_str("\"recv_ack\"          "),
        Event::RecvAck { keep: true } => text.push_str("\"recv_ack_keep\"     "),
        Event::Close => text.push_str("\"close\"             "),
        Event::Offer(item) => push_number(text, "[\"offer\",", u64::from(item)),
        Event::LoseFrame(place) => push_number(text, "[\"lose_frame\",", u64::from(place)),
        Event::LoseAck(place) => push_number(text, "[\"lose_ack\",", u64::from(place)),
    }
}

/// Adds an event with a number in its column.
fn push_number(text: &mut String, before: &str, number: u64) -> Result<(), AllocError> {
    let from = text.len();
    text.push_str(before)?;
    push_decimal(text, number)?;
    text.push(']')?;
    pad(text, from, 19)
}

/// Adds an effect in its column.
fn push_effect_cell(text: &mut String, effect: Effect) -> Result<(), AllocError> {
    text.push_str(match effect {
        Effect::Nothing => "Nothing ",
        Effect::Held => "Held    ",
        Effect::Sent => "Sent    ",
        Effect::Fresh(_) => "Fresh   ",
        Effect::Old => "Old     ",
        Effect::Acked => "Acked   ",
        Effect::Ignored => "Ignored ",
        Effect::Lost => "Lost    ",
        Effect::Closed => "Closed  ",
    })
}

//! The words of events and effects.

use stab_core::{Effect, Event};
use std::alloc::AllocError;

/// Adds an event in words.
pub(crate) fn push_event(out: &mut String, event: Option<Event>) -> Result<(), AllocError> {
    match event {
        None => out.push_str("offer"),
        Some(Event::Offer(item)) => write!(out, "offer {item}"),
        Some(Event::SendFrame) => out.push_str("send_frame"),
        Some(Event::RecvFrame { keep: false }) => out.push_str("recv_frame"),
        Some(Event::RecvFrame { keep: true }) => out.push_str("recv_frame_keep"),
        Some(Event::SendAck) => out.push_str("send_ack"),
        Some(Event::RecvAck { keep: false }) => out.push_str("recv_ack"),
        Some(Event::RecvAck { keep: true }) => out.push_str("recv_ack_keep"),
        Some(Event::LoseFrame(place)) => write!(out, "lose_frame {place}"),
        Some(Event::LoseAck(place)) => write!(out, "lose_ack {place}"),
        Some(Event::Close) => out.push_str("close"),
    }
}

/// The name of an effect.
pub(crate) fn effect_word(effect: Effect) -> &'static str {
    match effect {
        Effect::Nothing => "Nothing",
        Effect::Held => "Held",
        Effect::Sent => "Sent",
        Effect::Fresh(_) => "Fresh",
        Effect::Old => "Old",
        Effect::Acked => "Acked",
        Effect::Ignored => "Ignored",
        Effect::Lost => "Lost",
        Effect::Closed => "Closed",
    }
}

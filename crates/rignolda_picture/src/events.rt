//! What an event does at the two ends of a link, drawn.

use crate::canvas::Canvas;
use crate::ink::Ink;
use crate::panel::{Mark, Panel, Wait, take_at, take_front};
use crate::point::Point;
use crate::shapes::{push_boxed, push_counted, push_line, push_text_start, push_words};
use rignolda_draw::Row;
use stab_core::{Effect, Event};
use stab_frames::{Item, Label};
use std::alloc::{AllocError, Global};

/// Draws what an event did to a link at this height.
pub(crate) fn draw_row(
    alloc: Global,
    panel: &mut Panel,
    canvas: &mut Canvas,
    row: &Row,
    y: u64,
) -> Result<(), AllocError> {
    match row.event {
        None => Ok(()),
        Some(Event::Offer(item)) => offer(panel, canvas, row.effect, item, y),
        Some(Event::SendFrame) => send_frame(alloc, panel, canvas, row, y),
        Some(Event::RecvFrame { keep }) => recv_frame(alloc, panel, canvas, row, keep, y),
        Some(Event::SendAck) => send_ack(alloc, panel, canvas, row, y),
        Some(Event::RecvAck { keep }) => recv_ack(alloc, panel, canvas, row, keep, y),
        Some(Event::LoseFrame(place)) => lose_frame(panel, canvas, row.effect, place, y),
        Some(Event::LoseAck(place)) => lose_ack(panel, canvas, row.effect, place, y),
        Some(Event::Close) => close(panel, canvas, row.effect, y),
    }
}

/// A label in its box.
pub(crate) fn label(
    alloc: Global,
    out: &mut String,
    class: &str,
    at: Point,
    label: Label,
) -> Result<(), AllocError> {
    let text = format!(in alloc; "{label}")?;
    push_boxed(out, class, at, text.as_str(), 4)
}

/// A frame in its queue.
pub(crate) fn frame(
    alloc: Global,
    out: &mut String,
    ink: Ink,
    at: Point,
    label: Label,
    item: Item,
) -> Result<(), AllocError> {
    let text = format!(in alloc; "{label}={item}")?;
    let class = format!(in alloc; "{} box", ink.shape())?;
    push_boxed(out, class.as_str(), at, text.as_str(), 10)
}

/// An acknowledgement in its queue.
pub(crate) fn ack(
    alloc: Global,
    out: &mut String,
    ink: Ink,
    at: Point,
    label: Label,
) -> Result<(), AllocError> {
    let text = format!(in alloc; "{label}")?;
    let class = format!(in alloc; "{} box", ink.shape())?;
    push_boxed(out, class.as_str(), at, text.as_str(), 10)
}

/// The sender holds an item.
fn offer(
    panel: &mut Panel,
    canvas: &mut Canvas,
    effect: Effect,
    item: Item,
    y: u64,
) -> Result<(), AllocError> {
    if effect != Effect::Held {
        return Ok(());
    }
    panel.waits.push(Wait {
        item,
        from: y,
        to: y,
        is_acked: false,
        is_dropped: false,
        is_delivered: false,
    })?;
    let at = panel.sender(y).beside();
    push_counted(&mut canvas.front, "mono end", at, "holds ", u64::from(item))
}

/// A frame is sent, or lost at once.
fn send_frame(
    alloc: Global,
    panel: &mut Panel,
    canvas: &mut Canvas,
    row: &Row,
    y: u64,
) -> Result<(), AllocError> {
    let from = panel.sender(y);
    if row.effect == Effect::Lost {
        return from.draw_full(canvas, Ink::Frame);
    }
    if row.effect != Effect::Sent {
        return Ok(());
    }
    let at = from.near();
    let wait = panel.last_wait();
    panel.frames.push(Mark {
        at,
        is_stray: false,
        wait,
    })?;
    push_line(&mut canvas.ways, "frame", from.at, at)?;
    let item = row.holds.unwrap_or(0);
    frame(alloc, &mut canvas.front, Ink::Frame, at, row.label, item)
}

/// An acknowledgement is sent, or lost at once.
fn send_ack(
    alloc: Global,
    panel: &mut Panel,
    canvas: &mut Canvas,
    row: &Row,
    y: u64,
) -> Result<(), AllocError> {
    let from = panel.receiver(y);
    let ink = Ink::of_ack(panel.has_stray_label);
    if row.effect == Effect::Lost {
        return from.draw_full(canvas, ink);
    }
    if row.effect != Effect::Sent {
        return Ok(());
    }
    let at = from.near();
    panel.acks.push(Mark {
        at,
        is_stray: panel.has_stray_label,
        wait: usize::MAX,
    })?;
    push_line(&mut canvas.ways, ink.line(), from.at, at)?;
    ack(alloc, &mut canvas.front, ink, at, row.remembers)
}

/// A frame is received.
fn recv_frame(
    alloc: Global,
    panel: &mut Panel,
    canvas: &mut Canvas,
    row: &Row,
    keep: bool,
    y: u64,
) -> Result<(), AllocError> {
    let to = panel.receiver(y);
    if row.effect == Effect::Nothing {
        return Ok(());
    }
    let Some(mark) = take_front(&mut panel.frames, keep, to.kept()) else {
        return Ok(());
    };
    to.draw_taken(canvas, Ink::of_frame(mark.is_stray), mark.at, keep)?;
    match row.effect {
        Effect::Fresh(item) => deliver(alloc, panel, canvas, mark, row.remembers, item, y),
        _ => push_words(&mut canvas.front, "soft", to.beside(), "old"),
    }
}

/// An item is delivered.
fn deliver(
    alloc: Global,
    panel: &mut Panel,
    canvas: &mut Canvas,
    mark: Mark,
    remembers: Label,
    item: Item,
    y: u64,
) -> Result<(), AllocError> {
    panel.has_stray_label = mark.is_stray;
    if let Some(wait) = panel.waits.get_mut(mark.wait) {
        wait.is_delivered = true;
    }
    let to = panel.receiver(y);
    let number = u64::from(item);
    let out = &mut canvas.front;
    if mark.is_stray {
        panel.delivered.push("odd", item)?;
        label(alloc, out, "stray box", to.at, remembers)?;
        push_counted(out, "mono odd", to.beside(), "stray ", number)
    } else {
        panel.delivered.push("good", item)?;
        label(alloc, out, "label", to.at, remembers)?;
        push_counted(out, "mono good", to.beside(), "delivers ", number)
    }
}

/// An acknowledgement is received.
fn recv_ack(
    alloc: Global,
    panel: &mut Panel,
    canvas: &mut Canvas,
    row: &Row,
    keep: bool,
    y: u64,
) -> Result<(), AllocError> {
    let to = panel.sender(y);
    if row.effect == Effect::Nothing {
        return Ok(());
    }
    let Some(mark) = take_front(&mut panel.acks, keep, to.kept()) else {
        return Ok(());
    };
    to.draw_taken(canvas, Ink::of_ack(mark.is_stray), mark.at, keep)?;
    if row.effect == Effect::Acked {
        if let Some(wait) = panel.waits.last_mut() {
            wait.is_acked = true;
            wait.to = y;
        }
        return label(alloc, &mut canvas.front, "label", to.at, row.label);
    }
    push_words(&mut canvas.front, "soft end", to.beside(), "ignored")
}

/// A frame vanishes.
fn lose_frame(
    panel: &mut Panel,
    canvas: &mut Canvas,
    effect: Effect,
    place: u16,
    y: u64,
) -> Result<(), AllocError> {
    if effect != Effect::Lost {
        return Ok(());
    }
    let end = panel.receiver(y);
    match take_at(&mut panel.frames, usize::from(place)) {
        Some(mark) => end.draw_lost(canvas, Ink::of_frame(mark.is_stray), mark),
        None => Ok(()),
    }
}

/// An acknowledgement vanishes.
fn lose_ack(
    panel: &mut Panel,
    canvas: &mut Canvas,
    effect: Effect,
    place: u16,
    y: u64,
) -> Result<(), AllocError> {
    if effect != Effect::Lost {
        return Ok(());
    }
    let end = panel.sender(y);
    match take_at(&mut panel.acks, usize::from(place)) {
        Some(mark) => end.draw_lost(canvas, Ink::of_ack(mark.is_stray), mark),
        None => Ok(()),
    }
}

/// The link is closed.
fn close(panel: &mut Panel, canvas: &mut Canvas, effect: Effect, y: u64) -> Result<(), AllocError> {
    if effect != Effect::Closed {
        return Ok(());
    }
    let from = panel.sender(y).at;
    let to = panel.receiver(y).at;
    push_line(&mut canvas.front, "cross", from, to)?;
    let at = from.half_way(to);
    push_text_start(&mut canvas.front, "soft bad mid", at.up(10))?;
    canvas.front.push_str("closed</text>\n")
}

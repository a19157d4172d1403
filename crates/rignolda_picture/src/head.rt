//! What is drawn of a link before its first event, and of each event beside its link.

use crate::canvas::Canvas;
use crate::events::{ack, frame, label};
use crate::ink::Ink;
use crate::panel::{Mark, Panel};
use crate::point::Point;
use crate::shapes::{push_counted, push_line, push_rectangle, push_text_start, push_words};
use crate::sheet::{ROW, Sheet, TOP};
use crate::words::{effect_word, push_event};
use rignolda_draw::Row;
use stab_core::Start;
use stab_frames::Params;
use std::alloc::{AllocError, Global};

/// How far the entries of the start are from the line of the end that could have sent them.
const NEAR_START: u64 = 76;

/// The names of the two ends of a link, their lines, and its parameters.
pub(crate) fn draw_head(
    alloc: Global,
    canvas: &mut Canvas,
    sheet: Sheet,
    panel: &Panel,
    ends: (&str, &str),
    params: Params,
) -> Result<(), AllocError> {
    let from = panel.sender(TOP).at;
    let to = panel.receiver(TOP).at;
    push_line(&mut canvas.back, "life", from, panel.sender(sheet.end()).at)?;
    push_line(&mut canvas.back, "life", to, panel.receiver(sheet.end()).at)?;
    push_words(&mut canvas.front, "head", from.up(18), ends.0)?;
    push_words(&mut canvas.front, "head", to.up(18), ends.1)?;
    let middle = from.right(to.x.saturating_sub(from.x) / 2);
    let capacity = params.capacity();
    let labels = params.labels();
    let text = format!(in alloc; "capacity {capacity}, {labels} labels")?;
    push_words(&mut canvas.front, "soft mid", middle, text.as_str())
}

/// What is in a link at its start, or after a strike: the front of each queue at this height, next
/// to the event that comes then.
pub(crate) fn draw_start(
    alloc: Global,
    canvas: &mut Canvas,
    y: u64,
    panel: &mut Panel,
    start: &Start,
) -> Result<(), AllocError> {
    let sender = panel.sender(y);
    let receiver = panel.receiver(y);
    let out = &mut canvas.front;
    let mut at = receiver.inside(NEAR_START);
    for entry in start.frames.as_slice() {
        frame(alloc, out, Ink::Stray, at, entry.label, entry.item)?;
        panel.frames.push(stray(at))?;
        at = at.up(ROW);
    }
    let mut at = sender.inside(NEAR_START);
    for entry in start.acks.as_slice() {
        ack(alloc, out, Ink::StrayAck, at, *entry)?;
        panel.acks.push(stray(at))?;
        at = at.up(ROW);
    }
    let (sender, receiver) = (sender.at, receiver.at);
    label(alloc, out, "label", sender, start.send_label)?;
    label(alloc, out, "stray box", receiver, start.recv_label)?;
    let send = u64::from(start.send_label);
    push_counted(out, "soft end", sender.left(34), "label ", send)?;
    let recv = u64::from(start.recv_label);
    push_counted(out, "soft", receiver.right(34), "remembers ", recv)
}

/// The mark of an entry of the start.
fn stray(at: Point) -> Mark {
    Mark {
        at,
        is_stray: true,
        wait: usize::MAX,
    }
}

/// The number and the words of an event, before the links, over a band where it has one.
pub(crate) fn draw_event(
    canvas: &mut Canvas,
    sheet: Sheet,
    name: &str,
    numbered: (u64, bool),
    row: &Row,
    at: Point,
) -> Result<(), AllocError> {
    let (number, is_banded) = numbered;
    if is_banded {
        let corner = at.right(12).up(14);
        let width = sheet.width().saturating_sub(24);
        push_rectangle(&mut canvas.bands, "band", corner, width, ROW, 4)?;
    }
    let after = after_name(sheet, at);
    let out = &mut canvas.front;
    push_numbered(out, sheet, name, number, at)?;
    push_text_start(out, "mono", after)?;
    push_event(out, row.event)?;
    out.push_str("</text>\n")?;
    push_words(out, "soft end", after.right(174), effect_word(row.effect))
}

/// Adds the number of an event or a step, and the name before it.
pub(crate) fn push_numbered(
    out: &mut String,
    sheet: Sheet,
    name: &str,
    number: u64,
    at: Point,
) -> Result<(), AllocError> {
    push_counted(out, "soft end", at.right(44), "", number)?;
    if sheet.name > 0 {
        push_words(out, "mono", at.right(54), name)?;
    }
    Ok(())
}

/// The place of the words of an event, after the name before it.
pub(crate) fn after_name(sheet: Sheet, at: Point) -> Point {
    at.right(sheet.name.saturating_mul(8)).right(54)
}

//! What is published, rounds and faults, drawn.

use crate::canvas::Canvas;
use crate::head::{after_name, push_numbered};
use crate::ink::Ink;
use crate::items::Items;
use crate::panel::Panel;
use crate::point::Point;
use crate::shapes::{push_line, push_text_start, push_words};
use crate::sheet::{ROW, Sheet};
use stab_frames::Item;
use std::alloc::{AllocError, Global};

/// Writes the number of a step, a name, and words in the column of events, below a line.
pub(crate) fn draw_mark(
    canvas: &mut Canvas,
    sheet: Sheet,
    number: u64,
    name: &str,
    at: Point,
    text: &str,
) -> Result<(), AllocError> {
    let top = at.up(ROW / 2);
    let end = top.right(sheet.width().saturating_sub(12));
    push_line(&mut canvas.back, "life", top.right(12), end)?;
    push_numbered(&mut canvas.front, sheet, name, number, at)?;
    push_words(&mut canvas.front, "mono", after_name(sheet, at), text)
}

/// Writes the items of a row that begins with other words.
pub(crate) fn draw_list(
    alloc: Global,
    canvas: &mut Canvas,
    sheet: Sheet,
    at: Point,
    list: &[Item],
) -> Result<(), AllocError> {
    let mut items = Items::new(alloc);
    for item in list {
        items.push("good", *item)?;
    }
    let from = after_name(sheet, at).right(72);
    push_text_start(&mut canvas.front, "mono", from)?;
    items.push_to(&mut canvas.front)?;
    canvas.front.push_str("</text>\n")
}

/// Draws that all that is queued vanishes at this height.
pub(crate) fn draw_vanished(
    panel: &mut Panel,
    canvas: &mut Canvas,
    y: u64,
) -> Result<(), AllocError> {
    for mark in panel.frames.iter() {
        let ink = Ink::of_frame(mark.is_stray);
        panel.receiver(y).draw_lost(canvas, ink, *mark)?;
    }
    for mark in panel.acks.iter() {
        let ink = Ink::of_ack(mark.is_stray);
        panel.sender(y).draw_lost(canvas, ink, *mark)?;
    }
    panel.frames.clear();
    panel.acks.clear();
    panel.has_stray_label = true;
    Ok(())
}

/// Draws that the receiver of a link begins anew at this height.
pub(crate) fn draw_restarted(panel: &Panel, canvas: &mut Canvas, y: u64) -> Result<(), AllocError> {
    let at = panel.receiver(y).beside();
    push_words(&mut canvas.front, "soft bad", at, "restarts")
}

/// Draws that the sender of a link begins anew at this height, and holds nothing.
pub(crate) fn draw_anew(panel: &mut Panel, canvas: &mut Canvas, y: u64) -> Result<(), AllocError> {
    if let Some(wait) = panel.waits.last_mut() {
        if !wait.is_acked && !wait.is_dropped {
            wait.is_dropped = true;
            wait.to = y;
        }
    }
    let at = panel.sender(y).beside();
    push_words(&mut canvas.front, "soft bad end", at, "begins anew")
}

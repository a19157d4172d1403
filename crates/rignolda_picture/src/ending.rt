//! How a link ends, drawn.

use crate::canvas::Canvas;
use crate::ink::Ink;
use crate::items::Items;
use crate::panel::{Panel, Wait};
use crate::point::Point;
use crate::shapes::{push_rectangle, push_text_start, push_words};
use std::alloc::{AllocError, Global};

/// Draws how a link ends at this height.
pub(crate) fn draw_ending(
    alloc: Global,
    canvas: &mut Canvas,
    panel: &Panel,
    y: u64,
) -> Result<(), AllocError> {
    draw_waits(canvas, panel, y)?;
    draw_queues(canvas, panel, y)?;
    draw_items(alloc, canvas, panel, y)
}

/// The times in which the sender held an item, and what became of it.
fn draw_waits(canvas: &mut Canvas, panel: &Panel, end: u64) -> Result<(), AllocError> {
    for wait in panel.waits.iter() {
        let to = if wait.is_acked || wait.is_dropped {
            wait.to
        } else {
            end
        };
        let height = to.saturating_sub(wait.from);
        let corner = panel.sender(wait.from).at.left(5);
        push_rectangle(&mut canvas.back, class_of(wait), corner, 10, height, 3)?;
        if wait.is_acked {
            draw_acked(canvas, panel, wait)?;
        }
    }
    Ok(())
}

/// The class of the time in which an item waited.
fn class_of(wait: &Wait) -> &'static str {
    if wait.is_delivered {
        "taken"
    } else if wait.is_acked {
        "gone"
    } else {
        "waits"
    }
}

/// What is said of an acknowledged item.
fn draw_acked(canvas: &mut Canvas, panel: &Panel, wait: &Wait) -> Result<(), AllocError> {
    let at = panel.sender(wait.to).beside();
    let item = wait.item;
    let out = &mut canvas.front;
    if wait.is_delivered {
        push_text_start(out, "mono end good", at)?;
        write!(out, "{item} acked</text>\n")
    } else {
        push_text_start(out, "mono end bad", at)?;
        write!(out, "{item} missing</text>\n")
    }
}

/// What is still in the queues at the end.
fn draw_queues(canvas: &mut Canvas, panel: &Panel, y: u64) -> Result<(), AllocError> {
    for mark in panel.frames.iter() {
        let ink = Ink::of_frame(mark.is_stray);
        panel.receiver(y).draw_queued(canvas, ink, *mark)?;
    }
    for mark in panel.acks.iter() {
        let ink = Ink::of_ack(mark.is_stray);
        panel.sender(y).draw_queued(canvas, ink, *mark)?;
    }
    Ok(())
}

/// The items that were delivered, and those that are missing.
fn draw_items(
    alloc: Global,
    canvas: &mut Canvas,
    panel: &Panel,
    end: u64,
) -> Result<(), AllocError> {
    let mut missing = Items::new(alloc);
    for wait in panel.waits.iter() {
        if wait.is_acked && !wait.is_delivered {
            missing.push("bad", wait.item)?;
        }
    }
    let at = panel.sender(end.saturating_add(34)).at;
    push_items(&mut canvas.front, at, "delivered", &panel.delivered)?;
    push_items(&mut canvas.front, at.down(22), "missing", &missing)
}

/// A line of items after a word.
fn push_items(out: &mut String, at: Point, word: &str, items: &Items) -> Result<(), AllocError> {
    push_words(out, "soft end", at.left(24), word)?;
    push_text_start(out, "mono", at.left(16))?;
    items.push_to(out)?;
    out.push_str("</text>\n")
}

//! What is around a picture: its heading, and the explanation of its signs.

use crate::canvas::Canvas;
use crate::ink::Ink;
use crate::point::Point;
use crate::shapes::{push_attribute, push_circle, push_line, push_rectangle, push_words};
use crate::sheet::Sheet;
use crate::style::STYLE;
use std::alloc::{AllocError, Global};

/// What the reader of a picture has to know first.
const SUBTITLE: &str = "Time goes downwards. Frames go to the right, acknowledgements to the left.";

/// The whole picture of what is drawn, under this heading.
pub(crate) fn page(
    alloc: Global,
    canvas: &Canvas,
    sheet: Sheet,
    title: &str,
    about: &str,
) -> Result<String, AllocError> {
    let mut out = String::new(alloc);
    push_opening(&mut out, sheet, title, about)?;
    canvas.push_to(&mut out)?;
    push_legend(&mut out, sheet.end().saturating_add(92))?;
    out.push_str("</svg>\n")?;
    Ok(out)
}

/// Begins a picture: its size, its title, its style and its heading.
fn push_opening(
    out: &mut String,
    sheet: Sheet,
    title: &str,
    about: &str,
) -> Result<(), AllocError> {
    let (width, height) = (sheet.width(), sheet.height());
    out.push_str("<svg xmlns=\"http://www.w3.org/2000/svg\" role=\"img\"")?;
    push_attribute(out, "width", width)?;
    push_attribute(out, "height", height)?;
    write!(out, " viewBox=\"0 0 {width} {height}\">\n")?;
    write!(out, "<title>{title}</title>\n<desc>{about}</desc>\n")?;
    out.push_str(STYLE)?;
    let corner = Point { x: 0, y: 0 };
    push_rectangle(out, "paper", corner, width, height, 0)?;
    push_words(out, "title", corner.right(20).down(32), title)?;
    push_words(out, "soft", corner.right(20).down(56), SUBTITLE)
}

/// Explains the signs, in two lines from this height.
fn push_legend(out: &mut String, y: u64) -> Result<(), AllocError> {
    let at = Point { x: 20, y };
    push_line(out, "frame", at, at.right(30))?;
    push_words(out, "soft", at.right(38), "frame, label=item")?;
    push_line(out, "ack dash", at.right(210), at.right(240))?;
    push_words(out, "soft", at.right(248), "acknowledgement, label")?;
    push_line(out, "stray", at.right(470), at.right(500))?;
    push_words(
        out,
        "soft",
        at.right(508),
        "from the start, or a copy of a label from there",
    )?;
    let at = at.down(24);
    push_rectangle(out, "taken", at.right(10).up(7), 10, 14, 3)?;
    push_words(out, "soft", at.right(38), "held, and delivered")?;
    push_rectangle(out, "gone", at.right(220).up(7), 10, 14, 3)?;
    push_words(out, "soft", at.right(248), "acknowledged, never delivered")?;
    push_circle(out, Ink::Frame, at.right(485))?;
    push_words(out, "soft", at.right(508), "still in its queue")
}

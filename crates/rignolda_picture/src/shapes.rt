//! Shapes and words, each as an element of SVG. Where memory is refused, a part of the element may
//! have been added.

use crate::ink::Ink;
use crate::point::Point;
use itoa::Buffer;
use std::alloc::AllocError;

/// Adds the beginning of an element.
fn push_start(out: &mut String, element: &str, class: &str) -> Result<(), AllocError> {
    out.push_str("<")?;
    out.push_str(element)?;
    out.push_str(" class=\"")?;
    out.push_str(class)?;
    out.push_str("\"")
}

/// Adds an attribute that is a number.
pub fn push_attribute(out: &mut String, name: &str, value: u64) -> Result<(), AllocError> {
    let mut buffer = Buffer::new();
    out.push_str(" ")?;
    out.push_str(name)?;
    out.push_str("=\"")?;
    out.push_str(buffer.format(value))?;
    out.push_str("\"")
}

/// Adds the two ends of a line to its element.
fn push_both_ends(out: &mut String, from: Point, to: Point) -> Result<(), AllocError> {
    push_attribute(out, "x1", from.x)?;
    push_attribute(out, "y1", from.y)?;
    push_attribute(out, "x2", to.x)?;
    push_attribute(out, "y2", to.y)
}

/// Adds a line.
pub fn push_line(out: &mut String, class: &str, from: Point, to: Point) -> Result<(), AllocError> {
    push_start(out, "line", class)?;
    push_both_ends(out, from, to)?;
    out.push_str("/>\n")
}

/// Adds a line with the head of an arrow.
pub fn push_arrow(out: &mut String, ink: Ink, from: Point, to: Point) -> Result<(), AllocError> {
    push_start(out, "line", ink.line())?;
    push_both_ends(out, from, to)?;
    push_head(out, ink.shape())
}

/// Adds the end of the element of a line that has the head of an arrow of this name.
fn push_head(out: &mut String, name: &str) -> Result<(), AllocError> {
    out.push_str(" marker-end=\"url(#to-")?;
    out.push_str(name)?;
    out.push_str(")\"/>\n")
}

/// Adds a rectangle of a width and height from its upper left corner, with round corners.
pub fn push_rectangle(
    out: &mut String,
    class: &str,
    corner: Point,
    width: u64,
    height: u64,
    round: u64,
) -> Result<(), AllocError> {
    push_start(out, "rect", class)?;
    push_attribute(out, "x", corner.x)?;
    push_attribute(out, "y", corner.y)?;
    push_attribute(out, "width", width)?;
    push_attribute(out, "height", height)?;
    push_attribute(out, "rx", round)?;
    out.push_str("/>\n")
}

/// Adds a small circle.
pub fn push_circle(out: &mut String, ink: Ink, at: Point) -> Result<(), AllocError> {
    push_start(out, "circle", ink.shape())?;
    push_attribute(out, "cx", at.x)?;
    push_attribute(out, "cy", at.y)?;
    push_attribute(out, "r", 5)?;
    out.push_str("/>\n")
}

/// Adds a cross, the mark of a loss.
pub fn push_cross(out: &mut String, at: Point) -> Result<(), AllocError> {
    push_line(out, "cross", at.left(5).up(5), at.right(5).down(5))?;
    push_line(out, "cross", at.left(5).down(5), at.right(5).up(5))
}

/// Adds the beginning of a text whose line is at this height. It is closed by the caller.
pub fn push_text_start(out: &mut String, class: &str, at: Point) -> Result<(), AllocError> {
    push_start(out, "text", class)?;
    push_attribute(out, "x", at.x)?;
    push_attribute(out, "y", at.down(4).y)?;
    out.push_str(">")
}

/// Adds words.
pub fn push_words(out: &mut String, class: &str, at: Point, text: &str) -> Result<(), AllocError> {
    push_text_start(out, class, at)?;
    out.push_str(text)?;
    out.push_str("</text>\n")
}

/// Adds words and a number.
pub fn push_counted(
    out: &mut String,
    class: &str,
    at: Point,
    text: &str,
    count: u64,
) -> Result<(), AllocError> {
    let mut buffer = Buffer::new();
    push_text_start(out, class, at)?;
    out.push_str(text)?;
    out.push_str(buffer.format(count))?;
    out.push_str("</text>\n")
}

/// Adds a box round a short word, with corners this round.
pub fn push_boxed(
    out: &mut String,
    class: &str,
    at: Point,
    text: &str,
    round: u64,
) -> Result<(), AllocError> {
    let half = (text.len() as u64).saturating_mul(4).saturating_add(7);
    let corner = at.left(half).up(10);
    push_rectangle(out, class, corner, half.saturating_mul(2), 20, round)?;
    push_words(out, "mono mid", at, text)
}

//! Words in their columns.

use crate::queue::{Entry, push_queue};
use crate::row::held;
use crate::words::push_decimal;
use stab_core::Link;
use stab_frames::{Frame, Item, Label};
use stab_tree::{NodeId, Tree};
use std::alloc::AllocError;

/// How wide the column of frames is.
pub(crate) const FRAMES: usize = 11;

/// How wide the column of acknowledgements is.
pub(crate) const ACKS: usize = 7;

/// Adds a link, but for what it delivers.
pub(crate) fn push_link_cells(text: &mut String, link: &Link) -> Result<(), AllocError> {
    push_sender_cells(text, link)?;
    push_queue_cell::<Frame>(text, link, FRAMES)?;
    push_queue_cell::<Label>(text, link, ACKS)?;
    push_remembered_cell(text, link.recv_label())
}

/// Adds the sender's label, the item that it holds, and how many items are acknowledged.
pub(crate) fn push_sender_cells(text: &mut String, link: &Link) -> Result<(), AllocError> {
    push_number_cell(text, u64::from(link.send_label()))?;
    push_item_cell(text, held(link))?;
    push_number_cell(text, link.acked())
}

/// Adds the label that the receiver remembers in its column, which is four wider than that of
/// another label.
pub(crate) fn push_remembered_cell(text: &mut String, label: Label) -> Result<(), AllocError> {
    push_number_cell(text, u64::from(label))?;
    text.push_str("    ")
}

/// Adds the item that was delivered, or `-`, at the end of a line.
pub(crate) fn push_delivered(text: &mut String, item: Option<Item>) -> Result<(), AllocError> {
    let Some(item) = item else {
        return text.push_str("-\n");
    };
    push_decimal(text, u64::from(item))?;
    text.push('\n')
}

/// Adds the name of a node in its column; what is no node has none.
pub(crate) fn push_name_cell(
    text: &mut String,
    tree: &Tree,
    node: NodeId,
) -> Result<(), AllocError> {
    let name = if node.place() < tree.len() {
        tree.name(node)
    } else {
        ""
    };
    push_cell(text, name, 9)
}

/// Adds a label or a count in a narrow column.
pub(crate) fn push_number_cell(text: &mut String, number: u64) -> Result<(), AllocError> {
    if let Some(cell) = digit_cell(number) {
        return text.push_str(cell);
    }
    let from = text.len();
    push_decimal(text, number)?;
    pad(text, from, 5)
}

/// A number of one digit in a narrow column.
fn digit_cell(number: u64) -> Option<&'static str> {
    match number {
        0 => Some("0     "),
        1 => Some("1     "),
        2 => Some("2     "),
        3 => Some("3     "),
        4 => Some("4     "),
        5 => Some("5     "),
        6 => Some("6     "),
        7 => Some("7     "),
        8 => Some("8     "),
        9 => Some("9     "),
        _ => None,
    }
}

/// Adds an item, or `-`, in a narrow column.
fn push_item_cell(text: &mut String, item: Option<Item>) -> Result<(), AllocError> {
    match item {
        None => text.push_str("-     "),
        Some(item) => push_number_cell(text, u64::from(item)),
    }
}

/// Adds the entries of a queue, or `-`, in a column of this width.
fn push_queue_cell<E: Entry>(
    text: &mut String,
    link: &Link,
    width: usize,
) -> Result<(), AllocError> {
    let from = text.len();
    push_queue::<E>(text, link)?;
    pad(text, from, width)
}

/// Adds a word in a column of this width.
pub(crate) fn push_cell(text: &mut String, word: &str, width: usize) -> Result<(), AllocError> {
    let from = text.len();
    text.push_str(word)?;
    pad(text, from, width)
}

/// Adds a space after the word that begins at this place, and more of them up to this width.
pub(crate) fn pad(text: &mut String, from: usize, width: usize) -> Result<(), AllocError> {
    let len = text.len().saturating_sub(from);
    text.push_str(blanks(width.saturating_sub(len)))
}

/// One space, and this many more: at most 19, which is the widest column.
fn blanks(more: usize) -> &'static str {
    match more {
        0 => " ",
        1 => "  ",
        2 => "   ",
        3 => "    ",
        4 => "     ",
        5 => "      ",
        6 => "       ",
        7 => "        ",
        8 => "         ",
        9 => "          ",
        10 => "           ",
        11 => "            ",
        12 => "             ",
        13 => "              ",
        14 => "               ",
        15 => "                ",
        16 => "                 ",
        17 => "                  ",
        18 => "                   ",
        _ => "                    ",
    }
}

//! Where bytes are no JSON.

ghost use Rattle.std.specs.Prelude.{◌≤◌};

use crate::notes::{Notes, Piece};
use crate::place::Place;
use serde_json::{Error, Value};
use std::alloc::AllocError;

/// Adds the line and the column at which bytes are no JSON, and what is probably wrong there.
pub fn look_at_bytes(notes: &mut Notes, bytes: &[u8]) -> Result<(), AllocError> {
    match Value::from_slice(notes.alloc(), bytes) {
        Ok(_) => Ok(()),
        Err(error) if error.is_memory() => Err(AllocError),
        Err(error) => add_error(notes, bytes, &error),
    }
}

/// Adds where JSON ends, and what is probably wrong there.
fn add_error(notes: &mut Notes, bytes: &[u8], error: &Error) -> Result<(), AllocError> {
    let place = if bytes.is_empty() {
        Place::whole()
    } else {
        let (line, column) = spot_of(bytes, error.line(), error.column());
        Place::spot(line, column)
    };
    notes.add(
        notes.of_json(),
        &place,
        &[
            Piece::Words("not JSON"),
            Piece::Words(hint_of(bytes, error)),
        ],
    )
}

/// The line and the column of a fault that the reader has at these, both counted from 1. Behind the
/// last byte that is no white space there is nothing to be found, so that byte stands for the end.
fn spot_of(bytes: &[u8], line: usize, column: usize) -> (usize, usize)
    ensures line { 1 ≤ result.0 }
    ensures column { 1 ≤ result.1 }
{
    let (line, column) = if is_end(bytes, offset_of(bytes, line, column)) {
        last_spot(bytes)
    } else {
        (line, column)
    };
    (from_one(line), from_one(column))
}

/// This number, or 1 in place of 0.
fn from_one(number: usize) -> usize
    ensures { 1 ≤ result }
{
    if number == 0 { 1 } else { number }
}

/// Whether there is only white space from this offset on.
fn is_end(bytes: &[u8], at: usize) -> bool {
    for (place, byte) in bytes.iter().enumerate() {
        if place >= at && !is_white(*byte) {
            return false;
        }
    }
    true
}

/// The line and the column of the last byte that is no white space, or of the first byte.
fn last_spot(bytes: &[u8]) -> (usize, usize) {
    let mut last: (usize, usize) = (1, 1);
    let mut next: (usize, usize) = (1, 1);
    for byte in bytes {
        if !is_white(*byte) {
            last = next;
        }
        next = if *byte == b'\n' {
            (next.0.saturating_add(1), 1)
        } else {
            (next.0, next.1.saturating_add(1))
        };
    }
    last
}

/// Whether JSON takes this byte for white space.
fn is_white(byte: u8) -> bool {
    matches!(byte, b' ' | b'\t' | b'\n' | b'\r')
}

/// What is probably wrong with bytes that are no JSON.
fn hint_of(bytes: &[u8], error: &Error) -> &'static str {
    if bytes.is_empty() {
        return "; the file is empty";
    }
    if let Some(hint) = hint_of_encoding(bytes) {
        return hint;
    }
    if error.is_eof() {
        return "; the text ends too early";
    }
    let at = offset_of(bytes, error.line(), error.column());
    hint_between(last_before(bytes, at), bytes.get(at).copied())
}

/// What the first bytes say of the encoding, where it is not the one of JSON.
fn hint_of_encoding(bytes: &[u8]) -> Option<&'static str> {
    match bytes {
        [0xEF, 0xBB, 0xBF, ..] => Some("; a byte order mark is before the text, and JSON has none"),
        [0xFF, 0xFE, ..] | [0xFE, 0xFF, ..] => Some("; the text is UTF-16, and has to be UTF-8"),
        _ => None,
    }
}

/// The offset of this line and column, both counted from 1; the end where they are past it.
fn offset_of(bytes: &[u8], line: usize, column: usize) -> usize {
    let mut left = line.saturating_sub(1);
    let mut start = 0;
    for (at, byte) in bytes.iter().enumerate() {
        if left == 0 {
            break;
        }
        if *byte == b'\n' {
            left -= 1;
            start = at.saturating_add(1);
        }
    }
    start.saturating_add(column.saturating_sub(1))
}

/// The last byte before this offset that is no white space.
fn last_before(bytes: &[u8], at: usize) -> Option<u8> {
    let mut last = None;
    for byte in bytes.iter().take(at) {
        if !is_white(*byte) {
            last = Some(*byte);
        }
    }
    last
}

/// What is probably wrong between these two bytes: the last one that was read, and the one at which
/// reading stopped.
fn hint_between(before: Option<u8>, at: Option<u8>) -> &'static str {
    match (before, at) {
        (_, None) => "; the text ends too early",
        (Some(b','), Some(b']' | b'}')) => "; no comma may be after the last entry or member",
        (_, Some(b'/' | b'#')) => "; JSON has no comments",
        (_, Some(b'\'')) => "; a text is written in double quotation marks",
        (Some(b'"' | b']' | b'}' | b'0'..=b'9'), Some(b'"' | b'[' | b'{')) =>
            "; a comma is missing",
        (_, Some(b',')) => "; an entry or a member is missing before the comma",
        (_, Some(0x80..=0xFF)) => "; the text is not UTF-8, or such a character is outside a text",
        _ => "",
    }
}

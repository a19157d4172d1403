//! What the lines of a text say. Nothing is checked here: what is read is printed again and
//! compared.

ghost use Rattle.std.specs.Prelude.{◌≡◌, ◌==◌, ℕ, Bool, List, ◌++◌, Option, IfOk, OnOk};
ghost use Rattle.std.specs.List.{position};
ghost use Rattle.stab_core.specs.Texts.{newline};
ghost use Rattle.stab_treecore.specs.Texts.{acked_entry};
ghost use Rattle.stab_report.specs.Lines.{IsCount, IsOneLine, Shows};
ghost use Rattle.stab_report.specs.LinesInside.{ended_item, number_after};
ghost use Rattle.stab_report.specs.Texts.{end_entry};

use stab_frames::{Item, Sequence};
use std::alloc::{AllocError, Global};

/// How many items there are: what is larger than all of them is cut.
const ITEMS: u64 = 1 << 32;

/// The first line of a text, without its newline, and what is after it.
pub fn cut_line(text: &[u8]) -> (&[u8], &[u8])
    ensures { (line rest : List ℕ) → IsOneLine line → text.now ≡ line ++ newline ++ rest
        → (result.0.now ≡ line) × (result.1.now ≡ rest) }
{
    match line_end(text) {
        None => text.split_at(text.len()),
        Some(end) => {
            let (line, rest) = text.split_at(end);
            (line, &rest[1..])
        }
    }
}

/// The place of the first newline.
fn line_end(text: &[u8]) -> Option<usize>
    ensures { result ≡ position (λ byte. byte == 10) text.now }
{
    text.iter().position(|byte| *byte == b'\n')
}

/// The numbers of a line of items, whatever else is in it.
pub fn items_of(alloc: Global, line: &[u8]) -> Result<Sequence<Item>, AllocError>
    ensures { IfOk result (λ items. (numbers : List ℕ)
        → Shows line.now numbers → items ≡ numbers) }
{
    let mut items = Vec::new(alloc);
    let mut number: Option<u64> = None;
    for byte in line {
        let next = number_after(number, *byte);
        push_ended(&mut items, number, next)?;
        number = next;
    }
    push_ended(&mut items, number, None)?;
    Ok(Sequence::from_vec(items))
}

/// The count that a line ends with, which of a node's first line is before why its worker ended;
/// none where the last word is no number.
pub fn count_of(counts: &[u8]) -> Option<u64>
    ensures { (front : List ℕ) (acked : Option ℕ) → IsCount acked
        → counts.now ≡ front ++ acked_entry acked → result ≡ acked }
{
    let mut count: Option<u64> = None;
    for byte in counts {
        count = number_after(count, *byte);
    }
    count
}

/// The number that a text ends with after this byte, where it ended with that one before; what is
/// too large is cut.
fn number_after(number: Option<u64>, byte: u8) -> Option<u64>
    ensures { result ≡ number_after number byte }
{
    if !byte.is_ascii_digit() {
        return None;
    }
    let digit = u64::from(byte.wrapping_sub(b'0'));
    Some(number.unwrap_or(0).wrapping_mul(10).wrapping_add(digit))
}

/// Adds the number that ended, where the next byte is no digit of it.
fn push_ended(
    items: &mut Vec<Item>,
    number: Option<u64>,
    next: Option<u64>,
) -> Result<(), AllocError>
    ensures { OnOk result (items.new.items ≡ items.old.items ++ ended_item number next) }
{
    if let (Some(number), None) = (number, next) {
        items.push((number % ITEMS) as Item)?;
    }
    Ok(())
}

/// A node's first line without its end, and what the end says: whether the node ended with its
/// upstream, and nothing where the line ends with a count, as in the text of a tree.
pub(crate) fn cut_end(line: &[u8]) -> (&[u8], Option<bool>)
    ensures { (front : List ℕ) (acked : Option ℕ) (end : Option Bool) → IsCount acked
        → line.now ≡ front ++ acked_entry acked ++ end_entry end
        → (result.0.now ≡ front ++ acked_entry acked) × (result.1 ≡ end) }
{
    if let Some(counts) = line.strip_suffix(b" ended upstream".as_slice()) {
        return (counts, Some(true));
    }
    match line.strip_suffix(b" ended turns".as_slice()) {
        Some(counts) => (counts, Some(false)),
        None => (line, None),
    }
}

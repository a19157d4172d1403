//! Findings that more than one member has.

ghost use Rattle.std.specs.Prelude.{◌≡◌, ◌<◌, ◌≤◌, length, OnErr, OnOk};
ghost use Rattle.rignolda_findings.specs.Gathered.{Adds, Counts, most_findings};

use rignolda_findings::{Matter, Notes, Piece, Place};
use serde_json::Value;
use stab_json::item;
use std::alloc::AllocError;

/// What an item is.
const ITEM: &str = "an item is a whole number from 0 to 4294967295";

/// Adds a value, and what is wanted in its place.
pub(crate) fn add_found<'x>(
    notes: &mut Notes,
    place: Place<'_>,
    value: &'x Value,
    want: &'x str,
) -> Result<(), AllocError>
    ensures added { OnOk result (length notes.old.findings < most_findings
        → Adds Matter.Command notes.old notes.new) }
    ensures full { most_findings ≤ length notes.old.findings → Counts notes.old notes.new }
    ensures unchanged { OnErr result (notes.new ≡ notes.old) }
{
    notes.add(
        Matter::Command,
        &place,
        &[Piece::Found(value), Piece::Words("; "), Piece::Words(want)],
    )
}

/// Looks at the items of a list that is an item of a step, or an entry of a member.
pub(crate) fn look_at_list(
    notes: &mut Notes,
    place: Place<'_>,
    items: &[Value],
) -> Result<(), AllocError> {
    for (i, entry) in items.iter().enumerate() {
        if notes.is_done() {
            break;
        }
        if item(entry).is_none() {
            add_found(notes, place.half(i), entry, ITEM)?;
        }
    }
    Ok(())
}

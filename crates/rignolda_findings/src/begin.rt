//! Whether links can begin.

use crate::explanation::Matter;
use crate::notes::{Notes, Piece};
use crate::place::Place;
use serde_json::Value;
use stab_core::StartFault;
use std::alloc::AllocError;

/// Looks whether a link of this capacity can begin from a start.
pub fn look_at_begin(
    notes: &mut Notes,
    place: Place<'_>,
    start: &Value,
    capacity: u16,
) -> Result<(), AllocError> {
    let frames = count_of(start.get("frames"));
    if frames > usize::from(capacity) {
        add_excess(
            notes,
            StartFault::TooManyFrames,
            &place.part("frames"),
            (frames, " frames, and the capacity is "),
            capacity,
        )?;
    }
    let acks = count_of(start.get("acks"));
    if acks > usize::from(capacity) {
        add_excess(
            notes,
            StartFault::TooManyAcks,
            &place.part("acks"),
            (acks, " acknowledgements, and the capacity is "),
            capacity,
        )?;
    }
    Ok(())
}

/// Adds that a queue of a start is longer than the capacity.
fn add_excess(
    notes: &mut Notes,
    fault: StartFault,
    place: &Place<'_>,
    found: (usize, &str),
    capacity: u16,
) -> Result<(), AllocError> {
    notes.add(
        Matter::Start(fault),
        place,
        &[
            Piece::Number(found.0 as u64),
            Piece::Words(found.1),
            Piece::Number(u64::from(capacity)),
        ],
    )
}

/// How many entries the list has, and none where there is no list.
pub fn count_of(value: Option<&Value>) -> usize {
    match value {
        Some(Value::Array(list)) => list.len(),
        _ => 0,
    }
}

//! The members that no reader looks at.

use crate::explanation::Matter;
use crate::nearest::nearest_known;
use crate::notes::{Notes, Piece};
use crate::place::Place;
use serde_json::Value;
use std::alloc::AllocError;

/// The members of an object that its reader looks at, and those that it ignores for a reason.
#[derive(Clone, Copy)]
pub struct Known {
    /// What the object is.
    pub what: &'static str,
    /// The members that are looked at.
    pub names: &'static [&'static str],
    /// The members that would be looked at in another object of the kind.
    pub idle: &'static [&'static str],
    /// Why those are ignored here.
    pub reason: &'static str,
}

/// Adds each member of the object, if it is one, that is not known there.
pub fn look_at_members(
    notes: &mut Notes,
    place: Place<'_>,
    value: &Value,
    known: Known,
) -> Result<(), AllocError> {
    let Some(members) = value.as_object() else {
        return Ok(());
    };
    for name in members.keys() {
        if notes.is_done() {
            break;
        }
        look_at_member(notes, place.part(name.as_str()), name.as_str(), known)?;
    }
    Ok(())
}

/// Adds a member, if it is not known.
fn look_at_member(
    notes: &mut Notes,
    place: Place<'_>,
    name: &str,
    known: Known,
) -> Result<(), AllocError> {
    if is_among(name, known.names) {
        return Ok(());
    }
    if is_among(name, known.idle) {
        return notes.add(
            Matter::Ignored,
            &place,
            &[Piece::Words("ignored "), Piece::Words(known.reason)],
        );
    }
    if notes.is_full() {
        return notes.add(Matter::Ignored, &place, &[]);
    }
    add_unknown(notes, place, name, known)
}

/// Adds a member that no object of the kind has, with the nearest one that it could have.
fn add_unknown(
    notes: &mut Notes,
    place: Place<'_>,
    name: &str,
    known: Known,
) -> Result<(), AllocError> {
    if let Some(near) = nearest_known(notes.alloc(), name, known.names)? {
        return notes.add(
            Matter::Ignored,
            &place,
            &[
                Piece::Words("ignored, since "),
                Piece::Words(known.what),
                Piece::Words(" has no such member; did you mean "),
                Piece::Quoted(near),
                Piece::Words("?"),
            ],
        );
    }
    match nearest_known(notes.alloc(), name, known.idle)? {
        Some(near) => add_idle(notes, place, near, known),
        None => notes.add(
            Matter::Ignored,
            &place,
            &[
                Piece::Words("ignored, since "),
                Piece::Words(known.what),
                Piece::Words(" has no such member"),
            ],
        ),
    }
}

/// Adds a member whose nearest name is one that is ignored as well.
fn add_idle(
    notes: &mut Notes,
    place: Place<'_>,
    near: &str,
    known: Known,
) -> Result<(), AllocError> {
    notes.add(
        Matter::Ignored,
        &place,
        &[
            Piece::Words("ignored, since "),
            Piece::Words(known.what),
            Piece::Words(" has no such member; did you mean "),
            Piece::Quoted(near),
            Piece::Words(", which is ignored "),
            Piece::Words(known.reason),
            Piece::Words("?"),
        ],
    )
}

/// Whether a name is one of these.
fn is_among(name: &str, names: &[&'static str]) -> bool {
    names.iter().any(|known| *known == name)
}

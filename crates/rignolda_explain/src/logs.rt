//! What is wrong with the logs since a moment, which no reader of `stab` looks at.

use crate::backlogs::{add_number, look_at_lists};
use crate::found::add_found;
use crate::openings::place_of_node;
use rignolda_findings::{Matter, Notes, Piece, Place};
use serde_json::Value;
use stab_json::item;
use stab_tree::Tree;
use std::alloc::AllocError;

/// What the logs are.
const RECEIVED: &str = "the logs are a list of lists of items, one for each node";

/// What a log is.
const LOG: &str = "a log is a list of items, which its node received";

/// What the places are.
const FROM: &str = "the places where counts begin are a list of whole numbers, one for each node";

/// What a place is.
const PLACE: &str = "a place is a whole number from 0 to 4294967295";

/// Looks at the logs of a job, where it has some, and at where the counts of the nodes begin.
pub fn look_at_logs(notes: &mut Notes, job: &Value, tree: &Tree) -> Result<(), AllocError> {
    look_at_received(notes, job.get("received"), tree)?;
    look_at_places(notes, job, tree)
}

/// Looks at each log, and how many there are.
fn look_at_received(
    notes: &mut Notes,
    received: Option<&Value>,
    tree: &Tree,
) -> Result<(), AllocError> {
    match received {
        None => Ok(()),
        Some(Value::Array(lists)) => {
            look_at_lists(notes, "received", lists.as_slice(), LOG)?;
            if lists.len() == usize::from(tree.len()) {
                return Ok(());
            }
            add_number(notes, "received", lists.len(), " lists for ", tree)
        }
        Some(value) => add_found(notes, Place::member("received"), value, RECEIVED),
    }
}

/// Looks at each place, how many there are, and whether each is among the items.
fn look_at_places(notes: &mut Notes, job: &Value, tree: &Tree) -> Result<(), AllocError> {
    match job.get("from") {
        None => Ok(()),
        Some(Value::Array(places)) => {
            look_at_each(notes, places.as_slice())?;
            if places.len() != usize::from(tree.len()) {
                add_number(notes, "from", places.len(), " places for ", tree)?;
            }
            look_at_ends(notes, job.get("items"), places.as_slice(), tree)
        }
        Some(value) => add_found(notes, Place::member("from"), value, FROM),
    }
}

/// Looks whether each place is among the items, or just behind them.
fn look_at_ends(
    notes: &mut Notes,
    items: Option<&Value>,
    places: &[Value],
    tree: &Tree,
) -> Result<(), AllocError> {
    let Some(Value::Array(items)) = items else {
        return Ok(());
    };
    for (i, place) in places.iter().enumerate() {
        if notes.is_done() {
            break;
        }
        match item(place) {
            Some(place) if place as usize > items.len() => {
                add_end(notes, place_of_node("from", i, tree), place, items.len())?
            }
            _ => {}
        }
    }
    Ok(())
}

/// Adds that a place is past the end of the items.
fn add_end(
    notes: &mut Notes,
    place: Place<'_>,
    found: u32,
    items: usize,
) -> Result<(), AllocError> {
    notes.add(
        Matter::Command,
        &place,
        &[
            Piece::Number(u64::from(found)),
            Piece::Words(" is past the end of the items, of which there are "),
            Piece::Number(items as u64),
        ],
    )
}

/// Looks whether each of these is a place.
fn look_at_each(notes: &mut Notes, places: &[Value]) -> Result<(), AllocError> {
    for (i, place) in places.iter().enumerate() {
        if notes.is_done() {
            break;
        }
        if item(place).is_none() {
            add_found(notes, Place::member("from").entry(i), place, PLACE)?;
        }
    }
    Ok(())
}

//! What is wrong with the steps of a schedule.

use crate::names::add_unknown;
use rignolda_findings::{Matter, Notes, Piece, Place, Refusal, add_word, is_loss};
use serde_json::Value;
use stab_job::JobFault;
use stab_json::label;
use stab_script::plain_act;
use stab_tree::Tree;
use std::alloc::AllocError;

/// What a step is.
const STEP: &str =
    "a step is a list of the name of a node, the name of an event, and for a loss the place";

/// What an offer in a schedule is.
const OFFER: &str = "an offer in a schedule names no item, since the parent offers its next one";

/// What a loss in a schedule is.
const LOSS: &str = "a loss is written with its place, a whole number from 0 to 65535";

/// What an event without a place is.
const PLAIN: &str = "this event has no place";

/// What a step that names no node is refused with.
const UNKNOWN: Matter = Matter::Refused(Refusal::Job(JobFault::UnknownNode));

/// Looks at the steps: first whether each is one, and then whether each names a node.
pub(crate) fn look_at_schedule(
    notes: &mut Notes,
    schedule: Option<&Value>,
    tree: &Tree,
) -> Result<(), AllocError> {
    let Some(Value::Array(steps)) = schedule else {
        return Ok(());
    };
    for (i, step) in steps.iter().enumerate() {
        if notes.is_done() {
            break;
        }
        look_at_step(notes, Place::member("schedule").entry(i), step)?;
    }
    look_at_names(notes, steps.as_slice(), tree)
}

/// Looks whether the names of the steps are names of nodes.
fn look_at_names(notes: &mut Notes, steps: &[Value], tree: &Tree) -> Result<(), AllocError> {
    for (i, step) in steps.iter().enumerate() {
        if notes.is_done() {
            break;
        }
        if let Some(name) = name_of(step) {
            if tree.find(name).is_none() {
                let place = Place::member("schedule").entry(i);
                add_unknown(notes, UNKNOWN, &place, name, tree)?;
            }
        }
    }
    Ok(())
}

/// Looks whether a step names the root, into which no link leads.
pub(crate) fn look_at_root_steps(
    notes: &mut Notes,
    schedule: Option<&Value>,
    tree: &Tree,
) -> Result<(), AllocError> {
    let Some(Value::Array(steps)) = schedule else {
        return Ok(());
    };
    for (i, step) in steps.iter().enumerate() {
        if notes.is_done() {
            break;
        }
        if let Some(name) = name_of(step) {
            if tree.find(name) == Some(tree.root()) {
                add_root(notes, Place::member("schedule").entry(i), name)?;
            }
        }
    }
    Ok(())
}

/// Adds a step that names the root.
fn add_root(notes: &mut Notes, place: Place<'_>, name: &str) -> Result<(), AllocError> {
    notes.add(
        Matter::Step,
        &place,
        &[
            Piece::Quoted(name),
            Piece::Words(" is the root, and no link leads into it"),
        ],
    )
}

/// The name of the node of a step.
fn name_of(step: &Value) -> Option<&str> {
    step.as_array()?.first()?.as_str()
}

/// Looks at one step.
fn look_at_step(notes: &mut Notes, place: Place<'_>, step: &Value) -> Result<(), AllocError> {
    let Some(parts) = step.as_array() else {
        return add_shape(notes, place, step);
    };
    match parts.as_slice() {
        [name, word] if name.is_string() => look_at_word(notes, place, word, None),
        [name, word, number] if name.is_string() => {
            look_at_word(notes, place, word, Some(number))
        }
        _ => add_shape(notes, place, step),
    }
}

/// Adds that an entry has another shape than a step.
fn add_shape(notes: &mut Notes, place: Place<'_>, step: &Value) -> Result<(), AllocError> {
    notes.refuse(
        JobFault::Event,
        &place,
        &[Piece::Found(step), Piece::Words("; "), Piece::Words(STEP)],
    )
}

/// Looks at the word of a step, and at the place beside it.
fn look_at_word(
    notes: &mut Notes,
    place: Place<'_>,
    word: &Value,
    number: Option<&Value>,
) -> Result<(), AllocError> {
    let Some(word) = word.as_str() else {
        return add_shape(notes, place.item(1), word);
    };
    if is_loss(word) {
        return look_at_loss(notes, place, number);
    }
    if plain_act(word).is_none() {
        return add_word(
            notes,
            Matter::Refused(Refusal::Job(JobFault::Event)),
            &place.item(1),
            word,
        );
    }
    match number {
        None => Ok(()),
        Some(_) if word == "offer" => notes.refuse(JobFault::Event, &place, &[Piece::Words(OFFER)]),
        Some(_) => notes.refuse(JobFault::Event, &place, &[Piece::Words(PLAIN)]),
    }
}

/// Looks at the place of a loss.
fn look_at_loss(
    notes: &mut Notes,
    place: Place<'_>,
    number: Option<&Value>,
) -> Result<(), AllocError> {
    match number {
        Some(number) if label(number).is_some() => Ok(()),
        _ => notes.refuse(JobFault::Event, &place, &[Piece::Words(LOSS)]),
    }
}

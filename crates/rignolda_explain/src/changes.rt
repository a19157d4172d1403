//! How many changes of the tree the steps of a scenario are.

ghost use Rattle.std.specs.Prelude.{◌≡◌, [], IfOk, length};
ghost use Rattle.stab_rounds.specs.TreePlayed.{reading_round_on, round_from};

use crate::names::Whole;
use crate::strikes::capacity_at;
use rignolda_findings::{Matter, Notes, Piece, Place, uncut};
use serde_json::Value;
use stab_json::{label, pair};
use stab_rounds::{push_reading_round, round_of_all};
use stab_script::MAX_EVENTS;
use stab_tree::{NodeId, Tree};
use std::alloc::{AllocError, Global};

/// How many acts a round and a reading round of all links are.
#[derive(Clone, Copy)]
struct Lengths {
    round: u64,
    reading_round: u64,
}

/// Looks whether the steps are too many changes, where each link has a capacity.
pub(crate) fn look_at_number_of_changes(
    notes: &mut Notes,
    whole: Whole<'_>,
    steps: &[Value],
) -> Result<(), AllocError> {
    let Some(lengths) = lengths_of(notes.alloc(), whole)? else {
        return Ok(());
    };
    let changes = changes_in(steps, lengths);
    if changes <= MAX_EVENTS as u64 {
        return Ok(());
    }
    notes.add(
        Matter::Command,
        &Place::member("steps"),
        &[
            Piece::Number(changes),
            Piece::Words(" acts, publications and faults are too many; at most "),
            Piece::Number(MAX_EVENTS as u64),
            Piece::Words(" are allowed"),
        ],
    )
}

/// How many acts a round and a reading round are, where each link has a capacity.
fn lengths_of(alloc: Global, whole: Whole<'_>) -> Result<Option<Lengths>, AllocError> {
    let round = round_len(alloc, whole.tree)?;
    match reading_round_len(alloc, whole)? {
        Some(reading_round) => Ok(Some(Lengths {
            round,
            reading_round,
        })),
        None => Ok(None),
    }
}

/// How many acts a round of all links is.
fn round_len(alloc: Global, tree: &Tree) -> Result<u64, AllocError>
    ensures { IfOk result (λ acts. acts ≡ length (round_from 0 tree.now.parents)) }
{
    let acts = round_of_all(alloc, tree)?;
    Ok(acts.len() as u64)
}

/// How many acts a reading round of all links is, where each has a capacity.
fn reading_round_len(alloc: Global, whole: Whole<'_>) -> Result<Option<u64>, AllocError> {
    let mut acts: u64 = 0;
    for place in 0..whole.tree.link_count() {
        let Some(capacity) = uncut(capacity_at(whole.job, usize::from(place))) else {
            return Ok(None);
        };
        let child = whole.tree.link_child(place);
        acts = acts.saturating_add(reading_len(alloc, child, capacity)?);
    }
    Ok(Some(acts))
}

/// How many acts a reading round of the link into this node is.
fn reading_len(alloc: Global, child: NodeId, capacity: u16) -> Result<u64, AllocError>
    ensures { IfOk result (λ acts. acts ≡ length (reading_round_on capacity child [])) }
{
    let mut acts = Vec::new(alloc);
    push_reading_round(&mut acts, child, capacity)?;
    Ok(acts.len() as u64)
}

/// How many changes these steps are together.
fn changes_in(steps: &[Value], lengths: Lengths) -> u64 {
    let mut changes: u64 = 0;
    for step in steps {
        changes = changes.saturating_add(step_len(step, lengths));
    }
    changes
}

/// How many changes a step is: one, or those of its rounds, and none where these are wrong.
fn step_len(step: &Value, lengths: Lengths) -> u64 {
    let Some((word, count)) = pair(step) else {
        return 1;
    };
    if !count.is_number() {
        return 1;
    }
    let count = u64::from(label(count).unwrap_or(0));
    match word.as_str() {
        Some("rounds") => count.saturating_mul(lengths.round),
        Some("reading_rounds") => count.saturating_mul(lengths.reading_round),
        _ => 0,
    }
}

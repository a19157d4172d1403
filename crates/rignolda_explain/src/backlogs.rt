//! What is wrong with the backlogs of a moment, which no reader of `stab` looks at.

use crate::found::{add_found, look_at_list};
use rignolda_findings::{Matter, Notes, Piece, Place};
use serde_json::Value;
use stab_tree::Tree;
use std::alloc::AllocError;

/// What the backlogs are.
const BACKLOGS: &str = "the backlogs are a list of lists of items, one for each node";

/// What a backlog is.
const BACKLOG: &str = "a backlog is a list of items, which the parent of its node had for the node";

/// Looks at the backlogs of a job, where it has some.
pub fn look_at_backlogs(
    notes: &mut Notes,
    backlogs: Option<&Value>,
    tree: &Tree,
) -> Result<(), AllocError> {
    match backlogs {
        None => Ok(()),
        Some(Value::Array(lists)) => look_at_all(notes, lists.as_slice(), tree),
        Some(value) => add_found(notes, Place::member("backlogs"), value, BACKLOGS),
    }
}

/// Looks at each backlog, and how many there are.
fn look_at_all(notes: &mut Notes, lists: &[Value], tree: &Tree) -> Result<(), AllocError> {
    look_at_lists(notes, "backlogs", lists, BACKLOG)?;
    if lists.len() != usize::from(tree.len()) {
        return add_number(notes, "backlogs", lists.len(), " lists for ", tree);
    }
    look_at_root(notes, lists, tree)
}

/// Looks whether each entry of a member is a list of items.
pub(crate) fn look_at_lists(
    notes: &mut Notes,
    member: &str,
    lists: &[Value],
    want: &str,
) -> Result<(), AllocError> {
    for (i, list) in lists.iter().enumerate() {
        if notes.is_done() {
            break;
        }
        look_at_one(notes, Place::member(member).entry(i), list, want)?;
    }
    Ok(())
}

/// Looks whether an entry is a list of items.
fn look_at_one(
    notes: &mut Notes,
    place: Place<'_>,
    list: &Value,
    want: &str,
) -> Result<(), AllocError> {
    match list {
        Value::Array(items) => look_at_list(notes, place, items.as_slice()),
        _ => add_found(notes, place, list, want),
    }
}

/// Says that a member has another number of entries than there are nodes.
pub(crate) fn add_number(
    notes: &mut Notes,
    member: &str,
    entries: usize,
    words: &str,
    tree: &Tree,
) -> Result<(), AllocError> {
    notes.add(
        Matter::Command,
        &Place::member(member),
        &[
            Piece::Number(entries as u64),
            Piece::Words(words),
            Piece::Number(u64::from(tree.len())),
            Piece::Words(" nodes; there is one for each node, in their order"),
        ],
    )
}

/// Looks whether the root has a backlog.
fn look_at_root(notes: &mut Notes, lists: &[Value], tree: &Tree) -> Result<(), AllocError> {
    let root = tree.root();
    let Some(Value::Array(items)) = lists.get(root.index()) else {
        return Ok(());
    };
    if items.is_empty() {
        return Ok(());
    }
    notes.add(
        Matter::Command,
        &Place::member("backlogs")
            .entry(root.index())
            .of_node(tree.name(root)),
        &[Piece::Words("no node is above the root, so its backlog is empty")],
    )
}

//! What is wrong with the openings of nodes.

use rignolda_findings::{
    Notes, Piece, Place, list_of, list_or_absent, look_at_items, look_at_whole,
};
use serde_json::Value;
use stab_job::JobFault;
use stab_tree::{NodeId, Tree};
use stab_treecore::OpeningFault;
use std::alloc::AllocError;

/// The most items that an opening may have.
const MAX_HOLD: u64 = 64;

/// What `h` is.
const HOLD: &str = "\"h\" is a whole number from 0 to 64, the most items that an opening has";

/// What the openings are.
const OPENINGS: &str = "the openings are a list of lists of items, one for each node";

/// What an opening is.
const OPENING: &str = "an opening is a list of items";

/// Looks at the shapes of `h` and of the openings.
pub(crate) fn look_at_opening_lists(notes: &mut Notes, value: &Value) -> Result<(), AllocError> {
    look_at_whole(notes, &Place::member("h"), value.get("h"), HOLD)?;
    let place = Place::member("openings");
    let openings = list_or_absent(notes, &place, value.get("openings"), OPENINGS)?;
    for (i, opening) in openings.iter().enumerate() {
        if notes.is_done() {
            break;
        }
        let items = list_of(notes, &place.entry(i), opening, OPENING)?;
        look_at_items(notes, place.entry(i), items)?;
    }
    Ok(())
}

/// Looks whether the openings fit the tree.
pub(crate) fn look_at_openings(
    notes: &mut Notes,
    value: &Value,
    tree: &Tree,
) -> Result<(), AllocError> {
    let hold = hold_of(value);
    look_at_hold(notes, hold)?;
    let Some(Value::Array(openings)) = value.get("openings") else {
        return Ok(());
    };
    look_at_count_of_openings(notes, openings.len(), tree)?;
    look_at_places(notes, openings.as_slice(), tree)?;
    match hold {
        Some(hold) => look_at_lengths(notes, openings.as_slice(), tree, hold),
        None => Ok(()),
    }
}

/// The number that `h` is.
fn hold_of(value: &Value) -> Option<u64> {
    value.get("h")?.as_u64()
}

/// Looks whether `h` is in its range.
fn look_at_hold(notes: &mut Notes, hold: Option<u64>) -> Result<(), AllocError> {
    match hold {
        Some(hold) if hold > MAX_HOLD => notes.refuse(
            JobFault::Opening(OpeningFault::HoldOutOfRange),
            &Place::member("h"),
            &[
                Piece::Number(hold),
                Piece::Words(" is out of range; "),
                Piece::Words(HOLD),
            ],
        ),
        _ => Ok(()),
    }
}

/// Looks whether there are as many openings as nodes.
fn look_at_count_of_openings(
    notes: &mut Notes,
    openings: usize,
    tree: &Tree,
) -> Result<(), AllocError> {
    if openings == usize::from(tree.len()) {
        return Ok(());
    }
    notes.refuse(
        JobFault::Opening(OpeningFault::OpeningCount),
        &Place::member("openings"),
        &[
            Piece::Number(openings as u64),
            Piece::Words(" openings for "),
            Piece::Number(u64::from(tree.len())),
            Piece::Words(" nodes; there is one for each node, in their order"),
        ],
    )
}

/// The place of a node's entry, with the name of the node.
pub(crate) fn place_of_node<'a>(member: &'a str, entry: usize, tree: &'a Tree) -> Place<'a> {
    let place = Place::member(member).entry(entry);
    if entry < usize::from(tree.len()) {
        place.of_node(tree.name(NodeId::new(entry as u16)))
    } else {
        place
    }
}

/// How many items an opening has.
fn length_of(opening: &Value) -> usize {
    match opening.as_array() {
        Some(items) => items.len(),
        None => 0,
    }
}

/// Whether the node at a place has a parent and a child.
fn is_inner(tree: &Tree, place: usize) -> bool {
    let has_parent = matches!(tree.parents().get(place), Some(Some(_)));
    has_parent && is_parent(tree, place)
}

/// Whether the node at a place is the parent of another.
fn is_parent(tree: &Tree, place: usize) -> bool {
    for parent in tree.parents() {
        if let Some(parent) = parent {
            if parent.index() == place {
                return true;
            }
        }
    }
    false
}

/// Looks whether only inner nodes have an opening with an item.
fn look_at_places(notes: &mut Notes, openings: &[Value], tree: &Tree) -> Result<(), AllocError> {
    for (i, opening) in openings.iter().enumerate() {
        if notes.is_done() {
            break;
        }
        if i >= usize::from(tree.len()) {
            break;
        }
        if length_of(opening) > 0 && !is_inner(tree, i) {
            notes.refuse(
                JobFault::Opening(OpeningFault::OpeningPlace),
                &place_of_node("openings", i, tree),
                &[Piece::Words("only a node with a parent and a child may have an opening")],
            )?;
        }
    }
    Ok(())
}

/// Looks whether no opening has more items than it may have.
fn look_at_lengths(
    notes: &mut Notes,
    openings: &[Value],
    tree: &Tree,
    hold: u64,
) -> Result<(), AllocError> {
    for (i, opening) in openings.iter().enumerate() {
        if notes.is_done() {
            break;
        }
        if length_of(opening) as u64 > hold {
            notes.refuse(
                JobFault::Opening(OpeningFault::OpeningTooLong),
                &place_of_node("openings", i, tree),
                &[
                    Piece::Number(length_of(opening) as u64),
                    Piece::Words(" items, and \"h\" allows "),
                    Piece::Number(hold),
                ],
            )?;
        }
    }
    Ok(())
}

//! The nodes that steps name.

use crate::found::add_found;
use rignolda_findings::{Matter, Notes, Piece, Place, add_nearest, nearest_node};
use serde_json::Value;
use stab_tree::{NodeId, Tree};
use std::alloc::AllocError;

/// What names a node.
const NODE: &str = "a node is named by a text";

/// The job, and its tree.
#[derive(Clone, Copy)]
pub(crate) struct Whole<'v> {
    pub(crate) job: &'v Value,
    pub(crate) tree: &'v Tree,
}

/// Looks at the name of a node, and answers the node.
fn look_at_node(
    notes: &mut Notes,
    whole: Whole<'_>,
    place: Place<'_>,
    name: &Value,
) -> Result<Option<NodeId>, AllocError> {
    let Some(its_name) = name.as_str() else {
        add_found(notes, place, name, NODE)?;
        return Ok(None);
    };
    let node = whole.tree.find(its_name);
    if node.is_none() {
        add_unknown(notes, Matter::Command, &place, its_name, whole.tree)?;
    }
    Ok(node)
}

/// Looks at the name of a node, whichever it is.
pub(crate) fn look_at_name(
    notes: &mut Notes,
    whole: Whole<'_>,
    place: Place<'_>,
    name: &Value,
) -> Result<(), AllocError> {
    look_at_node(notes, whole, place, name)?;
    Ok(())
}

/// Adds a name of no node, with the nearest one of a node.
pub(crate) fn add_unknown<'x>(
    notes: &mut Notes,
    matter: Matter,
    place: &Place<'_>,
    name: &'x str,
    tree: &'x Tree,
) -> Result<(), AllocError> {
    if notes.is_full() {
        return notes.add(matter, place, &[]);
    }
    let near = nearest_node(notes.alloc(), name, tree)?;
    add_no_node(notes, matter, place, name, near)
}

/// Adds a name of no node, and the nearest one of a node, where one is near.
pub(crate) fn add_no_node<'x>(
    notes: &mut Notes,
    matter: Matter,
    place: &Place<'_>,
    name: &'x str,
    near: Option<&'x str>,
) -> Result<(), AllocError> {
    let is_none = (" is no node", " of the tree");
    add_nearest(notes, matter, place, name, is_none, near)
}

/// Looks at the name of a node into which a link leads, and answers the place of that link.
pub(crate) fn look_at_link(
    notes: &mut Notes,
    whole: Whole<'_>,
    place: Place<'_>,
    name: &Value,
) -> Result<Option<u16>, AllocError> {
    let Some(child) = look_at_node(notes, whole, place, name)? else {
        return Ok(None);
    };
    let link = whole.tree.link_place(child);
    if link.is_none() {
        notes.add(
            Matter::Command,
            &place,
            &[
                Piece::Quoted(name.as_str().unwrap_or("")),
                Piece::Words(" is the root, and no link leads into it"),
            ],
        )?;
    }
    Ok(link)
}

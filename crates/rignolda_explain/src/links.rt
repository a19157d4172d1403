//! What a job says of its links, one entry for each: parameters, starts and scripts.

use crate::scripts::{look_at_script, look_at_script_members};
use crate::strikes::capacity_at;
use rignolda_findings::{
    Known, Notes, Piece, Place, START_MEMBERS, count_of, list_or_absent, look_at_begin,
    look_at_members, look_at_numbers, look_at_params, look_at_start, uncut,
};
use serde_json::Value;
use stab_job::JobFault;
use stab_tree::{NodeId, Tree};
use std::alloc::AllocError;

/// What the starts are.
const STARTS: &str = "the starts are a list of starts, one for each link";

/// What the scripts are.
const SCRIPTS: &str = "the scripts are a list of scripts, one for each link";

/// What the links are.
const LINKS: &str = "the links are a list, with null or an object for each link";

/// What an entry of the links is.
const LINK: &str = "an entry of the links is null, or an object with \"capacity\" and \"labels\"";

/// The members of an entry of the links.
const LINK_MEMBERS: Known = Known {
    what: "an entry of the links",
    names: &["capacity", "labels"],
    idle: &[],
    reason: "",
};

/// The child of the link at a place, where there is such a link.
pub(crate) fn child_at(tree: &Tree, place: usize) -> Option<NodeId> {
    let _nodes = tree.len();
    if place < usize::from(tree.link_count()) {
        Some(tree.link_child(place as u16))
    } else {
        None
    }
}

/// The place of a link's entry, with the name of the link.
pub(crate) fn place_of_link<'a>(member: &'a str, entry: usize, tree: &'a Tree) -> Place<'a> {
    let place = Place::member(member).entry(entry);
    let _nodes = tree.len();
    if entry < usize::from(tree.link_count()) {
        place.of_link(tree.name(tree.link_child(entry as u16)))
    } else {
        place
    }
}

/// Looks at the shapes of the starts, the scripts and the links.
pub(crate) fn look_at_lists_of_links(notes: &mut Notes, value: &Value) -> Result<(), AllocError> {
    let starts = list_or_absent(notes, &Place::member("starts"), value.get("starts"), STARTS)?;
    for (i, start) in starts.iter().enumerate() {
        if notes.is_done() {
            break;
        }
        look_at_start(notes, Place::member("starts").entry(i), start)?;
    }
    look_at_scripts(notes, value)?;
    look_at_links(notes, value)
}

/// Looks at the shapes of the scripts.
fn look_at_scripts(notes: &mut Notes, value: &Value) -> Result<(), AllocError> {
    let scripts = list_or_absent(
        notes,
        &Place::member("scripts"),
        value.get("scripts"),
        SCRIPTS,
    )?;
    for (i, script) in scripts.iter().enumerate() {
        if notes.is_done() {
            break;
        }
        look_at_script(notes, Place::member("scripts").entry(i), script)?;
    }
    Ok(())
}

/// Looks at the shapes of the links.
fn look_at_links(notes: &mut Notes, value: &Value) -> Result<(), AllocError> {
    let links = list_or_absent(notes, &Place::member("links"), value.get("links"), LINKS)?;
    for (i, link) in links.iter().enumerate() {
        if notes.is_done() {
            break;
        }
        look_at_link(notes, Place::member("links").entry(i), link)?;
    }
    Ok(())
}

/// Looks at the shape of an entry of the links.
fn look_at_link(notes: &mut Notes, place: Place<'_>, link: &Value) -> Result<(), AllocError> {
    match link {
        Value::Null => Ok(()),
        Value::Object(_) => look_at_numbers(notes, place, link),
        _ => notes.wrong(&place, link, LINK),
    }
}

/// Looks whether a list that is given has an entry for each link.
pub(crate) fn look_at_count(
    notes: &mut Notes,
    member: &str,
    value: &Value,
    tree: &Tree,
    fault: JobFault,
) -> Result<(), AllocError> {
    let Some(Value::Array(list)) = value.get(member) else {
        return Ok(());
    };
    if list.len() == usize::from(tree.link_count()) {
        return Ok(());
    }
    notes.refuse(
        fault,
        &Place::member(member),
        &[
            Piece::Number(list.len() as u64),
            Piece::Words(" entries for "),
            Piece::Number(u64::from(tree.link_count())),
            Piece::Words(" links; there is one for each node but the root, in their order"),
        ],
    )
}

/// Looks at the numbers of the links that have their own.
pub(crate) fn look_at_link_params(
    notes: &mut Notes,
    links: Option<&Value>,
    tree: &Tree,
) -> Result<(), AllocError> {
    let Some(Value::Array(links)) = links else {
        return Ok(());
    };
    for (i, link) in links.iter().enumerate() {
        let Some(child) = child_at(tree, i) else {
            break;
        };
        look_at_params(notes, place_of_link("links", i, tree), link, Some(child))?;
    }
    Ok(())
}

/// Looks whether each link can begin.
pub(crate) fn look_at_starts(
    notes: &mut Notes,
    value: &Value,
    tree: &Tree,
) -> Result<(), AllocError> {
    let Some(Value::Array(starts)) = value.get("starts") else {
        return Ok(());
    };
    for (i, start) in starts.iter().enumerate() {
        if notes.is_done() {
            break;
        }
        if let Some(capacity) = uncut(capacity_at(value, i)) {
            look_at_begin(notes, place_of_link("starts", i, tree), start, capacity)?;
        }
    }
    Ok(())
}

/// Looks for members of starts, scripts and links that are not known.
pub(crate) fn look_at_members_of_links(notes: &mut Notes, value: &Value) -> Result<(), AllocError> {
    look_at_entries(notes, "starts", value, START_MEMBERS)?;
    look_at_entries(notes, "links", value, LINK_MEMBERS)?;
    let Some(Value::Array(scripts)) = value.get("scripts") else {
        return Ok(());
    };
    for (i, script) in scripts.iter().enumerate() {
        if notes.is_done() {
            break;
        }
        look_at_script_members(notes, Place::member("scripts").entry(i), script)?;
    }
    Ok(())
}

/// Looks for members of the entries of a list that are not known.
pub(crate) fn look_at_entries(
    notes: &mut Notes,
    member: &str,
    value: &Value,
    known: Known,
) -> Result<(), AllocError> {
    let Some(Value::Array(list)) = value.get(member) else {
        return Ok(());
    };
    for (i, entry) in list.iter().enumerate() {
        if notes.is_done() {
            break;
        }
        look_at_members(notes, Place::member(member).entry(i), entry, known)?;
    }
    Ok(())
}

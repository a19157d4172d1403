//! The known name that is nearest to one that was written.

use crate::explanation::Matter;
use crate::notes::{Notes, Piece};
use crate::place::Place;
use stab_tree::{NodeId, Tree};
use std::alloc::{AllocError, Global};
use strsim::osa_distance;

/// The most bytes of a name to which the nearest known one is looked for.
const MAX_COMPARED: usize = 32;

/// The most bytes of a known name that is compared: a longer one is near none of those.
const MAX_KNOWN: usize = 64;

/// One edit is allowed for every 3 bytes of a name, if it is to be near a known one.
const BYTES_PER_EDIT: usize = 3;

/// The nearest name so far.
#[derive(Drop)]
pub struct Nearest<'a> {
    /// The name that is near.
    near: Option<&'a str>,
    /// Fewer edits than this lead to a nearer name.
    fewer_than: usize,
}

impl<'a> Nearest<'a> {
    /// Nothing so far that is near this name.
    pub fn to(name: &str) -> Nearest<'a> {
        if name.len() > MAX_COMPARED {
            return Nearest {
                near: None,
                fewer_than: 0,
            };
        }
        Nearest {
            near: None,
            fewer_than: name.len() / BYTES_PER_EDIT + 1,
        }
    }

    /// Takes this name, where it is nearer; the same name in other letters is the nearest.
    pub fn offer(&mut self, alloc: Global, name: &str, known: &'a str) -> Result<(), AllocError> {
        if self.fewer_than >= 1 && name.eq_ignore_ascii_case(known) {
            self.fewer_than = 0;
            self.near = Some(known);
        }
        if self.fewer_than <= 1 || known.len() > MAX_KNOWN {
            return Ok(());
        }
        let edits = osa_distance(alloc, name, known)?;
        if edits < self.fewer_than {
            self.fewer_than = edits;
            self.near = Some(known);
        }
        Ok(())
    }

    /// The nearest name, where one is near.
    pub fn found(&self) -> Option<&'a str> {
        self.near
    }
}

/// The nearest of these names, where one is near.
pub fn nearest_known(
    alloc: Global,
    name: &str,
    names: &[&'static str],
) -> Result<Option<&'static str>, AllocError> {
    let mut near = Nearest::to(name);
    for known in names {
        near.offer(alloc, name, *known)?;
    }
    Ok(near.found())
}

/// The nearest name of a node, where one is near.
pub fn nearest_node<'t>(
    alloc: Global,
    name: &str,
    tree: &'t Tree,
) -> Result<Option<&'t str>, AllocError> {
    let mut near = Nearest::to(name);
    for place in 0..tree.len() {
        near.offer(alloc, name, tree.name(NodeId::new(place)))?;
    }
    Ok(near.found())
}

/// Adds that a word is none of the known ones: the first of two texts says so where one of these is
/// near, and is followed by it; where none is, both texts do.
pub fn add_nearest<'x>(
    notes: &mut Notes,
    matter: Matter,
    place: &Place<'_>,
    word: &'x str,
    is_none: (&'static str, &'static str),
    near: Option<&'x str>,
) -> Result<(), AllocError> {
    match near {
        Some(near) => notes.add(
            matter,
            place,
            &[
                Piece::Quoted(word),
                Piece::Words(is_none.0),
                Piece::Words("; did you mean "),
                Piece::Quoted(near),
                Piece::Words("?"),
            ],
        ),
        None => notes.add(
            matter,
            place,
            &[
                Piece::Quoted(word),
                Piece::Words(is_none.0),
                Piece::Words(is_none.1),
            ],
        ),
    }
}

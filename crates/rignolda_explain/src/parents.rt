//! What is wrong with the parents of a tree's nodes.

use crate::names::add_no_node;
use crate::tree::{find, refuse_tree, text_of};
use rignolda_findings::{Matter, Nearest, Notes, Piece, Place, Refusal};
use serde_json::Value;
use stab_job::JobFault;
use stab_tree::TreeFault;
use std::alloc::{AllocError, Global};

/// Looks whether each parent is a node.
pub(crate) fn look_at_parents(notes: &mut Notes, nodes: &[Value]) -> Result<(), AllocError> {
    for (i, node) in nodes.iter().enumerate() {
        if let Some(parent) = text_of(node, "parent") {
            if find(nodes, parent).is_none() {
                add_unknown(notes, i, parent, nodes)?;
            }
        }
    }
    Ok(())
}

/// Adds a parent that is no node, with the nearest name of one.
fn add_unknown<'x>(
    notes: &mut Notes,
    node: usize,
    parent: &'x str,
    nodes: &'x [Value],
) -> Result<(), AllocError> {
    let place = Place::member("tree").entry(node).part("parent");
    let near = nearest_of(notes.alloc(), parent, nodes)?;
    let fault = JobFault::Tree(TreeFault::UnknownParent);
    add_no_node(
        notes,
        Matter::Refused(Refusal::Job(fault)),
        &place,
        parent,
        near,
    )
}

/// The name of a node that is nearest to this one, where one is near.
fn nearest_of<'v>(
    alloc: Global,
    name: &str,
    nodes: &'v [Value],
) -> Result<Option<&'v str>, AllocError> {
    let mut near = Nearest::to(name);
    for node in nodes {
        if let Some(known) = text_of(node, "name") {
            near.offer(alloc, name, known)?;
        }
    }
    Ok(near.found())
}

/// Whether a node has no parent.
fn is_root(node: &Value) -> bool {
    match node.get("parent") {
        Some(parent) => parent.is_null(),
        None => true,
    }
}

/// Looks whether one node alone has no parent.
pub(crate) fn look_at_roots(notes: &mut Notes, nodes: &[Value]) -> Result<(), AllocError> {
    let mut first = None;
    for (i, node) in nodes.iter().enumerate() {
        if !is_root(node) {
            continue;
        }
        match first {
            None => first = Some(i),
            Some(first) => add_root(notes, i, first)?,
        }
    }
    match first {
        Some(_) => Ok(()),
        None => refuse_tree(
            notes,
            TreeFault::NoRoot,
            &Place::member("tree"),
            &[Piece::Words("no node is without a parent; the root is the one that has none")],
        ),
    }
}

/// Adds a second node without a parent.
fn add_root(notes: &mut Notes, node: usize, first: usize) -> Result<(), AllocError> {
    refuse_tree(
        notes,
        TreeFault::TwoRoots,
        &Place::member("tree").entry(node),
        &[
            Piece::Words("no parent, and tree["),
            Piece::Number(first as u64),
            Piece::Words("] has none either; one node alone is the root"),
        ],
    )
}

/// Whether the parents of a node lead to one without a parent.
fn reaches_root(nodes: &[Value], node: usize) -> bool {
    let mut at = Some(node);
    for _ in 0..nodes.len() {
        at = parent_of(nodes, at);
    }
    at.is_none()
}

/// The place of the parent of a node, where it has one.
fn parent_of(nodes: &[Value], node: Option<usize>) -> Option<usize> {
    find(nodes, text_of(nodes.get(node?)?, "parent")?)
}

/// Looks whether each node reaches the root.
pub(crate) fn look_at_cycles(notes: &mut Notes, nodes: &[Value]) -> Result<(), AllocError> {
    for i in 0..nodes.len() {
        if !reaches_root(nodes, i) {
            refuse_tree(
                notes,
                TreeFault::Cycle,
                &Place::member("tree").entry(i),
                &[Piece::Words("its parents lead round in a circle, and never to the root")],
            )?;
        }
    }
    Ok(())
}

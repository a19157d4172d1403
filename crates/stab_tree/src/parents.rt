ghost use Rattle.std.specs.Prelude.{◌≡◌, ◌<◌, ◌≤◌, ℕ, Some, IfOk, IfSome, is_some, is_none, length};
ghost use Rattle.std.specs.Prelude.{map, option_map, position, string_bytes};
ghost use Rattle.stab_tree.specs.Nodes.{most_nodes, parent_at, root_of};
ghost use Rattle.stab_tree.specs.Parents.{parent_of, parents_of, root_count, have_depths};
ghost use Rattle.stab_tree.specs.Steps.{depth_at};
ghost use Rattle.stab_tree.specs.Stored.{AreDepths};

use crate::entry::EntryRef;
use crate::names;
use crate::node::NodeId;
use std::alloc::{AllocError, Global};

/// The parent of an entry, where it is the name of a node.
fn find_parent(names: &[String], entry: &EntryRef<'_>) -> Option<Option<NodeId>>
    requires { length names.now ≤ most_nodes }
    ensures { result ≡ parent_of (map string_bytes names.now) entry.now }
{
    match entry.parent() {
        None => Some(None),
        Some(parent) => Some(Some(names::find(names, parent)?)),
    }
}

/// The parents of the entries, where each is the name of a node.
pub(crate) fn find_parents(
    alloc: Global,
    names: &[String],
    entries: &[EntryRef<'_>],
) -> Result<Option<Vec<Option<NodeId>>>, AllocError>
    requires { length names.now ≤ most_nodes }
    ensures { IfOk result (λ found. option_map (λ parents. parents.items) found
        ≡ parents_of (map string_bytes names.now) entries.now) }
{
    let mut parents = Vec::with_capacity(alloc, entries.len())?;
    for entry in entries {
        let Some(parent) = find_parent(names, entry) else {
            return Ok(None);
        };
        parents.push(parent)?;
    }
    Ok(Some(parents))
}

/// The number of nodes without a parent.
pub(crate) fn root_count(parents: &[Option<NodeId>]) -> usize
    ensures { result ≡ root_count parents.now }
{
    parents.iter().filter(|p| p.is_none()).count()
}

/// The place of the first node without a parent.
fn find_root(parents: &[Option<NodeId>]) -> Option<usize>
    ensures { result ≡ position is_none parents.now }
{
    parents.iter().position(|p| p.is_none())
}

/// The first node without a parent, or the number of nodes where each has one.
pub(crate) fn first_root(parents: &[Option<NodeId>]) -> NodeId
    requires { length parents.now ≤ most_nodes }
    ensures { result ≡ root_of parents.now }
{
    let place = find_root(parents).unwrap_or(parents.len());
    NodeId::new(place as u16)
}

/// The number of parent steps from a node to one without a parent, where they end.
fn find_depth(parents: &[Option<NodeId>], node: usize) -> Option<u16>
    requires few { length parents.now ≤ most_nodes }
    requires known { (w p : ℕ) → parent_at parents.now w ≡ Some p → p < length parents.now }
    requires within { node < length parents.now }
    ensures { result ≡ depth_at parents.now node }
{
    let mut at = node;
    for steps in 0..parents.len() {
        match parents[at] {
            None => return Some(steps as u16),
            Some(parent) => at = parent.index(),
        }
    }
    None
}

/// The depth of each node, where each has one.
pub(crate) fn find_depths(
    alloc: Global,
    parents: &[Option<NodeId>],
) -> Result<Option<Vec<u16>>, AllocError>
    requires few { length parents.now ≤ most_nodes }
    requires known { (w p : ℕ) → parent_at parents.now w ≡ Some p → p < length parents.now }
    ensures found { IfOk result (λ found. is_some found ≡ have_depths parents.now) }
    ensures each { IfOk result (λ found. IfSome found
        (λ depths. AreDepths parents.now depths.items)) }
{
    let mut depths = Vec::with_capacity(alloc, parents.len())?;
    for node in 0..parents.len() {
        let Some(depth) = find_depth(parents, node) else {
            return Ok(None);
        };
        depths.push(depth)?;
    }
    Ok(Some(depths))
}

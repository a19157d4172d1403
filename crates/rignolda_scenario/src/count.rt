//! What may be at a node since a moment, and where what is published since begins.

ghost use Rattle.std.specs.Prelude.{◌≡◌, ◌<◌, ◌≤◌, ◌+◌, ◌*◌, ◌++◌, ℕ, List, drop, length, Some};
ghost use Rattle.std.specs.Prelude.{IfOk};
ghost use mathlib.Core.List.{IsPrefix};
ghost use Rattle.stab_treecore.specs.Moment.{old_backlog, published_since};
ghost use Rattle.stab_treecore.specs.Since.{backlog, gained, moment};
ghost use Rattle.stab_treecore.specs.Paths.{path_sum};
ghost use Rattle.stab_treecore.specs.WholeTree.{WholeTree, received, source};
ghost use Rattle.stab_tree.specs.Nodes.{parent_at, root_of};
ghost use Rattle.stab_tree.specs.Steps.{depth_of};
ghost use Rattle.rignolda_scenario.specs.Marks.{IsPublishedFrom};

use stab_core::Link;
use stab_frames::Item;
use stab_tree::{NodeId, Tree};
use stab_treecore::TreeState;
use std::alloc::{AllocError, Global};
use std::cmp;

/// The items of a list after its first `count`.
pub(crate) fn rest_of(list: &[Item], count: usize) -> &[Item]
    ensures { result.now ≡ drop count list.now }
{
    if count >= list.len() {
        return &[];
    }
    &list[count..]
}

/// The items that the sender of a link holds: one at most.
fn held_by(link: &Link) -> &[Item]
    ensures { result.now ≡ drop link.now.state.acked link.now.state.offered }
{
    rest_of(link.offered(), link.acked() as usize)
}

/// What the parent of a node has.
fn source_of<'s>(tree: &Tree, state: &'s TreeState, child: NodeId) -> &'s [Item]
    requires same_tree { state.now.parents ≡ tree.now.parents }
    requires known { child < length tree.now.parents }
    ensures { result.now ≡ source state.now child }
{
    match tree.parent(child) {
        Some(parent) => state.received(parent),
        None => &[],
    }
}

/// How many items the parent of a node has for it.
fn backlog_len(tree: &Tree, state: &TreeState, child: NodeId) -> u128
    requires same_tree { state.now.parents ≡ tree.now.parents }
    requires known { child < length tree.now.parents }
    ensures len { result ≡ length (backlog state.now child) }
    ensures small { result ≤ 36893488147419103232 }
{
    let Some(link) = state.link(child) else {
        return 0;
    };
    let held = held_by(link).len() as u128;
    let rest = rest_of(source_of(tree, state, child), link.offered().len()).len() as u128;
    held + rest
}

/// How many items an inner node has for this child of it; those of the root count as published.
fn old_backlog_len(tree: &Tree, state: &TreeState, child: NodeId) -> u128
    requires same_tree { state.now.parents ≡ tree.now.parents }
    requires known { child < length tree.now.parents }
    ensures len { result ≡ length (old_backlog (moment state.now) child) }
    ensures small { result ≤ 36893488147419103232 }
{
    let Some(parent) = tree.parent(child) else {
        return 0;
    };
    if tree.parent(parent).is_none() {
        return 0;
    }
    backlog_len(tree, state, child)
}

/// How many items the inner nodes above a node have for the next one on its path.
pub(crate) fn old_backlogs(tree: &Tree, state: &TreeState, node: NodeId) -> u128
    requires same_tree { state.now.parents ≡ tree.now.parents }
    requires known { node < length tree.now.parents }
    ensures sum { result ≡ path_sum state.now.parents
        (λ w. length (old_backlog (moment state.now) w)) node }
    ensures small { result ≤ 36893488147419103232 * 65535 }
{
    let mut sum = 0;
    let mut at = node;
    'up: for _ in 0..tree.depth(node) {
        sum += old_backlog_len(tree, state, at);
        match tree.parent(at) {
            None => return sum,
            Some(parent) => at = parent,
        }
    }
    sum
}

/// Where what is published for a child of the root since this state begins: the items that the root's
/// sender holds, and then the root's list from a place on.
fn published_for(
    alloc: Global,
    tree: &Tree,
    state: &TreeState,
    child: NodeId,
) -> Result<(Vec<Item>, usize), AllocError>
    requires same_tree { state.now.parents ≡ tree.now.parents }
    requires known { child < length tree.now.parents }
    ensures { IfOk result (λ both. (list : List ℕ)
        → IsPrefix (received state.now (root_of tree.now.parents)) list
        → parent_at tree.now.parents child ≡ Some (root_of tree.now.parents)
        → both.0.items ++ drop both.1 list
        ≡ backlog state.now child
        ++ drop (length (received state.now (root_of tree.now.parents))) list) }
{
    let there = state.received(tree.root()).len();
    let Some(link) = state.link(child) else {
        return Ok((Vec::new(alloc), there));
    };
    let held = Vec::from_slice(alloc, held_by(link))?;
    Ok((held, cmp::min(link.offered().len(), there)))
}

/// The child of the root on the path of a node that is not the root.
fn top(tree: &Tree, node: NodeId) -> NodeId
    requires { node < length tree.now.parents }
    ensures known { result < length tree.now.parents }
    ensures top { 1 ≤ depth_of tree.now.parents node
        → parent_at tree.now.parents result ≡ Some (root_of tree.now.parents) }
    ensures published { (s t : WholeTree) → s.parents ≡ tree.now.parents
        → 1 ≤ depth_of tree.now.parents node
        → published_since (moment s) (gained s t) node
        ≡ backlog s result ++ gained s t (root_of s.parents) }
{
    let mut at = node;
    'up: for _ in 1..tree.depth(node) {
        match tree.parent(at) {
            None => return at,
            Some(parent) => at = parent,
        }
    }
    at
}

/// Where what is published for a node since this state begins: the items that the root's sender
/// holds, and then the root's list from a place on.
pub(crate) fn published_from(
    alloc: Global,
    tree: &Tree,
    state: &TreeState,
    node: NodeId,
) -> Result<(Vec<Item>, usize), AllocError>
    requires same_tree { state.now.parents ≡ tree.now.parents }
    requires known { node < length tree.now.parents }
    ensures { IfOk result (λ both. IsPublishedFrom state.now node both.0.items both.1) }
{
    published_for(alloc, tree, state, top(tree, node))
}

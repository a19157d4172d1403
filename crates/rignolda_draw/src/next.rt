//! The event of a step, as the tree is before it; and the parent of a node.

ghost use Rattle.std.specs.Prelude.{◌≡◌, ◌<◌, ◌↔◌, Some, length, IfSome, IsTrue};
ghost use Rattle.stab_tree.specs.Nodes.{parent_at};
ghost use Rattle.stab_treecore.specs.TreeStep.{event_on, next_item};

use stab_core::Event;
use stab_frames::Item;
use stab_tree::{NodeId, Tree};
use stab_treecore::{TreeEvent, TreeState};

/// The event on the link that a step names; none where it is an offer and there is no item left.
pub(crate) fn event_on(tree: &Tree, state: &TreeState, event: &TreeEvent) -> Option<Event>
    requires same_tree { state.now.parents ≡ tree.now.parents }
    ensures { result ≡ event_on state.now event.now }
{
    event.act.event(next_item(tree, state, event.child))
}

/// The item that the link into a node is to be offered next.
fn next_item(tree: &Tree, state: &TreeState, child: NodeId) -> Option<Item>
    requires same_tree { state.now.parents ≡ tree.now.parents }
    ensures { result ≡ next_item state.now child }
{
    let link = state.link(child)?;
    let parent = parent_of(tree, child)?;
    state.received(parent).get(link.offered().len()).copied()
}

/// The parent of a node; the root and what is no node have none.
fn parent_of(tree: &Tree, child: NodeId) -> Option<NodeId>
    ensures value { result ≡ parent_at tree.now.parents child }
    ensures known { IfSome result (λ parent. parent < length tree.now.parents) }
{
    if child.place() < tree.len() {
        tree.parent(child)
    } else {
        None
    }
}

/// Whether a node is the parent of this child. What is no node has no parent.
pub fn is_parent(tree: &Tree, node: NodeId, child: NodeId) -> bool
    ensures { IsTrue result ↔ (parent_at tree.now.parents child ≡ Some node) }
{
    match parent_of(tree, child) {
        Some(parent) => parent == node,
        None => false,
    }
}

//! Which nodes a fault hits.

ghost use Rattle.std.specs.Prelude.{◌≡◌, ◌<◌, length};
ghost use Rattle.rignolda_scenario.specs.LastFault.{hits, is_fault, is_on_path};

use crate::step::Step;
use stab_tree::{NodeId, Tree};
use stab_treecore::Change;

/// Whether another node is this one, or one above it.
fn is_on_path(tree: &Tree, node: NodeId, other: NodeId) -> bool
    requires { node < length tree.now.parents }
    ensures { result ≡ is_on_path tree.now.parents node other }
{
    let mut at = node;
    'up: for _ in 0..tree.depth(node) {
        if at == other {
            return true;
        }
        match tree.parent(at) {
            None => return false,
            Some(parent) => at = parent,
        }
    }
    at == other
}

/// Whether a step is a fault that hits a node.
pub(crate) fn hits(tree: &Tree, node: NodeId, step: &Step) -> bool
    requires { node < length tree.now.parents }
    ensures { result ≡ hits tree.now.parents node step.now }
{
    match step {
        Step::One(Change::Strike(child, _)) => is_on_path(tree, node, *child),
        Step::One(Change::Restart(other, _)) => is_on_path(tree, node, *other),
        _ => false,
    }
}

/// Whether a step is a fault, whichever node it hits.
pub(crate) fn is_fault(step: &Step) -> bool
    ensures { result ≡ is_fault step.now }
{
    match step {
        Step::One(Change::Strike(_, _)) => true,
        Step::One(Change::Restart(_, _)) => true,
        _ => false,
    }
}

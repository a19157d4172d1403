//! What faults cost the nodes of a tree that has come to rest.

ghost use Rattle.std.specs.Prelude.{◌≡◌, ◌<◌, length};
ghost use Rattle.rignolda_verdict.specs.Costs.{capacity_to, greatest_below};

use stab_judge::Judge;
use stab_tree::{NodeId, Tree};

/// The capacity of the link from a node to this child of it, and 0 for what is no child.
fn capacity_to(judge: &Judge<'_>, tree: &Tree, node: NodeId, child: NodeId) -> u16
    requires same_tree { judge.now.tree ≡ tree.now }
    requires known { child < length tree.now.parents }
    ensures { result ≡ capacity_to judge.now node child }
{
    match tree.parent(child) {
        None => 0,
        Some(parent) => {
            if parent == node {
                judge.capacity_into(child)
            } else {
                0
            }
        }
    }
}

/// The greatest capacity of the links from a node to its children, and 0 where it has none.
pub(crate) fn greatest_below(judge: &Judge<'_>, tree: &Tree, node: NodeId) -> u16
    requires same_tree { judge.now.tree ≡ tree.now }
    ensures { result ≡ greatest_below judge.now node }
{
    let mut greatest = 0;
    'nodes: for place in 0..tree.len() {
        let capacity = capacity_to(judge, tree, node, NodeId::new(place));
        if capacity > greatest {
            greatest = capacity;
        }
    }
    greatest
}

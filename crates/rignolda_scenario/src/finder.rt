ghost use Rattle.std.specs.Prelude.{◌≡◌, ◌<◌, length, IsTrue, Some};
ghost use Rattle.stab_tree.specs.IsTree.{IsTree};
ghost use Rattle.stab_tree.specs.Nodes.{place_of};

use stab_tree::{NodeId, Tree};
use std::marker::Model;

/// How many slots there are: sixteen for each of the most nodes.
const SLOTS: usize = 1024;

/// A tree whose nodes are found by their names, many times over. The slot of a name says which node
/// to look at first, so a name is compared with one other. What a slot says is answered only where
/// that node has the name, and else the tree is asked: so no fact rests on what is in a slot.
#[derive(Drop)]
pub(crate) struct NodeFinder<'t> {
    tree: &'t Tree,
    slots: [u8; SLOTS],
}

impl<'t> Model for NodeFinder<'t> {
    ghost use Rattle.stab_tree.specs.IsTree.{IsTree};
    ghost use Rattle.stab_tree.specs.Nodes.{Nodes};

    ghost Value = { Nodes };

    ghost view = { λ f. f.tree.now };

    ghost invariant = { λ f. IsTree f.tree.now };
}

/// The slot of a name.
fn slot_of(name: &str) -> usize
    ensures { result < SLOTS }
{
    let mut hash: u32 = 0;
    for byte in name.as_bytes() {
        hash = hash.wrapping_mul(31).wrapping_add(u32::from(*byte));
    }
    (hash % 1024) as usize
}

/// Whether the node at this place of a tree has this name.
fn has_name(tree: &Tree, node: NodeId, name: &str) -> bool
    requires tree { IsTree tree.now }
    requires known { node < length tree.now.parents }
    ensures { IsTrue result → place_of tree.now.names name.now ≡ Some node }
{
    tree.name(node) == name
}

impl<'t> NodeFinder<'t> {
    /// A finder of the nodes of this tree.
    pub(crate) fn new(tree: &'t Tree) -> NodeFinder<'t>
        ensures { result ≡ tree.now }
    {
        let _root = tree.root();
        let mut slots = [0; SLOTS];
        'nodes: for place in 0..tree.len() {
            slots[slot_of(tree.name(NodeId::new(place)))] = place as u8;
        }
        NodeFinder { tree, slots }
    }

    /// The tree.
    pub(crate) fn tree(&self) -> &'t Tree
        ensures { result.now ≡ self.now }
    {
        self.tree
    }

    /// The node of that name, where there is one.
    pub(crate) fn find(&self, name: &str) -> Option<NodeId>
        ensures { result ≡ place_of self.now.names name.now }
    {
        let place = u16::from(self.slots[slot_of(name)]);
        let node = NodeId::new(place);
        if place < self.tree.len() && has_name(self.tree, node, name) {
            Some(node)
        } else {
            self.tree.find(name)
        }
    }
}

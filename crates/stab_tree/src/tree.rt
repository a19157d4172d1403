ghost use Rattle.std.specs.Prelude.{◌≡◌, ◌≢◌, ◌↔◌, ◌+◌, ◌<◌, ◌≤◌, Some, IsSome, IsNone, IfSome};
ghost use Rattle.std.specs.Prelude.{IfNone, All, length, map, string_bytes, slice_get};

use crate::names;
use crate::node::NodeId;
use std::marker::Model;

/// The nodes of a tree, in file order. None of its calls takes memory.
#[derive(Debug)]
pub struct Tree {
    names: Vec<String>,
    parents: Vec<Option<NodeId>>,
    depths: Vec<u16>,
    root: NodeId,
}

impl Drop for Tree {
    fn drop(self) {
        let Tree {
            names: _,
            parents: _,
            depths: _,
            root: _,
        } = self;
    }
}

impl Model for Tree {
    ghost use Rattle.std.specs.Prelude.{map, string_bytes};
    ghost use Rattle.stab_tree.specs.Nodes.{Nodes};
    ghost use Rattle.stab_tree.specs.Stored.{IsStored};

    ghost Value = { Nodes };

    ghost view = { λ t. record {
      names = map string_bytes t.names.items;
      parents = t.parents.items;
    } };

    ghost invariant = { λ t. IsStored
        (record { names = map string_bytes t.names.items; parents = t.parents.items })
        t.depths.items t.root };
}

impl Tree {
    ghost use Rattle.stab_tree.specs.IsTree.{IsTree};
    ghost use Rattle.stab_tree.specs.Links.{links_of, link_place_of};
    ghost use Rattle.stab_tree.specs.Nodes.{most_nodes, parent_at, root_of, place_of};
    ghost use Rattle.stab_tree.specs.Steps.{ancestor, depth_at, depth_of};
    ghost use Rattle.stab_tree.specs.Stored.{IsStored};

    /// The tree of these parts.
    pub(crate) fn from_parts(
        names: Vec<String>,
        parents: Vec<Option<NodeId>>,
        depths: Vec<u16>,
        root: NodeId,
    ) -> Tree
        requires { IsStored
            (record { names = map string_bytes names.items; parents = parents.items })
            depths.items root }
        ensures { result
            ≡ record { names = map string_bytes names.items; parents = parents.items } }
    {
        Tree {
            names,
            parents,
            depths,
            root,
        }
    }

    /// The number of nodes, 1 to 64.
    pub fn len(&self) -> u16
        ensures value { result ≡ length self.now.parents }
        ensures some { 1 ≤ result }
        ensures few { result ≤ most_nodes }
    {
        self.parents.len() as u16
    }

    /// The one node without a parent.
    pub fn root(&self) -> NodeId
        ensures value { result ≡ root_of self.now.parents }
        // A value of this type is a tree.
        ensures tree { IsTree self.now }
    {
        self.root
    }

    /// The parent of the node; the root has none.
    pub fn parent(&self, node: NodeId) -> Option<NodeId>
        requires { node < length self.now.parents }
        ensures value { result ≡ parent_at self.now.parents node }
        ensures known { IfSome result (λ parent. parent < length self.now.parents) }
        ensures root { IsNone result ↔ (node ≡ root_of self.now.parents) }
    {
        self.parents[node.index()]
    }

    /// The parents of all nodes, in file order.
    pub fn parents(&self) -> &[Option<NodeId>]
        ensures value { result.now ≡ self.now.parents }
    {
        self.parents.as_slice()
    }

    /// The number of parent steps from the node to the root.
    #[tactic(auto, unfolding(crate::specs::Steps::depth_of))]
    pub fn depth(&self, node: NodeId) -> u16
        requires { node < length self.now.parents }
        ensures value { result ≡ depth_of self.now.parents node }
        ensures steps { ancestor self.now.parents result node ≡ Some (root_of self.now.parents) }
        ensures few { result < length self.now.parents }
    {
        self.depths[node.index()]
    }

    /// The name of the node, as its file has it.
    pub fn name(&self, node: NodeId) -> &str
        requires { node < length self.now.parents }
        ensures { slice_get self.now.names node ≡ Some result.now }
    {
        self.names[node.index()].as_str()
    }

    /// The node of that name, where there is one.
    pub fn find(&self, name: &str) -> Option<NodeId>
        ensures value { result ≡ place_of self.now.names name.now }
        ensures known { IfSome result (λ node. node < length self.now.parents) }
        ensures found { IfSome result (λ node. slice_get self.now.names node ≡ Some name.now) }
        ensures absent { IfNone result (All (λ s. s ≢ name.now) self.now.names) }
    {
        names::find(self.names.as_slice(), name)
    }

    /// The number of links: one for each node but the root.
    pub fn link_count(&self) -> u16
        ensures value { result ≡ length (links_of self.now.parents) }
        ensures nodes { result + 1 ≡ length self.now.parents }
    {
        (self.parents.len() - 1) as u16
    }

    /// The child that names the link at this place.
    pub fn link_child(&self, place: u16) -> NodeId
        requires { place < length (links_of self.now.parents) }
        ensures value { slice_get (links_of self.now.parents) place ≡ Some result }
        ensures known { result < length self.now.parents }
        ensures child { IsSome (parent_at self.now.parents result) }
    {
        if place < self.root.place() {
            NodeId::new(place)
        } else {
            NodeId::new(place + 1)
        }
    }

    /// The place of the link into a node. The root has none, and neither has a number of no node.
    pub fn link_place(&self, node: NodeId) -> Option<u16>
        ensures value { result ≡ link_place_of self.now.parents node }
        ensures child { IsSome result ↔ IsSome (parent_at self.now.parents node) }
        ensures found { IfSome result
            (λ place. slice_get (links_of self.now.parents) place ≡ Some node) }
    {
        if node.index() >= self.parents.len() {
            return None;
        }
        if node == self.root {
            return None;
        }
        if node.place() < self.root.place() {
            Some(node.place())
        } else {
            Some(node.place() - 1)
        }
    }
}

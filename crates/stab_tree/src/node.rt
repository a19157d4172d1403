ghost use Rattle.std.specs.Prelude.{◌≡◌};

use std::marker::Model;

/// The place of a node in its file, from 0. A `NodeId` can be made of any number, also of one that
/// no node has.
#[derive(Clone, Copy, Debug, PartialEq, Eq)]
pub struct NodeId(u16);

impl Model for NodeId {
    ghost use Rattle.std.specs.Prelude.{ℕ};

    ghost Value = { ℕ };

    ghost view = { λ node. node.0 };

    ghost inverse = { λ place. record { 0 = place } };
}

impl NodeId {
    /// The node at this place of its file.
    pub fn new(place: u16) -> NodeId
        ensures { result ≡ place }
    {
        NodeId(place)
    }

    /// The place of the node in its file, from 0.
    pub fn place(self) -> u16
        ensures { result ≡ self }
    {
        self.0
    }

    /// The same place, for use as an index.
    pub fn index(self) -> usize
        ensures { result ≡ self }
    {
        usize::from(self.place())
    }
}

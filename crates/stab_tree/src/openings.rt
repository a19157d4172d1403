ghost use Rattle.std.specs.List.{list_any};
ghost use Rattle.std.specs.Prelude.{◌≡◌, ◌<◌, ◌≤◌, ◌&&◌, [], IfErr, IfOk, Some, length, nat_lt};
ghost use Rattle.std.specs.Prelude.{not, replicate};
ghost use Rattle.stab_tree.specs.NodeOpenings.{FitTree, has_child, is_inner, is_misplaced};
ghost use Rattle.stab_tree.specs.NodeOpenings.{most_hold, opening_at, openings_fault};

use crate::node::NodeId;
use crate::opening_fault::OpeningFault;
use crate::tree::Tree;
use stab_frames::{Item, Sequence};
use std::alloc::{AllocError, Global};
use std::marker::Model;

/// The most items that any opening may have.
const MOST_HOLD: u16 = 64;

/// What the nodes of a tree begin with that nobody published: the opening of each node, at most
/// `hold` items, in file order. An agent that restarts may have such items in its hands, and hands
/// them on to its children before anything else. The root begins with what it publishes, and a leaf
/// hands nothing on, so only the openings of the nodes between them have items.
#[derive(Debug)]
pub struct Openings {
    hold: u16,
    lists: Vec<Sequence<Item>>,
}

impl Drop for Openings {
    fn drop(self) {
        let Openings { hold: _, lists: _ } = self;
    }
}

impl Model for Openings {
    ghost use Rattle.stab_tree.specs.NodeOpenings.{OpeningsValue};

    ghost Value = { OpeningsValue };

    ghost view = { λ o. record { hold = o.hold; lists = o.lists.items } };
}

impl Openings {
    /// The openings of the nodes of a tree, each of at most `hold` items, in file order. It takes
    /// no memory.
    pub fn new(tree: &Tree, hold: u16, lists: Vec<Sequence<Item>>) -> Result<Openings, OpeningFault>
        ensures openings { IfOk result (λ openings.
            openings ≡ record { hold = hold; lists = lists.items }) }
        ensures fit { IfOk result (FitTree tree.now.parents) }
        ensures few_held { IfOk result (λ openings. openings.hold ≤ most_hold) }
        ensures one_per_node { IfOk result (λ openings.
            length openings.lists ≡ length tree.now.parents) }
        ensures refused { IfErr result (λ fault.
            openings_fault tree.now.parents hold lists.items ≡ Some fault) }
    {
        match openings_fault(tree, hold, lists.as_slice()) {
            None => Ok(Openings { hold, lists }),
            Some(fault) => Err(fault),
        }
    }

    /// Empty openings for all nodes of a tree.
    pub fn none(alloc: Global, tree: &Tree) -> Result<Openings, AllocError>
        ensures none { IfOk result (λ openings.
            openings ≡ record { hold = 0; lists = replicate (length tree.now.parents) [] }) }
        ensures fit { IfOk result (FitTree tree.now.parents) }
        ensures one_per_node { IfOk result (λ openings.
            length openings.lists ≡ length tree.now.parents) }
    {
        let mut lists = Vec::with_capacity(alloc, usize::from(tree.len()))?;
        'nodes: for _ in 0..tree.len() {
            lists.push_reserved(Sequence::new(alloc));
        }
        Ok(Openings { hold: 0, lists })
    }

    /// How many items an opening has at most: at most 64.
    pub fn hold(&self) -> u16
        ensures { result ≡ self.now.hold }
    {
        self.hold
    }

    /// The opening of a node.
    pub fn list(&self, node: NodeId) -> &[Item]
        requires { node < length self.now.lists }
        ensures { result.now ≡ opening_at self.now.lists node }
    {
        self.lists[node.index()].as_slice()
    }
}

/// Whether a link leads from a node.
fn has_child(tree: &Tree, node: NodeId) -> bool
    ensures { result ≡ has_child tree.now.parents node }
{
    tree.parents().iter().any(|parent| *parent == Some(node))
}

/// Whether one link leads into a node, and another from it: no other node has an opening.
pub fn is_inner(tree: &Tree, node: NodeId) -> bool
    requires { node < length tree.now.parents }
    ensures { result ≡ is_inner tree.now.parents node }
{
    tree.parent(node).is_some() && has_child(tree, node)
}

/// Whether this list at this node has items, and the node is no inner node.
fn is_misplaced_at(tree: &Tree, node: NodeId, list: &Sequence<Item>) -> bool
    requires { node < length tree.now.parents }
    ensures { result ≡ (nat_lt 0 (length list.now) && not (is_inner tree.now.parents node)) }
{
    0 < list.len() && !is_inner(tree, node)
}

/// Whether a list that has items is at no inner node.
#[tactic(auto, using(crate::proofs::Misplaced::misplaced_here, crate::proofs::Misplaced::placed_here))]
fn is_misplaced(tree: &Tree, lists: &[Sequence<Item>]) -> bool
    requires { length lists.now ≡ length tree.now.parents }
    ensures { result ≡ is_misplaced tree.now.parents 0 lists.now }
{
    'nodes: for place in 0..tree.len() {
        if is_misplaced_at(tree, NodeId::new(place), &lists[usize::from(place)]) {
            return true;
        }
    }
    false
}

/// Whether a list has more than this many items.
fn is_too_long(hold: u16, lists: &[Sequence<Item>]) -> bool
    ensures { result ≡ list_any (λ list. nat_lt hold (length list)) lists.now }
{
    lists.iter().any(|list| usize::from(hold) < list.len())
}

/// Why these lists are no openings of a tree: the first check that fails.
fn openings_fault(tree: &Tree, hold: u16, lists: &[Sequence<Item>]) -> Option<OpeningFault>
    ensures { result ≡ openings_fault tree.now.parents hold lists.now }
{
    if hold > MOST_HOLD {
        return Some(OpeningFault::HoldOutOfRange);
    }
    if lists.len() != usize::from(tree.len()) {
        return Some(OpeningFault::OpeningCount);
    }
    if is_misplaced(tree, lists) {
        return Some(OpeningFault::OpeningPlace);
    }
    if is_too_long(hold, lists) {
        return Some(OpeningFault::OpeningTooLong);
    }
    None
}

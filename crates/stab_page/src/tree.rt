//! A whole tree in arrays.

ghost use Rattle.std.specs.List.{list_all};
ghost use Rattle.std.specs.Option.{option_map_or};
ghost use Rattle.std.specs.Prelude.{◌≡◌, ℕ, ◌+◌, ◌<◌, ◌≤◌, All, IfSome, IsTrue, length, map};
ghost use Rattle.std.specs.Prelude.{option_copied, option_map, slice_get};
ghost use Rattle.stab_tree.specs.Nodes.{parent_at};
ghost use Rattle.stab_tree.specs.ByChild.{by_child};
ghost use Rattle.stab_tree.specs.NodeOpenings.{has_child, hold_at, opening_at};
ghost use Rattle.stab_page.specs.TracedTree.{HasAtMost, effect_after, list_above, list_at, next_at};
ghost use Rattle.stab_page.specs.TracedTree.{traced_after, traced_into, traced_link};
ghost use Rattle.stab_page.specs.TracedTree.{traced_tree_effect, traced_initial_tree};
ghost use Rattle.stab_page.specs.TracedTree.{traced_tree_step};
ghost use Rattle.stab_page.specs.TreeCodes.{fits, openings_of, parent_of, setup_of};

use crate::link::PageLink;
use crate::tree_code::{self, LinkCode, MAX_HELD, OpeningCode};
use arrayvec::ArrayVec;
use stab_core::{Effect, Event};
use stab_frames::Item;
use stab_tree::NodeId;
use stab_treecore::TreeEvent;
use std::marker::Model;

/// The most nodes of a tree.
pub const MAX_NODES: usize = 8;

/// The most events of a schedule, and the most items that the root publishes.
pub const MAX_STEPS: usize = 256;

/// The parent of each node.
type Parents = ArrayVec<Option<NodeId>, MAX_NODES>;

/// The link into each node.
type Links = ArrayVec<Option<PageLink>, MAX_NODES>;

/// All links of a tree in arrays, with the items that its root publishes. Contracts see the
/// published items and, of each node, its opening, its parent and the link into it with its
/// origins.
#[derive(Drop)]
pub struct PageTree<'a> {
    published: &'a [Item],
    hold: u16,
    openings: &'a [OpeningCode],
    parents: Parents,
    links: Links,
}

impl<'a> Model for PageTree<'a> {
    ghost use Rattle.stab_page.specs.TracedTree.{TracedTree};
    ghost use Rattle.stab_page.specs.TreeCodes.{openings_of};

    ghost Value = { TracedTree };

    ghost view = { λ t. record {
      published = t.published.now;
      openings = openings_of t.hold t.openings.now;
      parents = t.parents.items;
      links = t.links.items;
    } };
}

impl<'a> PageTree<'a> {
    /// The tree with each link at its start, and each node with its opening, which has at most
    /// `hold` items. The links are in the file order of their children.
    pub fn new(
        parents: &[u16],
        hold: u16,
        openings: &'a [OpeningCode],
        links: &[LinkCode],
        published: &'a [Item],
    ) -> PageTree<'a>
        requires few { length parents.now ≤ MAX_NODES }
        requires fit { IsTrue (list_all fits links.now) }
        ensures { result ≡ traced_initial_tree (map parent_of parents.now)
            (openings_of hold openings.now) (map setup_of links.now) published.now }
    {
        let parents = parents_of(parents);
        let links = links_by_child(parents.as_slice(), links);
        PageTree {
            published,
            hold,
            openings,
            parents,
            links,
        }
    }

    /// One step: an act on the link into a node. Where the event names no link, nothing happens.
    pub fn apply(&mut self, event: TreeEvent) -> Effect
        requires { All (HasAtMost 255) self.old.links }
        ensures steps { self.new ≡ traced_tree_step self.old event }
        ensures effect { result ≡ traced_tree_effect self.old event }
        ensures grows { (most : ℕ) → All (HasAtMost most) self.old.links
            → All (HasAtMost (most + 1)) self.new.links }
    {
        let place = event.child.index();
        let event = event.act.event(self.next_item(event.child));
        let links = self.links.as_mut_slice();
        if place >= links.len() {
            return Effect::Nothing;
        }
        step(&mut links[place], event)
    }

    /// How many nodes there are.
    pub fn len(&self) -> usize
        ensures len { result ≡ length self.now.parents }
        ensures few { length self.now.parents ≤ MAX_NODES }
    {
        self.parents.as_slice().len()
    }

    /// The parent of a node; the root has none, nor has what is no node.
    pub fn parent(&self, node: NodeId) -> Option<NodeId>
        ensures { result ≡ parent_at self.now.parents node }
    {
        self.parents.as_slice().get(node.index()).copied().flatten()
    }

    /// The link into a node; the root and what is no node have none.
    pub fn link(&self, node: NodeId) -> Option<&PageLink>
        ensures link { option_copied result ≡ traced_into self.now node }
        ensures there { IfSome result (λ link. node < MAX_NODES) }
    {
        self.links.as_slice().get(node.index())?.as_ref()
    }

    /// How many items the root publishes.
    pub fn published_len(&self) -> usize
        ensures { result ≡ length self.now.published }
    {
        self.published.len()
    }

    /// What a node begins with that nobody published.
    pub fn opening(&self, node: NodeId) -> &[Item]
        ensures opening { result.now ≡ opening_at self.now.openings.lists node }
        ensures few { length result.now ≤ MAX_HELD }
    {
        match self.openings.get(node.index()) {
            Some(code) => code.items(),
            None => &[],
        }
    }

    /// How many items an opening of this node has at most: none at the root and at a leaf.
    pub fn hold_at(&self, node: NodeId) -> u16
        ensures { result ≡ hold_at self.now.parents self.now.openings.hold node }
    {
        if self.parent(node).is_some() && self.has_child(node) {
            self.hold
        } else {
            0
        }
    }

    /// Whether a link leads from a node.
    fn has_child(&self, node: NodeId) -> bool
        ensures { result ≡ has_child self.now.parents node }
    {
        self.parents
            .as_slice()
            .iter()
            .any(|parent| *parent == Some(node))
    }

    /// The item at this place of what a node received: its opening, and then what the link into it
    /// delivered; at the root each published item.
    fn item_at(&self, node: NodeId, place: usize) -> Option<Item>
        ensures { result ≡ slice_get (list_at self.now node) place }
    {
        let Some(link) = self.link(node) else {
            return self.published.get(place).copied();
        };
        let opening = self.opening(node);
        if place < opening.len() {
            return Some(opening[place]);
        }
        link.delivered().get(place - opening.len()).copied()
    }

    /// The item at this place of what the parent of a node received.
    fn item_above(&self, child: NodeId, place: usize) -> Option<Item>
        ensures { result ≡ slice_get (list_above self.now child) place }
    {
        self.item_at(self.parent(child)?, place)
    }

    /// The item that the link into a node is to be offered next.
    fn next_item(&self, child: NodeId) -> Option<Item>
        ensures { result ≡ next_at self.now child }
    {
        let link = self.link(child)?;
        self.item_above(child, link.offered().len())
    }
}

/// One step of a link, where there is one, by an event, where there is one.
fn step(link: &mut Option<PageLink>, event: Option<Event>) -> Effect
    requires { HasAtMost 255 link.old }
    ensures link { link.new ≡ option_map (traced_after event) link.old }
    ensures effect { result ≡ option_map_or (effect_after event) link.old Effect.Nothing }
    ensures grows { (most : ℕ) → HasAtMost most link.old → HasAtMost (most + 1) link.new }
{
    let Some(link) = link else {
        return Effect::Nothing;
    };
    match event {
        None => Effect::Nothing,
        Some(event) => link.apply(event),
    }
}

/// The parents that these numbers are the places of.
fn parents_of(codes: &[u16]) -> Parents
    requires { length codes.now ≤ MAX_NODES }
    ensures { result.items ≡ map parent_of codes.now }
{
    let mut parents = ArrayVec::new();
    for code in codes {
        parents.push(tree_code::parent_of(*code));
    }
    parents
}

/// The link into each node at its start, where the node has a parent.
fn links_by_child(parents: &[Option<NodeId>], codes: &[LinkCode]) -> Links
    requires few { length parents.now ≤ MAX_NODES }
    requires fit { IsTrue (list_all fits codes.now) }
    ensures { result.items ≡ by_child parents.now (map traced_link (map setup_of codes.now)) }
{
    let mut links = ArrayVec::new();
    let mut left = codes;
    for parent in parents {
        match (parent, left) {
            (Some(_), [code, rest @ ..]) => {
                links.push(Some(code.link()));
                left = rest;
            }
            _ => links.push(None),
        }
    }
    links
}

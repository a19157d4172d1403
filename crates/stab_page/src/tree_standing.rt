//! Where a node stands between the bounds of its law.

ghost use Rattle.std.specs.Prelude.{◌≡◌, ◌+◌, ◌*◌, ◌++◌, ◌<◌, ◌≤◌, All, IfSome, length, map};
ghost use Rattle.stab_tree.specs.NodeOpenings.{hold_at};
ghost use Rattle.stab_tree.specs.Steps.{depth_of, steps_below};
ghost use Rattle.stab_treecore.specs.Paths.{sum_above};
ghost use Rattle.stab_page.specs.TracedTree.{HasAtMost};
ghost use Rattle.stab_page.specs.TreeStanding.{capacity_at, held_at_most, is_stray_of, last_place};
ghost use Rattle.stab_page.specs.TreeStanding.{missing_at_most, node_origins, opened_to};
ghost use Rattle.stab_page.specs.TreeStanding.{origins_above, passed_over, place_or, sent_to};
ghost use Rattle.stab_page.specs.TreeStanding.{strays_at_most, strays_of, through};

use crate::entry::OriginEntry;
use crate::link::MAX_EVENTS;
use crate::standing;
use crate::tree::{MAX_NODES, MAX_STEPS, PageTree};
use crate::tree_code::MAX_HELD;
use arrayvec::ArrayVec;
use stab_core::Origin;
use stab_tree::NodeId;

/// The most items of a node.
pub const MAX_LIST: usize = 264;

/// From this place on a stray is of an opening: `OPENED` places for each node.
const OPENED: u16 = 64;

/// Where each item of a node comes from.
pub type Origins = ArrayVec<OriginEntry, MAX_EVENTS>;

impl<'a> PageTree<'a> {
    /// Where each item of a node comes from.
    pub fn node_origins(&self, node: NodeId) -> Origins
        requires published { length self.now.published ≤ MAX_STEPS }
        requires few { All (HasAtMost MAX_STEPS) self.now.links }
        ensures origins { result.items ≡ node_origins self.now node }
        ensures few { length result.items ≤ MAX_LIST }
    {
        self.origins_above(self.len(), node)
    }

    /// Where each item of a node comes from, looking up at most this many nodes.
    fn origins_above(&self, count: usize, node: NodeId) -> Origins
        requires published { length self.now.published ≤ MAX_STEPS }
        requires few { All (HasAtMost MAX_STEPS) self.now.links }
        ensures origins { result.items ≡ origins_above self.now count node }
        ensures few { length result.items ≤ MAX_LIST }
    {
        if count == 0 {
            return ArrayVec::new();
        }
        let Some(link) = self.link(node) else {
            return sent_to(self.published_len());
        };
        let above = match self.parent(node) {
            Some(parent) => self.origins_above(count - 1, parent),
            None => ArrayVec::new(),
        };
        let mut out = opened_to(node, self.opening(node).len());
        push_through(&mut out, above.as_slice(), link.origins());
        out
    }

    /// The most strays of links at a node.
    pub fn strays_at_most(&self, node: NodeId) -> u64
        ensures { result ≡ strays_at_most self.now node }
    {
        self.strays_above(self.depth(node), node)
    }

    /// The most strays of openings at a node.
    pub fn held_at_most(&self, node: NodeId) -> u64
        ensures { result ≡ held_at_most self.now node }
    {
        self.held_above(self.depth(node), node)
    }

    /// The most missing items before the last of a node.
    pub fn missing_at_most(&self, node: NodeId) -> u64
        ensures { result ≡ missing_at_most self.now node }
    {
        self.missing_above(self.depth(node), node)
    }

    /// How many links there are on the path of a node, where the path ends.
    fn depth(&self, node: NodeId) -> usize
        ensures depth { result ≡ depth_of self.now.parents node }
        ensures few { result ≤ 8 }
    {
        self.steps_below(self.len(), node).unwrap_or(0)
    }

    /// The number of parent steps to a node without a parent, where it is below this limit.
    fn steps_below(&self, limit: usize, node: NodeId) -> Option<usize>
        ensures steps { result ≡ steps_below self.now.parents limit node }
        ensures few { IfSome result (λ steps. steps < limit) }
    {
        if limit == 0 {
            return None;
        }
        match self.parent(node) {
            None => Some(0),
            Some(parent) => Some(self.steps_below(limit - 1, parent)? + 1),
        }
    }

    /// The capacities of this many links, from the one into a node upwards, added.
    fn strays_above(&self, count: usize, node: NodeId) -> u64
        requires { count ≤ 8 }
        ensures sum { result ≡ sum_above self.now.parents (capacity_at self.now) count node }
        ensures small { result ≤ 64 * count }
    {
        if count == 0 {
            return 0;
        }
        let above = match self.parent(node) {
            Some(parent) => self.strays_above(count - 1, parent),
            None => 0,
        };
        self.capacity_at(node) + above
    }

    /// What this many nodes may begin with, from a node upwards, added.
    fn held_above(&self, count: usize, node: NodeId) -> u64
        requires { count ≤ 8 }
        ensures sum { result ≡ sum_above self.now.parents
            (hold_at self.now.parents self.now.openings.hold) count node }
        ensures small { result ≤ 65535 * count }
    {
        if count == 0 {
            return 0;
        }
        let above = match self.parent(node) {
            Some(parent) => self.held_above(count - 1, parent),
            None => 0,
        };
        u64::from(self.hold_at(node)) + above
    }

    /// What may be missing for each of this many links, from the one into a node upwards, added.
    fn missing_above(&self, count: usize, node: NodeId) -> u64
        requires { count ≤ 8 }
        ensures sum { result ≡ sum_above self.now.parents
            (λ child. 2 * capacity_at self.now child + 1) count node }
        ensures small { result ≤ 129 * count }
    {
        if count == 0 {
            return 0;
        }
        let above = match self.parent(node) {
            Some(parent) => self.missing_above(count - 1, parent),
            None => 0,
        };
        2 * self.capacity_at(node) + 1 + above
    }

    /// The capacity of the link into a node; 0 where there is none.
    fn capacity_at(&self, node: NodeId) -> u64
        ensures capacity { result ≡ capacity_at self.now node }
        ensures small { result ≤ 64 }
    {
        match self.link(node) {
            Some(link) => u64::from(link.capacity()),
            None => 0,
        }
    }
}

/// The origins of this many published items.
fn sent_to(count: usize) -> Origins
    requires { count ≤ MAX_STEPS }
    ensures origins { result.items ≡ sent_to count }
    ensures len { length result.items ≡ count }
{
    let mut origins = ArrayVec::new();
    for place in 0..count {
        origins.push(OriginEntry {
            origin: Origin::Sent(place as u64),
        });
    }
    origins
}

/// The origins of this many items of the opening of a node.
fn opened_to(node: NodeId, count: usize) -> Origins
    requires node { node < MAX_NODES }
    requires few { count ≤ MAX_HELD }
    ensures origins { result.items ≡ opened_to node count }
    ensures len { length result.items ≡ count }
{
    let mut origins = ArrayVec::new();
    for place in 0..count {
        origins.push(OriginEntry {
            origin: Origin::Stray(OPENED * (node.index() as u16 + 1) + place as u16),
        });
    }
    origins
}

/// Adds where the items of a link come from, whose parent has these origins.
fn push_through(out: &mut Origins, above: &[OriginEntry], origins: &[OriginEntry])
    requires { length out.old.items + length origins.now ≤ MAX_EVENTS }
    ensures origins { out.new.items ≡ out.old.items ++ map (through above.now) origins.now }
    ensures len { length out.new.items ≡ length out.old.items + length origins.now }
{
    for entry in origins {
        out.push(through(above, *entry));
    }
}

/// Where an item comes from that a parent with these origins handed on.
fn through(above: &[OriginEntry], entry: OriginEntry) -> OriginEntry
    ensures { result ≡ through above.now entry }
{
    match entry.origin {
        Origin::Stray(_) => entry,
        Origin::Sent(place) => above.get(place as usize).copied().unwrap_or(OriginEntry {
            origin: Origin::Stray(0),
        }),
    }
}

/// How many strays of openings or of links there are among these.
pub fn strays_of(opened: bool, origins: &[OriginEntry]) -> u64
    ensures { result ≡ strays_of opened origins.now }
{
    let mut count = 0;
    for entry in origins {
        if is_stray_of(opened, *entry) {
            count += 1;
        }
    }
    count
}

/// Whether this is a stray, of an opening or of a link.
fn is_stray_of(opened: bool, entry: OriginEntry) -> bool
    ensures { result ≡ is_stray_of opened entry }
{
    match entry.origin {
        Origin::Stray(place) if opened => OPENED <= place,
        Origin::Stray(place) => place < OPENED,
        Origin::Sent(_) => false,
    }
}

/// How many published items before the last of these are not among them.
pub fn passed_over(origins: &[OriginEntry]) -> u64
    ensures { result ≡ passed_over origins.now }
{
    standing::missing_of(last_place(origins) as usize, origins)
}

/// The place of the last published item among these, or 0.
fn last_place(origins: &[OriginEntry]) -> u64
    ensures { result ≡ last_place 0 origins.now }
{
    let mut last = 0;
    for entry in origins {
        last = place_or(last, *entry);
    }
    last
}

/// The place of a published item, or this place for a stray.
fn place_or(before: u64, entry: OriginEntry) -> u64
    ensures { result ≡ place_or before entry }
{
    match entry.origin {
        Origin::Stray(_) => before,
        Origin::Sent(place) => place,
    }
}

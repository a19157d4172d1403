ghost use Rattle.std.specs.Prelude.{◌≡◌, ◌<◌, ◌↔◌, IfSome, IsNone, IsTrue, Some, length};
ghost use Rattle.stab_judge.specs.JudgeInside.{AreWholeBefore};
ghost use Rattle.stab_judge.specs.Obeys.{IsBroken, IsFirst, IsFirstBroken};
ghost use Rattle.stab_judge.specs.Obeys.{LinkObeys, NodeObeys};
ghost use Rattle.stab_judge.specs.Obeys.{Obeys, RootObeys, place_of};
ghost use Rattle.stab_report.specs.EndedNodes.{HandsOn};
ghost use Rattle.stab_report.specs.Reports.{OnePerNode, received_at};
ghost use Rattle.stab_judge.specs.Judged.{SharperLawBelow};
ghost use Rattle.stab_tree.specs.Nodes.{parent_at, root_of};
ghost use Rattle.stab_treecore.specs.NodeLaws.{capacity_into, garbage_into};

use crate::broken::Broken;
use crate::judge::Judge;
use crate::laws;
use crate::link::obeys_sharper_law_below;
use stab_frames::Item;
use stab_report::Report;
use stab_tree::{NodeId, Tree};

/// Whether each list of a report has one entry for each node of the tree.
fn has_all_entries(tree: &Tree, report: &Report) -> bool
    ensures { IsTrue result ↔ OnePerNode tree.now.parents report.now }
{
    let nodes = usize::from(tree.len());
    report.received.len() == nodes
        && report.acked.len() == nodes
        && report.ended_upstream.len() == nodes
}

impl<'a> Judge<'a> {
    /// Whether a report obeys the laws of the network. It walks through each list a few times, and
    /// takes no memory.
    pub fn obeys(&self, report: &Report) -> bool
        ensures { IsTrue result ↔ Obeys self.now report.now }
    {
        self.first_broken(report).is_none()
    }

    /// The first part of a report that is broken, in the order that [`Broken`] says, and nothing
    /// where the report obeys the laws. The tree law and the complete law are not looked at: they
    /// hold where nothing else is broken.
    #[tactic(auto, using(crate::proofs::First::broken_first, crate::proofs::First::entries_first))]
    pub fn first_broken(&self, report: &Report) -> Option<Broken>
        ensures none { IsNone result ↔ Obeys self.now report.now }
        ensures broken { IfSome result (IsFirstBroken self.now report.now) }
        ensures first { IfSome result (IsFirst self.now report.now) }
        ensures known { IfSome result
            (λ broken. place_of self.now broken < length self.now.tree.parents) }
    {
        let _tree = self.tree.root();
        laws::nodes_that_obey_are_enough();
        if !has_all_entries(self.tree, report) {
            return Some(Broken::Entries);
        }
        'nodes: for place in 0..self.tree.len() {
            if let Some(broken) = self.broken_at(report, NodeId::new(place)) {
                return Some(broken);
            }
        }
        None
    }

    /// The first part that is broken at a node.
    fn broken_at(&self, report: &Report, node: NodeId) -> Option<Broken>
        requires entries { OnePerNode self.now.tree.parents report.now }
        requires known { node < length self.now.tree.parents }
        ensures none { IsNone result ↔ NodeObeys self.now report.now node }
        ensures broken { IfSome result (IsBroken self.now report.now) }
        ensures whole { IfSome result (AreWholeBefore self.now report.now) }
        ensures there { IfSome result (λ broken. place_of self.now broken ≡ node) }
    {
        match self.tree.parent(node) {
            None => self.broken_at_root(report, node),
            Some(parent) => self.broken_at_child(report, node, parent),
        }
    }

    /// The first part that is broken at the root.
    fn broken_at_root(&self, report: &Report, root: NodeId) -> Option<Broken>
        requires entries { OnePerNode self.now.tree.parents report.now }
        requires known { root < length self.now.tree.parents }
        requires root { root ≡ root_of self.now.tree.parents }
        ensures none { IsNone result ↔ RootObeys self.now report.now root }
        ensures broken { IfSome result (IsBroken self.now report.now) }
        ensures whole { IfSome result (AreWholeBefore self.now report.now) }
        ensures there { IfSome result (λ broken. place_of self.now broken ≡ root) }
    {
        if report.received_at(root) != self.published {
            return Some(Broken::Published);
        }
        if report.acked_at(root).is_some() {
            return Some(Broken::RootCount);
        }
        None
    }

    /// The first part that is broken at the child of this parent.
    fn broken_at_child(&self, report: &Report, child: NodeId, parent: NodeId) -> Option<Broken>
        requires entries { OnePerNode self.now.tree.parents report.now }
        requires known { child < length self.now.tree.parents }
        requires known_parent { parent < length self.now.tree.parents }
        requires parent { parent_at self.now.tree.parents child ≡ Some parent }
        ensures none { IsNone result
            ↔ (LinkObeys self.now report.now child parent
            × HandsOn report.now child parent (received_at report.now parent)) }
        ensures broken { IfSome result (IsBroken self.now report.now) }
        ensures whole { IfSome result (AreWholeBefore self.now report.now) }
        ensures there { IfSome result (λ broken. place_of self.now broken ≡ child) }
    {
        let Some(acked) = report.acked_at(child) else {
            return Some(Broken::NoCount(child));
        };
        let below = report.received_at(child);
        let Some(delivered) = below.strip_prefix(self.opening_at(child)) else {
            return Some(Broken::Opening(child));
        };
        let above = report.received_at(parent);
        if !self.obeys_link_law_into(child, above, acked, delivered) {
            return Some(Broken::LinkLaw(child));
        }
        if report.has_ended(parent) && acked != above.len() as u64 {
            return Some(Broken::HandedOn(child));
        }
        None
    }

    /// Whether the link into a child obeys the link law, of which this much was delivered, under
    /// the parent's list.
    fn obeys_link_law_into(
        &self,
        child: NodeId,
        above: &[Item],
        acked: u64,
        delivered: &[Item],
    ) -> bool
        ensures { IsTrue result ↔ SharperLawBelow
            (capacity_into self.now child) (garbage_into self.now child)
            above.now acked delivered.now }
    {
        let capacity = self.capacity_into(child);
        obeys_sharper_law_below(capacity, self.garbage_into(child), above, acked, delivered)
    }
}

//! Which part of a report since a moment is broken first.

ghost use Rattle.std.specs.Prelude.{◌≡◌, ◌<◌, ◌↔◌, ℕ, List, IfOk, IfSome, IsNone, IsTrue, Some};
ghost use Rattle.std.specs.Prelude.{length};
ghost use Rattle.stab_judge.specs.Judged.{SharperLawBelow};
ghost use Rattle.stab_judge.specs.EndedNodes.{HandsOn};
ghost use Rattle.stab_judge.specs.Obeys.{RootObeys};
ghost use Rattle.stab_judge.specs.Reports.{OnePerNode, received_at};
ghost use Rattle.rignolda_since.specs.ObeysSince.{IsBrokenSince, IsFirstSince};
ghost use Rattle.rignolda_since.specs.ObeysSince.{LinkObeysSince, NodeObeysSince, ObeysSince};
ghost use Rattle.rignolda_since.specs.ObeysSince.{above_since, place_since};
ghost use Rattle.stab_tree.specs.Nodes.{parent_at, root_of};
ghost use Rattle.stab_treecore.specs.NodeLaws.{capacity_into, garbage_into};

use crate::backlogs::backlog_at;
use crate::broken::BrokenSince;
use crate::laws;
use stab_frames::{Item, Sequence};
use stab_judge::{Judge, Report, obeys_sharper_law_below};
use stab_tree::{NodeId, Tree};
use std::alloc::{AllocError, Global};

/// The first part of a report that is broken, and nothing where the report obeys the laws since the
/// moment. The sharper tree law is not looked at: it holds where nothing else is broken.
pub(crate) fn first_broken(
    alloc: Global,
    judge: &Judge<'_>,
    tree: &Tree,
    published: &[Item],
    lists: &[Sequence<Item>],
    report: &Report,
) -> Result<Option<BrokenSince>, AllocError>
    requires same_tree { judge.now.tree ≡ tree.now }
    requires same_items { judge.now.published ≡ published.now }
    requires entries { OnePerNode tree.now.parents report.now }
    requires per_node { length lists.now ≡ length tree.now.parents }
    ensures none { IfOk result (λ part.
        IsNone part ↔ ObeysSince judge.now lists.now report.now) }
    ensures broken { IfOk result (λ part.
        IfSome part (IsBrokenSince judge.now lists.now report.now)) }
    ensures first { IfOk result (λ part.
        IfSome part (IsFirstSince judge.now lists.now report.now)) }
    ensures known { IfOk result (λ part. IfSome part
        (λ its. place_since judge.now its < length tree.now.parents)) }
{
    let _root = tree.root();
    laws::reports_that_obey_since();
    'nodes: for place in 0..tree.len() {
        let node = NodeId::new(place);
        if let Some(part) = broken_at(alloc, judge, tree, published, lists, report, node)? {
            return Ok(Some(part));
        }
    }
    Ok(None)
}

/// The first part that is broken at a node.
fn broken_at(
    alloc: Global,
    judge: &Judge<'_>,
    tree: &Tree,
    published: &[Item],
    lists: &[Sequence<Item>],
    report: &Report,
    node: NodeId,
) -> Result<Option<BrokenSince>, AllocError>
    requires same_tree { judge.now.tree ≡ tree.now }
    requires same_items { judge.now.published ≡ published.now }
    requires entries { OnePerNode tree.now.parents report.now }
    requires per_node { length lists.now ≡ length tree.now.parents }
    requires known { node < length tree.now.parents }
    ensures none { IfOk result (λ part.
        IsNone part ↔ NodeObeysSince judge.now lists.now report.now node) }
    ensures broken { IfOk result (λ part.
        IfSome part (IsBrokenSince judge.now lists.now report.now)) }
    ensures there { IfOk result (λ part.
        IfSome part (λ its. place_since judge.now its ≡ node)) }
{
    match tree.parent(node) {
        None => Ok(broken_at_root(judge, tree, published, report, node)),
        Some(parent) => broken_at_child(alloc, judge, tree, lists, report, node, parent),
    }
}

/// The first part that is broken at the root.
fn broken_at_root(
    judge: &Judge<'_>,
    tree: &Tree,
    published: &[Item],
    report: &Report,
    root: NodeId,
) -> Option<BrokenSince>
    requires same_tree { judge.now.tree ≡ tree.now }
    requires same_items { judge.now.published ≡ published.now }
    requires entries { OnePerNode tree.now.parents report.now }
    requires known { root < length tree.now.parents }
    requires root { root ≡ root_of tree.now.parents }
    ensures none { IsNone result ↔ RootObeys judge.now report.now root }
    ensures broken { (lists : List (List ℕ))
        → IfSome result (IsBrokenSince judge.now lists report.now) }
    ensures there { IfSome result (λ part. place_since judge.now part ≡ root) }
{
    if report.received_at(root) != published {
        return Some(BrokenSince::Published);
    }
    if report.acked_at(root).is_some() {
        return Some(BrokenSince::RootCount);
    }
    None
}

/// The first part that is broken at the child of this parent.
fn broken_at_child(
    alloc: Global,
    judge: &Judge<'_>,
    tree: &Tree,
    lists: &[Sequence<Item>],
    report: &Report,
    child: NodeId,
    parent: NodeId,
) -> Result<Option<BrokenSince>, AllocError>
    requires same_tree { judge.now.tree ≡ tree.now }
    requires entries { OnePerNode tree.now.parents report.now }
    requires per_node { length lists.now ≡ length tree.now.parents }
    requires known { child < length tree.now.parents }
    requires known_parent { parent < length tree.now.parents }
    requires parent { parent_at tree.now.parents child ≡ Some parent }
    ensures none { IfOk result (λ part. IsNone part
        ↔ (LinkObeysSince judge.now lists.now report.now child parent
        × HandsOn report.now child parent (above_since lists.now report.now child parent))) }
    ensures broken { IfOk result (λ part.
        IfSome part (IsBrokenSince judge.now lists.now report.now)) }
    ensures there { IfOk result (λ part.
        IfSome part (λ its. place_since judge.now its ≡ child)) }
{
    let Some(acked) = report.acked_at(child) else {
        return Ok(Some(BrokenSince::NoCount(child)));
    };
    let above = above_since(alloc, lists, report, child, parent)?;
    if !obeys_link_law(judge, report, child, &above, acked) {
        return Ok(Some(BrokenSince::LinkLaw(child)));
    }
    if report.has_ended(parent) && acked != above.len() as u64 {
        return Ok(Some(BrokenSince::HandedOn(child)));
    }
    Ok(None)
}

/// All that a parent had for its child at the moment, and what it received since.
fn above_since(
    alloc: Global,
    lists: &[Sequence<Item>],
    report: &Report,
    child: NodeId,
    parent: NodeId,
) -> Result<Vec<Item>, AllocError>
    requires known { child < length lists.now }
    requires known_parent { parent < length report.now.received }
    ensures { IfOk result (λ above.
        above.items ≡ above_since lists.now report.now child parent) }
{
    let mut above = Vec::new(alloc);
    above.extend_from_slice(backlog_at(lists, child))?;
    above.extend_from_slice(report.received_at(parent))?;
    Ok(above)
}

/// Whether what a child received obeys the sharper link law of the link into it, under this list.
fn obeys_link_law(
    judge: &Judge<'_>,
    report: &Report,
    child: NodeId,
    above: &[Item],
    acked: u64,
) -> bool
    requires known { child < length report.now.received }
    ensures { IsTrue result ↔ SharperLawBelow
        (capacity_into judge.now child) (garbage_into judge.now child)
        above.now acked (received_at report.now child) }
{
    let delivered = report.received_at(child);
    obeys_link_law_into(judge, child, above, acked, delivered)
}

/// Whether the link into a child, of which this was delivered, obeys the sharper link law under this
/// list.
fn obeys_link_law_into(
    judge: &Judge<'_>,
    child: NodeId,
    above: &[Item],
    acked: u64,
    delivered: &[Item],
) -> bool
    ensures { IsTrue result ↔ SharperLawBelow
        (capacity_into judge.now child) (garbage_into judge.now child)
        above.now acked delivered.now }
{
    let capacity = judge.capacity_into(child);
    obeys_sharper_law_below(capacity, judge.garbage_into(child), above, acked, delivered)
}

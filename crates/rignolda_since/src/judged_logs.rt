//! Which part of some logs is broken first.

ghost use Rattle.std.specs.Prelude.{◌≡◌, ◌<◌, ◌≤◌, ◌+◌, ◌*◌, ◌↔◌, IfOk, IfSome, IsNone, IsTrue};
ghost use Rattle.std.specs.Prelude.{length};
ghost use Rattle.stab_job.specs.JobValues.{network};
ghost use Rattle.rignolda_since.specs.ObeysLogs.{Follows, FollowsParent, IsBrokenLog, IsFirstLog};
ghost use Rattle.rignolda_since.specs.ObeysLogs.{IsOrdered, LogObeys, ObeysAlone, ObeysLogs};
ghost use Rattle.rignolda_since.specs.ObeysLogs.{counted, kept_for, place_of, strays_at};
ghost use Rattle.rignolda_since.specs.ObeysLogs.{strays_into};
ghost use Rattle.stab_treecore.specs.SharperLaw.{fewest_missing, missing_without_strays};

use crate::broken_log::BrokenLog;
use crate::logs::Logs;
use rignolda_verdict::sharper_at;
use stab_frames::Item;
use stab_job::Job;
use stab_judge::{Judge, obeys_half_tree_law, obeys_sharper_tree_law};
use stab_tree::{NodeId, Tree};
use std::alloc::{AllocError, Global};

/// The first part of some logs that is broken, and nothing where they obey: nodes in file order,
/// and at each node strays and order first, and its parent last.
pub(crate) fn first_broken(
    alloc: Global,
    judge: &Judge<'_>,
    job: &Job,
    logs: &Logs,
) -> Result<Option<BrokenLog>, AllocError>
    requires its_judge { judge.now ≡ network job.now }
    requires per_node { length logs.now.received ≡ length job.now.tree.parents }
    ensures none { IfOk result (λ part. IsNone part ↔ ObeysLogs judge.now logs.now) }
    ensures broken { IfOk result (λ part. IfSome part (IsBrokenLog judge.now logs.now)) }
    ensures first { IfOk result (λ part. IfSome part (IsFirstLog judge.now logs.now)) }
    ensures known { IfOk result (λ part. IfSome part
        (λ its. place_of its < length job.now.tree.parents)) }
{
    let tree = job.tree();
    'nodes: for place in 0..tree.len() {
        let node = NodeId::new(place);
        if let Some(part) = broken_at(alloc, judge, job, logs, node)? {
            return Ok(Some(part));
        }
    }
    Ok(None)
}

/// The first part that is broken at a node. Whether the list is ordered is looked at only where it
/// does not obey, to tell which part that is.
#[tactic(auto, using(crate::proofs::AnyGarbage::what_obeys_is_ordered))]
fn broken_at(
    alloc: Global,
    judge: &Judge<'_>,
    job: &Job,
    logs: &Logs,
    node: NodeId,
) -> Result<Option<BrokenLog>, AllocError>
    requires its_judge { judge.now ≡ network job.now }
    requires per_node { length logs.now.received ≡ length job.now.tree.parents }
    requires known { node < length job.now.tree.parents }
    ensures none { IfOk result (λ part. IsNone part ↔ LogObeys judge.now logs.now node) }
    ensures broken { IfOk result (λ part. IfSome part (IsBrokenLog judge.now logs.now)) }
    ensures there { IfOk result (λ part. IfSome part (λ its. place_of its ≡ node)) }
{
    if !obeys_alone(alloc, judge, job, logs, node)? {
        if !is_ordered(judge, job, logs, node) {
            return Ok(Some(BrokenLog::Strays(node)));
        }
        return Ok(Some(BrokenLog::Missing(node)));
    }
    if !follows_parent(judge, job, logs, node) {
        return Ok(Some(BrokenLog::Parent(node)));
    }
    Ok(None)
}

/// Whether what a node received are at most C + E strays and then published items in order. Any
/// items may be strays, so they are looked for in the list itself.
fn is_ordered(judge: &Judge<'_>, job: &Job, logs: &Logs, node: NodeId) -> bool
    requires its_judge { judge.now ≡ network job.now }
    requires listed { node < length logs.now.received }
    requires known { node < length job.now.tree.parents }
    ensures { IsTrue result ↔ IsOrdered judge.now logs.now node }
{
    let counted = counted(judge, job.items(), logs, node);
    let strays = strays_at(judge, job.tree(), job.openings().hold(), node);
    let received = logs.received_at(node);
    obeys_half_tree_law(strays as usize, received, counted, received)
}

/// Whether the list of a node obeys, whatever its parent received.
fn obeys_alone(
    alloc: Global,
    judge: &Judge<'_>,
    job: &Job,
    logs: &Logs,
    node: NodeId,
) -> Result<bool, AllocError>
    requires its_judge { judge.now ≡ network job.now }
    requires listed { node < length logs.now.received }
    requires known { node < length job.now.tree.parents }
    ensures { IfOk result (λ yes. IsTrue yes ↔ ObeysAlone judge.now logs.now node) }
{
    let counted = counted(judge, job.items(), logs, node);
    let strays = strays_at(judge, job.tree(), job.openings().hold(), node);
    let (without_strays, fewest) = missing_at(judge, job.tree(), node);
    let received = logs.received_at(node);
    let obeys = obeys_sharper_tree_law(
        alloc,
        strays as usize,
        without_strays as usize,
        fewest as usize,
        received,
        counted,
        received,
    )?;
    Ok(obeys)
}

/// Whether what a node received are few strays and then what its parent received, in that order,
/// where its parent is an inner node.
fn follows_parent(judge: &Judge<'_>, job: &Job, logs: &Logs, node: NodeId) -> bool
    requires its_judge { judge.now ≡ network job.now }
    requires per_node { length logs.now.received ≡ length job.now.tree.parents }
    requires known { node < length job.now.tree.parents }
    ensures { IsTrue result ↔ FollowsParent judge.now logs.now node }
{
    let tree = job.tree();
    match tree.parent(node) {
        None => true,
        Some(parent) => match tree.parent(parent) {
            None => true,
            Some(_) => follows(judge, job, logs, node, parent),
        },
    }
}

/// The same of a node and its parent.
fn follows(judge: &Judge<'_>, job: &Job, logs: &Logs, child: NodeId, parent: NodeId) -> bool
    requires its_judge { judge.now ≡ network job.now }
    requires listed { child < length logs.now.received }
    requires parent_listed { parent < length logs.now.received }
    requires known { child < length job.now.tree.parents }
    ensures { IsTrue result ↔ Follows judge.now logs.now child parent }
{
    let most = strays_into(judge, job.tree(), job.openings().hold(), child);
    let above = logs.received_at(parent);
    let received = logs.received_at(child);
    obeys_half_tree_law(most as usize, received, above, received)
}

/// The items that are published in the count of a node.
pub(crate) fn counted<'a>(
    judge: &Judge<'_>,
    published: &'a [Item],
    logs: &Logs,
    node: NodeId,
) -> &'a [Item]
    requires same_items { judge.now.published ≡ published.now }
    ensures { result.now ≡ counted judge.now logs.now node }
{
    let from = logs.from_at(node) as usize;
    let (_, counted) = published.split_at(from.min(published.len()));
    counted
}

/// How many items the parent of a node may have had for it that count as strays.
fn kept_for(tree: &Tree, hold: u16, node: NodeId) -> u16
    requires known { node < length tree.now.parents }
    ensures { result ≡ kept_for tree.now.parents hold node }
{
    match tree.parent(node) {
        None => 0,
        Some(parent) => match tree.parent(parent) {
            None => 0,
            Some(_) => hold,
        },
    }
}

/// The most strays of a child in its parent's eyes: what was in the link and what the parent had.
pub(crate) fn strays_into(judge: &Judge<'_>, tree: &Tree, hold: u16, child: NodeId) -> u64
    requires same_tree { judge.now.tree ≡ tree.now }
    requires same_hold { judge.now.openings.hold ≡ hold }
    requires known { child < length tree.now.parents }
    ensures is { result ≡ strays_into judge.now child }
    ensures few { result ≤ 131070 }
{
    u64::from(judge.capacity_into(child)) + u64::from(kept_for(tree, hold, child))
}

/// How many of the first published items may be missing at a node by the sharper law: without
/// strays, and whatever it received.
pub(crate) fn missing_at(judge: &Judge<'_>, tree: &Tree, node: NodeId) -> (u64, u64)
    requires same_tree { judge.now.tree ≡ tree.now }
    requires known { node < length tree.now.parents }
    ensures without_strays { result.0 ≡ missing_without_strays judge.now node }
    ensures fewest { result.1 ≡ fewest_missing judge.now node }
{
    sharper_at(judge, node)
}

/// C + E of a node.
pub(crate) fn strays_at(judge: &Judge<'_>, tree: &Tree, hold: u16, node: NodeId) -> u64
    requires same_tree { judge.now.tree ≡ tree.now }
    requires same_hold { judge.now.openings.hold ≡ hold }
    requires known { node < length tree.now.parents }
    ensures { result ≡ strays_at judge.now node }
{
    let depth = tree.depth(node);
    let mut strays: u64 = 0;
    let mut at = node;
    'links: for _ in 0..depth {
        strays += strays_into(judge, tree, hold, at);
        match tree.parent(at) {
            None => return strays,
            Some(parent) => at = parent,
        }
    }
    strays
}

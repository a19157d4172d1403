//! Where the count of each node begins.

ghost use Rattle.std.specs.Prelude.{◌≡◌, ◌<◌, ℕ, length, slice_get, Some, IfOk, OnOk};
ghost use Rattle.stab_treecore.specs.Moment.{missing_since, strays_since};
ghost use Rattle.stab_treecore.specs.Since.{moment};
ghost use Rattle.rignolda_scenario.specs.Marks.{IsMarkAfter, IsMarkOf, IsOfJob};

use crate::count::{old_backlogs, published_from};
use crate::hits::{hits, is_fault};
use crate::step::Step;
use stab_frames::Item;
use stab_job::Job;
use stab_judge::Judge;
use stab_tree::NodeId;
use stab_treecore::TreeState;
use std::alloc::{AllocError, Global};

/// A state of the tree of a job, the judge of that tree, and the number of the step that left the
/// state: 0 at the start.
#[derive(Clone, Copy)]
struct At<'s> {
    judge: &'s Judge<'s>,
    job: &'s Job,
    state: &'s TreeState,
    number: usize,
}

/// Where the count of a node begins: at the start, or at the last fault on its path.
#[derive(Drop)]
pub(crate) struct Mark {
    /// The number of the step that left the state.
    pub(crate) step: usize,
    /// How many items the node had received.
    pub(crate) received: usize,
    /// The most strays since.
    pub(crate) strays: u128,
    /// How many of the first published items may be missing.
    pub(crate) missing: u64,
    /// What is published for the node since: these items, and then those of the root from a place
    /// on.
    pub(crate) held: Vec<Item>,
    pub(crate) from: usize,
}

/// The most strays at a node since this state, and how many first items may be missing.
fn bounds_since(at: At<'_>, node: NodeId) -> (u128, u64)
    requires own { IsOfJob at.job.now at.judge.now at.state.now }
    requires known { node < length at.job.now.tree.parents }
    ensures strays { result.0 ≡ strays_since (moment at.entry.state.now) node }
    ensures missing { result.1 ≡ missing_since (moment at.entry.state.now) node }
{
    let bounds = at.judge.bounds_at(node);
    let backlogs = old_backlogs(at.job.tree(), at.state, node);
    (u128::from(bounds.link_strays) + backlogs, bounds.missing)
}

/// The mark of a node at this state.
fn mark_of(alloc: Global, at: At<'_>, node: NodeId) -> Result<Mark, AllocError>
    requires own { IsOfJob at.job.now at.judge.now at.state.now }
    requires known { node < length at.job.now.tree.parents }
    ensures step { IfOk result (λ mark. mark.step ≡ at.entry.number) }
    ensures mark { IfOk result (IsMarkOf at.entry.state.now node) }
{
    let (strays, missing) = bounds_since(at, node);
    let (held, from) = published_from(alloc, at.job.tree(), at.state, node)?;
    Ok(Mark {
        step: at.number,
        received: at.state.received(node).len(),
        strays,
        missing,
        held,
        from,
    })
}

/// The marks of all nodes of a job at the start of its tree.
pub(crate) fn first_marks<'s>(
    alloc: Global,
    judge: &'s Judge<'s>,
    job: &'s Job,
    state: &'s TreeState,
) -> Result<Vec<Mark>, AllocError>
    requires own { IsOfJob job.now judge.now state.now }
    ensures each { IfOk result (λ marks.
        length marks.items ≡ length job.now.tree.parents) }
    ensures marks { IfOk result (λ marks. (node : ℕ) (mark : Mark)
        → slice_get marks.items node ≡ Some mark
        → (mark.step ≡ 0) × IsMarkOf state.now node mark) }
{
    let mut marks = Vec::new(alloc);
    'nodes: for place in 0..job.tree().len() {
        let at = At {
            judge,
            job,
            state,
            number: 0,
        };
        let mark = mark_of(alloc, at, NodeId::new(place))?;
        marks.push(mark)?;
    }
    Ok(marks)
}

/// Marks a node at this state, where the step that left it hits the node.
fn mark_again(
    alloc: Global,
    at: At<'_>,
    step: &Step,
    node: NodeId,
    mark: &mut Mark,
) -> Result<(), AllocError>
    requires own { IsOfJob at.job.now at.judge.now at.state.now }
    requires known { node < length at.job.now.tree.parents }
    ensures { OnOk result (IsMarkAfter at.entry.job.now.tree.parents at.entry.state.now
        at.entry.number step.now node mark.old mark.new) }
{
    if hits(at.job.tree(), node, step) {
        *mark = mark_of(alloc, at, node)?;
    }
    Ok(())
}

/// Marks the nodes of a job that are hit by the step of this number, which left this state.
pub(crate) fn mark_hit<'s>(
    alloc: Global,
    judge: &'s Judge<'s>,
    job: &'s Job,
    state: &'s TreeState,
    number: usize,
    step: &Step,
    marks: &mut Vec<Mark>,
) -> Result<(), AllocError>
    requires own { IsOfJob job.now judge.now state.now }
    requires each { length marks.old.items ≡ length job.now.tree.parents }
    ensures each { OnOk result (length marks.new.items ≡ length marks.old.items) }
    ensures marks { OnOk result ((node : ℕ) (mark : Mark)
        → slice_get marks.new.items node ≡ Some mark
        → (old : Mark) × (slice_get marks.old.items node ≡ Some old)
        × IsMarkAfter job.now.tree.parents state.now number step.now node old mark) }
{
    if !is_fault(step) {
        return Ok(());
    }
    'nodes: for place in 0..job.tree().len() {
        let at = At {
            judge,
            job,
            state,
            number,
        };
        let mark = &mut marks[usize::from(place)];
        mark_again(alloc, at, step, NodeId::new(place), mark)?;
    }
    Ok(())
}

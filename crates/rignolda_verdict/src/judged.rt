//! A report, with the judge of its job.

ghost use Rattle.std.specs.Prelude.{◌≡◌, ◌<◌, IfOk, length, unwrap_or};
ghost use Rattle.stab_job.specs.JobValues.{network};
ghost use Rattle.stab_judge.specs.Reports.{OnePerNode, acked_at, received_at};
ghost use Rattle.stab_tree.specs.NodeOpenings.{opening_at};
ghost use Rattle.rignolda_verdict.specs.BoundsTexts.{name_at};
ghost use Rattle.rignolda_verdict.specs.Verdicts.{list_above, name_above};

use stab_frames::Item;
use stab_job::Job;
use stab_judge::{Judge, Report};
use stab_tree::{NodeId, Tree};
use std::alloc::{AllocError, Global};
use std::marker::Model;

/// The judge of the network of a job.
pub fn judge_of<'a>(alloc: Global, job: &'a Job) -> Result<Judge<'a>, AllocError>
    ensures { IfOk result (λ judge. judge ≡ network job.now) }
{
    Judge::new(
        alloc,
        job.tree(),
        job.openings(),
        job.params(),
        job.starts(),
        job.items(),
    )
}

/// A report with one entry for each node of a job, and what judges it: the tree and the items of
/// the job are at hand, which a [`Judge`] alone does not show. Only making one takes memory.
#[derive(Drop)]
pub struct Judged<'a> {
    pub(crate) judge: Judge<'a>,
    pub(crate) tree: &'a Tree,
    pub(crate) published: &'a [Item],
    pub(crate) report: &'a Report,
}

impl<'a> Model for Judged<'a> {
    ghost use Rattle.std.specs.Prelude.{◌≡◌};
    ghost use Rattle.stab_judge.specs.Reports.{OnePerNode};
    ghost use Rattle.rignolda_verdict.specs.Verdicts.{JudgedReport};

    ghost Value = { JudgedReport };

    ghost view = { λ j. record { net = j.judge; report = j.report.now } };

    ghost invariant = { λ j. (j.judge.tree ≡ j.tree.now) × (j.judge.published ≡ j.published.now)
        × OnePerNode j.tree.now.parents j.report.now };
}

impl<'a> Judged<'a> {
    /// A report, with the judge of the network of a job.
    pub fn new(alloc: Global, job: &'a Job, report: &'a Report) -> Result<Judged<'a>, AllocError>
        requires { OnePerNode job.now.tree.parents report.now }
        ensures { IfOk result (λ judged.
            judged ≡ record { net = network job.now; report = report.now }) }
    {
        Ok(Judged {
            judge: judge_of(alloc, job)?,
            tree: job.tree(),
            published: job.items(),
            report,
        })
    }

    /// The judge.
    pub fn judge(&self) -> &Judge<'a>
        ensures { result.now ≡ self.now.net }
    {
        &self.judge
    }

    /// The tree.
    pub fn tree(&self) -> &Tree
        ensures { result.now ≡ self.now.net.tree }
    {
        self.tree
    }

    /// The published items.
    pub fn published(&self) -> &[Item]
        ensures { result.now ≡ self.now.net.published }
    {
        self.published
    }

    /// The report.
    pub fn report(&self) -> &Report
        ensures value { result.now ≡ self.now.report }
        ensures entries { OnePerNode self.now.net.tree.parents self.now.report }
    {
        self.report
    }

    /// The name of a node.
    pub fn name(&self, node: NodeId) -> &str
        requires { node < length self.now.net.tree.parents }
        ensures { result.now ≡ name_at self.now.net node }
    {
        self.tree.name(node)
    }

    /// The name of a node's parent; a root has none.
    pub fn name_above(&self, node: NodeId) -> &str
        requires { node < length self.now.net.tree.parents }
        ensures { result.now ≡ name_above self.now.net node }
    {
        match self.tree.parent(node) {
            None => "",
            Some(parent) => self.name(parent),
        }
    }

    /// The list of a node.
    pub fn list(&self, node: NodeId) -> &[Item]
        requires { node < length self.now.net.tree.parents }
        ensures { result.now ≡ received_at self.now.report node }
    {
        self.report.received_at(node)
    }

    /// The list of a node's parent; a root has none.
    pub fn list_above(&self, node: NodeId) -> &[Item]
        requires { node < length self.now.net.tree.parents }
        ensures { result.now ≡ list_above self.now.net self.now.report node }
    {
        match self.tree.parent(node) {
            None => &[],
            Some(parent) => self.list(parent),
        }
    }

    /// The opening of a node.
    pub(crate) fn opening(&self, node: NodeId) -> &[Item]
        requires { node < length self.now.net.tree.parents }
        ensures { result.now ≡ opening_at self.now.net.openings.lists node }
    {
        self.judge.opening_at(node)
    }

    /// How many items are acknowledged on the link into a node, and 0 where there is no count.
    pub fn acked(&self, node: NodeId) -> u64
        requires { node < length self.now.net.tree.parents }
        ensures { result ≡ unwrap_or (acked_at self.now.report node) 0 }
    {
        self.report.acked_at(node).unwrap_or(0)
    }
}

//! The verdict of a report since a moment.

ghost use Rattle.std.specs.Prelude.{◌≡◌, ◌<◌, ◌↔◌, length, string_bytes, IfOk, IfSome, IsNone};
ghost use Rattle.std.specs.Prelude.{IsTrue};
ghost use Rattle.stab_job.specs.JobValues.{network};
ghost use Rattle.stab_judge.specs.Reports.{OnePerNode};
ghost use Rattle.rignolda_since.specs.ObeysSince.{IsBrokenSince, IsFirstSince, ObeysSince};
ghost use Rattle.rignolda_since.specs.ObeysSince.{place_since};
ghost use Rattle.rignolda_since.specs.VerdictTexts.{SaysSince};

use crate::broken::BrokenSince;
use crate::judged::first_broken;
use crate::text::push_broken;
use rignolda_verdict::Judged;
use stab_frames::{Item, Sequence};
use stab_job::Job;
use stab_judge::Report;
use std::alloc::{AllocError, Global};

/// What is said of a report that counts from a moment, and whether it obeys: the starts of the job
/// are what was queued in its links at the moment, and these lists what the parent of each node had
/// for it. Where it does not obey, the first part is named that is broken.
pub fn verdict_since(
    alloc: Global,
    job: &Job,
    lists: &[Sequence<Item>],
    report: &Report,
) -> Result<(String, bool), AllocError>
    requires entries { OnePerNode job.now.tree.parents report.now }
    requires per_node { length lists.now ≡ length job.now.tree.parents }
    ensures exactly { IfOk result (λ said.
        IsTrue said.1 ↔ ObeysSince (network job.now) lists.now report.now) }
    ensures says { IfOk result (λ said. SaysSince (network job.now) lists.now report.now
        said.1 (string_bytes said.0)) }
{
    let judged = Judged::new(alloc, job, report)?;
    verdict_of(alloc, &judged, lists)
}

/// What the judge says of the report.
fn verdict_of(
    alloc: Global,
    judged: &Judged<'_>,
    lists: &[Sequence<Item>],
) -> Result<(String, bool), AllocError>
    requires { length lists.now ≡ length judged.now.net.tree.parents }
    ensures exactly { IfOk result (λ said.
        IsTrue said.1 ↔ ObeysSince judged.now.net lists.now judged.now.report) }
    ensures says { IfOk result (λ said. SaysSince judged.now.net lists.now judged.now.report
        said.1 (string_bytes said.0)) }
{
    match first_part(alloc, judged, lists)? {
        None => Ok((String::from_str(alloc, "obeys\n")?, true)),
        Some(part) => {
            let mut text = String::new(alloc);
            push_broken(&mut text, judged, lists, part)?;
            Ok((text, false))
        }
    }
}

/// The first part of the report that is broken, and nothing where the report obeys.
fn first_part(
    alloc: Global,
    judged: &Judged<'_>,
    lists: &[Sequence<Item>],
) -> Result<Option<BrokenSince>, AllocError>
    requires { length lists.now ≡ length judged.now.net.tree.parents }
    ensures none { IfOk result (λ part.
        IsNone part ↔ ObeysSince judged.now.net lists.now judged.now.report) }
    ensures broken { IfOk result (λ part.
        IfSome part (IsBrokenSince judged.now.net lists.now judged.now.report)) }
    ensures first { IfOk result (λ part.
        IfSome part (IsFirstSince judged.now.net lists.now judged.now.report)) }
    ensures known { IfOk result (λ part. IfSome part
        (λ its. place_since judged.now.net its < length judged.now.net.tree.parents)) }
{
    let judge = judged.judge();
    let tree = judged.tree();
    let published = judged.published();
    let report = judged.report();
    let found = first_broken(alloc, judge, tree, published, lists, report)?;
    Ok(found)
}

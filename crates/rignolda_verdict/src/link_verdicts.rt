//! The verdict of a link.

ghost use Rattle.std.specs.Prelude.{◌≡◌, ◌↔◌, string_bytes, IfOk, IsTrue};
ghost use Rattle.stab_core.specs.Replay.{start_items};
ghost use Rattle.rignolda_verdict.specs.LinkVerdicts.{AreOffered, ObeysLaw, ObeysLink};
ghost use Rattle.rignolda_verdict.specs.LinkVerdicts.{SaysLinkVerdict, offers_of};

use crate::link_broken::{law_text, offered_text};
use crate::link_lists::{offers_of, start_items};
use crate::link_report::LinkReport;
use stab_frames::Item;
use stab_judge::{is_picked, obeys_sharper_link_law};
use stab_script::LinkJob;
use std::alloc::{AllocError, Global};

/// What is said of a link, and whether a link of this job may be so. Where it may not, the first
/// part is named that is broken.
pub fn link_verdict(
    alloc: Global,
    job: &LinkJob,
    report: &LinkReport,
) -> Result<(String, bool), AllocError>
    ensures exactly { IfOk result (λ said. IsTrue said.1 ↔ ObeysLink job.now report.now) }
    ensures says { IfOk result (λ said.
        SaysLinkVerdict job.now report.now said.1 (string_bytes said.0)) }
{
    let offers = offers_of(alloc, job.events.as_slice())?;
    let frames = start_items(alloc, &job.start)?;
    verdict_over(alloc, job, offers.as_slice(), frames.as_slice(), report)
}

/// The same with the lists of the job at hand: the items that it offers, and those in the frames of
/// its start.
fn verdict_over(
    alloc: Global,
    job: &LinkJob,
    offers: &[Item],
    frames: &[Item],
    report: &LinkReport,
) -> Result<(String, bool), AllocError>
    requires its_offers { offers.now ≡ offers_of job.now.events }
    requires its_frames { frames.now ≡ start_items job.now.start }
    ensures exactly { IfOk result (λ said. IsTrue said.1 ↔ ObeysLink job.now report.now) }
    ensures says { IfOk result (λ said.
        SaysLinkVerdict job.now report.now said.1 (string_bytes said.0)) }
{
    if !are_offered(job, offers, report) {
        let text = offered_text(alloc, offers, report.offered.as_slice())?;
        return Ok((text, false));
    }
    if !obeys_law(job, frames, report) {
        let text = law_text(alloc, job.params.capacity(), frames, report)?;
        return Ok((text, false));
    }
    Ok((String::from_str(alloc, "obeys\n")?, true))
}

/// Whether the offered items are picked from those that the job offers.
fn are_offered(job: &LinkJob, offers: &[Item], report: &LinkReport) -> bool
    requires { offers.now ≡ offers_of job.now.events }
    ensures { IsTrue result ↔ AreOffered job.now report.now }
{
    is_picked(report.offered.as_slice(), offers)
}

/// Whether the sharper link law holds, where these items are in the frames of the start of the job.
fn obeys_law(job: &LinkJob, frames: &[Item], report: &LinkReport) -> bool
    requires { frames.now ≡ start_items job.now.start }
    ensures { IsTrue result ↔ ObeysLaw job.now report.now }
{
    obeys_sharper_link_law(
        job.params.capacity(),
        frames,
        report.offered.as_slice(),
        report.acked,
        report.delivered.as_slice(),
    )
}

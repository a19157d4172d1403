//! The verdict of a report.

ghost use Rattle.std.specs.Prelude.{◌↔◌, string_bytes, true, IfOk, IsTrue};
ghost use Rattle.stab_job.specs.JobValues.{network};
ghost use Rattle.stab_judge.specs.Obeys.{Obeys};
ghost use Rattle.stab_judge.specs.Reports.{OnePerNode};
ghost use Rattle.rignolda_verdict.specs.Verdicts.{SaysVerdict};

use crate::judged::Judged;
use stab_job::Job;
use stab_judge::Report;
use std::alloc::{AllocError, Global};

/// What is said of a report, and whether it obeys the laws of the network of a job. Where it does
/// not, the first part is named that is broken.
pub fn verdict(alloc: Global, job: &Job, report: &Report) -> Result<(String, bool), AllocError>
    requires { OnePerNode job.now.tree.parents report.now }
    ensures exactly { IfOk result (λ said. IsTrue said.1 ↔ Obeys (network job.now) report.now) }
    ensures says { IfOk result (λ said.
        SaysVerdict (network job.now) report.now said.1 (string_bytes said.0)) }
{
    let judged = Judged::new(alloc, job, report)?;
    judged.verdict(alloc)
}

impl<'a> Judged<'a> {
    /// What the judge says of the report.
    fn verdict(&self, alloc: Global) -> Result<(String, bool), AllocError>
        ensures exactly { IfOk result (λ said.
            IsTrue said.1 ↔ Obeys self.now.net self.now.report) }
        ensures says { IfOk result (λ said.
            SaysVerdict self.now.net self.now.report said.1 (string_bytes said.0)) }
    {
        match self.judge.first_broken(self.report) {
            None => Ok((String::from_str(alloc, "obeys\n")?, true)),
            Some(broken) => {
                let mut text = String::new(alloc);
                self.push_broken(&mut text, broken)?;
                Ok((text, false))
            }
        }
    }
}

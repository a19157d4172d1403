//! Laws over the definitions alone: each is a function with an empty body, and its contract is the
//! law.

ghost use Rattle.std.specs.Prelude.{◌≡◌};
ghost use Rattle.stab_core.specs.Replay.{IsLawful, initial, replay};
ghost use Rattle.stab_frames.specs.Parameters.{AreLawful};
ghost use Rattle.stab_job.specs.JobValues.{JobValue, network};
ghost use Rattle.stab_judge.specs.Obeys.{Obeys};
ghost use Rattle.stab_judge.specs.Reports.{OnePerNode};
ghost use Rattle.stab_run.specs.Reports.{Reported, as_report};
ghost use Rattle.stab_run.specs.Runs.{IsReport};
ghost use Rattle.stab_run.specs.declared.links.Links.{Links};
ghost use Rattle.stab_script.specs.declared.link_job.LinkJob.{LinkJob};
ghost use Rattle.rignolda_verdict.specs.LinkVerdicts.{ObeysLink};

/// What a run says of its nodes is a report that obeys, with an entry for each node. Its text is
/// that of this report.
pub fn runs_are_accepted()
    ensures obeys { (links : Links) (job : JobValue) (report : Reported) → IsReport links job report
        → Obeys (network job) (as_report report) }
    ensures entries { (links : Links) (job : JobValue) (report : Reported)
        → IsReport links job report → OnePerNode job.tree.parents (as_report report) }
{
    stab_judge::laws::explained_reports_obey();
}

/// The link that `stab link` prints obeys, whatever its job does to it: what was offered is picked
/// from what the job offers, and the link law holds.
pub fn replays_are_accepted()
    ensures { (job : LinkJob) → AreLawful job.params → IsLawful job.params job.start
        → ObeysLink job (replay job.params (initial job.start) job.events) }
{
    stab_core::laws::every_replay_obeys_the_sharper_link_law();
}

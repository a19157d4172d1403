ghost use Rattle.std.specs.Prelude.{◌≡◌, ◌≢◌, ◌↔◌, ◌≤◌, All, Err, IfOk, IfSome, IsTrue, None, Ok};
ghost use Rattle.std.specs.Prelude.{OnOk, Some, string_bytes};
ghost use Rattle.stab_job.specs.JobValues.{JobValue};
ghost use Rattle.stab_job.specs.Jobs.{job};
ghost use Rattle.rignolda_make.specs.DrawnTexts.{drawn_text};
ghost use Rattle.rignolda_make.specs.Options.{options_fault};
ghost use Rattle.rignolda_make.specs.RandomJobs.{IsAsAsked, IsRandomText};
ghost use Rattle.stab_job.specs.Replays.{IsReplayed};

use crate::options::{DrawOptions, OptionsFault};
use crate::parts::job_text;
use crate::scripts::check_scripts;
use stab_core::StartFault;
use stab_frames::Params;
use stab_job::{Job, JobFault, read_job};
use stab_treecore::{TreeStartFault, TreeStepFault};
use std::alloc::{AllocError, Global};
use thiserror::Error;

/// Why no random job is drawn.
#[derive(Clone, Copy, Debug, PartialEq, Eq, Error)]
pub enum RandomFault {
    /// No job is drawn by these options.
    #[error("{0}")]
    Options(OptionsFault),
    /// The text that these options draw is no job by them. This would be a mistake of this crate,
    /// and its tests find none.
    #[error("random: the drawn job is refused")]
    Unlike,
    /// Memory was refused.
    #[error("out of memory")]
    Memory,
}

impl From<AllocError> for RandomFault {
    ghost use Rattle.std.specs.Prelude.{◌≡◌};
    ghost use Rattle.rignolda_make.specs.declared.checked.RandomFault.TheVariants.{Memory};

    ghost from_gives = { λ _ fault. fault ≡ Memory };

    fn from(_refused: AllocError) -> RandomFault {
        RandomFault::Memory
    }
}

/// The text of a random job by these options. The same options give the same text.
///
/// The text is read back and its schedule replayed, so that `stab tree` answers it.
pub fn random_text(alloc: Global, options: &DrawOptions) -> Result<String, RandomFault>
    ensures text { IfOk result (λ text. string_bytes text ≡ drawn_text options.now) }
    ensures job { IfOk result (λ text. IsRandomText options.now (string_bytes text)) }
    ensures taken { OnOk result (options_fault options.now ≡ None) }
    ensures refused { (fault : OptionsFault) → result ≡ Err (RandomFault.Options fault)
        → options_fault options.now ≡ Some fault }
    ensures first { (fault : OptionsFault) → options_fault options.now ≡ Some fault
        → result ≡ Err (RandomFault.Options fault) }
    ensures unlike { result ≡ Err RandomFault.Unlike
        → ¬ IsRandomText options.now (drawn_text options.now) }
{
    let params = match options.params() {
        Ok(params) => params,
        Err(fault) => return Err(RandomFault::Options(fault)),
    };
    let text = job_text(alloc, options, params)?;
    check_text(alloc, options, text.as_bytes())?;
    Ok(text)
}

/// Refuses a text that is no job by the options, or whose scripts are not.
fn check_text(alloc: Global, options: &DrawOptions, text: &[u8]) -> Result<(), RandomFault>
    ensures job { OnOk result (IsRandomText options.now text.now) }
    ensures unlike { result ≡ Err RandomFault.Unlike → ¬ IsRandomText options.now text.now }
    ensures fault { (fault : OptionsFault) → result ≢ Err (RandomFault.Options fault) }
{
    check_scripts(alloc, options, text)?;
    let job = read_back(alloc, text)?;
    check_job(alloc, options, &job)
}

/// The job that a text is read as.
fn read_back(alloc: Global, text: &[u8]) -> Result<Job, RandomFault>
    ensures read { IfOk result (λ its_job. job text.now ≡ Ok its_job) }
    ensures unlike { result ≡ Err RandomFault.Unlike
        → (its_job : JobValue) → job text.now ≢ Ok its_job }
    ensures fault { (fault : OptionsFault) → result ≢ Err (RandomFault.Options fault) }
{
    match read_job(alloc, text) {
        Ok(job) => Ok(job),
        Err(JobFault::Memory) => Err(RandomFault::Memory),
        Err(_) => Err(RandomFault::Unlike),
    }
}

/// Refuses a job that is not by the options, or is not replayed.
fn check_job(alloc: Global, options: &DrawOptions, job: &Job) -> Result<(), RandomFault>
    ensures asked { OnOk result (IsAsAsked options.now job.now) }
    ensures replayed { OnOk result (IsReplayed job.now) }
    ensures unlike { result ≡ Err RandomFault.Unlike
        → IsAsAsked options.now job.now → ¬ IsReplayed job.now }
    ensures fault { (fault : OptionsFault) → result ≢ Err (RandomFault.Options fault) }
{
    if !is_as_asked(options, job) {
        return Err(RandomFault::Unlike);
    }
    replay(alloc, job)
}

/// Whether a job has as many of everything that is counted as the options ask for, and its links as
/// many labels.
fn is_as_asked(options: &DrawOptions, job: &Job) -> bool
    ensures { IsTrue result ↔ IsAsAsked options.now job.now }
{
    let steps = if options.nodes == 1 { 0 } else { options.steps };
    job.tree().len() == options.nodes
        && job.items().len() == options.items as usize
        && job.turns() == options.turns
        && job.openings().hold() == options.hold
        && job.schedule().len() == steps as usize
        && are_small(job.params(), options.capacity)
        && have_labels(job.params(), options.labels)
}

/// Whether no link has a greater capacity than this.
fn are_small(params: &[Params], greatest: u16) -> bool
    ensures { IsTrue result ↔ All (λ p. p.capacity ≤ greatest) params.now }
{
    params
        .iter()
        .all(|its_params| its_params.capacity() <= greatest)
}

/// Whether each link has `wanted` labels, where this number is given.
fn have_labels(params: &[Params], wanted: Option<u16>) -> bool
    ensures { IsTrue result ↔ IfSome wanted (λ labels. All (λ p. p.labels ≡ labels) params.now) }
{
    match wanted {
        None => true,
        Some(labels) => params
            .iter()
            .all(|its_params| its_params.labels() == labels),
    }
}

/// Replays the schedule of a job, whose links have to begin.
#[tactic(auto, using(stab_job::proofs::ForCallers::memory_alone))]
fn replay(alloc: Global, job: &Job) -> Result<(), RandomFault>
    ensures replayed { OnOk result (IsReplayed job.now) }
    ensures unlike { result ≡ Err RandomFault.Unlike → ¬ IsReplayed job.now }
    ensures fault { (fault : OptionsFault) → result ≢ Err (RandomFault.Options fault) }
{
    match job.replay(alloc) {
        Ok(_) => Ok(()),
        Err(
            TreeStartFault::Start(StartFault::Memory) | TreeStartFault::Step(TreeStepFault::Memory),
        ) => Err(RandomFault::Memory),
        Err(_) => Err(RandomFault::Unlike),
    }
}

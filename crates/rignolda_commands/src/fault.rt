ghost use Rattle.std.specs.Prelude.{◌≢◌, ℕ, List, Some};
ghost use Rattle.rignolda_commands.specs.Begun.{IsBegunLink, IsBegunUnscheduled};
ghost use Rattle.rignolda_commands.specs.Checked.{IsUncheckedLink, IsUncheckedTree};
ghost use Rattle.rignolda_verdict.specs.LinkTexts.{IsNoLink};
ghost use Rattle.stab_job.specs.JobValues.{JobValue};
ghost use Rattle.stab_report.specs.Texts.{IsNoText};
ghost use Rattle.stab_script.specs.declared.link_job.LinkJob.{LinkJob};

use rignolda_make::RandomFault;
use rignolda_scenario::ScenarioFault;
use rignolda_since::{BacklogFault, LogsFault};
use stab_report::ReportFault;
use stab_task::CliFault;
use stab_treecore::ChangeFault;
use std::alloc::AllocError;
use thiserror::Error;

/// The status where what is beside a job is refused, or what it is used for.
const NO_ANSWER: u8 = 1;

/// Why a command has no answer. The program prints the prefix `rignolda: ` and then this text.
#[derive(Clone, Copy, Debug, PartialEq, Eq, Error)]
pub enum CommandFault {
    /// The job is refused, or its start, or the output, or memory wherever that was.
    #[error("{0}")]
    Job(CliFault),
    /// No random job is drawn.
    #[error("{0}")]
    Draw(RandomFault),
    /// The bytes are no job of a tree, and have the shape of a link job, which has no bounds.
    #[error("job: this is a link job; bounds are of a job of a tree; see rignolda explain")]
    LinkJob,
    /// The steps of the scenario are refused.
    #[error("{0}")]
    Steps(ScenarioFault),
    /// The logs of the job are refused.
    #[error("{0}")]
    Logs(LogsFault),
    /// The file of the report cannot be opened or read, or is too long.
    #[error("report {0}")]
    Unloaded(CliFault),
    /// The backlogs of the job are refused.
    #[error("{0}")]
    Backlogs(BacklogFault),
    /// The text is no report of the job's tree: it differs in this line, counted from 1.
    #[error("not a report: line {0} is not as a report of this tree has it")]
    Line(u64),
    /// The text is not that of a link: it differs in this line, counted from 1.
    #[error("not a report: line {0} is not as the text of a link has it")]
    LinkLine(u64),
}

impl CommandFault {
    ghost use Rattle.std.specs.Prelude.{◌≡◌};
    ghost use Rattle.rignolda_commands.specs.Statuses.{command_status};

    /// The status that the program ends with: that of `stab` for a fault of the job or of a file,
    /// 2 for options that are refused and 3 where else no random job is drawn, and 1 for what is
    /// refused beside a job, for a link job without bounds and for a text that is no report.
    pub fn status(&self) -> u8
        ensures { result ≡ command_status self.now }
    {
        match self {
            CommandFault::Job(fault) | CommandFault::Unloaded(fault) => fault.status(),
            CommandFault::Draw(RandomFault::Options(_)) => 2,
            CommandFault::Draw(_) => 3,
            CommandFault::LinkJob
            | CommandFault::Steps(_)
            | CommandFault::Logs(_)
            | CommandFault::Backlogs(_)
            | CommandFault::Line(_)
            | CommandFault::LinkLine(_) => NO_ANSWER,
        }
    }
}

impl From<CliFault> for CommandFault {
    ghost use Rattle.std.specs.Prelude.{◌≡◌};
    ghost use Rattle.rignolda_commands.specs.declared.fault.CommandFault.TheVariants.{Job};

    ghost from_gives = { λ refusal fault. fault ≡ Job refusal };

    fn from(refusal: CliFault) -> CommandFault {
        CommandFault::Job(refusal)
    }
}

impl From<AllocError> for CommandFault {
    ghost use Rattle.std.specs.Prelude.{◌≡◌};
    ghost use Rattle.rignolda_commands.specs.declared.fault.CommandFault.TheVariants.{Job};
    ghost use Rattle.stab_task.specs.declared.fault.CliFault.TheVariants.{Memory};

    ghost from_gives = { λ _ fault. fault ≡ Job Memory };

    fn from(_refused: AllocError) -> CommandFault {
        CommandFault::Job(CliFault::Memory)
    }
}

impl From<ScenarioFault> for CommandFault {
    ghost use Rattle.std.specs.Prelude.{◌≡◌};
    ghost use Rattle.rignolda_commands.specs.Told.{steps_refused};

    ghost from_gives = { λ refusal fault. fault ≡ steps_refused refusal };

    fn from(refusal: ScenarioFault) -> CommandFault {
        match refusal {
            ScenarioFault::Memory => CommandFault::Job(CliFault::Memory),
            ScenarioFault::Job(fault) => CommandFault::Job(CliFault::Job(fault)),
            ScenarioFault::Run(ChangeFault::Begin(fault)) => {
                CommandFault::Job(CliFault::Tree(fault))
            }
            _ => CommandFault::Steps(refusal),
        }
    }
}

/// The fault of a text that is not read as a report.
#[tactic(auto, using(crate::proofs::Unscheduled::no_report))]
pub(crate) fn unread(fault: ReportFault) -> CommandFault
    ensures fault { (input text : List ℕ) (its_job : JobValue) → IsBegunUnscheduled input its_job
        → (fault ≢ ReportFault.Memory → IsNoText its_job.tree text)
        → IsUncheckedTree input (Some text) result }
{
    match fault {
        ReportFault::Line(line) => CommandFault::Line(line),
        ReportFault::Memory => CommandFault::Job(CliFault::Memory),
    }
}

/// The fault of a text that is not read as that of a link.
pub(crate) fn unread_link(fault: ReportFault) -> CommandFault
    ensures fault { (input text : List ℕ) (its_job : LinkJob) → IsBegunLink input its_job
        → (fault ≢ ReportFault.Memory → IsNoLink text)
        → IsUncheckedLink input (Some text) result }
{
    match fault {
        ReportFault::Line(line) => CommandFault::LinkLine(line),
        ReportFault::Memory => CommandFault::Job(CliFault::Memory),
    }
}

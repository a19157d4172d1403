//! What is said after a fault of which the kind of the job may be the reason.

use rignolda_commands::CommandFault;
use stab_job::JobFault;
use stab_script::LinkJobFault;
use stab_task::CliFault;

/// What is said after the refusal of a shape.
const NO_LINK_JOB: &str = " for a link job, since it has no member tree; see rignolda explain";

const NO_TREE_JOB: &str = " for a job of a tree; see rignolda explain";

/// What is said after a text whose first line is another.
const IS_LINK_JOB: &str = "; the job is a link job: see rignolda explain";

const IS_TREE_JOB: &str = "; the job is one of a tree: see rignolda explain";

/// What is said after a fault.
pub(crate) fn hint_of(fault: CommandFault) -> &'static str {
    match fault {
        CommandFault::Job(CliFault::LinkJob(LinkJobFault::Shape)) => NO_LINK_JOB,
        CommandFault::Job(CliFault::Job(JobFault::Shape)) => NO_TREE_JOB,
        CommandFault::Line(1) => IS_TREE_JOB,
        CommandFault::LinkLine(1) => IS_LINK_JOB,
        _ => "",
    }
}

use stab_job::JobFault;
use stab_script::LinkJobFault;
use thiserror::Error;

/// What bytes are read as.
#[derive(Clone, Copy, Debug, PartialEq, Eq)]
pub enum Kind {
    /// The job of one link.
    LinkJob,
    /// The job of a tree.
    Job,
}

/// Why the reader of such bytes refuses them. Its text is the one that `stab` prints.
#[derive(Clone, Copy, Debug, PartialEq, Eq, Error)]
pub enum Refusal {
    /// The bytes are no link job.
    #[error("{0}")]
    LinkJob(LinkJobFault),
    /// The bytes are no job of a tree.
    #[error("{0}")]
    Job(JobFault),
}

use std::alloc::AllocError;
use thiserror::Error;

/// Why a text is not read as the text of a report.
#[derive(Clone, Copy, Debug, PartialEq, Eq, Error)]
pub enum ReportFault {
    /// The text differs in this line, counted from 1, from the text of the report that its counts
    /// and items make.
    #[error("report: line {0} is not as a report has it")]
    Line(u64),
    /// Memory was refused.
    #[error("out of memory")]
    Memory,
}

impl From<AllocError> for ReportFault {
    ghost use Rattle.std.specs.Prelude.{◌≡◌};
    ghost use Rattle.stab_report.specs.declared.fault.ReportFault.TheVariants.{Memory};

    ghost from_gives = { λ _ fault. fault ≡ Memory };

    fn from(_error: AllocError) -> ReportFault {
        ReportFault::Memory
    }
}

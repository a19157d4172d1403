ghost use Rattle.std.specs.Prelude.{◌≡◌, Some};
ghost use Rattle.rignolda_explain.specs.Stops.{first_stop, stop_in};

use rignolda_findings::{Finding, Matter};
use stab_core::StartFault;

/// Why a job that its reader accepts does not come to its end.
#[derive(Clone, Copy, Debug, PartialEq, Eq)]
pub enum Stop {
    /// A link cannot begin from its start.
    Start(StartFault),
    /// A step of the schedule names the root, into which no link leads.
    Step,
}

impl Stop {
    /// What a finding of this stop is about.
    pub(crate) fn matter(self) -> Matter
        ensures { stop_in result ≡ Some self }
    {
        match self {
            Stop::Start(fault) => Matter::Start(fault),
            Stop::Step => Matter::Step,
        }
    }
}

/// The stop that a finding of this matter is of, if it is of one.
pub(crate) fn stop_in(matter: Matter) -> Option<Stop>
    ensures { result ≡ stop_in matter }
{
    match matter {
        Matter::Start(fault) => Some(Stop::Start(fault)),
        Matter::Step => Some(Stop::Step),
        Matter::Refused(_) | Matter::Command | Matter::Ignored => None,
    }
}

/// The stop that the first such finding is of.
pub(crate) fn first_stop(findings: &[Finding]) -> Option<Stop>
    ensures { result ≡ first_stop findings.now }
{
    let mut rest = findings;
    'findings: while let [finding, others @ ..] = rest {
        match stop_in(finding.matter) {
            Some(stop) => return Some(stop),
            None => rest = others,
        }
    }
    None
}

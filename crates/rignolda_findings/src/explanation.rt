ghost use Rattle.std.specs.Prelude.{◌≡◌, ◌↔◌, IsTrue, None, []};

use crate::refusal::{Kind, Refusal};
use stab_core::StartFault;
use std::fmt;

/// What a finding is about.
#[derive(Clone, Copy, Debug, PartialEq, Eq)]
pub enum Matter {
    /// A check of the reader fails here.
    Refused(Refusal),
    /// The job is read, and a link cannot begin from this start.
    Start(StartFault),
    /// The job is read, and a step of its schedule names the root, which has no link into it.
    Step,
    /// A part of a member that `stab` ignores, and that a command of `rignolda` refuses.
    Command,
    /// A member that no reader looks at.
    Ignored,
}

/// One thing that was found. Its text is one line, without its newline: a place, a colon, and what
/// is wrong there.
#[derive(Debug, Drop)]
pub struct Finding {
    pub matter: Matter,
    pub line: String,
}

impl fmt::Display for Finding {
    fn fmt<W: fmt::Write>(&self, f: &mut fmt::Formatter<W>) -> fmt::Result {
        f.write_str(self.line.as_str())
    }
}

/// What is wrong with some bytes, and where.
#[derive(Debug, Drop)]
pub struct Explanation {
    /// What the bytes were read as.
    pub kind: Kind,
    /// The answer of the reader of this kind: nothing where it accepts the bytes, and else its
    /// fault.
    pub refusal: Option<Refusal>,
    /// What was found, in the order of the reader's checks, and ignored members last; at most
    /// [`MAX_FINDINGS`](crate::MAX_FINDINGS).
    pub findings: Vec<Finding>,
    /// How many more things were found.
    pub omitted: u64,
}

impl Explanation {
    /// Whether the reader accepts the bytes and nothing at all was found.
    pub fn is_clean(&self) -> bool
        ensures { IsTrue result ↔ ((self.now.refusal ≡ None)
            × (self.now.findings.items ≡ []) × (self.now.omitted ≡ 0)) }
    {
        self.refusal.is_none() && self.findings.is_empty() && self.omitted == 0
    }
}

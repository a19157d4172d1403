ghost use Rattle.std.specs.Prelude.{◌≡◌, MatchResult, Ok, Err};
ghost use Rattle.serde_json.specs.View.{view};
ghost use Rattle.stab_job.specs.LinkEntries.{link_entry, own_numbers};
ghost use Rattle.stab_job.specs.LinkParams.{params_by};

use serde_json::Value;
use stab_frames::{Params, ParamsFault};
use stab_json::{Entry, u16_member};
use std::alloc::{AllocError, Global};

/// What an entry of a job's links says. Its numbers are not checked before
/// [`params`](LinkEntry::params).
#[derive(Clone, Copy, Debug, PartialEq, Eq)]
pub(crate) enum LinkEntry {
    /// The link has the job's own parameters.
    OfJob,
    /// The link has these; a number too large for its place is the largest there.
    Own { capacity: u16, labels: u16 },
}

impl<'v> Entry<'v> for LinkEntry {
    type Read = LinkEntry;

    ghost meaning = { link_entry };

    fn read(_alloc: Global, value: &'v Value) -> Result<Option<LinkEntry>, AllocError> {
        Ok(entry_of(value))
    }
}

impl LinkEntry {
    /// The parameters of the link, or the first check that they fail.
    pub(crate) fn params(self, of_job: Params) -> Result<Params, ParamsFault>
        ensures { MatchResult result
            (λ params. params_by of_job self ≡ Ok params)
            (λ fault. params_by of_job self ≡ Err fault) }
    {
        match self {
            LinkEntry::OfJob => Ok(of_job),
            LinkEntry::Own { capacity, labels } => Params::new(capacity, labels),
        }
    }
}

/// What an entry says, or `None` where it has another shape.
fn entry_of(value: &Value) -> Option<LinkEntry>
    ensures { result ≡ link_entry (view value.now) }
{
    match value {
        Value::Null => Some(LinkEntry::OfJob),
        Value::Object(_) => own_numbers(value),
        _ => None,
    }
}

/// The two numbers of an object, where it has them.
fn own_numbers(value: &Value) -> Option<LinkEntry>
    ensures { result ≡ own_numbers (view value.now) }
{
    Some(LinkEntry::Own {
        capacity: u16_member(value, "capacity")?,
        labels: u16_member(value, "labels")?,
    })
}

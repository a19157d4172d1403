ghost use Rattle.std.specs.Prelude.{◌≡◌, codes};
ghost use Rattle.serde_json.specs.Find.{get};
ghost use Rattle.serde_json.specs.View.{view};
ghost use Rattle.stab_job.specs.JobOpenings.{version_numbered, version_of};

use serde_json::Value;

/// The versions of a job that are known.
#[derive(Clone, Copy, Debug, PartialEq, Eq)]
pub(crate) enum Version {
    /// No node has an opening, whatever the members of the second version say.
    First,
    /// A job says what its inner nodes begin with.
    Second,
}

/// The version of this number, where there is one.
fn version_numbered(number: u64) -> Option<Version>
    ensures { result ≡ version_numbered number }
{
    match number {
        1 => Some(Version::First),
        2 => Some(Version::Second),
        _ => None,
    }
}

/// The version that a value names, or the first where it names none; `None` where it is not known.
pub(crate) fn version_of(value: &Value) -> Option<Version>
    ensures { result ≡ version_of (get (codes "version") (view value.now)) }
{
    match value.get("version") {
        Some(version) => version_numbered(version.as_u64()?),
        None => Some(Version::First),
    }
}

ghost use Rattle.std.specs.Prelude.{◌≡◌, ◌≢◌, ◌<◌, ℕ, List, Option, codes, length, IfOk, IfSome};
ghost use Rattle.std.specs.Bool.{MatchBool};
ghost use Rattle.serde_json.specs.Data.{Data};
ghost use Rattle.stab_script.specs.Members.{in_member};
ghost use Rattle.stab_script.specs.Standing.{MeansWithin};
ghost use Rattle.stab_job.specs.Parts.{IsBeside};

use json::Reader;
use std::alloc::{AllocError, Global};

/// A member that a job may have beside its own, and that is read off the tokens for a caller who
/// knows what it means, without a value.
pub trait Beside {
    /// What the member is read as.
    type Read: Drop;

    // The name of the member, and what its value means.
    ghost its_name: { List ℕ };

    ghost meaning: { Data → Option Self.Read };

    /// Whether this is the member's name; no member of a job has it. That the name is not
    /// `schedule` was seen before.
    fn is_named(name: &str) -> bool
        requires { name.now ≢ codes "schedule" }
        ensures { MatchBool result ((name.now ≡ its_name) × IsBeside name.now)
            (name.now ≢ its_name) };

    /// What the value that comes next means, where it has the plain form.
    fn next(alloc: Global, reader: &mut Reader<'_>) -> Result<Option<Self::Read>, AllocError>
        ensures value { IfOk result (λ found. IfSome found (λ read.
            MeansWithin in_member meaning reader.old read reader.new)) }
        ensures shorter { IfOk result (λ found. IfSome found (λ _.
            length reader.new < length reader.old)) };
}

/// No such member: every name but `schedule` is that of another one.
pub(crate) enum Nothing {}

impl Beside for Nothing {
    ghost use Rattle.std.specs.Prelude.{None};
    ghost use Rattle.stab_job.specs.Parts.{the_schedule};

    type Read = ();

    ghost its_name = { the_schedule };

    ghost meaning = { λ _. None };

    fn is_named(_name: &str) -> bool {
        false
    }

    fn next(_alloc: Global, _reader: &mut Reader<'_>) -> Result<Option<()>, AllocError> {
        Ok(None)
    }
}

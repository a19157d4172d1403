ghost use Rattle.std.specs.Prelude.{◌<◌, List, Option, length, IfSome};
ghost use Rattle.json.specs.Token.{Token as SpecToken};
ghost use Rattle.serde_json.specs.Data.{Data};
ghost use Rattle.stab_script.specs.Plain.{IsRead};
ghost use Rattle.stab_script.specs.Standing.{Means};

use json::Reader;

/// A kind of entry that a list in a job may have, read from the tokens: the type that such an entry
/// is read as.
pub(crate) trait Entry {
    /// What an entry is read as.
    type Read: Drop;

    // What a value means as such an entry.
    ghost meaning: { Data → Option Self.Read };

    // The plain form of such an entry.
    ghost form: { List SpecToken → List SpecToken → Type 0 };

    /// What the value that comes next means, where it has the plain form of such an entry.
    fn next(reader: &mut Reader<'_>) -> Option<Self::Read>
        ensures value { IfSome result (λ entry. Means meaning reader.old entry reader.new) }
        ensures shorter { IfSome result (λ _. length reader.new < length reader.old) }
        ensures plain { (rest : List SpecToken) → form reader.old rest
            → IsRead result reader.new rest };
}

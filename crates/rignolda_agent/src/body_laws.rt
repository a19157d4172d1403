//! Laws of bodies. Each is a function with an empty body; its contract is the law.

ghost use Rattle.std.specs.Prelude.{◌≡◌, ℕ, List, Ok, drop, length, take};
ghost use Rattle.rignolda_agent.specs.BodySpelling.{Body, IsBody, head_bytes, spelling};
ghost use Rattle.rignolda_agent.specs.Reading.{body_of};
ghost use Rattle.rignolda_agent.specs.Seen.{AreBytes, AreEntries};
ghost use Rattle.rignolda_agent.specs.Writing.{with_body};

/// What is spelled is read.
pub fn what_is_spelled_is_read()
    ensures { (b : Body) → IsBody b → body_of (spelling b) ≡ Ok b }
{}

/// What is read was spelled so, and is a body. So no two texts say the same.
pub fn what_is_read_is_spelled()
    ensures { (bytes : List ℕ) (b : Body) → AreBytes bytes → body_of bytes ≡ Ok b
        → IsBody b × (bytes ≡ spelling b) }
{}

/// What is written, a head and then one entry after the other, is read again, whatever the buffer
/// held.
pub fn what_is_written_is_read()
    ensures { (buffer : List ℕ) (b : Body) → IsBody b
        → body_of (take (length (spelling b)) (with_body buffer b)) ≡ Ok b }
{}

/// The entries of what is read are after its head, one after the other.
pub fn entries_are_read_in_turn()
    ensures { (bytes : List ℕ) (b : Body) → AreBytes bytes → body_of bytes ≡ Ok b
        → AreEntries b.settings
        (drop (length (head_bytes b.kind b.number (length b.settings))) bytes) }
{}

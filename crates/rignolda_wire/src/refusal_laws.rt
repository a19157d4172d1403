//! Laws of what an end is told that is refused. Each is a function with an empty body; its contract
//! is the law.

ghost use Rattle.std.specs.Prelude.{◌≡◌, ◌≢◌, ℕ, List, Err, Some};
ghost use Rattle.rignolda_wire.specs.declared.fault.Fault.TheVariants.{More};
ghost use Rattle.rignolda_wire.specs.declared.refusal.Refusal.{Refusal};
ghost use Rattle.rignolda_wire.specs.declared.refusal.Refusal.TheVariants.{NotSaid};
ghost use Rattle.rignolda_wire.specs.declared.said.Expect.{Expect};
ghost use Rattle.rignolda_wire.specs.declared.said.Expect.TheVariants.{Frames, Hello};
ghost use Rattle.rignolda_wire.specs.declared.said.Expect.TheVariants.{SignedFrames};
ghost use Rattle.rignolda_wire.specs.Reading.{message_at};
ghost use Rattle.rignolda_wire.specs.Refusals.{refused, told};

/// Each reason that is told is understood, before a link and at its end.
pub fn what_is_told_is_understood()
    ensures first { (why : Refusal) → refused Hello (told Hello why) ≡ Some why }
    ensures last { (why : Refusal) → (refused Frames (told Frames why) ≡ Some why)
        × (refused SignedFrames (told SignedFrames why) ≡ Some why) }
{}

/// A reason that is understood was told: no other bytes say it.
pub fn what_is_understood_was_told()
    ensures { (expect : Expect) (bytes : List ℕ) (why : Refusal) → why ≢ NotSaid
        → refused expect bytes ≡ Some why → bytes ≡ told expect why }
{}

/// Whoever knows no reasons has the front of a message, of which more has to come.
pub fn what_is_told_is_no_message()
    ensures { (expect : Expect) (why : Refusal) → message_at expect (told expect why) ≡ Err More }
{}

//! Whether two scripts have the same acts, as far as they were taken.

ghost use Rattle.std.specs.Prelude.{◌≡◌, ◌↔◌, IsTrue};
ghost use Rattle.stab_lock.specs.Taken.{SameTaken, SameScriptTaken};

use stab_acts::{HalfScript, Script};

/// Whether two scripts have the same acts as far as the first was taken, of which these halves
/// remain. An act that was not taken may differ, since no call has seen it; so where none was
/// taken, no act is compared.
#[tactic(auto, using(crate::proofs::SameActs::same_out, crate::proofs::SameActs::same_in, crate::proofs::SameActs::own_out, crate::proofs::SameActs::own_in))]
pub(crate) fn same_taken(
    one: &Script,
    other: &Script,
    sender: &HalfScript,
    receiver: &HalfScript,
) -> bool
    ensures { IsTrue result ↔ SameScriptTaken sender.now receiver.now one.now other.now }
{
    if !same_front(one.frames_out(), other.frames_out(), sender.outs_left()) {
        return false;
    }
    if !same_front(one.acks_in(), other.acks_in(), sender.ins_left()) {
        return false;
    }
    if !same_front(one.acks_out(), other.acks_out(), receiver.outs_left()) {
        return false;
    }
    same_front(one.frames_in(), other.frames_in(), receiver.ins_left())
}

/// Whether two lists have as many acts, and the same ones but for this many at the end. They need
/// as many, since calls go on past the end of a list.
#[tactic(auto, using(crate::proofs::SameActs::same_by_entry_taken, crate::proofs::SameActs::found_by_entry_taken))]
fn same_front<A: PartialEq>(one: &[A], other: &[A], left: usize) -> bool
    requires same { (x y : A) → IsTrue (A.eq x y) → x ≡ y }
    requires equal { (x : A) → IsTrue (A.eq x x) }
    ensures { IsTrue result ↔ SameTaken left one.now other.now }
{
    let taken = one.len().saturating_sub(left);
    one.len() == other.len() && one[..taken] == other[..taken]
}

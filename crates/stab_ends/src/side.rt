//! What an end of a link promises, whatever runs the link: each call changes the end's account
//! exactly as its answer says, and keeps which link the end belongs to.

ghost use Rattle.std.specs.Prelude.{◌≡◌, true, false, IfOk};
ghost use Rattle.stab_ends.specs.Accounts.{SenderAccount, ReceiverAccount, MayOffer, Waits};
ghost use Rattle.stab_ends.specs.Accounts.{IsOpenFor};
ghost use Rattle.stab_ends.specs.Accounts.{after_offer, after_poll_ack, after_close};
ghost use Rattle.stab_ends.specs.Accounts.{after_poll_frame};

use crate::account::{RecvAccount, SendAccount};
use crate::seen::FrameSeen;
use stab_core::Effect;
use stab_frames::Item;
use std::alloc::AllocError;

/// The sender's end of a link.
pub trait SendSide: Drop {
    /// The runtime value that a call which waits takes; `()` where no call waits.
    type Pass;
    /// What remains of the end once it is finished: its account, and what its link needs to settle
    /// it.
    type Done: Drop;

    // What names a link.
    ghost Link: { Type 0 };

    // The link that the end belongs to, and the account of the end.
    ghost link: { Self → Link };

    ghost sent: { Self → SenderAccount };

    // What is known where the end of a link does not take an item that its account allows; where
    // that never happens, it says that it cannot be.
    ghost may_refuse_offer: { Link → Type 0 };

    // The same of a finished end.
    ghost done_link: { Self.Done → Link };

    ghost done_sent: { Self.Done → SenderAccount };

    /// Offers an item: true where it is taken, which an end that is not idle, or is closed, never
    /// does. An end that may refuse no offer takes it everywhere else.
    fn offer(&mut self, pass: &Self::Pass, item: Item) -> Result<bool, AllocError>
        ensures account { sent self.new ≡ after_offer (sent self.old) item result }
        ensures taken { IfOk result (λ taken. taken ≡ true → MayOffer (sent self.old)) }
        ensures not_taken { IfOk result (λ taken. taken ≡ false
            → MayOffer (sent self.old) → may_refuse_offer (link self.old)) }
        ensures link { link self.new ≡ link self.old };

    /// Sends the current item once more, where there is one.
    fn send(&mut self, pass: &Self::Pass) -> Result<Effect, AllocError>
        ensures account { sent self.new ≡ sent self.old }
        ensures link { link self.new ≡ link self.old };

    /// Looks for an acknowledgement. Acked comes only where an item waits for it.
    fn poll_ack(&mut self, pass: &Self::Pass) -> Result<Effect, AllocError>
        ensures account { sent self.new ≡ after_poll_ack (sent self.old) result }
        ensures acked { IfOk result (λ effect. effect ≡ Effect.Acked → Waits (sent self.old)) }
        ensures link { link self.new ≡ link self.old };

    /// Closes the link for good.
    fn close(&mut self, pass: &Self::Pass) -> Result<Effect, AllocError>
        ensures account { sent self.new ≡ after_close (sent self.old) result }
        ensures link { link self.new ≡ link self.old };

    /// The account of the end.
    fn account(&self) -> &SendAccount
        ensures { result.now ≡ sent self.now };

    /// Ends the use of the end.
    fn finish(self) -> Self::Done
        ensures account { done_sent result ≡ sent self }
        ensures link { done_link result ≡ link self };

    /// The account of a finished end.
    fn done_account(done: &Self::Done) -> &SendAccount
        ensures { result.now ≡ done_sent done.now };
}

/// The receiver's end of a link.
pub trait RecvSide: Drop {
    /// The runtime value that a call which waits takes; `()` where no call waits.
    type Pass;
    /// What remains of the end once it is finished: its account, and what its link needs to settle
    /// it.
    type Done: Drop;

    // What names a link.
    ghost Link: { Type 0 };

    // The link that the end belongs to, and the account of the end.
    ghost link: { Self → Link };

    ghost received: { Self → ReceiverAccount };

    // The same of a finished end.
    ghost done_link: { Self.Done → Link };

    ghost done_received: { Self.Done → ReceiverAccount };

    /// Looks for a frame. An end that was shown the close takes nothing more.
    fn poll_frame(&mut self, pass: &Self::Pass) -> Result<FrameSeen, AllocError>
        ensures account { received self.new ≡ after_poll_frame (received self.old) result }
        ensures open { IfOk result (IsOpenFor (received self.old)) }
        ensures link { link self.new ≡ link self.old };

    /// Sends the label that the receiver remembers.
    fn send_ack(&mut self, pass: &Self::Pass) -> Result<Effect, AllocError>
        ensures account { received self.new ≡ received self.old }
        ensures link { link self.new ≡ link self.old };

    /// The account of the end.
    fn account(&self) -> &RecvAccount
        ensures { result.now ≡ received self.now };

    /// Ends the use of the end.
    fn finish(self) -> Self::Done
        ensures account { done_received result ≡ received self }
        ensures link { done_link result ≡ link self };

    /// The account of a finished end.
    fn done_account(done: &Self::Done) -> &RecvAccount
        ensures { result.now ≡ done_received done.now };
}

ghost use Rattle.std.specs.Prelude.{◌≡◌, IfErr, IfOk, MatchResult, OnOk};
ghost use Rattle.stab_core.specs.LinkLaw.{LinkLaw};
ghost use Rattle.stab_core.specs.Replay.{start_items};
ghost use Rattle.stab_lock.specs.Book.{state_of};
ghost use Rattle.stab_ends.specs.Agreement.{Agree};
ghost use Rattle.stab_lock.specs.Settling.{FirstDiffer};

use crate::book::LinkBook;
use stab_ends::{RecvAccount, SendAccount, Settled};
use thiserror::Error;

/// In what two accounts differ from the book of their link, in the order of the comparisons.
#[derive(Clone, Copy, Debug, PartialEq, Eq, Hash, Error)]
pub enum SettleFault {
    /// The offered list is not the book's.
    #[error("run: offered lists differ")]
    OfferedDiffer,
    /// The number of acknowledged items is not the book's.
    #[error("run: acknowledged counts differ")]
    AckedDiffer,
    /// The delivered list is not the book's.
    #[error("run: delivered lists differ")]
    DeliveredDiffer,
    /// The sender's close is not the book's, or the receiver was shown a close and the book is
    /// open.
    #[error("run: closes differ")]
    ClosedDiffer,
}

/// A book of a link, and the first thing in which two accounts differ from it.
#[derive(Debug, Drop)]
pub struct Unsettled {
    /// What differs.
    pub why: SettleFault,
    /// The book, with the history that does not explain the accounts.
    pub book: LinkBook,
}

impl From<Unsettled> for SettleFault {
    ghost use Rattle.std.specs.Prelude.{◌≡◌};

    ghost from_gives = { λ unsettled why. why ≡ unsettled.why };

    fn from(unsettled: Unsettled) -> SettleFault {
        let Unsettled { why, book: _ } = unsettled;
        why
    }
}

impl LinkBook {
    /// Whether two accounts agree with this book, or the first thing in which they differ from it.
    pub fn check(&self, send: &SendAccount, recv: &RecvAccount) -> Result<(), SettleFault>
        ensures { MatchResult result
            (λ _. Agree (state_of self.now) send.now recv.now)
            (FirstDiffer (state_of self.now) send.now recv.now) }
    {
        let link = self.link();
        if send.offered.as_slice() != link.offered() {
            return Err(SettleFault::OfferedDiffer);
        }
        if send.acked != link.acked() {
            return Err(SettleFault::AckedDiffer);
        }
        if recv.delivered.as_slice() != link.delivered() {
            return Err(SettleFault::DeliveredDiffer);
        }
        if send.closed != link.is_closed() || (recv.closed && !link.is_closed()) {
            return Err(SettleFault::ClosedDiffer);
        }
        Ok(())
    }

    /// Hands two accounts back where they agree with this book, and else the book.
    pub fn settle(self, send: SendAccount, recv: RecvAccount) -> Result<Settled, Unsettled>
        ensures send { IfOk result (λ settled. settled.send ≡ send) }
        ensures recv { IfOk result (λ settled. settled.recv ≡ recv) }
        ensures agree { OnOk result (Agree (state_of self) send recv) }
        ensures law { OnOk result (LinkLaw self.params.capacity (start_items self.start)
            send.offered send.acked recv.delivered) }
        ensures book { IfErr result (λ unsettled. unsettled.book ≡ self) }
        ensures differ { IfErr result (λ unsettled.
            FirstDiffer (state_of self) send recv unsettled.why) }
    {
        let _law = self.link();
        match self.check(&send, &recv) {
            Ok(()) => Ok(Settled { send, recv }),
            Err(why) => Err(Unsettled { why, book: self }),
        }
    }
}

ghost use Rattle.std.specs.Prelude.{◌≡◌, true, IfOk, OnErr};
ghost use Rattle.stab_lock.specs.Ends.{recv_end};
ghost use Rattle.stab_ends.specs.Accounts.{ReceiverAccount, IsOpenFor, new_receiver};
ghost use Rattle.stab_ends.specs.Accounts.{after_poll_frame};

use crate::link::LockLink;
use stab_core::Effect;
use stab_ends::{FrameSeen, RecvAccount, RecvSide};
use std::alloc::AllocError;
use std::marker::PhantomData;
use std::sync::Wait;

/// The receiver's end of a locked link. Each call takes the lock once, and makes the book's call of
/// its name, under the next act of its half of the script. A refused call leaves the account as it
/// was, and what is behind the lock.
pub struct LockRecv<'a, R> {
    link: &'a LockLink,
    account: RecvAccount,
    runtime: PhantomData<R>,
}

impl<'a, R> Drop for LockRecv<'a, R> {
    fn drop(self) {
        let LockRecv {
            link: _,
            account: _,
            runtime: _,
        } = self;
    }
}

impl<'a, R> LockRecv<'a, R> {
    /// The end of this link that has made no call.
    pub(crate) fn new(link: &'a LockLink) -> LockRecv<'a, R>
        ensures { recv_end result ≡ record { account = new_receiver } }
    {
        LockRecv {
            link,
            account: RecvAccount::new(link.alloc()),
            runtime: PhantomData,
        }
    }

    /// Makes room for this many more items in the account, as far as memory is there.
    pub fn reserve(&mut self, additional: usize)
        ensures { recv_end self.new ≡ recv_end self.old }
    {
        self.account.reserve(additional);
    }
}

impl<'a, R: Wait> RecvSide for LockRecv<'a, R> {
    type Pass = R;

    type Done = RecvAccount;

    ghost Link = { Unit {0} };

    ghost link = { λ end. tt };

    ghost received = { λ end. end.account };

    ghost done_link = { λ done. tt };

    ghost done_received = { λ done. done };

    fn poll_frame(&mut self, pass: &R) -> Result<FrameSeen, AllocError>
        ensures account { (recv_end self.new).account
            ≡ after_poll_frame (recv_end self.old).account result }
        ensures open { IfOk result (IsOpenFor (recv_end self.old).account) }

        ensures unchanged { OnErr result (recv_end self.new ≡ recv_end self.old) }
    {
        self.account.delivered.reserve(1)?;
        let seen = self.link.book().lock(pass).poll_frame()?;
        match seen {
            FrameSeen::Fresh(_) if self.account.closed => return Ok(FrameSeen::Closed),
            FrameSeen::Fresh(item) => self.account.delivered.push_reserved(item),
            FrameSeen::Closed => self.account.closed = true,
            FrameSeen::Nothing | FrameSeen::Old => {}
        }
        Ok(seen)
    }

    fn send_ack(&mut self, pass: &R) -> Result<Effect, AllocError>
        ensures account { (recv_end self.new).account ≡ (recv_end self.old).account }

        ensures unchanged { OnErr result (recv_end self.new ≡ recv_end self.old) }
    {
        self.link.book().lock(pass).send_ack()
    }

    fn account(&self) -> &RecvAccount {
        &self.account
    }

    fn finish(self) -> RecvAccount {
        let LockRecv {
            link: _,
            account,
            runtime: _,
        } = self;
        account
    }

    fn done_account(done: &RecvAccount) -> &RecvAccount
        ensures { result.now ≡ done.now }
    {
        done
    }
}

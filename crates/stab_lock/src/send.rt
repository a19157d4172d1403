ghost use Rattle.std.specs.Prelude.{◌≡◌, ⊤, true, false, IfOk, OnErr};
ghost use Rattle.stab_lock.specs.Ends.{send_end};
ghost use Rattle.stab_ends.specs.Accounts.{SenderAccount, MayOffer, Waits, new_sender};
ghost use Rattle.stab_ends.specs.Accounts.{after_offer, after_poll_ack, after_close};

use crate::link::LockLink;
use stab_core::Effect;
use stab_ends::{SendAccount, SendSide};
use stab_frames::Item;
use std::alloc::AllocError;
use std::marker::PhantomData;
use std::sync::Wait;

/// The sender's end of a locked link. Each call takes the lock once, and makes the book's call of
/// its name, under the next act of its half of the script. A refused call leaves the account as it
/// was, and what is behind the lock.
pub struct LockSend<'a, R> {
    link: &'a LockLink,
    account: SendAccount,
    runtime: PhantomData<R>,
}

impl<'a, R> Drop for LockSend<'a, R> {
    fn drop(self) {
        let LockSend {
            link: _,
            account: _,
            runtime: _,
        } = self;
    }
}

impl<'a, R> LockSend<'a, R> {
    /// The end of this link that has made no call.
    pub(crate) fn new(link: &'a LockLink) -> LockSend<'a, R>
        ensures { send_end result ≡ record { account = new_sender } }
    {
        LockSend {
            link,
            account: SendAccount::new(link.alloc()),
            runtime: PhantomData,
        }
    }

    /// Makes room for this many more items in the account, as far as memory is there.
    pub fn reserve(&mut self, additional: usize)
        ensures { send_end self.new ≡ send_end self.old }
    {
        self.account.reserve(additional);
    }
}

impl<'a, R: Wait> SendSide for LockSend<'a, R> {
    type Pass = R;

    type Done = SendAccount;

    ghost Link = { Unit {0} };

    ghost link = { λ end. tt };

    ghost sent = { λ end. end.account };

    // The link may be in another state than the account says, so nothing is known.
    ghost may_refuse_offer = { λ link. ⊤ };

    ghost done_link = { λ done. tt };

    ghost done_sent = { λ done. done };

    fn offer(&mut self, pass: &R, item: Item) -> Result<bool, AllocError>
        ensures account { (send_end self.new).account
            ≡ after_offer (send_end self.old).account item result }
        ensures taken { IfOk result (λ taken.
            taken ≡ true → MayOffer (send_end self.old).account) }
        ensures not_taken { IfOk result (λ taken. taken ≡ false
            → MayOffer (send_end self.old).account → ⊤) }

        ensures unchanged { OnErr result (send_end self.new ≡ send_end self.old) }
    {
        let may_take = !self.account.closed && self.account.is_idle();
        if may_take {
            self.account.offered.reserve(1)?;
        }
        let taken = self.link.book().lock(pass).offer(item)?;
        if taken && may_take {
            self.account.offered.push_reserved(item);
            Ok(true)
        } else {
            Ok(false)
        }
    }

    fn send(&mut self, pass: &R) -> Result<Effect, AllocError>
        ensures account { (send_end self.new).account ≡ (send_end self.old).account }

        ensures unchanged { OnErr result (send_end self.new ≡ send_end self.old) }
    {
        self.link.book().lock(pass).send()
    }

    fn poll_ack(&mut self, pass: &R) -> Result<Effect, AllocError>
        ensures account { (send_end self.new).account
            ≡ after_poll_ack (send_end self.old).account result }
        ensures acked { IfOk result (λ effect.
            effect ≡ Effect.Acked → Waits (send_end self.old).account) }

        ensures unchanged { OnErr result (send_end self.new ≡ send_end self.old) }
    {
        let effect = self.link.book().lock(pass).poll_ack()?;
        if effect != Effect::Acked {
            return Ok(effect);
        }
        if self.account.closed || !self.account.is_waiting() {
            return Ok(Effect::Ignored);
        }
        self.account.acked += 1;
        Ok(Effect::Acked)
    }

    fn close(&mut self, pass: &R) -> Result<Effect, AllocError>
        ensures account { (send_end self.new).account
            ≡ after_close (send_end self.old).account result }

        ensures unchanged { OnErr result (send_end self.new ≡ send_end self.old) }
    {
        let effect = self.link.book().lock(pass).close()?;
        self.account.closed = true;
        Ok(effect)
    }

    fn account(&self) -> &SendAccount {
        &self.account
    }

    fn finish(self) -> SendAccount {
        let LockSend {
            link: _,
            account,
            runtime: _,
        } = self;
        account
    }

    fn done_account(done: &SendAccount) -> &SendAccount
        ensures { result.now ≡ done.now }
    {
        done
    }
}

//! Two ends without a link: a lower end whose acknowledgements come at once or never, and an upper
//! end that sees what a list says. They are for tests, and a place to start from for an end over a
//! transport of one's own: no call of theirs waits, so their `Pass` is `()`.
//!
//! What an end owes is the contract of its trait: each call changes the account exactly as its
//! answer says, and an offer is taken, and an acknowledgement counted, only where the account
//! allows it.

ghost use Rattle.std.specs.Prelude.{◌≡◌};
ghost use Rattle.stab_ends.specs.Accounts.{new_sender, new_receiver};

use crate::account::{RecvAccount, SendAccount};
use crate::seen::FrameSeen;
use crate::side::{RecvSide, SendSide};
use stab_core::Effect;
use stab_frames::Item;
use std::alloc::{AllocError, Global};
use std::collections::VecDeque;

/// A lower end whose items are acknowledged at once, or never.
#[derive(Drop)]
pub struct PlainSend {
    account: SendAccount,
    acknowledges: bool,
}

impl PlainSend {
    /// An end that has made no call. It takes no memory.
    pub fn new(alloc: Global, acknowledges: bool) -> PlainSend
        ensures { ⟦<PlainSend as SendSide>⟧.sent result ≡ new_sender }
    {
        PlainSend {
            account: SendAccount::new(alloc),
            acknowledges,
        }
    }
}

impl SendSide for PlainSend {
    type Pass = ();

    type Done = SendAccount;

    ghost Link = { Unit {0} };

    ghost link = { λ end. tt };

    ghost sent = { λ end. end.account };

    ghost may_refuse_offer = { λ link. ⊥ };

    ghost done_link = { λ done. tt };

    ghost done_sent = { λ done. done };

    fn offer(&mut self, _pass: &(), item: Item) -> Result<bool, AllocError> {
        if self.account.closed || !self.account.is_idle() {
            return Ok(false);
        }
        self.account.offered.push(item)?;
        Ok(true)
    }

    fn send(&mut self, _pass: &()) -> Result<Effect, AllocError> {
        if self.account.closed || self.account.is_idle() {
            Ok(Effect::Nothing)
        } else {
            Ok(Effect::Sent)
        }
    }

    fn poll_ack(&mut self, _pass: &()) -> Result<Effect, AllocError> {
        if self.account.closed || !self.acknowledges || !self.account.is_waiting() {
            return Ok(Effect::Nothing);
        }
        self.account.acked += 1;
        Ok(Effect::Acked)
    }

    fn close(&mut self, _pass: &()) -> Result<Effect, AllocError> {
        if self.account.closed {
            return Ok(Effect::Nothing);
        }
        self.account.closed = true;
        Ok(Effect::Closed)
    }

    fn account(&self) -> &SendAccount {
        &self.account
    }

    fn finish(self) -> SendAccount {
        self.account
    }

    fn done_account(done: &SendAccount) -> &SendAccount
        ensures { result.now ≡ done.now }
    {
        done
    }
}

/// An upper end that sees one entry of a list at each look, and after the last one nothing.
#[derive(Drop)]
pub struct PlainRecv {
    account: RecvAccount,
    seen: VecDeque<FrameSeen>,
}

impl PlainRecv {
    /// An end that has made no call, and will see these. It takes no memory.
    pub fn new(alloc: Global, seen: VecDeque<FrameSeen>) -> PlainRecv
        ensures { ⟦<PlainRecv as RecvSide>⟧.received result ≡ new_receiver }
    {
        PlainRecv {
            account: RecvAccount::new(alloc),
            seen,
        }
    }
}

impl RecvSide for PlainRecv {
    type Pass = ();

    type Done = RecvAccount;

    ghost Link = { Unit {0} };

    ghost link = { λ end. tt };

    ghost received = { λ end. end.account };

    ghost done_link = { λ done. tt };

    ghost done_received = { λ done. done };

    fn poll_frame(&mut self, _pass: &()) -> Result<FrameSeen, AllocError> {
        if self.account.closed {
            return Ok(FrameSeen::Closed);
        }
        self.account.delivered.reserve(1)?;
        let Some(seen) = self.seen.pop_front() else {
            return Ok(FrameSeen::Nothing);
        };
        match seen {
            FrameSeen::Fresh(item) => self.account.delivered.push_reserved(item),
            FrameSeen::Closed => self.account.closed = true,
            FrameSeen::Nothing | FrameSeen::Old => {}
        }
        Ok(seen)
    }

    fn send_ack(&mut self, _pass: &()) -> Result<Effect, AllocError> {
        if self.account.closed {
            Ok(Effect::Nothing)
        } else {
            Ok(Effect::Sent)
        }
    }

    fn account(&self) -> &RecvAccount {
        &self.account
    }

    fn finish(self) -> RecvAccount {
        self.account
    }

    fn done_account(done: &RecvAccount) -> &RecvAccount
        ensures { result.now ≡ done.now }
    {
        done
    }
}

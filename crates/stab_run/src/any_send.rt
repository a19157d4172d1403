ghost use Rattle.std.specs.Prelude.{◌≡◌, true, false, IfOk, OnErr};
ghost use Rattle.stab_ends.specs.Accounts.{MayOffer, Waits, after_offer, after_poll_ack};
ghost use Rattle.stab_ends.specs.Accounts.{after_close};
ghost use Rattle.stab_run.specs.AnyEnds.{AnyLinkId, MayRefuseOffer, OfWordSend, SameSendSteps};
ghost use Rattle.stab_run.specs.AnyEnds.{any_send_end, any_send_finished};
ghost use Rattle.stab_word.specs.Calls.{OfferCall, SendCall, PollAckCall, CloseCall};

use stab_core::Effect;
use stab_ends::{SendAccount, SendSide};
use stab_frames::Item;
use stab_lock::LockSend;
use stab_word::{SendDone, WordSend};
use std::alloc::AllocError;
use std::sync::Wait;

/// The sender's end of a link of either kind. Each call makes the call of its name of the end
/// inside. Over two words contracts say so: it makes the loads and stores that [`WordSend`] makes
/// in that call, and no other; it takes no runtime value and waits for nothing.
/// A refused call leaves the account and the acts of the end as they were.
pub enum AnySend<'a, R> {
    /// The end of a link with a lock.
    Lock(LockSend<'a, R>),
    /// The end of a link of two words.
    Word(WordSend<'a>),
}

impl<'a, R> Drop for AnySend<'a, R> {
    fn drop(self) {
        match self {
            AnySend::Lock(_) => {}
            AnySend::Word(_) => {}
        }
    }
}

/// What remains of the sender's end of a link of either kind, once it is finished: it is of the
/// end's kind.
#[derive(Drop)]
pub enum AnySendDone {
    /// The account of the end of a link with a lock.
    Lock(SendAccount),
    /// The finished end of a link of two words.
    Word(SendDone),
}

impl<'a, R: Wait> SendSide for AnySend<'a, R> {
    type Pass = R;

    type Done = AnySendDone;

    ghost Link = { AnyLinkId };

    ghost link = { λ end. (any_send_end end).link };

    ghost sent = { λ end. (any_send_end end).account };

    ghost may_refuse_offer = { MayRefuseOffer };

    ghost done_link = { λ done. (any_send_finished done).link };

    ghost done_sent = { λ done. (any_send_finished done).account };

    fn offer(&mut self, pass: &R, item: Item) -> Result<bool, AllocError>
        ensures account { (any_send_end self.new).account
            ≡ after_offer (any_send_end self.old).account item result }
        ensures taken { IfOk result (λ taken.
            taken ≡ true → MayOffer (any_send_end self.old).account) }
        ensures not_taken { IfOk result (λ taken. taken ≡ false
            → MayOffer (any_send_end self.old).account
            → MayRefuseOffer (any_send_end self.old).link) }
        ensures link { (any_send_end self.new).link ≡ (any_send_end self.old).link }

        ensures unchanged { OnErr result (any_send_end self.new ≡ any_send_end self.old) }
        ensures of_words { OfWordSend (OfferCall item result) self.old self.new }
    {
        match self {
            AnySend::Lock(end) => end.offer(pass, item),
            AnySend::Word(end) => end.offer(&(), item),
        }
    }

    fn send(&mut self, pass: &R) -> Result<Effect, AllocError>
        ensures account { (any_send_end self.new).account ≡ (any_send_end self.old).account }
        ensures link { (any_send_end self.new).link ≡ (any_send_end self.old).link }

        ensures unchanged { OnErr result (any_send_end self.new ≡ any_send_end self.old) }
        ensures of_words { OfWordSend (SendCall result) self.old self.new }
    {
        match self {
            AnySend::Lock(end) => end.send(pass),
            AnySend::Word(end) => end.send(&()),
        }
    }

    fn poll_ack(&mut self, pass: &R) -> Result<Effect, AllocError>
        ensures account { (any_send_end self.new).account
            ≡ after_poll_ack (any_send_end self.old).account result }
        ensures acked { IfOk result (λ effect.
            effect ≡ Effect.Acked → Waits (any_send_end self.old).account) }
        ensures link { (any_send_end self.new).link ≡ (any_send_end self.old).link }

        ensures unchanged { OnErr result (any_send_end self.new ≡ any_send_end self.old) }
        ensures of_words { OfWordSend (PollAckCall result) self.old self.new }
    {
        match self {
            AnySend::Lock(end) => end.poll_ack(pass),
            AnySend::Word(end) => end.poll_ack(&()),
        }
    }

    fn close(&mut self, pass: &R) -> Result<Effect, AllocError>
        ensures account { (any_send_end self.new).account
            ≡ after_close (any_send_end self.old).account result }
        ensures link { (any_send_end self.new).link ≡ (any_send_end self.old).link }

        ensures unchanged { OnErr result (any_send_end self.new ≡ any_send_end self.old) }
        ensures of_words { OfWordSend (CloseCall result) self.old self.new }
    {
        match self {
            AnySend::Lock(end) => end.close(pass),
            AnySend::Word(end) => end.close(&()),
        }
    }

    fn account(&self) -> &SendAccount {
        match self {
            AnySend::Lock(end) => end.account(),
            AnySend::Word(end) => end.account(),
        }
    }

    fn finish(self) -> AnySendDone
        ensures account { (any_send_finished result).account ≡ (any_send_end self.entry).account }
        ensures link { (any_send_finished result).link ≡ (any_send_end self.entry).link }

        ensures of_words { SameSendSteps self.entry result }
    {
        match self {
            AnySend::Lock(end) => AnySendDone::Lock(end.finish()),
            AnySend::Word(end) => AnySendDone::Word(end.finish()),
        }
    }

    fn done_account(done: &AnySendDone) -> &SendAccount
        ensures { result.now ≡ (any_send_finished done.now).account }
    {
        match done {
            AnySendDone::Lock(done) => done,
            AnySendDone::Word(done) => WordSend::done_account(done),
        }
    }
}

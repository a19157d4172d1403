ghost use Rattle.std.specs.Prelude.{◌≡◌, ◌↔◌, true, false, [], IsTrue, IfOk};
ghost use Rattle.stab_ends.specs.Accounts.{MayOffer, Waits, after_offer};
ghost use Rattle.stab_ends.specs.Accounts.{after_close, after_poll_ack, new_sender};
ghost use Rattle.stab_word.specs.Answers.{has_frame};
ghost use Rattle.stab_word.specs.Calls.{OfferCall, SendCall, PollAckCall, CloseCall};
ghost use Rattle.stab_word.specs.Ends.{sender_seat};
ghost use Rattle.stab_word.specs.Seats.{LinkId, link_of_sender};

use crate::seats::SendSeat;
use crate::steps::WordTable;
use crate::words::AckWord;
use stab_acts::{HalfScript, OutAct};
use stab_core::Effect;
use stab_ends::{SendAccount, SendSide};
use stab_frames::{Frame, Item, Label, Params};
use std::alloc::AllocError;
use std::marker::Model;

/// Whether the end may take an item: each item that it took is acknowledged, and it is not closed.
fn may_offer(account: &SendAccount) -> bool
    ensures { IsTrue result ↔ MayOffer account.now }
{
    !account.closed && account.is_idle()
}

/// Whether the last item that the end took waits for its acknowledgement, and it is not closed.
fn waits(account: &SendAccount) -> bool
    ensures waits { IsTrue result ↔ Waits account.now }
    ensures test { result ≡ has_frame account.now }
{
    !account.closed && account.is_waiting()
}

/// The sender's end of a link of two words. A call makes at most one atomic step, a load or a
/// store, and waits for nothing. Contracts see its link, its account, its label, the acts of its
/// script that remain, and the steps that it made, which no value at run time holds.
#[derive(Drop)]
pub struct WordSend<'a> {
    table: &'a WordTable,
    seat: SendSeat,
    params: Params,
    label: Label,
    account: SendAccount,
    acts: HalfScript,
}

impl<'a> Model for WordSend<'a> {
    ghost use Rattle.std.specs.Prelude.{◌≡◌, ◌≤◌, ◌+◌, length};
    ghost use Rattle.stab_word.specs.Ends.{WordSendView, sender_seat};

    ghost Value = { WordSendView };

    ghost view = { λ e. record {
      link = e.table.now;
      sent = e.account;
      label = e.label;
      acts = e.acts;
      steps = e.seat.view.steps;
    } };

    ghost invariant = { λ e. (e.params ≡ e.table.now.given.params)
        × (e.account.acked ≤ length e.account.offered)
        × (length e.account.offered ≤ e.account.acked + 1)
        × (e.seat ≡ sender_seat e.table.now e.label e.account e.seat.view.steps) };
}

impl<'a> WordSend<'a> {
    /// The end of this link at this seat, which has made no call.
    pub(crate) fn new(
        table: &'a WordTable,
        seat: SendSeat,
        params: Params,
        label: Label,
        account: SendAccount,
        acts: HalfScript,
    ) -> WordSend<'a>
        requires params { params ≡ table.now.given.params }
        requires account { account ≡ new_sender }
        requires seat { seat ≡ sender_seat table.now label account [] }
        ensures { result ≡ record {
          link = table.now;
          sent = account;
          label = label;
          acts = acts;
          steps = [];
        } }
    {
        WordSend {
            table,
            seat,
            params,
            label,
            account,
            acts,
        }
    }

    /// Makes room for this many more items in the account, as far as memory is there. No step.
    pub fn reserve(&mut self, additional: usize)
        ensures { self.new ≡ self.old }
    {
        self.account.reserve(additional);
    }
}

/// A finished sender's end, which borrows nothing: what its link needs to settle it. Contracts see
/// its link, its account, and the steps that it made.
#[derive(Drop)]
pub struct SendDone {
    seat: SendSeat,
    account: SendAccount,
}

impl Model for SendDone {
    ghost use Rattle.std.specs.Prelude.{◌≡◌};
    ghost use Rattle.stab_word.specs.Ends.{SendFinished};
    ghost use Rattle.stab_word.specs.Seats.{link_of_sender};

    ghost Value = { SendFinished };

    ghost view = { λ d.
        record { link = link_of_sender d.seat; sent = d.account; steps = d.seat.view.steps } };

    ghost invariant = { λ d. d.seat.view.account ≡ d.account };
}

impl SendDone {
    /// The seat and the account. The seat's view says the account and the steps.
    pub(crate) fn into_parts(self) -> (SendSeat, SendAccount)
        ensures link { link_of_sender result.0 ≡ self.link }
        ensures view { result.0.view.account ≡ self.sent }
        ensures steps { result.0.view.steps ≡ self.steps }
        ensures account { result.1 ≡ self.sent }
    {
        let SendDone { seat, account } = self;
        (seat, account)
    }
}

impl<'a> SendSide for WordSend<'a> {
    type Pass = ();

    type Done = SendDone;

    ghost Link = { LinkId };

    ghost link = { λ end. end.link };

    ghost sent = { λ end. end.sent };

    ghost may_refuse_offer = { λ link. ⊥ };

    ghost done_link = { λ done. done.link };

    ghost done_sent = { λ done. done.sent };

    /// It takes memory only where it would take the item. An item that is taken is one load of the
    /// frame word, whatever it shows; an item that is not taken is no step.
    fn offer(&mut self, _pass: &(), item: Item) -> Result<bool, AllocError>
        ensures account { self.new.sent ≡ after_offer self.old.sent item result }
        ensures taken { IfOk result (λ taken. taken ≡ true → MayOffer self.old.sent) }
        ensures not_taken { IfOk result (λ taken. taken ≡ false → ¬ MayOffer self.old.sent) }
        ensures link { self.new.link ≡ self.old.link }

        ensures call { OfferCall item result self.old self.new }
    {
        if !may_offer(&self.account) {
            return Ok(false);
        }
        self.account.offered.reserve(1)?;
        self.table.offer_load(&mut self.seat, item);
        self.account.offered.push_reserved(item);
        Ok(true)
    }

    /// Where an item waits and the link is open, the next act says whether its frame is stored: one
    /// store under pass and evict, and none under drop. Otherwise it makes no step and takes no
    /// act.
    fn send(&mut self, _pass: &()) -> Result<Effect, AllocError>
        ensures account { self.new.sent ≡ self.old.sent }
        ensures link { self.new.link ≡ self.old.link }

        ensures call { SendCall result self.old self.new }
    {
        if !waits(&self.account) {
            return Ok(Effect::Nothing);
        }
        match self.acts.next_out() {
            OutAct::Drop => Ok(Effect::Lost),
            OutAct::Pass | OutAct::Evict => {
                let item = self.account.offered[self.account.acked as usize];
                let frame = Frame {
                    label: self.label,
                    item,
                };
                self.table.frame_store(&mut self.seat, frame);
                Ok(Effect::Sent)
            }
        }
    }

    /// One load of the acknowledgement word, also where no item waits; once the end closed the
    /// link, no step. The answer goes by the word that the load shows. An act is taken where the
    /// word shows an acknowledgement.
    fn poll_ack(&mut self, _pass: &()) -> Result<Effect, AllocError>
        ensures account { self.new.sent ≡ after_poll_ack self.old.sent result }
        ensures acked { IfOk result (λ effect. effect ≡ Effect.Acked → Waits self.old.sent) }
        ensures link { self.new.link ≡ self.old.link }

        ensures call { PollAckCall result self.old self.new }
    {
        let waits = waits(&self.account);
        if self.account.closed {
            return Ok(Effect::Nothing);
        }
        let AckWord::Full(label) = self.table.ack_load(&mut self.seat) else {
            return Ok(Effect::Nothing);
        };
        self.acts.next_in();
        if !waits || label != self.label {
            return Ok(Effect::Ignored);
        }
        self.account.acked += 1;
        self.label = self.params.next(self.label);
        Ok(Effect::Acked)
    }

    /// One store, the first time; no step after it.
    fn close(&mut self, _pass: &()) -> Result<Effect, AllocError>
        ensures account { self.new.sent ≡ after_close self.old.sent result }
        ensures link { self.new.link ≡ self.old.link }

        ensures call { CloseCall result self.old self.new }
    {
        if self.account.closed {
            return Ok(Effect::Nothing);
        }
        self.table.close_store(&mut self.seat);
        self.account.closed = true;
        Ok(Effect::Closed)
    }

    fn account(&self) -> &SendAccount {
        &self.account
    }

    /// No step.
    fn finish(self) -> SendDone
        ensures account { result.sent ≡ self.entry.sent }
        ensures link { result.link ≡ self.entry.link }

        ensures steps { result.steps ≡ self.entry.steps }
    {
        let WordSend { seat, account, .. } = self;
        SendDone { seat, account }
    }

    fn done_account(done: &SendDone) -> &SendAccount
        ensures { result.now ≡ done.now.sent }
    {
        &done.account
    }
}

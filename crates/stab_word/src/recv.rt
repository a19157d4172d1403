ghost use Rattle.std.specs.Prelude.{◌≡◌, [], IfOk};
ghost use Rattle.stab_ends.specs.Accounts.{IsOpenFor, after_poll_frame};
ghost use Rattle.stab_word.specs.Calls.{PollFrameCall, SendAckCall};
ghost use Rattle.stab_word.specs.Ends.{receiver_seat};
ghost use Rattle.stab_word.specs.Seats.{LinkId, link_of_receiver};

use crate::seats::RecvSeat;
use crate::steps::WordTable;
use crate::words::FrameWord;
use stab_acts::{HalfScript, OutAct};
use stab_core::Effect;
use stab_ends::{FrameSeen, RecvAccount, RecvSide};
use stab_frames::Label;
use std::alloc::AllocError;
use std::marker::Model;

/// The receiver's end of a link of two words. A call makes at most two atomic steps, each a load
/// or a store, and waits for nothing. Contracts see its link, its account, the label that it took
/// last, the acts of its script that remain, and the steps that it made, which no value at run time
/// holds.
#[derive(Drop)]
pub struct WordRecv<'a> {
    table: &'a WordTable,
    seat: RecvSeat,
    label: Label,
    account: RecvAccount,
    acts: HalfScript,
}

impl<'a> Model for WordRecv<'a> {
    ghost use Rattle.std.specs.Prelude.{◌≡◌};
    ghost use Rattle.stab_word.specs.Ends.{WordRecvView, receiver_seat};

    ghost Value = { WordRecvView };

    ghost view = { λ e. record {
      link = e.table.now;
      received = e.account;
      label = e.label;
      acts = e.acts;
      steps = e.seat.view.steps;
    } };

    ghost invariant = { λ e.
        e.seat ≡ receiver_seat e.table.now e.label e.account e.seat.view.steps };
}

impl<'a> WordRecv<'a> {
    /// The end of this link at this seat.
    pub(crate) fn new(
        table: &'a WordTable,
        seat: RecvSeat,
        label: Label,
        account: RecvAccount,
        acts: HalfScript,
    ) -> WordRecv<'a>
        requires { seat ≡ receiver_seat table.now label account [] }
        ensures { result ≡ record {
          link = table.now;
          received = account;
          label = label;
          acts = acts;
          steps = [];
        } }
    {
        WordRecv {
            table,
            seat,
            label,
            account,
            acts,
        }
    }

    /// Makes room for this many more items in the account, as far as memory is there. No step.
    pub fn reserve(&mut self, additional: usize)
        ensures { self.new ≡ self.old }
    {
        self.account.reserve(additional);
    }
}

/// A finished receiver's end, which borrows nothing: what its link needs to settle it. Contracts
/// see its link, its account, and the steps that it made.
#[derive(Drop)]
pub struct RecvDone {
    seat: RecvSeat,
    account: RecvAccount,
}

impl Model for RecvDone {
    ghost use Rattle.std.specs.Prelude.{◌≡◌};
    ghost use Rattle.stab_word.specs.Ends.{RecvFinished};
    ghost use Rattle.stab_word.specs.Seats.{link_of_receiver};

    ghost Value = { RecvFinished };

    ghost view = { λ d. record {
      link = link_of_receiver d.seat;
      received = d.account;
      steps = d.seat.view.steps;
    } };

    ghost invariant = { λ d. d.seat.view.account ≡ d.account };
}

impl RecvDone {
    /// The seat and the account. The seat's view says the account and the steps.
    pub(crate) fn into_parts(self) -> (RecvSeat, RecvAccount)
        ensures link { link_of_receiver result.0 ≡ self.link }
        ensures view { result.0.view.account ≡ self.received }
        ensures steps { result.0.view.steps ≡ self.steps }
        ensures account { result.1 ≡ self.received }
    {
        let RecvDone { seat, account } = self;
        (seat, account)
    }
}

impl<'a> RecvSide for WordRecv<'a> {
    type Pass = ();

    type Done = RecvDone;

    ghost Link = { LinkId };

    ghost link = { λ end. end.link };

    ghost received = { λ end. end.received };

    ghost done_link = { λ done. done.link };

    ghost done_received = { λ done. done.received };

    /// One load of the frame word, where the account has a place for an item. Where it has none,
    /// the load only looks; where that shows a frame with another label, and nowhere else, the call
    /// takes memory for a place, loads once more, and takes whatever that load shows. Once the
    /// close was seen, no step. An act is taken where the last load shows a frame, unless memory is
    /// refused.
    fn poll_frame(&mut self, _pass: &()) -> Result<FrameSeen, AllocError>
        ensures account { self.new.received ≡ after_poll_frame self.old.received result }
        ensures open { IfOk result (IsOpenFor self.old.received) }
        ensures link { self.new.link ≡ self.old.link }

        ensures call { PollFrameCall result self.old self.new }
    {
        if self.account.closed {
            return Ok(FrameSeen::Closed);
        }
        if self.account.delivered.len() == self.account.delivered.capacity() {
            match self
                .table
                .frame_look(&mut self.seat, &self.account.delivered)
            {
                FrameWord::Empty => return Ok(FrameSeen::Nothing),
                FrameWord::Closed => {
                    self.account.closed = true;
                    return Ok(FrameSeen::Closed);
                }
                FrameWord::Full(frame) => {
                    if frame.label == self.label {
                        self.acts.next_in();
                        return Ok(FrameSeen::Old);
                    }
                    self.account.delivered.reserve(1)?;
                }
            }
        }
        match self.table.frame_load(&mut self.seat) {
            FrameWord::Empty => Ok(FrameSeen::Nothing),
            FrameWord::Closed => {
                self.account.closed = true;
                Ok(FrameSeen::Closed)
            }
            FrameWord::Full(frame) => {
                self.acts.next_in();
                if frame.label == self.label {
                    return Ok(FrameSeen::Old);
                }
                self.label = frame.label;
                self.account.delivered.push_reserved(frame.item);
                Ok(FrameSeen::Fresh(frame.item))
            }
        }
    }

    /// Until the close was seen, the next act says whether the label is stored: one store under
    /// pass and evict, and none under drop. After it, no step, and no act is taken.
    fn send_ack(&mut self, _pass: &()) -> Result<Effect, AllocError>
        ensures account { self.new.received ≡ self.old.received }
        ensures link { self.new.link ≡ self.old.link }

        ensures call { SendAckCall result self.old self.new }
    {
        if self.account.closed {
            return Ok(Effect::Nothing);
        }
        match self.acts.next_out() {
            OutAct::Drop => Ok(Effect::Lost),
            OutAct::Pass | OutAct::Evict => {
                self.table.ack_store(&mut self.seat, self.label);
                Ok(Effect::Sent)
            }
        }
    }

    fn account(&self) -> &RecvAccount {
        &self.account
    }

    /// No step.
    fn finish(self) -> RecvDone
        ensures account { result.received ≡ self.entry.received }
        ensures link { result.link ≡ self.entry.link }

        ensures steps { result.steps ≡ self.entry.steps }
    {
        let WordRecv { seat, account, .. } = self;
        RecvDone { seat, account }
    }

    fn done_account(done: &RecvDone) -> &RecvAccount
        ensures { result.now ≡ done.now.received }
    {
        &done.account
    }
}

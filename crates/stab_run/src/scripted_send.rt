//! The sender's end that a run deals out, which keeps which script it follows.

ghost use Rattle.std.specs.Prelude.{◌≡◌};
ghost use Rattle.stab_acts.specs.Scripts.{sender_half};
ghost use Rattle.stab_run.specs.AnyEnds.{MayRefuseOffer, any_send_end, any_send_finished};
ghost use Rattle.stab_run.specs.Scripted.{IsLetThrough, IsNewSend, ScriptedLink, frame_stores};
ghost use Rattle.stab_run.specs.Scripted.{steps_sent};

use crate::any_send::{AnySend, AnySendDone};
use crate::plan::Plan;
use stab_core::Effect;
use stab_ends::{SendAccount, SendSide};
use stab_frames::Item;
use std::alloc::AllocError;
use std::marker::Model;
use std::sync::Wait;

/// An end of a link of either kind, in a run. It makes the calls of the end inside, but no more
/// sends than the job has turns, so contracts see how many acts of the script it took at most. A
/// worker makes one send a turn, so it never comes to one that is left out.
pub struct ScriptedSend<'a, 's, R> {
    end: AnySend<'a, R>,
    plan: Plan<'s>,
    sends: u32,
}

impl<'a, 's, R> Drop for ScriptedSend<'a, 's, R> {
    fn drop(self) {
        let ScriptedSend {
            end: _,
            plan: _,
            sends: _,
        } = self;
    }
}

impl<'a, 's, R> Model for ScriptedSend<'a, 's, R> {
    ghost use Rattle.std.specs.Prelude.{◌≤◌};
    ghost use Rattle.stab_acts.specs.Scripts.{sender_half};
    ghost use Rattle.stab_run.specs.AnyEnds.{any_send_end};
    ghost use Rattle.stab_run.specs.Scripted.{ScriptedSendEnd, SendsInOrder};

    ghost Value = { ScriptedSendEnd };

    ghost view = { λ e. record {
      link = record { id = (any_send_end e.end).link; plan = e.plan };
      account = (any_send_end e.end).account;
    } };

    ghost invariant = { λ e.
        (e.sends ≤ e.plan.turns) × SendsInOrder (sender_half e.plan.script) e.sends e.end };
}

impl<'a, 's, R> ScriptedSend<'a, 's, R> {
    /// An end that has made no call, with the sender's half of the script that it follows.
    #[tactic(auto, using(crate::proofs::InOrder::new_sends))]
    pub(crate) fn new(end: AnySend<'a, R>, plan: Plan<'s>) -> ScriptedSend<'a, 's, R>
        requires { IsNewSend (sender_half plan.script) end }
        ensures link { result.link
            ≡ record { id = (any_send_end end.entry).link; plan = plan.entry } }
        ensures account { result.account ≡ (any_send_end end.entry).account }
    {
        ScriptedSend {
            end,
            plan,
            sends: 0,
        }
    }
}

/// What remains of the end once it is finished.
#[derive(Drop)]
pub struct ScriptedSendDone<'s> {
    done: AnySendDone,
    plan: Plan<'s>,
}

impl<'s> Model for ScriptedSendDone<'s> {
    ghost use Rattle.stab_acts.specs.Scripts.{sender_half};
    ghost use Rattle.stab_run.specs.AnyEnds.{any_send_finished};
    ghost use Rattle.stab_run.specs.Scripted.{IsLetThrough, ScriptedSendFinished};
    ghost use Rattle.stab_run.specs.Scripted.{frame_stores, steps_sent};

    ghost Value = { ScriptedSendFinished };

    ghost view = { λ d. record {
      link = record { id = (any_send_finished d.done).link; plan = d.plan };
      account = (any_send_finished d.done).account;
      steps = steps_sent d.done;
    } };

    ghost invariant = { λ d. IsLetThrough (sender_half d.plan.script) d.plan.turns
        (frame_stores (steps_sent d.done)) };
}

impl<'s> ScriptedSendDone<'s> {
    /// The finished end inside. Its steps are those of an end that followed its script.
    pub(crate) fn into_done(self) -> AnySendDone
        ensures link { (any_send_finished result).link ≡ self.entry.link.id }
        ensures account { (any_send_finished result).account ≡ self.entry.account }
        ensures steps { steps_sent result ≡ self.entry.steps }
        ensures followed { IsLetThrough (sender_half self.entry.link.plan.script)
            self.entry.link.plan.turns (frame_stores self.entry.steps) }
    {
        let ScriptedSendDone { done, plan: _ } = self;
        done
    }
}

impl<'a, 's, R: Wait> SendSide for ScriptedSend<'a, 's, R> {
    type Pass = R;

    type Done = ScriptedSendDone<'s>;

    ghost Link = { ScriptedLink };

    ghost link = { λ end. end.link };

    ghost sent = { λ end. end.account };

    ghost may_refuse_offer = { λ link. MayRefuseOffer link.id };

    ghost done_link = { λ done. done.link };

    ghost done_sent = { λ done. done.account };

    #[tactic(auto, using(crate::proofs::InOrder::offer_keeps))]
    fn offer(&mut self, pass: &R, item: Item) -> Result<bool, AllocError> {
        self.end.offer(pass, item)
    }

    #[tactic(auto, using(crate::proofs::InOrder::send_keeps))]
    fn send(&mut self, pass: &R) -> Result<Effect, AllocError> {
        if self.sends == self.plan.turns() {
            return Ok(Effect::Nothing);
        }
        self.sends += 1;
        self.end.send(pass)
    }

    #[tactic(auto, using(crate::proofs::InOrder::poll_ack_keeps))]
    fn poll_ack(&mut self, pass: &R) -> Result<Effect, AllocError> {
        self.end.poll_ack(pass)
    }

    #[tactic(auto, using(crate::proofs::InOrder::close_keeps))]
    fn close(&mut self, pass: &R) -> Result<Effect, AllocError> {
        self.end.close(pass)
    }

    fn account(&self) -> &SendAccount {
        self.end.account()
    }

    #[tactic(auto, using(crate::proofs::InOrder::finished_sends))]
    fn finish(self) -> ScriptedSendDone<'s> {
        let ScriptedSend {
            end,
            plan,
            sends: _,
        } = self;
        ScriptedSendDone {
            done: end.finish(),
            plan,
        }
    }

    fn done_account<'d>(done: &'d ScriptedSendDone<'s>) -> &'d SendAccount
        ensures { result.now ≡ done.now.account }
    {
        AnySend::<R>::done_account(&done.done)
    }
}

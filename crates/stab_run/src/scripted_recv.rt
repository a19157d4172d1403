//! The receiver's end that a run deals out, which keeps which script it follows.

ghost use Rattle.std.specs.Prelude.{◌≡◌};
ghost use Rattle.stab_acts.specs.Scripts.{receiver_half};
ghost use Rattle.stab_run.specs.AnyEnds.{any_recv_end, any_recv_finished};
ghost use Rattle.stab_run.specs.Scripted.{IsLetThrough, IsNewRecv, ScriptedLink, ack_stores};
ghost use Rattle.stab_run.specs.Scripted.{steps_received};

use crate::any_recv::{AnyRecv, AnyRecvDone};
use crate::plan::Plan;
use stab_core::Effect;
use stab_ends::{FrameSeen, RecvAccount, RecvSide};
use std::alloc::AllocError;
use std::marker::Model;
use std::sync::Wait;

/// An end of a link of either kind, in a run. It makes the calls of the end inside, but no more
/// sends than the job has turns, as the sender's end of a run.
pub struct ScriptedRecv<'a, 's, R> {
    end: AnyRecv<'a, R>,
    plan: Plan<'s>,
    sends: u32,
}

impl<'a, 's, R> Drop for ScriptedRecv<'a, 's, R> {
    fn drop(self) {
        let ScriptedRecv {
            end: _,
            plan: _,
            sends: _,
        } = self;
    }
}

impl<'a, 's, R> Model for ScriptedRecv<'a, 's, R> {
    ghost use Rattle.std.specs.Prelude.{◌≤◌};
    ghost use Rattle.stab_acts.specs.Scripts.{receiver_half};
    ghost use Rattle.stab_run.specs.AnyEnds.{any_recv_end};
    ghost use Rattle.stab_run.specs.Scripted.{AnswersInOrder, ScriptedRecvEnd};

    ghost Value = { ScriptedRecvEnd };

    ghost view = { λ e. record {
      link = record { id = (any_recv_end e.end).link; plan = e.plan };
      account = (any_recv_end e.end).account;
    } };

    ghost invariant = { λ e.
        (e.sends ≤ e.plan.turns) × AnswersInOrder (receiver_half e.plan.script) e.sends e.end };
}

impl<'a, 's, R> ScriptedRecv<'a, 's, R> {
    /// An end that has made no call, with the receiver's half of the script that it follows.
    #[tactic(auto, using(crate::proofs::InOrder::new_answers))]
    pub(crate) fn new(end: AnyRecv<'a, R>, plan: Plan<'s>) -> ScriptedRecv<'a, 's, R>
        requires { IsNewRecv (receiver_half plan.script) end }
        ensures link { result.link
            ≡ record { id = (any_recv_end end.entry).link; plan = plan.entry } }
        ensures account { result.account ≡ (any_recv_end end.entry).account }
    {
        ScriptedRecv {
            end,
            plan,
            sends: 0,
        }
    }
}

/// What remains of the end once it is finished.
#[derive(Drop)]
pub struct ScriptedRecvDone<'s> {
    done: AnyRecvDone,
    plan: Plan<'s>,
}

impl<'s> Model for ScriptedRecvDone<'s> {
    ghost use Rattle.stab_acts.specs.Scripts.{receiver_half};
    ghost use Rattle.stab_run.specs.AnyEnds.{any_recv_finished};
    ghost use Rattle.stab_run.specs.Scripted.{IsLetThrough, ScriptedRecvFinished};
    ghost use Rattle.stab_run.specs.Scripted.{ack_stores, steps_received};

    ghost Value = { ScriptedRecvFinished };

    ghost view = { λ d. record {
      link = record { id = (any_recv_finished d.done).link; plan = d.plan };
      account = (any_recv_finished d.done).account;
      steps = steps_received d.done;
    } };

    ghost invariant = { λ d. IsLetThrough (receiver_half d.plan.script) d.plan.turns
        (ack_stores (steps_received d.done)) };
}

impl<'s> ScriptedRecvDone<'s> {
    /// The finished end inside. Its steps are those of an end that followed its script.
    pub(crate) fn into_done(self) -> AnyRecvDone
        ensures link { (any_recv_finished result).link ≡ self.entry.link.id }
        ensures account { (any_recv_finished result).account ≡ self.entry.account }
        ensures steps { steps_received result ≡ self.entry.steps }
        ensures followed { IsLetThrough (receiver_half self.entry.link.plan.script)
            self.entry.link.plan.turns (ack_stores self.entry.steps) }
    {
        let ScriptedRecvDone { done, plan: _ } = self;
        done
    }
}

impl<'a, 's, R: Wait> RecvSide for ScriptedRecv<'a, 's, R> {
    type Pass = R;

    type Done = ScriptedRecvDone<'s>;

    ghost Link = { ScriptedLink };

    ghost link = { λ end. end.link };

    ghost received = { λ end. end.account };

    ghost done_link = { λ done. done.link };

    ghost done_received = { λ done. done.account };

    #[tactic(auto, using(crate::proofs::InOrder::poll_frame_keeps))]
    fn poll_frame(&mut self, pass: &R) -> Result<FrameSeen, AllocError> {
        self.end.poll_frame(pass)
    }

    #[tactic(auto, using(crate::proofs::InOrder::send_ack_keeps))]
    fn send_ack(&mut self, pass: &R) -> Result<Effect, AllocError> {
        if self.sends == self.plan.turns() {
            return Ok(Effect::Nothing);
        }
        self.sends += 1;
        self.end.send_ack(pass)
    }

    fn account(&self) -> &RecvAccount {
        self.end.account()
    }

    #[tactic(auto, using(crate::proofs::InOrder::finished_answers))]
    fn finish(self) -> ScriptedRecvDone<'s> {
        let ScriptedRecv {
            end,
            plan,
            sends: _,
        } = self;
        ScriptedRecvDone {
            done: end.finish(),
            plan,
        }
    }

    fn done_account<'d>(done: &'d ScriptedRecvDone<'s>) -> &'d RecvAccount
        ensures { result.now ≡ done.now.account }
    {
        AnyRecv::<R>::done_account(&done.done)
    }
}

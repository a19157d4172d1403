ghost use Rattle.std.specs.Prelude.{◌≡◌, length};
ghost use Rattle.stab_acts.specs.Scripts.{out_act, in_act, after_out, after_in};

use crate::act::{InAct, OutAct};
use crate::acts::ActList;
use std::marker::Model;

/// The acts that one end of a link has still to take: for what it sends, and for what it receives.
/// A contract sees exactly those, so a caller that is refused between
/// [`peek_out`](HalfScript::peek_out) and [`next_out`](HalfScript::next_out) has the script as it
/// was. No call takes memory, and each takes the same time however many acts there are.
#[derive(Debug)]
pub struct HalfScript {
    outs: ActList<OutAct>,
    outs_taken: usize,
    ins: ActList<InAct>,
    ins_taken: usize,
}

impl Drop for HalfScript {
    fn drop(self) {
        let HalfScript {
            outs: _,
            outs_taken: _,
            ins: _,
            ins_taken: _,
        } = self;
    }
}

impl Model for HalfScript {
    ghost use Rattle.std.specs.Prelude.{drop};
    ghost use Rattle.stab_acts.specs.Scripts.{ActsRemaining};

    ghost Value = { ActsRemaining };

    ghost view = { λ h. record { outs = drop h.outs_taken h.outs; ins = drop h.ins_taken h.ins } };
}

impl HalfScript {
    /// The half of these acts, none of which is taken.
    pub(crate) fn new(outs: ActList<OutAct>, ins: ActList<InAct>) -> HalfScript
        ensures { result ≡ record { outs = outs; ins = ins } }
    {
        HalfScript {
            outs,
            outs_taken: 0,
            ins,
            ins_taken: 0,
        }
    }

    /// The act for what goes out next, which is not taken.
    pub fn peek_out(&self) -> OutAct
        ensures { result ≡ out_act self.now.outs }
    {
        self.outs
            .as_slice()
            .get(self.outs_taken)
            .copied()
            .unwrap_or(OutAct::Pass)
    }

    /// The act for what comes in next, which is not taken.
    pub fn peek_in(&self) -> InAct
        ensures { result ≡ in_act self.now.ins }
    {
        self.ins
            .as_slice()
            .get(self.ins_taken)
            .copied()
            .unwrap_or(InAct::Take)
    }

    /// How many acts for what goes out remain. Whoever has the whole list knows from this which of
    /// its acts were taken.
    pub fn outs_left(&self) -> usize
        ensures { result ≡ length self.now.outs }
    {
        self.outs.len().saturating_sub(self.outs_taken)
    }

    /// How many acts for what comes in remain.
    pub fn ins_left(&self) -> usize
        ensures { result ≡ length self.now.ins }
    {
        self.ins.len().saturating_sub(self.ins_taken)
    }

    /// Takes the act for what goes out next: the first that remains, and past the end `Pass`.
    #[tactic(auto, using(crate::proofs::Taking::drop_one_more))]
    pub fn next_out(&mut self) -> OutAct
        ensures act { result ≡ out_act self.old.outs }
        ensures remaining { self.new ≡ after_out self.old }
    {
        let act = self.peek_out();
        if self.outs_taken < self.outs.len() {
            self.outs_taken += 1;
        }
        act
    }

    /// Takes the act for what comes in next: the first that remains, and past the end `Take`.
    #[tactic(auto, using(crate::proofs::Taking::drop_one_more))]
    pub fn next_in(&mut self) -> InAct
        ensures act { result ≡ in_act self.old.ins }
        ensures remaining { self.new ≡ after_in self.old }
    {
        let act = self.peek_in();
        if self.ins_taken < self.ins.len() {
            self.ins_taken += 1;
        }
        act
    }
}

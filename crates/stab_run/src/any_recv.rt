ghost use Rattle.std.specs.Prelude.{◌≡◌, IfOk, OnErr};
ghost use Rattle.stab_ends.specs.Accounts.{IsOpenFor, after_poll_frame};
ghost use Rattle.stab_run.specs.AnyEnds.{AnyLinkId, OfWordRecv, SameRecvSteps, any_recv_end};
ghost use Rattle.stab_run.specs.AnyEnds.{any_recv_finished};
ghost use Rattle.stab_word.specs.Calls.{PollFrameCall, SendAckCall};

use stab_core::Effect;
use stab_ends::{FrameSeen, RecvAccount, RecvSide};
use stab_lock::LockRecv;
use stab_word::{RecvDone, WordRecv};
use std::alloc::AllocError;
use std::sync::Wait;

/// The receiver's end of a link of either kind. Each call makes the call of its name of the end
/// inside. Over two words contracts say so: it makes the loads and stores that [`WordRecv`] makes
/// in that call, and no other; it takes no runtime value and waits for nothing.
/// A refused call leaves the account and the acts of the end as they were.
pub enum AnyRecv<'a, R> {
    /// The end of a link with a lock.
    Lock(LockRecv<'a, R>),
    /// The end of a link of two words.
    Word(WordRecv<'a>),
}

impl<'a, R> Drop for AnyRecv<'a, R> {
    fn drop(self) {
        match self {
            AnyRecv::Lock(_) => {}
            AnyRecv::Word(_) => {}
        }
    }
}

/// What remains of the receiver's end of a link of either kind, once it is finished: it is of the
/// end's kind.
#[derive(Drop)]
pub enum AnyRecvDone {
    /// The account of the end of a link with a lock.
    Lock(RecvAccount),
    /// The finished end of a link of two words.
    Word(RecvDone),
}

impl<'a, R: Wait> RecvSide for AnyRecv<'a, R> {
    type Pass = R;

    type Done = AnyRecvDone;

    ghost Link = { AnyLinkId };

    ghost link = { λ end. (any_recv_end end).link };

    ghost received = { λ end. (any_recv_end end).account };

    ghost done_link = { λ done. (any_recv_finished done).link };

    ghost done_received = { λ done. (any_recv_finished done).account };

    fn poll_frame(&mut self, pass: &R) -> Result<FrameSeen, AllocError>
        ensures account { (any_recv_end self.new).account
            ≡ after_poll_frame (any_recv_end self.old).account result }
        ensures open { IfOk result (IsOpenFor (any_recv_end self.old).account) }
        ensures link { (any_recv_end self.new).link ≡ (any_recv_end self.old).link }

        ensures unchanged { OnErr result (any_recv_end self.new ≡ any_recv_end self.old) }
        ensures of_words { OfWordRecv (PollFrameCall result) self.old self.new }
    {
        match self {
            AnyRecv::Lock(end) => end.poll_frame(pass),
            AnyRecv::Word(end) => end.poll_frame(&()),
        }
    }

    fn send_ack(&mut self, pass: &R) -> Result<Effect, AllocError>
        ensures account { (any_recv_end self.new).account ≡ (any_recv_end self.old).account }
        ensures link { (any_recv_end self.new).link ≡ (any_recv_end self.old).link }

        ensures unchanged { OnErr result (any_recv_end self.new ≡ any_recv_end self.old) }
        ensures of_words { OfWordRecv (SendAckCall result) self.old self.new }
    {
        match self {
            AnyRecv::Lock(end) => end.send_ack(pass),
            AnyRecv::Word(end) => end.send_ack(&()),
        }
    }

    fn account(&self) -> &RecvAccount {
        match self {
            AnyRecv::Lock(end) => end.account(),
            AnyRecv::Word(end) => end.account(),
        }
    }

    fn finish(self) -> AnyRecvDone
        ensures account { (any_recv_finished result).account ≡ (any_recv_end self.entry).account }
        ensures link { (any_recv_finished result).link ≡ (any_recv_end self.entry).link }

        ensures of_words { SameRecvSteps self.entry result }
    {
        match self {
            AnyRecv::Lock(end) => AnyRecvDone::Lock(end.finish()),
            AnyRecv::Word(end) => AnyRecvDone::Word(end.finish()),
        }
    }

    fn done_account(done: &AnyRecvDone) -> &RecvAccount
        ensures { result.now ≡ (any_recv_finished done.now).account }
    {
        match done {
            AnyRecvDone::Lock(done) => done,
            AnyRecvDone::Word(done) => WordRecv::done_account(done),
        }
    }
}

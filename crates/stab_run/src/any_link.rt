//! A link of either kind. It is made, split into its two ends, and settled with them once they are
//! finished.

ghost use Rattle.std.specs.Prelude.{◌≡◌, [], ◌∷◌, if◌then◌else◌, IfErr, IfOk, OnOk};
ghost use Rattle.stab_core.specs.LinkSetup.{setup};
ghost use Rattle.stab_core.specs.Replay.{IsLawful};
ghost use Rattle.stab_ends.specs.Accounts.{new_receiver, new_sender};
ghost use Rattle.stab_run.specs.AnyLinks.{HasReceived, HasSent, IsFollowed, IsOneOf, IsOpenedBy};
ghost use Rattle.stab_run.specs.AnyLinks.{IsScriptOf, MayDiffer, Receives, Sends, given_to};
ghost use Rattle.stab_run.specs.AnyLinks.{kind_of};
ghost use Rattle.stab_run.specs.LinkKinds.{HaveOnePlace, behind_lock, kind_for, two_words};
ghost use Rattle.stab_run.specs.Scripted.{plan};
ghost use Rattle.stab_run.specs.Settled.{IsSettled};

use crate::any_recv::{AnyRecv, AnyRecvDone};
use crate::any_send::{AnySend, AnySendDone};
use crate::links::Links;
use crate::plan::Plan;
use crate::scripted_recv::{ScriptedRecv, ScriptedRecvDone};
use crate::scripted_send::{ScriptedSend, ScriptedSendDone};
use stab_acts::Script;
use stab_core::Start;
use stab_ends::Settled;
use stab_frames::Params;
use stab_lock::{LockLink, SettleFault};
use stab_word::{WordLink, WordOpening};
use std::alloc::{AllocError, Global};

/// A link of either kind.
#[derive(Drop)]
pub enum AnyLink {
    /// A link with a lock.
    Lock(LockLink),
    /// A link of two words.
    Word(WordLink),
}

/// What splits a link of either kind into its two ends.
#[derive(Drop)]
pub enum AnyOpening {
    /// A link with a lock needs nothing.
    Lock,
    /// The opening of a link of two words.
    Word(WordOpening),
}

/// Whether a link with these parameters is two words.
fn is_of_words(links: Links, params: Params) -> bool
    ensures { kind_for links params ≡ (if result then two_words else behind_lock) }
{
    match links {
        Links::Locked => false,
        Links::Words => true,
        Links::Mixed => params.capacity() == 1,
    }
}

impl AnyLink {
    /// A link at a lawful start, and what splits it. A link with a lock gets a copy of the script,
    /// and room for `room` items in each of its lists, as far as memory is there.
    pub fn make(
        alloc: Global,
        links: Links,
        params: Params,
        start: &Start,
        script: &Script,
        room: usize,
    ) -> Result<(AnyLink, AnyOpening), AllocError>
        requires one_place { HaveOnePlace links (params ∷ []) }
        requires lawful { IsLawful params start.now }
        ensures given { IfOk result (λ made. given_to made.0 ≡ setup params start.now) }
        ensures script { IfOk result (λ made. IsScriptOf script.now made.0) }
        ensures opens { IfOk result (λ made. IsOpenedBy made.0 made.1) }
        ensures kind { IfOk result (λ made. kind_of made.0 ≡ kind_for links params) }
    {
        if is_of_words(links, params) {
            match WordLink::new(alloc, params, start) {
                Ok((link, opening)) => Ok((AnyLink::Word(link), AnyOpening::Word(opening))),
                Err(_) => Err(AllocError),
            }
        } else {
            match LockLink::new(alloc, params, start.copy(alloc)?, script.copy(alloc)?) {
                Ok(mut link) => {
                    link.reserve(room);
                    Ok((AnyLink::Lock(link), AnyOpening::Lock))
                }
                Err(_) => Err(AllocError),
            }
        }
    }

    /// The two ends of the link, which have made no call, for `turns` turns. Those of a link of two
    /// words have each its half of a copy of the script. The account of each has room for `room`
    /// items, as far as memory is there.
    pub fn split<'a, 's, R>(
        &'a self,
        alloc: Global,
        opening: AnyOpening,
        script: &'s Script,
        turns: u32,
        room: usize,
    ) -> Result<(ScriptedSend<'a, 's, R>, ScriptedRecv<'a, 's, R>), AllocError>
        requires { IsOpenedBy self.now opening }
        ensures sends { IfOk result (λ ends. Sends self.now ends.0) }
        ensures receives { IfOk result (λ ends. Receives self.now ends.1) }
        ensures send_account { IfOk result (λ ends. ends.0.account ≡ new_sender) }
        ensures recv_account { IfOk result (λ ends. ends.1.account ≡ new_receiver) }
        ensures send_plan { IfOk result (λ ends. ends.0.link.plan ≡ plan turns script.now) }
        ensures recv_plan { IfOk result (λ ends. ends.1.link.plan ≡ plan turns script.now) }
    {
        match (self, opening) {
            (AnyLink::Lock(link), AnyOpening::Lock) => {
                let (mut send, mut recv) = link.split();
                send.reserve(room);
                recv.reserve(room);
                Ok((
                    ScriptedSend::new(AnySend::Lock(send), Plan::new(script, turns)),
                    ScriptedRecv::new(AnyRecv::Lock(recv), Plan::new(script, turns)),
                ))
            }
            (AnyLink::Word(link), AnyOpening::Word(opening)) => {
                let (mut send, mut recv) = link.split(alloc, opening, script.copy(alloc)?)?;
                send.reserve(room);
                recv.reserve(room);
                Ok((
                    ScriptedSend::new(AnySend::Word(send), Plan::new(script, turns)),
                    ScriptedRecv::new(AnyRecv::Word(recv), Plan::new(script, turns)),
                ))
            }
            _ => unreachable!(),
        }
    }

    /// Settles a link with its two finished ends: one list of events explains both accounts, and
    /// the ends followed the script. Which links the run has is for contracts alone.
    #[tactic(auto, using(crate::proofs::Different::from_own_book))]
    pub fn settle(
        self,
        _links: Links,
        send: ScriptedSendDone<'_>,
        recv: ScriptedRecvDone<'_>,
    ) -> Result<Settled, SettleFault>
        requires one_of { IsOneOf _links self }
        requires send { HasSent self send }
        requires recv { HasReceived self recv }
        ensures send { IfOk result (λ settled. settled.send ≡ send.entry.account) }
        ensures recv { IfOk result (λ settled. settled.recv ≡ recv.entry.account) }
        ensures settled { OnOk result
            (IsSettled (given_to self) send.entry.account recv.entry.account) }
        ensures followed { OnOk result (IsFollowed self send.entry recv.entry) }
        ensures refused { IfErr result
            (MayDiffer _links (given_to self) send.entry.account recv.entry.account) }
    {
        match (self, send.into_done(), recv.into_done()) {
            (AnyLink::Lock(link), AnySendDone::Lock(send), AnyRecvDone::Lock(recv)) => {
                Ok(link.settle(send, recv)?)
            }
            (AnyLink::Word(link), AnySendDone::Word(send), AnyRecvDone::Word(recv)) => {
                Ok(link.settle(send, recv))
            }
            _ => unreachable!(),
        }
    }
}

ghost use Rattle.std.specs.Prelude.{◌≡◌, List, IfOk, IfErr, OnOk};
ghost use Rattle.stab_core.specs.LinkLaw.{LinkLaw};
ghost use Rattle.stab_core.specs.Replay.{IsLawful, initial, replay, start_items};
ghost use Rattle.stab_core.specs.declared.event.Event.{Event};
ghost use Rattle.stab_ends.specs.Agreement.{Agree};
ghost use Rattle.stab_acts.specs.Scripts.{sender_half, receiver_half};
ghost use Rattle.stab_word.specs.Ends.{new_send_end, new_recv_end};
ghost use Rattle.stab_word.specs.Interleaving.{AnInterleavingExplains};
ghost use Rattle.stab_word.specs.WordFaults.{IsWordReason};

use crate::fault::WordFault;
use crate::recv::{RecvDone, WordRecv};
use crate::seats::OpeningSeat;
use crate::send::{SendDone, WordSend};
use crate::steps::WordTable;
use stab_acts::Script;
use stab_core::{Start, StartFault};
use stab_ends::{RecvAccount, SendAccount, Settled};
use stab_frames::{Label, Params};
use std::alloc::{AllocError, Global};
use std::marker::Model;

/// How many frames a link of two words has a place for, and how many acknowledgements.
const ONE_PLACE: u16 = 1;

/// A link of two words, for two ends that load and store them from any two threads. Contracts see
/// what names it: the table of its words, and the parameters and the start that it was given.
pub struct WordLink {
    table: WordTable,
}

impl Drop for WordLink {
    fn drop(self) {
        let WordLink { table: _ } = self;
    }
}

impl Model for WordLink {
    ghost use Rattle.stab_word.specs.Seats.{LinkId};

    ghost Value = { LinkId };

    ghost view = { λ l. l.table };
}

/// The right to split one link into its two ends. It cannot be copied, so a link is split once.
/// Contracts see the link that it opens.
#[derive(Drop)]
pub struct WordOpening {
    seat: OpeningSeat,
    params: Params,
    send_label: Label,
    recv_label: Label,
}

impl Model for WordOpening {
    ghost use Rattle.std.specs.Prelude.{◌≡◌};
    ghost use Rattle.stab_word.specs.Seats.{LinkId};

    ghost Value = { LinkId };

    ghost view = { λ o. o.seat };

    ghost invariant = { λ o. (o.params ≡ o.seat.given.params)
        × (o.send_label ≡ o.seat.given.start.send_label)
        × (o.recv_label ≡ o.seat.given.start.recv_label) };
}

impl WordLink {
    /// The link at its start, beside the opening that splits it. It is refused where the capacity
    /// is not one, and then as a link is refused.
    pub fn new(
        alloc: Global,
        params: Params,
        start: &Start,
    ) -> Result<(WordLink, WordOpening), WordFault>
        ensures given { IfOk result (λ made.
            made.0.given ≡ record { params = params; start = start.now }) }
        ensures opening { IfOk result (λ made. made.1 ≡ made.0) }
        ensures one_place { OnOk result (params.capacity ≡ 1) }
        ensures lawful { OnOk result (IsLawful params start.now) }
        ensures refused { IfErr result (IsWordReason params start.now) }
    {
        if params.capacity() != ONE_PLACE {
            return Err(WordFault::CapacityNotOne);
        }
        if start.frames.len() > usize::from(ONE_PLACE) {
            return Err(WordFault::Start(StartFault::TooManyFrames));
        }
        if start.acks.len() > usize::from(ONE_PLACE) {
            return Err(WordFault::Start(StartFault::TooManyAcks));
        }
        let (table, seat) = WordTable::new(alloc, params, start)?;
        let opening = WordOpening {
            seat,
            params,
            send_label: start.send_label,
            recv_label: start.recv_label,
        };
        Ok((WordLink { table }, opening))
    }

    /// The two ends of the link, with empty accounts that have a first place each; each takes its
    /// half of the script. A refusal gives up the opening and the script.
    pub fn split(
        &self,
        alloc: Global,
        opening: WordOpening,
        script: Script,
    ) -> Result<(WordSend<'_>, WordRecv<'_>), AllocError>
        requires { opening ≡ self.now }
        ensures send { IfOk result (λ ends. ends.0 ≡ new_send_end self.now (sender_half script)) }
        ensures recv { IfOk result (λ ends. ends.1 ≡ new_recv_end self.now (receiver_half script)) }
    {
        let WordOpening {
            seat,
            params,
            send_label,
            recv_label,
        } = opening;
        let mut sent = SendAccount::new(alloc);
        sent.offered.reserve(1)?;
        let mut received = RecvAccount::new(alloc);
        received.delivered.reserve(1)?;
        let (sender, receiver) = self.table.split(seat);
        let (send_acts, recv_acts) = script.split();
        Ok((
            WordSend::new(&self.table, sender, params, send_label, sent, send_acts),
            WordRecv::new(&self.table, receiver, recv_label, received, recv_acts),
        ))
    }

    /// Hands back the accounts of both finished ends, which one list of events explains: the events
    /// of all steps that the ends made, in some order that keeps the order of each end's own. It
    /// compares nothing, takes no memory and always answers.
    pub fn settle(self, send: SendDone, recv: RecvDone) -> Settled
        requires send { send.link ≡ self }
        requires recv { recv.link ≡ self }
        ensures send { result.send ≡ send.sent }
        ensures recv { result.recv ≡ recv.received }
        ensures replay { (events : List Event)
            × Agree (replay self.given.params (initial self.given.start) events)
            send.sent recv.received }
        ensures interleaved { AnInterleavingExplains self.given send.steps send.sent recv.steps
            recv.received }
        ensures law { LinkLaw 1 (start_items self.given.start)
            send.sent.offered send.sent.acked recv.received.delivered }
    {
        let WordLink { table } = self;
        let (sender, sent) = send.into_parts();
        let (receiver, received) = recv.into_parts();
        table.join(sender, receiver);
        Settled {
            send: sent,
            recv: received,
        }
    }
}

//! The six calls of a book that the ends of a link make.

ghost use Rattle.std.specs.Prelude.{◌≡◌, IfOk, OnOk, OnErr};
ghost use Rattle.stab_lock.specs.Book.{book_after, MayRefuseAll};
ghost use Rattle.stab_lock.specs.Calls.{offering, sending, polling_ack, closing, polling_frame};
ghost use Rattle.stab_lock.specs.Calls.{sending_ack, book_noting, answer_of, acts_after, no_acts};
ghost use Rattle.stab_lock.specs.Calls.{put_noted, IsSent, is_held, seen_by, MayRefuseCall};

use crate::book::LinkBook;
use crate::put::Put;
use stab_acts::{HalfScript, InAct, OutAct};
use stab_core::{Effect, Event};
use stab_ends::FrameSeen;
use stab_frames::Item;
use std::alloc::AllocError;

impl LinkBook {
    /// Offers an item to the sender: it is taken, and noted, where the sender is idle on an open
    /// link.
    pub fn offer(&mut self, item: Item) -> Result<bool, AllocError>
        ensures book { OnOk result (self.new ≡ book_noting (offering item) self.old no_acts) }
        ensures answer { IfOk result (λ taken.
            taken ≡ is_held (answer_of (offering item) self.old no_acts)) }
        ensures unchanged { OnErr result (self.new ≡ self.old) }
        ensures memory { OnErr result (MayRefuseCall (offering item) self.old no_acts) }
    {
        if self.link().is_closed() || !self.link().is_idle() {
            return Ok(false);
        }
        self.note(Event::Offer(item))?;
        Ok(true)
    }

    /// Sends the sender's frame once more, under the next act of what goes out.
    #[tactic(auto, using(crate::proofs::Rooms::frame_sent_after_loss, crate::proofs::Rooms::holds))]
    pub fn send(&mut self, acts: &mut HalfScript) -> Result<Effect, AllocError>
        ensures book { OnOk result (self.new ≡ book_noting sending self.old acts.old) }
        ensures answer { IfOk result (λ effect. effect ≡ answer_of sending self.old acts.old) }
        ensures acts { OnOk result (acts.new ≡ acts_after sending self.old acts.old) }
        ensures unchanged { OnErr result (self.new ≡ self.old) }
        ensures memory { OnErr result (MayRefuseCall sending self.old acts.old) }
        ensures acts_unchanged { OnErr result (acts.new ≡ acts.old) }
    {
        if self.link().is_closed() || self.link().is_idle() {
            return Ok(Effect::Nothing);
        }
        let _acked = self.link().acked();
        let way = Put {
            put: Event::SendFrame,
            loss: Event::LoseFrame(0),
            has_front: self.link().frame_count() > 0,
        };
        self.put(acts, way)
    }

    /// Looks for an acknowledgement, and receives the front one, which the next act of what comes
    /// in takes or keeps.
    pub fn poll_ack(&mut self, acts: &mut HalfScript) -> Result<Effect, AllocError>
        ensures book { OnOk result (self.new ≡ book_noting polling_ack self.old acts.old) }
        ensures answer { IfOk result (λ effect. effect ≡ answer_of polling_ack self.old acts.old) }
        ensures acts { OnOk result (acts.new ≡ acts_after polling_ack self.old acts.old) }
        ensures unchanged { OnErr result (self.new ≡ self.old) }
        ensures memory { OnErr result (MayRefuseCall polling_ack self.old acts.old) }
        ensures acts_unchanged { OnErr result (acts.new ≡ acts.old) }
    {
        if self.link().is_closed() || self.link().ack_count() == 0 {
            return Ok(Effect::Nothing);
        }
        let keep = acts.peek_in() == InAct::Keep;
        let effect = self.note(Event::RecvAck { keep })?;
        acts.next_in();
        Ok(effect)
    }

    /// Closes the link for good, where it is open.
    pub fn close(&mut self) -> Result<Effect, AllocError>
        ensures book { OnOk result (self.new ≡ book_noting closing self.old no_acts) }
        ensures answer { IfOk result (λ effect. effect ≡ answer_of closing self.old no_acts) }
        ensures unchanged { OnErr result (self.new ≡ self.old) }
        ensures memory { OnErr result (MayRefuseCall closing self.old no_acts) }
    {
        if self.link().is_closed() {
            return Ok(Effect::Nothing);
        }
        self.note(Event::Close)
    }

    /// Looks for a frame, and receives the front one, which the next act of what comes in takes or
    /// keeps. A closed link shows its close.
    pub fn poll_frame(&mut self, acts: &mut HalfScript) -> Result<FrameSeen, AllocError>
        ensures book { OnOk result (self.new ≡ book_noting polling_frame self.old acts.old) }
        ensures answer { IfOk result (λ seen.
            seen ≡ seen_by (answer_of polling_frame self.old acts.old)) }
        ensures acts { OnOk result (acts.new ≡ acts_after polling_frame self.old acts.old) }
        ensures unchanged { OnErr result (self.new ≡ self.old) }
        ensures memory { OnErr result (MayRefuseCall polling_frame self.old acts.old) }
        ensures acts_unchanged { OnErr result (acts.new ≡ acts.old) }
    {
        if self.link().is_closed() {
            return Ok(FrameSeen::Closed);
        }
        if self.link().frame_count() == 0 {
            return Ok(FrameSeen::Nothing);
        }
        let keep = acts.peek_in() == InAct::Keep;
        let effect = self.note(Event::RecvFrame { keep })?;
        acts.next_in();
        Ok(seen_by(effect))
    }

    /// Sends the label that the receiver remembers, under the next act of what goes out.
    #[tactic(auto, using(crate::proofs::Rooms::ack_sent_after_loss))]
    pub fn send_ack(&mut self, acts: &mut HalfScript) -> Result<Effect, AllocError>
        ensures book { OnOk result (self.new ≡ book_noting sending_ack self.old acts.old) }
        ensures answer { IfOk result (λ effect. effect ≡ answer_of sending_ack self.old acts.old) }
        ensures acts { OnOk result (acts.new ≡ acts_after sending_ack self.old acts.old) }
        ensures unchanged { OnErr result (self.new ≡ self.old) }
        ensures memory { OnErr result (MayRefuseCall sending_ack self.old acts.old) }
        ensures acts_unchanged { OnErr result (acts.new ≡ acts.old) }
    {
        if self.link().is_closed() {
            return Ok(Effect::Nothing);
        }
        let way = Put {
            put: Event::SendAck,
            loss: Event::LoseAck(0),
            has_front: self.link().ack_count() > 0,
        };
        self.put(acts, way)
    }

    /// Puts something into its queue, under the next act of what goes out.
    fn put(&mut self, acts: &mut HalfScript, way: Put) -> Result<Effect, AllocError>
        requires { IsSent self.old way }
        ensures book { OnOk result
            (self.new ≡ book_after self.old (put_noted self.old way acts.old).events) }
        ensures answer { IfOk result (λ effect. effect ≡ (put_noted self.old way acts.old).answer) }
        ensures acts { OnOk result (acts.new ≡ (put_noted self.old way acts.old).acts) }
        ensures unchanged { OnErr result (self.new ≡ self.old) }
        ensures memory { OnErr result
            (MayRefuseAll self.old (put_noted self.old way acts.old).events) }
        ensures acts_unchanged { OnErr result (acts.new ≡ acts.old) }
    {
        let effect = match acts.peek_out() {
            OutAct::Pass => self.note(way.put)?,
            OutAct::Drop => Effect::Lost,
            OutAct::Evict => {
                if way.has_front {
                    self.note_both(way.loss, way.put)?
                } else {
                    self.note(way.put)?
                }
            }
        };
        acts.next_out();
        Ok(effect)
    }
}

/// What the receiver's end saw, by the effect of what it noted.
fn seen_by(effect: Effect) -> FrameSeen
    ensures { result ≡ seen_by effect }
{
    match effect {
        Effect::Fresh(item) => FrameSeen::Fresh(item),
        Effect::Old => FrameSeen::Old,
        Effect::Closed => FrameSeen::Closed,
        _ => FrameSeen::Nothing,
    }
}

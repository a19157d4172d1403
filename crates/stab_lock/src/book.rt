ghost use Rattle.std.specs.Prelude.{◌≡◌, ◌≢◌, ◌↔◌, ◌+◌, ◌<◌, ◌≤◌, [], ◌∷◌, ◌++◌, length, slice_get};
ghost use Rattle.std.specs.Prelude.{false, true, IsTrue, IfOk, IfErr, OnOk, OnErr, MatchResult};
ghost use Rattle.stab_frames.specs.Parameters.{AreLawful};
ghost use Rattle.stab_core.specs.Link.{IsReason, Grows};
ghost use Rattle.stab_core.specs.LinkLaw.{LinkLaw};
ghost use Rattle.stab_core.specs.LinkState.{LinkState};
ghost use Rattle.stab_core.specs.Replay.{IsLawful, start_items};
ghost use Rattle.stab_core.specs.Step.{effect, step};
ghost use Rattle.stab_lock.specs.History.{most_events};
ghost use Rattle.stab_lock.specs.Book.{Book, book_of, state_of, link_of, book_after, MayRefuse};

use crate::history::History;
use stab_core::{Effect, Event, Link, Start, StartFault};
use stab_frames::{Item, Params};
use std::alloc::{AllocError, Global};
use std::marker::Model;

/// A link with the history of the events that happened to it. Contracts see its parameters, its
/// start and its history; its type keeps that the link is the replay of that history from that
/// start.
///
/// A history has at most 18,446,744,073,709,551,615 events. Where an event, or one of two that are
/// noted together, would pass that, the call answers `AllocError` and changes nothing.
#[derive(Debug)]
pub struct LinkBook {
    params: Params,
    start: Start,
    history: History,
    link: Link,
}

impl Drop for LinkBook {
    fn drop(self) {
        let LinkBook {
            params: _,
            start: _,
            history: _,
            link: _,
        } = self;
    }
}

impl Model for LinkBook {
    ghost use Rattle.std.specs.Prelude.{◌≡◌, length, ◌^◌, ◌<◌};
    ghost use Rattle.stab_core.specs.Replay.{IsLawful};
    ghost use Rattle.stab_lock.specs.Book.{Book, link_of, book_of};

    ghost Value = { Book };

    ghost view = { λ b. book_of b.params b.start b.history.events };

    ghost invariant = { λ b.
        (b.link ≡ link_of (book_of b.params b.start b.history.events))
        × IsLawful b.params b.start };
}

impl LinkBook {
    /// The book of a link at its start: its history is empty.
    ///
    /// A start is refused as a link refuses it: for too many frames, then for too many
    /// acknowledgements.
    pub fn new(alloc: Global, params: Params, start: Start) -> Result<LinkBook, StartFault>
        ensures book { IfOk result (λ book. book ≡ book_of params start []) }
        ensures lawful { IfOk result (λ book. IsLawful params start) }
        ensures refused { IfErr result (IsReason params start) }
    {
        let link = Link::new(alloc, params, &start)?;
        Ok(LinkBook {
            params,
            start,
            history: History::new(alloc),
            link,
        })
    }

    /// Makes room for this many more items in the lists of the link, and for what the history
    /// usually takes for them, as far as memory is there.
    pub fn reserve(&mut self, additional: usize)
        ensures { self.new ≡ self.old }
    {
        self.link.reserve(additional);
        self.history.reserve_for_items(additional);
    }

    /// Lets an event happen to the link and notes it, also where its effect is Nothing. Where
    /// memory is refused, the book is as it was.
    ///
    /// An event that repeats the last one takes no memory, unless its effect is Held or Fresh.
    pub fn note(&mut self, event: Event) -> Result<Effect, AllocError>
        ensures noted { OnOk result (self.new ≡ book_after self.old (event ∷ [])) }
        ensures effect { IfOk result (λ its_effect.
            its_effect ≡ effect self.old.params (state_of self.old) event) }
        ensures unchanged { OnErr result (self.new ≡ self.old) }
        ensures limit { OnOk result (length self.old.history < most_events) }
        ensures memory { OnErr result (MayRefuse self.old event) }
    {
        stab_core::laws::replays_join();
        self.history.reserve_for(event)?;
        let effect = self.link.apply(event)?;
        self.history.push_reserved(event);
        Ok(effect)
    }

    /// Lets two events happen to the link, neither of which makes a list grow, and notes both.
    /// Where memory is refused, the book is as it was.
    pub(crate) fn note_both(&mut self, first: Event, second: Event) -> Result<Effect, AllocError>
        requires first { Grows (effect self.old.params (state_of self.old) first) → ⊥ }
        requires second { let between = step self.old.params (state_of self.old) first in
            Grows (effect self.old.params between second) → ⊥ }
        ensures noted { OnOk result (self.new ≡ book_after self.old (first ∷ second ∷ [])) }
        ensures effect { let between = step self.old.params (state_of self.old) first in
            IfOk result (λ its_effect. its_effect ≡ effect self.old.params between second) }
        ensures unchanged { OnErr result (self.new ≡ self.old) }
        ensures limit { OnOk result (length self.old.history + 2 ≤ most_events) }
    {
        stab_core::laws::replays_join();
        self.history.reserve(2)?;
        let Ok(_first) = self.link.apply(first) else {
            unreachable!()
        };
        let Ok(effect) = self.link.apply(second) else {
            unreachable!()
        };
        self.history.push_reserved(first);
        self.history.push_reserved(second);
        Ok(effect)
    }

    /// How many events the history has.
    pub fn history_len(&self) -> u64
        ensures { result ≡ length self.now.history }
    {
        self.history.len()
    }

    /// The event at a place of the history, 0 being the first.
    pub fn event_at(&self, place: u64) -> Option<Event>
        ensures { result ≡ slice_get self.now.history place }
    {
        self.history.get(place)
    }

    /// What the link began from.
    pub fn start(&self) -> &Start
        ensures { result.now ≡ self.now.start }
    {
        &self.start
    }

    /// Whether this and another book are of links with the same parameters and the same start.
    pub(crate) fn begins_like(&self, other: &LinkBook) -> bool
        ensures { IsTrue result ↔ ((self.now.params ≡ other.now.params)
            × (self.now.start ≡ other.now.start)) }
    {
        self.params == other.params && same_start(&self.start, &other.start)
    }

    /// The link: the replay of the history from the start. So it obeys the link law.
    pub fn link(&self) -> &Link
        ensures link { result.now ≡ link_of self.now }
        ensures parameters { AreLawful self.now.params }
        ensures lawful { IsLawful self.now.params self.now.start }
        ensures law { let state = state_of self.now in
            LinkLaw self.now.params.capacity (start_items self.now.start)
            state.offered state.acked state.delivered }
    {
        let _lawful = self.params.capacity();
        stab_core::laws::every_replay_obeys_the_link_law();
        &self.link
    }
}

/// Whether two starts have the same frames, acknowledgements and labels.
fn same_start(one: &Start, other: &Start) -> bool
    ensures { IsTrue result ↔ (one.now ≡ other.now) }
{
    if one.frames.as_slice() != other.frames.as_slice() {
        return false;
    }
    if one.acks.as_slice() != other.acks.as_slice() {
        return false;
    }
    if one.send_label != other.send_label {
        return false;
    }
    one.recv_label == other.recv_label
}

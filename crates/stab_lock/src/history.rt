ghost use Rattle.std.specs.Prelude.{◌≡◌, ◌+◌, ◌<◌, ◌≤◌, ◌⊎◌, [], ◌∷◌, ◌++◌, length, slice_get};
ghost use Rattle.std.specs.Prelude.{◌↔◌, IsTrue, OnOk, OnErr};
ghost use Rattle.stab_lock.specs.History.{HistoryValue, HasRoom, IsLast, most_events};

use crate::packed::PackedRuns;
use crate::run::Run;
use stab_core::Event;
use std::alloc::{AllocError, Global};
use std::marker::Model;

/// The events of a link in their order, kept as runs: an event that repeats the last one only
/// counts it once more. Contracts see the list of the events, and for how many more of any kind
/// there is room.
///
/// The last run is kept as it is, since it may still grow. The runs before it are packed: one byte
/// for each, or for two neighbours of one event each, 2 more for a place or an item below 65,536,
/// 4 more for a larger item, and 8 more where its count is over 11.
#[derive(Debug)]
pub struct History {
    packed: PackedRuns,
    last: Option<Run>,
}

impl Drop for History {
    fn drop(self) {
        let History { packed: _, last: _ } = self;
    }
}

impl Model for History {
    ghost use Rattle.stab_lock.specs.History.{HistoryValue};
    ghost use Rattle.stab_lock.specs.HistoryInside.{IsHistory, all_events};

    ghost Value = { HistoryValue };

    ghost view = { λ h. record {
      events = all_events h.packed.runs h.last;
      room = h.packed.room;
    } };

    ghost invariant = { λ h. IsHistory h.packed.runs h.last };
}

impl History {
    /// A history without events. It takes no memory.
    pub fn new(alloc: Global) -> History
        ensures { result.events ≡ [] }
    {
        History {
            packed: PackedRuns::new(alloc),
            last: None,
        }
    }

    /// How many events there are.
    pub fn len(&self) -> u64
        ensures { result ≡ length self.now.events }
    {
        match self.last {
            None => 0,
            Some(run) => self.packed.count() + run.count,
        }
    }

    /// The event at a place, 0 being the first. It is found in a time logarithmic in the number of
    /// runs.
    pub fn get(&self, place: u64) -> Option<Event>
        ensures { result ≡ slice_get self.now.events place }
    {
        let before = self.packed.count();
        if place < before {
            return self.packed.get(place);
        }
        match self.last {
            Some(run) if place - before < run.count => Some(run.event),
            _ => None,
        }
    }

    /// Makes room for this many more events, whatever they are. It is refused where memory is, and
    /// where the history would pass 18,446,744,073,709,551,615 events.
    pub fn reserve(&mut self, additional: u32) -> Result<(), AllocError>
        ensures events { self.new.events ≡ self.old.events }
        ensures room { OnOk result (additional ≤ self.new.room) }
        ensures within { OnOk result (length self.old.events + additional ≤ most_events) }
        ensures refused { OnErr result ((self.old.room < additional)
            ⊎ (most_events < length self.old.events + additional)) }
    {
        if u64::MAX - self.len() < u64::from(additional) {
            return Err(AllocError);
        }
        self.packed.reserve(additional)
    }

    /// Makes room for this event, which takes memory only where it does not repeat the last one. It
    /// is refused where memory is, and where the history has 18,446,744,073,709,551,615 events.
    pub fn reserve_for(&mut self, event: Event) -> Result<(), AllocError>
        ensures events { self.new.events ≡ self.old.events }
        ensures room { OnOk result (HasRoom self.new event) }
        ensures within { OnOk result (length self.old.events < most_events) }
        ensures refused { OnErr result
            (¬ HasRoom self.old event ⊎ (length self.old.events ≡ most_events)) }
    {
        if self.len() == u64::MAX {
            return Err(AllocError);
        }
        if self.ends_in(event) {
            return Ok(());
        }
        self.reserve(1)
    }

    /// Makes room for what this many items usually take, as far as memory is there.
    ///
    /// Whoever knows how many items there will be spares the history growing step by step. Where
    /// memory is refused, or they take more, it grows in its steps as without this call, so nothing
    /// is reported.
    pub fn reserve_for_items(&mut self, items: usize)
        ensures events { self.new.events ≡ self.old.events }
        ensures room { self.old.room ≤ self.new.room }
    {
        self.packed.reserve_for_items(items);
    }

    /// Adds an event at the end, in the room that was made for it.
    pub fn push_reserved(&mut self, event: Event)
        requires room { HasRoom self.old event }
        requires within { length self.old.events < most_events }
        ensures events { self.new.events ≡ self.old.events ++ event ∷ [] }
        ensures room { self.old.room ≤ self.new.room + 1 }
    {
        match &mut self.last {
            Some(run) if run.event == event => run.count += 1,
            Some(run) => {
                self.packed.push(*run);
                *run = Run { event, count: 1 };
            }
            None => self.last = Some(Run { event, count: 1 }),
        }
    }

    /// Whether the last event is this one.
    fn ends_in(&self, event: Event) -> bool
        ensures { IsTrue result ↔ IsLast event self.now.events }
    {
        match self.last {
            None => false,
            Some(run) => run.event == event,
        }
    }
}

ghost use Rattle.std.specs.Prelude.{◌≡◌, ◌<◌, ◌≤◌, ◌↔◌, [], ◌∷◌, ◌++◌, length, take, drop};
ghost use Rattle.std.specs.Prelude.{slice_get, IsTrue, IfOk, if◌then◌else◌};
ghost use Rattle.stab_frames.specs.Queue.{queue, turned, without};

use circular_buffer::HeapCircularBuffer;
use std::alloc::{AllocError, Global};
use std::marker::Model;

/// One direction of a link: a first-in, first-out queue of at most `capacity` entries.
///
/// `new` makes the room for all of them; no other call takes memory.
#[derive(Debug, Drop)]
pub struct FrameQueue<T: Copy + Eq> {
    /// The entries, the front first. `put` asks for room, so none is ever overwritten.
    ring: HeapCircularBuffer<T>,
}

impl<T: Copy + Eq> Model for FrameQueue<T> {
    ghost use Rattle.std.specs.Prelude.{◌^◌, ◌<◌, ◌≤◌, length};
    ghost use Rattle.stab_frames.specs.Queue.{Queue, queue, queue_code};

    ghost Value = { Queue T };

    ghost coded = { queue_code T.code };

    ghost view = { λ q. queue q.ring.items q.ring.capacity };

    ghost invariant = { λ q.
        (length q.ring.items ≤ q.ring.capacity) × (q.ring.capacity < 2 ^ 16) };
}

impl<T: Copy + Eq> FrameQueue<T> {
    /// An empty queue, with the room for `capacity` entries.
    pub fn new(alloc: Global, capacity: u16) -> Result<FrameQueue<T>, AllocError>
        requires { 1 ≤ capacity }
        ensures { IfOk result (λ q. q ≡ queue [] capacity) }
    {
        Ok(FrameQueue {
            ring: HeapCircularBuffer::with_capacity(alloc, usize::from(capacity))?,
        })
    }

    /// How many entries there are.
    pub fn len(&self) -> u16
        ensures len { result ≡ length self.now.entries }
        // A queue never has more entries than its capacity.
        ensures fit { length self.now.entries ≤ self.now.capacity }
    {
        self.ring.len() as u16
    }

    /// Whether there is no entry.
    pub fn is_empty(&self) -> bool
        ensures { IsTrue result ↔ (self.now.entries ≡ []) }
    {
        self.ring.is_empty()
    }

    /// Whether there is no room for another entry.
    pub fn is_full(&self) -> bool
        ensures full { IsTrue result ↔ (length self.now.entries ≡ self.now.capacity) }
        // A queue never has more entries than its capacity.
        ensures fit { length self.now.entries ≤ self.now.capacity }
    {
        self.ring.is_full()
    }

    /// Adds an entry at the back, and answers whether there was room. A full queue is left as it
    /// was.
    pub fn put(&mut self, entry: T) -> bool
        ensures room { IsTrue result ↔ (length self.old.entries < self.old.capacity) }
        ensures queue { self.new ≡ queue
            (if result then self.old.entries ++ entry ∷ [] else self.old.entries)
            self.old.capacity }
    {
        self.ring.try_push_back(entry).is_ok()
    }

    /// The entry at the front, which stays.
    pub fn front(&self) -> Option<T>
        ensures { result ≡ slice_get self.now.entries 0 }
    {
        self.ring.front().copied()
    }

    /// The entry at a place, 0 being the front; it stays.
    pub fn get(&self, place: u16) -> Option<T>
        ensures { result ≡ slice_get self.now.entries place }
    {
        self.ring.get(usize::from(place)).copied()
    }

    /// Takes the entry at the front, where there is one.
    pub fn take(&mut self) -> Option<T>
        ensures front { result ≡ slice_get self.old.entries 0 }
        ensures queue { self.new ≡ queue (drop 1 self.old.entries) self.old.capacity }
    {
        self.ring.pop_front()
    }

    /// Removes the entry at a place, and answers whether there was one. The order of the others
    /// stays.
    #[tactic(auto, using(crate::proofs::Removal::lost_within, crate::proofs::Removal::without_past))]
    pub fn lose(&mut self, place: u16) -> bool
        ensures found { IsTrue result ↔ (place < length self.old.entries) }
        ensures queue { self.new ≡ queue (without place self.old.entries) self.old.capacity }
    {
        let len = self.len();
        if len <= place {
            return false;
        }
        // Once round: the entries before the place go to the back, the one at it is taken, and the
        // others follow.
        self.turn(place);
        self.take();
        // After a loss at the front the others are in order already.
        if 0 < place {
            self.turn(len - place - 1);
        }
        true
    }

    /// Moves the first `count` entries to the back, in their order.
    #[tactic(auto, using(crate::proofs::Removal::turned_next))]
    fn turn(&mut self, count: u16)
        requires { count ≤ length self.old.entries }
        ensures { self.new ≡ queue (turned count self.old.entries) self.old.capacity }
    {
        'turns: for _turned in 0..count {
            self.turn_front();
        }
    }

    /// Moves the front to the back, where there is one.
    #[tactic(auto, using(crate::proofs::Removal::front_alone))]
    fn turn_front(&mut self)
        ensures { self.new ≡ queue (turned 1 self.old.entries) self.old.capacity }
    {
        let _ring = &self.ring;
        if let Some(entry) = self.take() {
            self.put(entry);
        }
    }
}

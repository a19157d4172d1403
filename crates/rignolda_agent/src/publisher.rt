ghost use Rattle.std.specs.Prelude.{◌≡◌};
ghost use Rattle.rignolda_agent.specs.Numbers.{is_newer, next as after_number};
ghost use Rattle.rignolda_agent.specs.Publishers.{after_body, begun, entries, gone_above};
ghost use Rattle.rignolda_agent.specs.Publishers.{is_in_a_round, is_table_due, is_table_next, next};
ghost use Rattle.rignolda_agent.specs.Publishers.{publisher_of, round_goes_on, taken, waits};
ghost use Rattle.rignolda_agent.specs.Publishers as publishers;
ghost use Rattle.rignolda_agent.specs.declared.publisher.Next.TheVariants as kinds;

use crate::numbers::{is_newer, next, towards};

/// The most harmless bodies of a round.
const MOST_HARMLESS: u64 = 65_535;
/// The most changes of a body.
const MOST_CHANGES: u64 = 4_096;
/// After so many bodies, or bytes, a new table is due, where they are longer than the last one was.
const MANY_ITEMS: u64 = 64;

const MANY_BYTES: u64 = 1_048_576;

/// What is published next.
#[derive(Clone, Copy, Debug, PartialEq, Eq)]
pub enum Next {
    /// Nothing.
    Nothing,
    /// A body that says nothing.
    Harmless,
    /// Changes that waited.
    Changes,
    /// All settings.
    Whole,
}

/// What a root remembers of what it published. Nothing of it has to be right.
#[repr(C)]
#[derive(Clone, Copy)]
pub struct Publisher {
    /// The number of the last body.
    pub number: u64,
    /// How many bodies came after the last whole table, their bytes, and those of the table.
    pub items: u64,
    pub bytes: u64,
    pub table_bytes: u64,
    /// The bodies of the round that are still to come, its table with them.
    pub left: u64,
    /// Not 0 where the round goes on before changes do.
    pub rounds_turn: u8,
    /// Not 0 while the first table is still to come.
    pub table_first: u8,
    /// Not 0 while no table may be published, and nothing of a round.
    pub held: u8,
}

impl Publisher {
    /// A publisher with the numbers after this one. It begins with the whole table, unless held.
    pub fn new(number: u64) -> Publisher
        ensures { publisher_of result ≡ publishers.new number }
    {
        Publisher {
            number,
            items: 0,
            bytes: 0,
            table_bytes: 0,
            left: 0,
            rounds_turn: 0,
            table_first: 1,
            held: 0,
        }
    }

    /// The bodies of the round that are still to come: never more than a round may have.
    fn left(&self) -> u64
        ensures { result ≡ (publisher_of self.now).left }
    {
        self.left.min(MOST_HARMLESS + 1)
    }

    /// Goes on above this number, which an agent has, with a whole table first, if it is newer than
    /// the last one. Whether it is. Where it is ahead by more than a quarter of all numbers, it
    /// goes on by a quarter, so that those who have the last number take that table, and is above
    /// it when it is called again.
    pub fn go_above(&mut self, number: u64) -> bool
        ensures newer { result ≡ is_newer self.old.number number }
        ensures after { publisher_of self.new ≡ gone_above (publisher_of self.old) number }
    {
        let is_ahead = is_newer(self.number, number);
        if is_ahead {
            self.number = towards(self.number, number);
            self.table_first = 1;
        }
        is_ahead
    }

    pub fn is_in_a_round(&self) -> bool
        ensures { result ≡ is_in_a_round (publisher_of self.now) }
    {
        self.left > 0
    }

    /// A round with so many harmless bodies begins. One that is under way goes on instead, with no
    /// more bodies than that.
    pub fn begin_round(&mut self, harmless: u32)
        ensures { publisher_of self.new ≡ begun (publisher_of self.old) harmless }
    {
        let bodies = u64::from(harmless).min(MOST_HARMLESS) + 1;
        if self.is_in_a_round() {
            self.left = self.left.min(bodies);
        } else {
            self.left = bodies;
            self.rounds_turn = 0;
        }
    }

    /// Publishes no table from now on, and nothing of a round, or does again.
    pub fn hold(&mut self, holds: bool)
        ensures { publisher_of self.new ≡ record (publisher_of self.old) { held = holds } }
    {
        self.held = u8::from(holds);
    }

    /// Whether something is to be published, where this number of changes waits.
    pub fn waits(&self, changes: u64) -> bool
        ensures { result ≡ waits (publisher_of self.now) changes }
    {
        changes > 0 || self.held == 0 && (self.table_first != 0 || self.is_in_a_round())
    }

    fn is_table_due(&self, limit: u64) -> bool
        ensures { result ≡ is_table_due (publisher_of self.now) limit }
    {
        let is_long = self.items >= MANY_ITEMS || self.bytes > MANY_BYTES;
        self.items >= limit.max(1) || self.bytes > self.table_bytes && is_long
    }

    fn round_goes_on(&self, changes: u64) -> bool
        ensures { result ≡ round_goes_on (publisher_of self.now) changes }
    {
        self.is_in_a_round() && (self.rounds_turn != 0 || changes == 0)
    }

    fn is_table_next(&self, changes: u64, limit: u64) -> bool
        ensures { result ≡ is_table_next (publisher_of self.now) changes limit }
    {
        self.table_first != 0
            || self.is_table_due(limit)
            || self.round_goes_on(changes) && self.left() == 1
    }

    /// What is published next, where this number of changes waits, and so many bodies may follow a
    /// table.
    pub fn next(&self, changes: u64, limit: u64) -> Next
        ensures { result ≡ next (publisher_of self.now) changes limit }
    {
        if !self.waits(changes) {
            Next::Nothing
        } else if self.held != 0 {
            Next::Changes
        } else if self.is_table_next(changes, limit) {
            Next::Whole
        } else if self.round_goes_on(changes) {
            Next::Harmless
        } else {
            Next::Changes
        }
    }

    /// The number of the next body.
    pub fn next_number(&self) -> u64
        ensures { result ≡ after_number self.now.number }
    {
        next(self.number)
    }

    /// Publishes what is next, a body that has so many bytes.
    pub fn publish(&mut self, changes: u64, limit: u64, bytes: u64) -> Next
        ensures next { result ≡ next (publisher_of self.old) changes limit }
        ensures after { publisher_of self.new ≡ after_body result (publisher_of self.old) bytes }
        ensures refused { result ≡ kinds.Nothing → self.new ≡ self.old }
    {
        let next = self.next(changes, limit);
        let left = self.left();
        if next == Next::Nothing {
            return next;
        }
        self.number = self.next_number();
        self.items = self.items.saturating_add(1);
        self.bytes = self.bytes.saturating_add(bytes);
        match next {
            Next::Nothing => (),
            Next::Harmless => {
                self.left = left.saturating_sub(1);
                self.rounds_turn = 0;
            }
            Next::Changes => self.rounds_turn = 1,
            Next::Whole => {
                self.items = 0;
                self.bytes = 0;
                self.table_bytes = bytes;
                self.left = if left == 1 { 0 } else { left };
                self.table_first = 0;
            }
        }
        next
    }
}

impl Next {
    /// How many of the changes that wait are published with this body: the first ones.
    pub fn taken(self, changes: u64) -> u64
        ensures { result ≡ taken self changes }
    {
        match self {
            Next::Nothing | Next::Harmless => 0,
            Next::Changes => changes.min(MOST_CHANGES),
            Next::Whole => changes,
        }
    }

    /// How many entries this body has, where this number of changes waits and there are so many
    /// settings.
    pub fn entries(self, changes: u64, settings: u64) -> u64
        ensures { result ≡ entries self changes settings }
    {
        match self {
            Next::Nothing | Next::Harmless => 0,
            Next::Changes => changes.min(MOST_CHANGES),
            Next::Whole => settings,
        }
    }
}

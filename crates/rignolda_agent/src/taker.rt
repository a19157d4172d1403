ghost use Rattle.std.specs.Prelude.{◌≡◌, ◌&&◌, not, true, false};
ghost use Rattle.rignolda_agent.specs.declared.body.Kind.{Kind};
ghost use Rattle.rignolda_agent.specs.Takers.{Taker as TakerState, after, after_if, drops, fills};
ghost use Rattle.rignolda_agent.specs.Takers.{follows, is_held, is_table, looks, missing};
ghost use Rattle.rignolda_agent.specs.Takers.{restarted, takes};
ghost use Rattle.rignolda_agent.specs.Structs.{taker_of};

use crate::body::Kind;
use crate::numbers::{is_newer, next};

/// What an agent remembers of the bodies that it took. Every bit pattern means something.
#[repr(C)]
#[derive(Clone, Copy, Debug)]
pub struct Taker {
    /// The number of the last body that it took, 0 before the first.
    pub number: u64,
    /// The number that its files have, 0 where that is not known.
    pub floor: u64,
    /// Whether a whole table was taken, and no number was left out since: 0 is no.
    pub whole: u8,
    /// Whether harmless bodies were taken since the last table: 0 is no.
    pub in_a_round: u8,
}

/// What is to be done about a body that came.
#[derive(Clone, Copy, Debug, PartialEq, Eq)]
pub struct Heard {
    /// It is taken: what it says waits. Else it is not newer than the last one, and nothing
    /// changes.
    pub taken: bool,
    /// What waited before it is dropped.
    pub drops: bool,
    /// What waits is applied now.
    pub applied: bool,
    /// It is a table that makes up for what was left out before it.
    pub fills: bool,
    /// It is a table with which all files are looked at.
    pub looks: bool,
}

impl Taker {
    /// A body of this kind and number came.
    pub fn hears(&mut self, kind: Kind, number: u64) -> Heard
        ensures after { taker_of self.new ≡ after (taker_of self.old) kind number }
        ensures taken { result.taken ≡ takes (taker_of self.old) number }
        ensures drops { result.drops
            ≡ (takes (taker_of self.old) number && drops (taker_of self.old) kind number) }
        ensures applied { result.applied
            ≡ (takes (taker_of self.old) number && not (is_held (taker_of self.old) number)) }
        ensures fills { result.fills ≡ (takes (taker_of self.old) number
            && (is_table kind && fills (taker_of self.old) number)) }
        ensures looks { result.looks ≡ (takes (taker_of self.old) number
            && (is_table kind && looks (taker_of self.old) number)) }
    {
        let taken = is_newer(self.number, number);
        let heard = Heard {
            taken,
            drops: taken && self.drops(kind, number),
            applied: taken && !self.is_held(number),
            fills: taken && kind == Kind::Table && self.fills(number),
            looks: taken && kind == Kind::Table && self.looks(number),
        };
        if taken {
            self.take(kind, number);
        }
        heard
    }

    /// The process started again: of what it remembered, the number of its files alone is there.
    pub fn restarted(floor: u64) -> Taker
        ensures { (t : TakerState) → t.floor ≡ floor → taker_of result ≡ restarted t }
    {
        Taker {
            number: 0,
            floor,
            whole: 0,
            in_a_round: 0,
        }
    }

    /// What it was told was left out, for want of room: something is missing.
    pub fn misses(&mut self)
        ensures { taker_of self.new ≡ missing (taker_of self.old) }
    {
        self.whole = 0;
    }

    fn is_held(&self, number: u64) -> bool
        ensures { result ≡ is_held (taker_of self.now) number }
    {
        is_newer(number, self.floor)
    }

    fn follows(&self, number: u64) -> bool
        ensures { result ≡ follows (taker_of self.now) number }
    {
        self.number == 0 || next(self.number) == number
    }

    fn drops(&self, kind: Kind, number: u64) -> bool
        ensures { result ≡ drops (taker_of self.now) kind number }
    {
        self.is_held(self.number) && kind != Kind::Table && !self.follows(number)
    }

    fn fills(&self, number: u64) -> bool
        ensures { result ≡ fills (taker_of self.now) number }
    {
        !(self.whole != 0 && self.follows(number))
    }

    fn looks(&self, number: u64) -> bool
        ensures { result ≡ looks (taker_of self.now) number }
    {
        self.in_a_round != 0 || self.fills(number)
    }

    /// The body is newer.
    fn take(&mut self, kind: Kind, number: u64)
        ensures { taker_of self.new ≡ after_if true (taker_of self.old) kind number }
    {
        let (fills, is_held) = (self.fills(number), self.is_held(number));
        self.number = number;
        if !is_held {
            self.floor = number;
        }
        self.whole = u8::from(!fills);
        match kind {
            Kind::Table => {
                self.whole = 1;
                self.in_a_round = 0;
            }
            Kind::Harmless => self.in_a_round = 1,
            Kind::Changes => (),
        }
    }
}

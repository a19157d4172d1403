ghost use Rattle.std.specs.Prelude.{◌≡◌, ◌+◌, ◌-◌, ◌/◌, ◌%◌, ◌<◌, ◌≤◌, [], ◌∷◌, ◌++◌};
ghost use Rattle.std.specs.Prelude.{if◌then◌else◌, length, slice_get, Some};
ghost use Rattle.stab_lock.specs.CodesInside.{numbers_in, unpack, expand, parts_in, AreOnes};

use crate::kind::Kind;
use crate::part::{COUNTS, Part};
use stab_core::Event;
use std::marker::Model;

/// How many kinds there are.
const KINDS: u8 = 11;

/// The first byte of two runs.
const PAIRS: u8 = KINDS * COUNTS;

/// One run or two in one byte: a run of any count, or two of one event each. Contracts see what it
/// says of them, in their order.
#[derive(Debug, Drop)]
pub(crate) struct Code {
    /// Below `PAIRS`, `KINDS` times the count and the number of the kind; from there on, `KINDS`
    /// times the number of the first kind and the number of the second.
    byte: u8,
}

impl Model for Code {
    ghost use Rattle.std.specs.Prelude.{List};
    ghost use Rattle.stab_lock.specs.declared.part.Part.{Part};
    ghost use Rattle.stab_lock.specs.CodesInside.{parts_of};

    ghost Value = { List Part };

    ghost view = { λ c. parts_of c.byte };
}

impl Code {
    /// The code of one run.
    #[tactic(auto, using(crate::proofs::Bytes::single_is))]
    pub(crate) fn of(part: Part) -> Code
        requires { part.count < 12 }
        ensures { result ≡ part ∷ [] }
    {
        Code {
            byte: byte_of_one(part.kind.number(), part.count),
        }
    }

    /// Adds a second run, where this is one run of one event and so is the other. It says whether
    /// it did.
    #[tactic(auto, using(crate::proofs::Bytes::pair_is))]
    pub(crate) fn join(&mut self, part: Part) -> bool
        ensures { self.new ≡ (if result then self.old ++ part ∷ [] else self.old) }
    {
        if part.count != 1 || self.byte / KINDS != 1 {
            return false;
        }
        self.byte = byte_of_two(self.byte % KINDS, part.kind.number());
        true
    }

    /// The first run, and the second where there is one.
    fn parts(&self) -> (Part, Option<Part>)
        ensures parts { self.now ≡ parts_in result.0 result.1 }
        ensures ones { AreOnes result.0 result.1 }
    {
        if self.byte < PAIRS {
            let kind = Kind::at(self.byte % KINDS);
            let count = self.byte / KINDS;
            return (Part { kind, count }, None);
        }
        let first = Kind::at((self.byte - PAIRS) / KINDS);
        let second = Kind::at((self.byte - PAIRS) % KINDS);
        (
            Part {
                kind: first,
                count: 1,
            },
            Some(Part {
                kind: second,
                count: 1,
            }),
        )
    }

    /// How many numbers its runs take.
    pub(crate) fn numbers(&self) -> usize
        ensures { result ≡ numbers_in self.now }
    {
        match self.parts() {
            (first, None) => first.numbers(),
            (first, Some(second)) => first.numbers() + second.numbers(),
        }
    }

    /// How many events its runs have, whose numbers begin at this place.
    pub(crate) fn events(&self, numbers: &[u16], first: usize) -> u64
        requires { first + numbers_in self.now ≤ length numbers.now }
        ensures { result ≡ length (expand (unpack numbers.now first self.now)) }
    {
        match self.parts() {
            (one, None) => one.events(numbers, first),
            (_, Some(_)) => 2,
        }
    }

    /// The event at a place of these, 0 being the first.
    pub(crate) fn event(&self, numbers: &[u16], first: usize, place: u64) -> Event
        requires numbers { first + numbers_in self.now ≤ length numbers.now }
        requires place { place < length (expand (unpack numbers.now first self.now)) }
        ensures { slice_get (expand (unpack numbers.now first self.now)) place ≡ Some result }
    {
        match self.parts() {
            (one, Some(second)) if place > 0 => second.event(numbers, first + one.numbers()),
            (one, _) => one.event(numbers, first),
        }
    }
}

/// The byte of one run, of the kind of this number.
fn byte_of_one(kind: u8, count: u8) -> u8
    requires kind { kind < 11 }
    requires count { count < 12 }
    ensures one { result / 132 ≡ 0 }
    ensures kind { result % 11 ≡ kind }
    ensures count { result / 11 ≡ count }
{
    count * KINDS + kind
}

/// The byte of two runs of one event each, of the kinds of these numbers.
fn byte_of_two(first: u8, second: u8) -> u8
    requires first { first < 11 }
    requires second { second < 11 }
    ensures two { result / 132 ≡ 1 }
    ensures first { (result - 132) / 11 ≡ first }
    ensures second { (result - 132) % 11 ≡ second }
{
    PAIRS + first * KINDS + second
}

const _: () = prove!(size_of::<Code>() == 1);

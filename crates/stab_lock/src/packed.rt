ghost use Rattle.std.specs.Prelude.{◌≡◌, ◌+◌, ◌-◌, ◌<◌, ◌≤◌, [], ◌∷◌, ◌++◌, length, replicate};
ghost use Rattle.std.specs.Prelude.{slice_get, slice_index, ◌%◌, ◌==◌, if◌then◌else◌, vec_len, vec_capacity};
ghost use Rattle.std.specs.Prelude.{OnOk, OnErr};
ghost use Rattle.stab_lock.specs.CodesInside.{expand, all_parts, numbers_in, unpack, IsJoined};
ghost use Rattle.stab_lock.specs.History.{IsLast, most_events};

use crate::code::Code;
use crate::numbers::{add_count, add_event};
use crate::part::Part;
use crate::run::Run;
use stab_core::Event;
use std::alloc::{AllocError, Global};
use std::marker::Model;

/// How many codes share one mark.
const BLOCK: usize = 256;

/// How many numbers a run takes at most.
const NUMBERS: usize = 6;

/// For how many codes an offered item gets room: in a run of workers most items take three, and
/// what is not used takes no memory of the machine.
const CODES_FOR_ITEM: usize = 4;

/// The runs that are over, as codes of one byte and the numbers that they leave out, with two marks
/// for every 256th code. Contracts see the runs, and for how many more there is room. A run that
/// joins the last code leaves the marks as they are, since they count what is before a code.
#[derive(Debug, Drop)]
pub(crate) struct PackedRuns {
    codes: Vec<Code>,
    numbers: Vec<u16>,
    /// How many events there are before the first code of each block.
    marks: Vec<u64>,
    /// How many numbers the codes before it take.
    starts: Vec<u64>,
    count: u64,
}

impl Model for PackedRuns {
    ghost use Rattle.std.specs.Prelude.{◌-◌, ◌/◌, min, vec_len, vec_capacity};
    ghost use Rattle.stab_lock.specs.CodesInside.{all_parts, unpack};
    ghost use Rattle.stab_lock.specs.HistoryInside.{PackedValue, ArePacked};

    ghost Value = { PackedValue };

    ghost view = { λ c. record {
      runs = unpack c.numbers.items 0 (all_parts c.codes.items);
      room = min
          (min (vec_capacity c.codes - vec_len c.codes)
          ((vec_capacity c.numbers - vec_len c.numbers) / 6))
          (min (vec_capacity c.marks - vec_len c.marks)
          (vec_capacity c.starts - vec_len c.starts));
    } };

    ghost invariant = { λ c.
        ArePacked c.codes.items c.numbers.items c.marks.items c.starts.items c.count };
}

impl PackedRuns {
    /// No runs. It takes no memory.
    pub(crate) fn new(alloc: Global) -> PackedRuns
        ensures { result.runs ≡ [] }
    {
        PackedRuns {
            codes: Vec::new(alloc),
            numbers: Vec::new(alloc),
            marks: Vec::new(alloc),
            starts: Vec::new(alloc),
            count: 0,
        }
    }

    /// How many events the runs have.
    pub(crate) fn count(&self) -> u64
        ensures { result ≡ length (expand self.now.runs) }
    {
        self.count
    }

    /// Makes room for more runs.
    pub(crate) fn reserve(&mut self, additional: u32) -> Result<(), AllocError>
        ensures runs { self.new.runs ≡ self.old.runs }
        ensures room { OnOk result (additional ≤ self.new.room) }
        ensures memory { OnErr result (self.old.room < additional) }
    {
        let additional = additional as usize;
        self.codes.reserve(additional)?;
        self.numbers.reserve(additional * NUMBERS)?;
        self.marks.reserve(additional)?;
        self.starts.reserve(additional)
    }

    /// Makes room for what the offers of this many items usually take, as far as memory is there.
    pub(crate) fn reserve_for_items(&mut self, items: usize)
        ensures runs { self.new.runs ≡ self.old.runs }
        ensures room { self.old.room ≤ self.new.room }
    {
        let _codes = self
            .codes
            .reserve_exact(items.saturating_mul(CODES_FOR_ITEM));
        let _numbers = self.numbers.reserve_exact(items.saturating_add(NUMBERS));
    }

    /// Adds a run, in the room that was made.
    pub(crate) fn push(&mut self, run: Run)
        requires room { 1 ≤ self.old.room }
        requires some { 1 ≤ run.count }
        requires differs { ¬ IsLast run.event (expand self.old.runs) }
        requires within { length (expand self.old.runs) + run.count ≤ most_events }
        ensures events { expand self.new.runs
            ≡ expand self.old.runs ++ replicate run.count run.event }
        ensures room { self.old.room ≤ self.new.room + 1 }
    {
        let part = Part::of(run);
        let start = self.numbers.len() as u64;
        add_event(&mut self.numbers, run.event);
        add_count(&mut self.numbers, run.count);
        if !join_last(&mut self.codes, part) {
            let place = self.codes.len();
            mark(&mut self.marks, place, self.count);
            mark(&mut self.starts, place, start);
            self.codes.push_reserved(Code::of(part));
        }
        self.count += run.count;
    }

    /// The event at a place, 0 being the first.
    pub(crate) fn get(&self, place: u64) -> Option<Event>
        ensures { result ≡ slice_get (expand self.now.runs) place }
    {
        if self.marks.is_empty() {
            return None;
        }
        let block = block_of(self.marks.as_slice(), place);
        event_in_codes(
            &self.codes[block * BLOCK..],
            self.numbers.as_slice(),
            self.starts[block] as usize,
            place - self.marks[block],
        )
    }
}

/// Adds a part to the last code, where it joins that. It says whether it did.
fn join_last(codes: &mut Vec<Code>, part: Part) -> bool
    ensures joined { IsJoined codes.old.items part codes.new.items result }
    ensures len { vec_len codes.new ≡ vec_len codes.old }
    ensures capacity { vec_capacity codes.new ≡ vec_capacity codes.old }
{
    match codes.last_mut() {
        Some(last) => last.join(part),
        None => false,
    }
}

/// Adds the mark of the code at this place, where it begins a block.
fn mark(marks: &mut Vec<u64>, place: usize, count: u64)
    requires { vec_len marks.old < vec_capacity marks.old }
    ensures items { marks.new.items
        ≡ (if place % 256 == 0 then marks.old.items ++ count ∷ [] else marks.old.items) }
    ensures len { vec_len marks.new ≤ vec_len marks.old + 1 }
    ensures capacity { vec_capacity marks.new ≡ vec_capacity marks.old }
{
    if place % BLOCK == 0 {
        marks.push_reserved(count);
    }
}

/// The last block that begins at this place or before it.
fn block_of(marks: &[u64], place: u64) -> usize
    requires first { slice_index marks.now 0 ≤ place }
    requires some { 1 ≤ length marks.now }
    ensures block { result < length marks.now }
    ensures begins { slice_index marks.now result ≤ place }
    ensures last { result + 1 < length marks.now → place < slice_index marks.now (result + 1) }
{
    let mut block = 0;
    let mut end = marks.len();
    while end - block > 1 {
        let middle = block + (end - block) / 2;
        if marks[middle] <= place {
            block = middle;
        } else {
            end = middle;
        }
    }
    block
}

/// The event at a place of these codes, 0 being the first; their numbers begin at `first`.
fn event_in_codes(codes: &[Code], numbers: &[u16], first: usize, place: u64) -> Option<Event>
    requires { first + numbers_in (all_parts codes.now) ≤ length numbers.now }
    ensures { result ≡ slice_get (expand (unpack numbers.now first (all_parts codes.now))) place }
{
    let mut number = first;
    let mut left = place;
    for code in codes {
        let count = code.events(numbers, number);
        if left < count {
            return Some(code.event(numbers, number, left));
        }
        left -= count;
        number += code.numbers();
    }
    None
}

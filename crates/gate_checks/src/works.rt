//! The work of a node, over ends without a link.

use crate::again::{Calls, Made, Row, push_answer};
use crate::gate::OpenGate;
use stab_ends::FrameSeen;
use stab_ends::plain::{PlainRecv, PlainSend};
use stab_frames::Item;
use stab_node::work;
use std::alloc::{AllocError, Global};
use std::collections::VecDeque;

/// The one call.
pub const ROW: Row<'static, ()> = (1, &[("work", ())]);

/// What the upper end sees: enough items that each list grows twice, and the close.
const SEEN: [FrameSeen; 6] = [
    FrameSeen::Fresh(1),
    FrameSeen::Fresh(2),
    FrameSeen::Fresh(3),
    FrameSeen::Fresh(4),
    FrameSeen::Fresh(5),
    FrameSeen::Closed,
];

/// What the node begins with.
const OPENED: [Item; 2] = [50, 51];

/// The most turns of the worker.
const TURNS: u32 = 50;

/// The ends of a node: two of each, since the work gives up its ends.
#[derive(Drop)]
pub struct Works {
    alloc: Global,
    ups: Vec<PlainRecv>,
    downs: Vec<Vec<PlainSend>>,
}

impl Made for Works {
    type Given = ();

    fn new(alloc: Global, _given: ()) -> Result<Works, AllocError> {
        let mut works = Works {
            alloc,
            ups: Vec::new(alloc),
            downs: Vec::new(alloc),
        };
        works.add_ends()?;
        works.add_ends()?;
        Ok(works)
    }
}

impl Works {
    /// Adds an upper end, and a lower end that acknowledges at once.
    fn add_ends(&mut self) -> Result<(), AllocError> {
        let mut seen = VecDeque::with_capacity(self.alloc, SEEN.len())?;
        for entry in &SEEN {
            seen.push_back(*entry)?;
        }
        self.ups.push(PlainRecv::new(self.alloc, seen))?;
        let mut ends = Vec::new(self.alloc);
        ends.push(PlainSend::new(self.alloc, true))?;
        self.downs.push(ends)?;
        Ok(())
    }
}

impl Calls for Works {
    type Call = ();

    fn push_object(&self, _text: &mut String) -> Result<(), AllocError> {
        Ok(())
    }

    fn make(&mut self, _call: &(), text: &mut String) -> Result<(), AllocError> {
        let (alloc, up) = (self.alloc, self.ups.pop());
        let downs = self.downs.pop().unwrap_or(Vec::new(alloc));
        let account = work(&(), alloc, 0, up, downs, &OPENED, TURNS, &OpenGate);
        push_answer(text, account)
    }
}

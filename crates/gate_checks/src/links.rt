//! The calls on a link, and those of a replay that keeps origins.

use crate::again::{Calls, Made, Row, push_fault};
use crate::jobs::WORST_START;
use stab_core::{Event, Link, Origin, origins_text, push_link_text, push_origins_text, trace};
use stab_frames::Item;
use stab_script::{LinkJob, read_link_job_by_value};
use std::alloc::{AllocError, Global};

/// Items, enough of them that both lists of a link grow three times.
pub const ITEMS: [Item; 9] = [10, 11, 12, 13, 14, 15, 16, 17, 18];

/// Where the items come from that are delivered at the worst start.
const ORIGINS: [Origin; 2] = [Origin::Stray(0), Origin::Sent(3)];

/// The calls that need no link. Then a link delivers its stray, each item goes its way, and the
/// link is closed.
pub const ROWS: [Row<'static, LinkCall>; 3] = [
    (
        1,
        &[
            ("trace", LinkCall::Trace),
            ("origins_text", LinkCall::OriginsText),
            ("Link::apply", RECV_FRAME),
            ("Link::apply", RECV_ACK),
        ],
    ),
    (
        9,
        &[
            ("Link::apply", LinkCall::Offer),
            ("Link::apply", LinkCall::Apply(Event::SendFrame)),
            ("Link::apply", RECV_FRAME),
            ("Link::apply", LinkCall::Apply(Event::SendAck)),
            ("Link::apply", RECV_ACK),
        ],
    ),
    (
        1,
        &[
            ("Link::apply", LinkCall::Apply(Event::Close)),
            ("the link holds", LinkCall::Hold),
        ],
    ),
];

const RECV_FRAME: LinkCall = LinkCall::Apply(Event::RecvFrame { keep: false });

const RECV_ACK: LinkCall = LinkCall::Apply(Event::RecvAck { keep: false });

/// A link job, and the link that steps from its start.
#[derive(Drop)]
pub struct Links {
    alloc: Global,
    job: LinkJob,
    link: Link,
}

/// A call on a job or on its link. An offer is of the next item.
#[derive(Clone, Copy)]
pub enum LinkCall {
    Trace,
    OriginsText,
    Offer,
    Apply(Event),
    Hold,
}

/// The job of the worst start.
fn job_of(alloc: Global) -> Result<LinkJob, AllocError> {
    read_link_job_by_value(alloc, WORST_START.as_bytes())
        .ok()
        .ok_or(AllocError)
}

/// The link at the start of a job.
fn link_of(alloc: Global, job: &LinkJob) -> Result<Link, AllocError> {
    Link::new(alloc, job.params, &job.start)
        .ok()
        .ok_or(AllocError)
}

impl Made for Links {
    type Given = ();

    fn new(alloc: Global, _given: ()) -> Result<Links, AllocError> {
        let job = job_of(alloc)?;
        let link = link_of(alloc, &job)?;
        Ok(Links { alloc, job, link })
    }
}

impl Calls for Links {
    type Call = LinkCall;

    fn push_object(&self, text: &mut String) -> Result<(), AllocError> {
        write!(text, "{:?} {:?}", self.job, self.link)
    }

    fn make(&mut self, call: &LinkCall, text: &mut String) -> Result<(), AllocError> {
        match call {
            LinkCall::Trace => push_trace(text, self.alloc, &self.job),
            LinkCall::OriginsText => text.push_str(&origins_text(self.alloc, &ORIGINS)?),
            LinkCall::Offer => offer(&mut self.link, text),
            LinkCall::Apply(event) => apply(&mut self.link, *event, text),
            LinkCall::Hold => push_link_text(text, &self.link),
        }
    }
}

/// Offers the next item to a link.
fn offer(link: &mut Link, text: &mut String) -> Result<(), AllocError> {
    match ITEMS.get(link.offered().len()) {
        Some(item) => apply(link, Event::Offer(*item), text),
        None => text.push_str("no item is left"),
    }
}

/// Steps a link.
fn apply(link: &mut Link, event: Event, text: &mut String) -> Result<(), AllocError> {
    let effect = link.apply(event)?;
    write!(text, "{event:?} gives {effect:?}")
}

/// Adds where the items come from that a job delivers, or its fault.
fn push_trace(text: &mut String, alloc: Global, job: &LinkJob) -> Result<(), AllocError> {
    match trace(alloc, job.params, &job.start, job.events.as_slice()) {
        Ok(origins) => push_origins_text(text, &origins),
        Err(fault) => push_fault(text, &fault),
    }
}

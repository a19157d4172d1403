//! The calls on all links of a tree: openings of nothing, and the steps of its links.

use crate::again::{Calls, Made, Row, push_answer, push_fault};
use crate::jobs::STRAY_CHAIN;
use crate::links::ITEMS;
use stab_core::{LinkAct, push_link_text};
use stab_job::{Job, read_job_by_value};
use stab_tree::NodeId;
use stab_treecore::{Openings, TreeEvent, TreeState};
use std::alloc::{AllocError, Global};

/// The places of the nodes that have a parent.
const CHILDREN: [u16; 2] = [1, 2];

/// The links of a chain step: each delivers its stray, each item goes to the first child, and one
/// goes on to the second.
pub const ROWS: [Row<'static, ChainCall>; 3] = [
    (
        1,
        &[
            ("Openings::none", ChainCall::NoOpenings),
            ("TreeState::apply", ChainCall::Step(1, RECV_FRAME)),
            ("TreeState::apply", ChainCall::Step(1, RECV_ACK)),
            ("TreeState::apply", ChainCall::Step(2, RECV_FRAME)),
            ("TreeState::apply", ChainCall::Step(2, RECV_ACK)),
        ],
    ),
    (
        9,
        &[
            ("TreeState::apply", ChainCall::Step(1, LinkAct::Offer)),
            ("TreeState::apply", ChainCall::Step(1, LinkAct::SendFrame)),
            ("TreeState::apply", ChainCall::Step(1, RECV_FRAME)),
            ("TreeState::apply", ChainCall::Step(1, LinkAct::SendAck)),
            ("TreeState::apply", ChainCall::Step(1, RECV_ACK)),
        ],
    ),
    (
        1,
        &[
            ("TreeState::apply", ChainCall::Step(2, LinkAct::Offer)),
            ("TreeState::apply", ChainCall::Step(2, LinkAct::SendFrame)),
            ("TreeState::apply", ChainCall::Step(2, RECV_FRAME)),
            ("TreeState::apply", ChainCall::Step(2, LinkAct::SendAck)),
            ("TreeState::apply", ChainCall::Step(2, RECV_ACK)),
            ("the links hold", ChainCall::Hold),
        ],
    ),
];

const RECV_FRAME: LinkAct = LinkAct::RecvFrame { keep: false };

const RECV_ACK: LinkAct = LinkAct::RecvAck { keep: false };

/// A job of a chain, and links that step from its opening.
#[derive(Drop)]
pub struct Chain {
    alloc: Global,
    job: Job,
    state: TreeState,
}

/// A call on a chain, or a step of the link into a child.
#[derive(Clone, Copy)]
pub enum ChainCall {
    NoOpenings,
    Step(u16, LinkAct),
    Hold,
}

/// The job of a chain.
fn job_of(alloc: Global) -> Result<Job, AllocError> {
    read_job_by_value(alloc, STRAY_CHAIN.as_bytes())
        .ok()
        .ok_or(AllocError)
}

/// The links of a job at their opening, with items of their own.
fn opened(alloc: Global, job: &Job) -> Result<TreeState, AllocError> {
    let (params, starts) = (job.params(), job.starts());
    let state = TreeState::new(alloc, params, job.tree(), &ITEMS, starts, job.openings());
    state.ok().ok_or(AllocError)
}

impl Made for Chain {
    type Given = ();

    fn new(alloc: Global, _given: ()) -> Result<Chain, AllocError> {
        let job = job_of(alloc)?;
        let state = opened(alloc, &job)?;
        Ok(Chain { alloc, job, state })
    }
}

impl Calls for Chain {
    type Call = ChainCall;

    fn push_object(&self, text: &mut String) -> Result<(), AllocError> {
        write!(text, "{:?} {:?}", self.job, self.state)
    }

    fn make(&mut self, call: &ChainCall, text: &mut String) -> Result<(), AllocError> {
        match *call {
            ChainCall::NoOpenings => {
                push_answer(text, Openings::none(self.alloc, self.job.tree()))
            }
            ChainCall::Step(child, act) => step(&mut self.state, child, act, text),
            ChainCall::Hold => push_links(text, &self.state),
        }
    }
}

/// Steps the link into a child.
fn step(
    state: &mut TreeState,
    child: u16,
    act: LinkAct,
    text: &mut String,
) -> Result<(), AllocError> {
    let event = TreeEvent {
        child: NodeId::new(child),
        act,
    };
    match state.apply(event) {
        Ok(effect) => write!(text, "{act:?} into {child} gives {effect:?}"),
        Err(fault) => push_fault(text, &fault),
    }
}

/// Adds the lines of all links.
fn push_links(text: &mut String, state: &TreeState) -> Result<(), AllocError> {
    for child in &CHILDREN {
        if let Some(link) = state.link(NodeId::new(*child)) {
            writeln!(text, "link into {child}")?;
            push_link_text(text, link)?;
        }
    }
    Ok(())
}

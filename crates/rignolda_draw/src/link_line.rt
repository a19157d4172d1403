//! The line of a link, which is kept from line to line.

use crate::cells::{ACKS, FRAMES, push_delivered, push_name_cell, push_remembered_cell};
use crate::event_cells::push_act_cells;
use crate::queue::Queue;
use crate::row::Row;
use crate::sender::Sender;
use crate::words::delivered_by;
use stab_core::{Effect, Event, Link};
use stab_frames::{Frame, Item, Label};
use stab_tree::{NodeId, Tree};
use std::alloc::{AllocError, Global};

/// What a line shows of a link: the name of its child in its column, which a run of one link has
/// not, and the cells behind the effect.
#[derive(Drop)]
pub(crate) struct LinkLine {
    name: String,
    sender: Sender,
    frames: Queue,
    acks: Queue,
    /// The end of a line that delivers nothing.
    last: String,
}

impl LinkLine {
    /// The line of the link into a node.
    pub(crate) fn new(
        alloc: Global,
        tree: Option<&Tree>,
        node: NodeId,
        link: &Link,
    ) -> Result<LinkLine, AllocError> {
        let mut name = String::new(alloc);
        if let Some(tree) = tree {
            push_name_cell(&mut name, tree, node)?;
        }
        let sender = Sender::new(alloc, link)?;
        let frames = Queue::new::<Frame>(alloc, link, FRAMES)?;
        let acks = Queue::new::<Label>(alloc, link, ACKS)?;
        let mut last = String::new(alloc);
        push_last(&mut last, link, None)?;
        Ok(LinkLine {
            name,
            sender,
            frames,
            acks,
            last,
        })
    }

    /// Changes the line as the event of a row changed its link, which is as it was where the event
    /// had no effect.
    pub(crate) fn follow(&mut self, row: &Row, link: &Link) -> Result<(), AllocError> {
        if is_nothing(row.effect) {
            return Ok(());
        }
        match row.event {
            Some(Event::SendFrame) => self.frames.follow::<Frame>(link),
            Some(Event::RecvFrame { keep: _ }) => {
                self.last.clear();
                push_last(&mut self.last, link, None)?;
                self.frames.follow::<Frame>(link)
            }
            Some(Event::LoseFrame(_)) => self.frames.follow_loss::<Frame>(link),
            Some(Event::SendAck) => self.acks.follow::<Label>(link),
            Some(Event::RecvAck { keep: _ }) => {
                self.sender.follow(link)?;
                self.acks.follow::<Label>(link)
            }
            Some(Event::LoseAck(_)) => self.acks.follow_loss::<Label>(link),
            Some(Event::Offer(_) | Event::Close) | None => self.sender.follow(link),
        }
    }

    /// Adds the line of the start.
    pub(crate) fn push_start(&self, text: &mut String) -> Result<(), AllocError> {
        text.push_str(self.name.as_str())?;
        text.push_str("start               -       ")?;
        self.push_cells(text)?;
        text.push_str(self.last.as_str())
    }

    /// Adds the line of a row, with its link after the event.
    pub(crate) fn push_row(
        &self,
        text: &mut String,
        row: &Row,
        link: &Link,
    ) -> Result<(), AllocError> {
        if !self.name.is_empty() {
            text.push_str(self.name.as_str())?;
        }
        push_act_cells(text, row.event, row.effect)?;
        self.push_cells(text)?;
        match delivered_by(row.effect) {
            None => text.push_str(self.last.as_str()),
            Some(item) => push_last(text, link, Some(item)),
        }
    }

    /// Adds the cells of the sender and of both queues.
    fn push_cells(&self, text: &mut String) -> Result<(), AllocError> {
        text.push_str(self.sender.cells.as_str())?;
        text.push_str(self.frames.cell.as_str())?;
        text.push_str(self.acks.cell.as_str())
    }
}

/// Adds the label that the receiver of a link remembers, and what it delivered.
fn push_last(text: &mut String, link: &Link, item: Option<Item>) -> Result<(), AllocError> {
    push_remembered_cell(text, link.recv_label())?;
    push_delivered(text, item)
}

/// Whether an event had no effect.
fn is_nothing(effect: Effect) -> bool {
    match effect {
        Effect::Nothing => true,
        _ => false,
    }
}

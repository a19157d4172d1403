//! The cells of a sender, which are kept from line to line.

use crate::cells::push_sender_cells;
use crate::row::held;
use stab_core::Link;
use stab_frames::{Item, Label};
use std::alloc::{AllocError, Global};

/// The cells of a sender, and the numbers of which they were made.
#[derive(Drop)]
pub(crate) struct Sender {
    label: Label,
    holds: Option<Item>,
    acked: u64,
    pub(crate) cells: String,
}

impl Sender {
    /// The cells of the sender of a link.
    pub(crate) fn new(alloc: Global, link: &Link) -> Result<Sender, AllocError> {
        let mut cells = String::new(alloc);
        push_sender_cells(&mut cells, link)?;
        Ok(Sender {
            label: link.send_label(),
            holds: held(link),
            acked: link.acked(),
            cells,
        })
    }

    /// Makes the cells anew where the sender of a link has other numbers.
    pub(crate) fn follow(&mut self, link: &Link) -> Result<(), AllocError> {
        if self.is_of(link) {
            return Ok(());
        }
        self.label = link.send_label();
        self.holds = held(link);
        self.acked = link.acked();
        self.cells.clear();
        push_sender_cells(&mut self.cells, link)
    }

    /// Whether the sender of a link has the numbers of which the cells were made.
    fn is_of(&self, link: &Link) -> bool {
        self.label == link.send_label()
            && self.acked == link.acked()
            && is_same(self.holds, held(link))
    }
}

/// Whether two senders hold the same item, or both hold none.
fn is_same(one: Option<Item>, other: Option<Item>) -> bool {
    match (one, other) {
        (None, None) => true,
        (Some(one), Some(other)) => one == other,
        _ => false,
    }
}

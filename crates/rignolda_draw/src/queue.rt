//! The queues of a link as words.

use crate::cells::pad;
use crate::words::push_decimal;
use stab_core::Link;
use stab_frames::{Frame, Label};
use std::alloc::{AllocError, Global};

/// An entry of a queue of a link.
pub(crate) trait Entry: Copy {
    /// Adds the entry as a word.
    fn push_word(self, text: &mut String) -> Result<(), AllocError>;

    /// How many entries are queued.
    fn count(link: &Link) -> u16;

    /// The queued entry at this place, where there is one.
    fn at(link: &Link, place: u16) -> Option<Self>;
}

/// Its label, and its item after `=`.
impl Entry for Frame {
    fn push_word(self, text: &mut String) -> Result<(), AllocError> {
        push_decimal(text, u64::from(self.label))?;
        text.push('=')?;
        push_decimal(text, u64::from(self.item))
    }

    fn count(link: &Link) -> u16 {
        link.frame_count()
    }

    fn at(link: &Link, place: u16) -> Option<Frame> {
        link.frame_at(place)
    }
}

/// Its number.
impl Entry for Label {
    fn push_word(self, text: &mut String) -> Result<(), AllocError> {
        push_decimal(text, u64::from(self))
    }

    fn count(link: &Link) -> u16 {
        link.ack_count()
    }

    fn at(link: &Link, place: u16) -> Option<Label> {
        link.ack_at(place)
    }
}

/// Adds the entries of a queue, or `-`.
pub(crate) fn push_queue<E: Entry>(text: &mut String, link: &Link) -> Result<(), AllocError> {
    if E::count(link) == 0 {
        return text.push('-');
    }
    push_entries::<E>(text, link, 0)
}

/// Adds the entries of a queue from this place on, each after a comma, but for the front.
fn push_entries<E: Entry>(text: &mut String, link: &Link, from: u16) -> Result<(), AllocError> {
    for place in from..E::count(link) {
        push_entry(text, place, E::at(link, place))?;
    }
    Ok(())
}

/// Adds the entry at this place, where there is one, after a comma if it is not the front.
fn push_entry<E: Entry>(text: &mut String, place: u16, entry: Option<E>) -> Result<(), AllocError> {
    let Some(entry) = entry else {
        return Ok(());
    };
    if place > 0 {
        text.push(',')?;
    }
    entry.push_word(text)
}

/// The cell of a queue, which is kept from line to line, and what it shows.
#[derive(Drop)]
pub(crate) struct Queue {
    /// The word in its column.
    pub(crate) cell: String,
    /// How long the word is.
    word: usize,
    /// How many entries the queue has.
    count: u16,
    width: usize,
}

impl Queue {
    /// The cell of a queue of a link, in a column of this width.
    pub(crate) fn new<E: Entry>(
        alloc: Global,
        link: &Link,
        width: usize,
    ) -> Result<Queue, AllocError> {
        let mut queue = Queue {
            cell: String::new(alloc),
            word: 0,
            count: E::count(link),
            width,
        };
        queue.write::<E>(link)?;
        Ok(queue)
    }

    /// Changes the cell as an event changed the queue: an entry came to its back, or its front was
    /// received, if anything was.
    pub(crate) fn follow<E: Entry>(&mut self, link: &Link) -> Result<(), AllocError> {
        let before = self.count;
        let count = E::count(link);
        if count == before {
            return Ok(());
        }
        self.count = count;
        if before == 0 || count == 0 {
            return self.write::<E>(link);
        }
        self.cut_to_word();
        if before < count {
            push_entries::<E>(&mut self.cell, link, before)?;
        } else {
            remove_front(&mut self.cell)?;
        }
        self.end_word()
    }

    /// Writes the cell of a queue that lost an entry, wherever it was.
    pub(crate) fn follow_loss<E: Entry>(&mut self, link: &Link) -> Result<(), AllocError> {
        self.count = E::count(link);
        self.write::<E>(link)
    }

    /// Writes the cell anew.
    fn write<E: Entry>(&mut self, link: &Link) -> Result<(), AllocError> {
        self.cell.clear();
        push_queue::<E>(&mut self.cell, link)?;
        self.end_word()
    }

    /// Removes the blanks behind the word.
    fn cut_to_word(&mut self) {
        if self.cell.is_char_boundary(self.word) {
            self.cell.truncate(self.word);
        }
    }

    /// Ends the word, which has all of the cell so far, with blanks.
    fn end_word(&mut self) -> Result<(), AllocError> {
        self.word = self.cell.len();
        pad(&mut self.cell, 0, self.width)
    }
}

/// Removes the first entry of a word, and the comma after it.
fn remove_front(word: &mut String) -> Result<(), AllocError> {
    let end = match word.as_str().find(',') {
        Some(comma) => comma.saturating_add(1),
        None => word.len(),
    };
    if word.is_char_boundary(end) {
        word.replace_range(..end, "")?;
    }
    Ok(())
}

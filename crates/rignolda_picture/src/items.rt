use stab_frames::Item;
use std::alloc::{AllocError, Global};

/// The most letters of a line of items.
const MOST: usize = 48;

/// A line of items, of which the last may only be counted.
#[derive(Drop)]
pub(crate) struct Items {
    text: String,
    letters: usize,
    more: u64,
}

impl Items {
    /// A line without items.
    pub(crate) fn new(alloc: Global) -> Items {
        Items {
            text: String::new(alloc),
            letters: 0,
            more: 0,
        }
    }

    /// Adds an item of this class.
    pub(crate) fn push(&mut self, class: &str, item: Item) -> Result<(), AllocError> {
        if self.letters > MOST {
            self.more = self.more.saturating_add(1);
            return Ok(());
        }
        let text = &mut self.text;
        let before = text.len();
        write!(text, " {item}")?;
        let letters = text.len().saturating_sub(before);
        self.letters = self.letters.saturating_add(letters);
        text.truncate(before);
        write!(text, "<tspan class=\"{class}\"> {item}</tspan>")
    }

    /// Adds the line to a text: the items, and how many more there are; or that there are none.
    pub(crate) fn push_to(&self, out: &mut String) -> Result<(), AllocError> {
        if self.letters == 0 {
            return out.push_str(" none");
        }
        out.push_str(self.text.as_str())?;
        if self.more > 0 {
            write!(out, " and {} more", self.more)?;
        }
        Ok(())
    }
}

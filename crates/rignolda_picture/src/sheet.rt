use crate::point::Point;

/// The height of a row.
pub const ROW: u64 = 28;

/// The width of what is drawn of one link.
const PANEL: u64 = 620;

/// The least width of a picture.
const LEAST_WIDTH: u64 = 864;

/// Where the lines of the ends begin.
pub const TOP: u64 = 112;

/// The sizes of a picture.
#[derive(Clone, Copy, Debug)]
pub struct Sheet {
    /// How many links are drawn.
    pub links: u64,
    /// How many rows the start needs: one for each entry of the longest queue, and one at least.
    pub start_rows: u64,
    /// How many events there are.
    pub rows: u64,
    /// The number of letters of the longest name before an event, and one more; 0 where no event
    /// has a name before it.
    pub name: u64,
}

impl Sheet {
    /// The width of the column of events.
    fn gutter(self) -> u64 {
        self.name.saturating_mul(8).saturating_add(244)
    }

    /// The left edge of a link.
    pub fn panel(self, link: u64) -> u64 {
        self.gutter().saturating_add(link.saturating_mul(PANEL))
    }

    /// The width of the picture, in which the explanation of its signs has room.
    pub fn width(self) -> u64 {
        self.panel(self.links).max(LEAST_WIDTH)
    }

    /// The height of the row of the start that is next to the first event.
    pub fn start(self) -> u64 {
        let above = self.start_rows.saturating_mul(ROW);
        above.saturating_add(TOP).saturating_sub(6)
    }

    /// The place of the first event.
    pub fn first(self) -> Point {
        Point {
            x: 0,
            y: self.start().saturating_add(ROW),
        }
    }

    /// The height at which the lines of the ends end.
    pub fn end(self) -> u64 {
        let events = self.rows.saturating_mul(ROW);
        self.start().saturating_add(events).saturating_add(26)
    }

    /// The height of the picture.
    pub fn height(self) -> u64 {
        self.end().saturating_add(140)
    }
}

/// A place of a picture, in pixels from its left and upper edge. What would be outside of all
/// numbers is at the edge of them.
#[derive(Clone, Copy, Debug)]
pub struct Point {
    /// How far it is from the left edge.
    pub x: u64,
    /// How far it is from the upper edge.
    pub y: u64,
}

impl Point {
    /// The place so far to the right.
    pub fn right(self, by: u64) -> Point {
        Point {
            x: self.x.saturating_add(by),
            y: self.y,
        }
    }

    /// The place so far to the left.
    pub fn left(self, by: u64) -> Point {
        Point {
            x: self.x.saturating_sub(by),
            y: self.y,
        }
    }

    /// The place so far below.
    pub fn down(self, by: u64) -> Point {
        Point {
            x: self.x,
            y: self.y.saturating_add(by),
        }
    }

    /// The place so far above.
    pub fn up(self, by: u64) -> Point {
        Point {
            x: self.x,
            y: self.y.saturating_sub(by),
        }
    }

    /// The place half way to another one, in the row of that.
    pub fn half_way(self, to: Point) -> Point {
        Point {
            x: (self.x / 2).saturating_add(to.x / 2),
            y: to.y,
        }
    }
}

use std::alloc::{AllocError, Global};

/// What is drawn so far, in layers.
#[derive(Drop)]
pub struct Canvas {
    /// The bands of every second row.
    pub bands: String,
    /// The lines of the ends, and the times in which an item waits.
    pub back: String,
    /// Frames and acknowledgements on their way.
    pub ways: String,
    /// Labels and words.
    pub front: String,
}

impl Canvas {
    /// A canvas without anything.
    pub fn new(alloc: Global) -> Canvas {
        Canvas {
            bands: String::new(alloc),
            back: String::new(alloc),
            ways: String::new(alloc),
            front: String::new(alloc),
        }
    }

    /// Adds what is drawn to a text, each layer over those before it. Where memory is refused, a
    /// part of it may have been added.
    pub fn push_to(&self, out: &mut String) -> Result<(), AllocError> {
        out.push_str(self.bands.as_str())?;
        out.push_str(self.back.as_str())?;
        out.push_str(self.ways.as_str())?;
        out.push_str(self.front.as_str())
    }
}

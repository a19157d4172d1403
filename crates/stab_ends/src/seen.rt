use stab_frames::Item;

/// What the receiver's end saw when it looked for a frame.
#[derive(Clone, Copy, Debug, PartialEq, Eq, Hash)]
pub enum FrameSeen {
    /// There was no frame.
    Nothing,
    /// The receiver had taken the frame's label before.
    Old,
    /// The receiver took this item and delivered it.
    Fresh(Item),
    /// The link is closed.
    Closed,
}

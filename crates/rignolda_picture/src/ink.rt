/// What a line is drawn for.
#[derive(Clone, Copy, Debug)]
pub enum Ink {
    /// A frame of an item that was offered.
    Frame,
    /// A frame of the start.
    Stray,
    /// An acknowledgement.
    Ack,
    /// An acknowledgement of the start, or a copy of a label from there.
    StrayAck,
}

impl Ink {
    /// That of a frame.
    pub fn of_frame(is_stray: bool) -> Ink {
        if is_stray { Ink::Stray } else { Ink::Frame }
    }

    /// That of an acknowledgement.
    pub fn of_ack(is_stray: bool) -> Ink {
        if is_stray { Ink::StrayAck } else { Ink::Ack }
    }

    /// The classes of a line of it.
    pub fn line(self) -> &'static str {
        match self {
            Ink::Frame => "frame",
            Ink::Stray => "stray",
            Ink::Ack => "ack dash",
            Ink::StrayAck => "stray dash",
        }
    }

    /// The class of a shape with such an outline, and the name of such an arrow's head.
    pub fn shape(self) -> &'static str {
        match self {
            Ink::Frame => "frame",
            Ink::Stray | Ink::StrayAck => "stray",
            Ink::Ack => "ack",
        }
    }
}

//! What the two words of a link show, and the numbers that code it. No other numbers ever stand
//! in them.

ghost use Rattle.std.specs.Prelude.{◌≡◌, ◌<◌, ◌^◌};
ghost use Rattle.stab_word.specs.Words.{frame_code, FrameFits, IsFrameCode};
ghost use Rattle.stab_word.specs.Words.{ack_code, AckFits, IsAckCode};

use stab_frames::{Frame, Label};

/// The code of the frame word that shows the close.
const CLOSED: u64 = 0x2_0000_0000_0000;

/// The code of the frame with label 0 and item 0.
const FIRST_FRAME: u64 = 0x1_0000_0000_0000;

/// How many items there are: the place of the label in the code of a frame.
const ITEMS: u64 = 0x1_0000_0000;

/// How many labels a word has room for, and the code of the acknowledgement of label 0.
const LABELS: u64 = 0x1_0000;

/// What the frame word shows.
#[derive(Clone, Copy, Debug, PartialEq, Eq)]
pub enum FrameWord {
    /// No frame is on its way.
    Empty,
    /// This frame is on its way.
    Full(Frame),
    /// The link is closed.
    Closed,
}

/// What the acknowledgement word shows.
#[derive(Clone, Copy, Debug, PartialEq, Eq)]
pub enum AckWord {
    /// No acknowledgement is on its way.
    Empty,
    /// The acknowledgement of this label is on its way.
    Full(Label),
}

impl FrameWord {
    /// The number that codes this word.
    pub(crate) fn code(self) -> u64
        ensures code { result ≡ frame_code self }
        ensures fits { FrameFits self }
    {
        match self {
            FrameWord::Empty => 0,
            FrameWord::Full(frame) => {
                FIRST_FRAME + u64::from(frame.label) * ITEMS + u64::from(frame.item)
            }
            FrameWord::Closed => CLOSED,
        }
    }

    /// The word that this number codes.
    pub(crate) fn read(code: u64) -> FrameWord
        ensures { (word : FrameWord) → IsFrameCode code word → result ≡ word }
    {
        if code == 0 {
            return FrameWord::Empty;
        }
        if code == CLOSED {
            return FrameWord::Closed;
        }
        FrameWord::Full(Frame {
            label: (code / ITEMS % LABELS) as u16,
            item: (code % ITEMS) as u32,
        })
    }
}

impl AckWord {
    /// The number that codes this word.
    pub(crate) fn code(self) -> u64
        ensures code { result ≡ ack_code self }
        ensures fits { AckFits self }
    {
        match self {
            AckWord::Empty => 0,
            AckWord::Full(label) => LABELS + u64::from(label),
        }
    }

    /// The word that this number codes.
    pub(crate) fn read(code: u64) -> AckWord
        ensures { (word : AckWord) → IsAckCode code word → result ≡ word }
    {
        if code == 0 {
            return AckWord::Empty;
        }
        AckWord::Full((code % LABELS) as u16)
    }
}

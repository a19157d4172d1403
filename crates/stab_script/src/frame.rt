ghost use Rattle.stab_script.specs.Starts.{frame};
ghost use Rattle.stab_script.specs.Plain.{IsFrame};

use crate::entry::Entry;
use crate::number::{next_u16, next_u32};
use json::{Reader, Token};
use stab_frames::Frame;

/// A frame: a list of a label and an item.
impl Entry for Frame {
    type Read = Frame;

    ghost meaning = { frame };

    ghost form = { IsFrame };

    fn next(reader: &mut Reader<'_>) -> Option<Frame> {
        let Token::BeginArray = reader.next()? else {
            return None;
        };
        let label = next_u16(reader)?;
        let item = next_u32(reader)?;
        if reader.take_end_array() {
            Some(Frame { label, item })
        } else {
            None
        }
    }
}

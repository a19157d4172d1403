ghost use Rattle.std.specs.Prelude.{◌≡◌, ◌≢◌, codes, true, Err, MatchResult, IfOk, OnErr, Some};
ghost use Rattle.std.specs.Prelude.{None};
ghost use Rattle.std.specs.Prelude.{option_map, option_and_then};
ghost use Rattle.serde_json.specs.Find.{get};
ghost use Rattle.serde_json.specs.View.{view};
ghost use Rattle.stab_json.specs.Values.{label, list_or_absent};
ghost use Rattle.stab_script.specs.Starts.{frame, start, names_a_list};

use crate::fault::PartFault;
use serde_json::Value;
use stab_core::Start;
use stab_frames::{Frame, Label, Sequence};
use stab_json::{Entry, item, label, pair, read_list};
use std::alloc::{AllocError, Global};

/// The kind of entry that is a frame.
enum FrameEntry {}

impl<'v> Entry<'v> for FrameEntry {
    type Read = Frame;

    ghost meaning = { frame };

    fn read(_alloc: Global, value: &'v Value) -> Result<Option<Frame>, AllocError> {
        Ok(frame_of(value))
    }
}

/// A frame: a list of a label and an item.
fn frame_of(value: &Value) -> Option<Frame>
    ensures { result ≡ frame (view value.now) }
{
    let (its_label, its_item) = pair(value)?;
    Some(Frame {
        label: label(its_label)?,
        item: item(its_item)?,
    })
}

/// The kind of entry that is the start of a link.
pub struct StartEntry;

impl<'v> Entry<'v> for StartEntry {
    type Read = Start;

    ghost meaning = { start };

    fn read(alloc: Global, value: &'v Value) -> Result<Option<Start>, AllocError> {
        start_of(alloc, value)
    }
}

/// The start of a link, where the value means one. Only the lists of frames and of
/// acknowledgements take memory.
pub fn read_start(alloc: Global, value: &Value) -> Result<Start, PartFault>
    ensures start { MatchResult result
        (λ its_start. start (view value.now) ≡ Some its_start)
        (λ fault. fault ≢ PartFault.Memory
        → (fault ≡ PartFault.Shape) × (start (view value.now) ≡ None)) }
    ensures memory { result ≡ Err PartFault.Memory → names_a_list (view value.now) ≡ true }
{
    match start_of(alloc, value) {
        Ok(Some(start)) => Ok(start),
        Ok(None) => Err(PartFault::Shape),
        Err(_) => Err(PartFault::Memory),
    }
}

/// The start, or `None` where the value means none; only memory can be refused.
fn start_of(alloc: Global, value: &Value) -> Result<Option<Start>, AllocError>
    ensures start { IfOk result (λ its_start. its_start ≡ start (view value.now)) }
    ensures memory { OnErr result (names_a_list (view value.now) ≡ true) }
{
    let Some(frames) = read_list::<FrameEntry>(alloc, value.get("frames"))? else {
        return Ok(None);
    };
    let Some(acks) = read_list::<Label>(alloc, value.get("acks"))? else {
        return Ok(None);
    };
    let (Some(send_label), Some(recv_label)) = (label_of(value, "send"), label_of(value, "recv"))
    else {
        return Ok(None);
    };
    Ok(Some(Start {
        frames: Sequence::from_vec(frames),
        acks: Sequence::from_vec(acks),
        send_label,
        recv_label,
    }))
}

/// The label that a member of an object is, where it is one.
fn label_of(value: &Value, name: &str) -> Option<Label>
    ensures { result ≡ option_and_then label (get name.now (view value.now)) }
{
    label(value.get(name)?)
}

ghost use Rattle.std.specs.Prelude.{◌≡◌, ◌<◌, ℕ, List, length, IfSome, IfOk, IsTrue};
ghost use Rattle.json.specs.Token.{Token as SpecToken};
ghost use Rattle.serde_json.specs.Data.{Data, Members, no_members, put};
ghost use Rattle.stab_script.specs.Starts.{start};
ghost use Rattle.stab_script.specs.Standing.{Stands, MeansWithin, MembersMake};
ghost use Rattle.stab_script.specs.Members.{HasStart};
ghost use Rattle.stab_script.specs.Plain.{IsInObject, IsMemberOfStart, IsRead, IsStart};

use crate::entry::Entry;
use crate::list::read_list;
use json::{Reader, Token};
use stab_core::Start;
use stab_frames::{Frame, Label, Sequence};
use std::alloc::{AllocError, Global};

/// What was read of a start so far.
#[derive(Drop)]
struct StartParts {
    frames: Sequence<Frame>,
    acks: Sequence<Label>,
    send: Option<Label>,
    recv: Option<Label>,
}

/// Reads the member of that name, whose value comes next; false where it has not the plain form.
fn read_member(
    alloc: Global,
    reader: &mut Reader<'_>,
    name: &str,
    parts: &mut StartParts,
) -> Result<bool, AllocError>
    ensures value { IfOk result (λ done. IsTrue done → (depth : ℕ) → 1 < depth → (d : Data)
        × (Stands depth reader.old d reader.new)
        × ((ms : Members)
        → HasStart parts.old.frames parts.old.acks parts.old.send parts.old.recv ms
        → HasStart parts.new.frames parts.new.acks parts.new.send parts.new.recv
        (put name.now d ms))) }
    ensures shorter { IfOk result (λ done. IsTrue done → length reader.new < length reader.old) }
    ensures plain { IfOk result (λ done. (rest : List SpecToken)
        → IsMemberOfStart name.now reader.old rest → IsTrue done × (reader.new ≡ rest)) }
{
    match name {
        "frames" => {
            let Some(frames) = read_list::<Frame>(alloc, reader)? else {
                return Ok(false);
            };
            parts.frames = Sequence::from_vec(frames);
        }
        "acks" => {
            let Some(acks) = read_list::<Label>(alloc, reader)? else {
                return Ok(false);
            };
            parts.acks = Sequence::from_vec(acks);
        }
        "send" => {
            let Some(send) = Label::next(reader) else {
                return Ok(false);
            };
            parts.send = Some(send);
        }
        "recv" => {
            let Some(recv) = Label::next(reader) else {
                return Ok(false);
            };
            parts.recv = Some(recv);
        }
        _ => return Ok(false),
    }
    Ok(true)
}

/// The members of a start, whose opening brace was taken.
fn read_members(alloc: Global, reader: &mut Reader<'_>) -> Result<Option<StartParts>, AllocError>
    ensures value { IfOk result (λ found. IfSome found (λ parts. (depth : ℕ) → 1 < depth
        → (ms : Members)
        × (MembersMake depth no_members (length reader.old) reader.old ms reader.new)
        × HasStart parts.frames parts.acks parts.send parts.recv ms)) }
    ensures shorter { IfOk result (λ found. IfSome found (λ _.
        length reader.new < length reader.old)) }
    ensures plain { IfOk result (λ found. (rest : List SpecToken)
        → IsInObject IsMemberOfStart reader.old rest → IsRead found reader.new rest) }
{
    let mut parts = StartParts {
        frames: Sequence::new(alloc),
        acks: Sequence::new(alloc),
        send: None,
        recv: None,
    };
    'members: loop {
        let Ok(name) = reader.next_key() else {
            return Ok(None);
        };
        let Some(name) = name else {
            return Ok(Some(parts));
        };
        if !read_member(alloc, reader, name, &mut parts)? {
            return Ok(None);
        }
    }
}

/// The start that comes next, where it has the plain form.
pub fn next_start(alloc: Global, reader: &mut Reader<'_>) -> Result<Option<Start>, AllocError>
    ensures value { IfOk result (λ found. IfSome found (λ its_start. (depth : ℕ) → 2 < depth
        → MeansWithin depth start reader.old its_start reader.new)) }
    ensures shorter { IfOk result (λ found. IfSome found (λ _.
        length reader.new < length reader.old)) }
    ensures plain { IfOk result (λ found. (rest : List SpecToken)
        → IsStart reader.old rest → IsRead found reader.new rest) }
{
    let Some(Token::BeginObject) = reader.next() else {
        return Ok(None);
    };
    let Some(parts) = read_members(alloc, reader)? else {
        return Ok(None);
    };
    let StartParts {
        frames,
        acks,
        send,
        recv,
    } = parts;
    let (Some(send_label), Some(recv_label)) = (send, recv) else {
        return Ok(None);
    };
    Ok(Some(Start {
        frames,
        acks,
        send_label,
        recv_label,
    }))
}

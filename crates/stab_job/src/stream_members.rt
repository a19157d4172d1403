ghost use Rattle.std.specs.Prelude.{◌≡◌, ◌<◌, [], length, Some, IfOk, IfSome, IsTrue, OnErr};
ghost use Rattle.json.specs.Lex.{tokens};
ghost use Rattle.serde_json.specs.Data.{Data, Members, no_members, object, put};
ghost use Rattle.serde_json.specs.View.{members_view};
ghost use Rattle.stab_script.specs.Members.{in_job, in_member};
ghost use Rattle.stab_script.specs.Standing.{Stands, MembersMake};
ghost use Rattle.stab_job.specs.Parts.{HasParts};

use crate::beside::Beside;
use crate::step::read_steps;
use crate::stream_schedule::Schedule;
use crate::value::read_member as read_other;
use json::{Reader, Scratch, Token};
use serde_json::{Map, Value};
use std::alloc::{AllocError, Global};

/// What was read of a job so far: the steps of its schedule, the member beside those of a job that
/// its caller reads, and the other members.
#[derive(Drop)]
pub(crate) struct JobParts<B> {
    pub(crate) others: Map<String, Value>,
    pub(crate) steps: Option<Schedule>,
    pub(crate) beside: Option<B>,
}

/// Reads the member of that name, whose value comes next; false where it has not the plain form.
/// Steps are kept, or only counted.
fn read_member<M: Beside>(
    alloc: Global,
    reader: &mut Reader<'_>,
    name: &str,
    keeps: bool,
    parts: &mut JobParts<M::Read>,
) -> Result<bool, AllocError>
    ensures value { IfOk result (λ done. IsTrue done → (d : Data)
        × (Stands in_member reader.old d reader.new)
        × ((ms : Members)
        → HasParts M.its_name M.meaning keeps (members_view parts.old.others.entries)
        parts.old.steps parts.old.beside ms
        → HasParts M.its_name M.meaning keeps (members_view parts.new.others.entries)
        parts.new.steps parts.new.beside (put name.now d ms))) }
    ensures shorter { IfOk result (λ done. IsTrue done → length reader.new < length reader.old) }
{
    if name == "schedule" {
        let Some(steps) = read_steps(alloc, reader, keeps)? else {
            return Ok(false);
        };
        parts.steps = Some(steps);
        return Ok(true);
    }
    if M::is_named(name) {
        let Some(beside) = M::next(alloc, reader)? else {
            return Ok(false);
        };
        parts.beside = Some(beside);
        return Ok(true);
    }
    read_other(alloc, reader, &mut parts.others, name)
}

/// The members of a job, whose opening brace was taken.
fn read_members<M: Beside>(
    alloc: Global,
    reader: &mut Reader<'_>,
    keeps: bool,
) -> Result<Option<JobParts<M::Read>>, AllocError>
    ensures { IfOk result (λ found. IfSome found (λ parts. (ms : Members)
        × (MembersMake in_member no_members (length reader.old) reader.old ms reader.new)
        × HasParts M.its_name M.meaning keeps (members_view parts.others.entries) parts.steps
        parts.beside ms)) }
{
    let mut parts = JobParts {
        others: Map::new(alloc),
        steps: None,
        beside: None,
    };
    'members: loop {
        let Ok(name) = reader.next_key() else {
            return Ok(None);
        };
        let Some(name) = name else {
            return Ok(Some(parts));
        };
        if !read_member::<M>(alloc, reader, name, keeps, &mut parts)? {
            return Ok(None);
        }
    }
}

/// The parts of the job that a text is, where it has the plain form. The steps of its schedule are
/// kept, or only counted. The parts borrow nothing, so the memory that reading needs is free after.
pub(crate) fn read_text<M: Beside>(
    alloc: Global,
    text: &str,
    keeps: bool,
) -> Result<Option<JobParts<M::Read>>, AllocError>
    ensures value { IfOk result (λ found. IfSome found (λ parts. (ms : Members)
        × (Stands in_job (tokens text.now) (object ms) [])
        × HasParts M.its_name M.meaning keeps (members_view parts.others.entries) parts.steps
        parts.beside ms)) }
    ensures some { IfOk result (λ found. IfSome found (λ _. 0 < length text.now)) }
    ensures memory { OnErr result (0 < length text.now) }
{
    let mut scratch = Scratch::new(alloc);
    let mut reader = Reader::new(text, &mut scratch)?;
    let Some(Token::BeginObject) = reader.next() else {
        return Ok(None);
    };
    let Some(parts) = read_members::<M>(alloc, &mut reader, keeps)? else {
        return Ok(None);
    };
    match reader.next() {
        Some(_) => Ok(None),
        None => Ok(Some(parts)),
    }
}

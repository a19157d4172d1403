ghost use Rattle.std.specs.Prelude.{◌<◌, length, map, IfOk, OnOk, IfSome, Some, IsTrue, ◌≡◌};
ghost use Rattle.serde_json.specs.Data.{Data, no_members, put};
ghost use Rattle.serde_json.specs.View.{view, members_view};
ghost use Rattle.stab_script.specs.Members.{in_member};
ghost use Rattle.stab_script.specs.Standing.{Stands, EntriesMean, MembersMake};

use json::{Reader, Token};
use serde_json::{Map, Number, Value};
use stab_script::whole_of;
use std::alloc::{AllocError, Global};

/// How deep arrays and objects may nest in a member of a job.
const MAX_DEPTH: usize = 126;

/// The value that comes next, nested no deeper than `depth`, where each number in it is a whole one
/// of 64 bits.
#[cycle(next_value)]
fn next_value(
    alloc: Global,
    reader: &mut Reader<'_>,
    depth: usize,
) -> Result<Option<Value>, AllocError>
    ensures value { IfOk result (λ found. IfSome found (λ value.
        Stands depth reader.old (view value) reader.new)) }
    ensures shorter { IfOk result (λ found. IfSome found (λ _.
        length reader.new < length reader.old)) }
{
    let Some(token) = reader.next() else {
        return Ok(None);
    };
    match token {
        Token::String(text) => Ok(Some(Value::String(String::from_str(alloc, text)?))),
        Token::Number(text) => match whole_of(text) {
            Some(number) => Ok(Some(Value::Number(Number::from(number)))),
            None => Ok(None),
        },
        Token::Bool(truth) => Ok(Some(Value::Bool(truth))),
        Token::Null => Ok(Some(Value::Null)),
        Token::BeginArray if depth > 0 => match next_items(alloc, reader, depth - 1)? {
            Some(items) => Ok(Some(Value::Array(items))),
            None => Ok(None),
        },
        Token::BeginObject if depth > 0 => match next_members(alloc, reader, depth - 1)? {
            Some(members) => Ok(Some(Value::Object(members))),
            None => Ok(None),
        },
        _ => Ok(None),
    }
}

/// The entries of a list, whose opening bracket was taken.
#[cycle(next_value)]
fn next_items(
    alloc: Global,
    reader: &mut Reader<'_>,
    depth: usize,
) -> Result<Option<Vec<Value>>, AllocError>
    ensures value { IfOk result (λ found. IfSome found (λ list.
        EntriesMean depth Some (length reader.old) reader.old (map view list.items) reader.new)) }
    ensures shorter { IfOk result (λ found. IfSome found (λ _.
        length reader.new < length reader.old)) }
{
    let mut list = Vec::new(alloc);
    'entries: while !reader.take_end_array() {
        let Some(entry) = next_value(alloc, reader, depth)? else {
            return Ok(None);
        };
        list.push(entry)?;
    }
    Ok(Some(list))
}

/// The members of an object, whose opening brace was taken.
#[cycle(next_value)]
fn next_members(
    alloc: Global,
    reader: &mut Reader<'_>,
    depth: usize,
) -> Result<Option<Map<String, Value>>, AllocError>
    ensures value { IfOk result (λ found. IfSome found (λ members.
        MembersMake depth no_members (length reader.old) reader.old
        (members_view members.entries) reader.new)) }
    ensures shorter { IfOk result (λ found. IfSome found (λ _.
        length reader.new < length reader.old)) }
{
    let mut members = Map::new(alloc);
    'members: loop {
        let Ok(name) = reader.next_key() else {
            return Ok(None);
        };
        let Some(name) = name else {
            return Ok(Some(members));
        };
        let Some(member) = next_value(alloc, reader, depth)? else {
            return Ok(None);
        };
        insert(alloc, &mut members, name, member)?;
    }
}

/// Puts a member among the others.
fn insert(
    alloc: Global,
    members: &mut Map<String, Value>,
    name: &str,
    member: Value,
) -> Result<(), AllocError>
    ensures { OnOk result (members_view members.new.entries
        ≡ put name.now (view member) (members_view members.old.entries)) }
{
    let key = String::from_str(alloc, name)?;
    drop(members.insert(key, member)?);
    Ok(())
}

/// Reads the member of that name, whose value comes next; false where it has not the plain form.
pub(crate) fn read_member(
    alloc: Global,
    reader: &mut Reader<'_>,
    members: &mut Map<String, Value>,
    name: &str,
) -> Result<bool, AllocError>
    ensures value { IfOk result (λ done. IsTrue done → (d : Data)
        × (Stands in_member reader.old d reader.new)
        × (members_view members.new.entries ≡ put name.now d (members_view members.old.entries))) }
    ensures shorter { IfOk result (λ done. IsTrue done → length reader.new < length reader.old) }
{
    let Some(member) = next_value(alloc, reader, MAX_DEPTH)? else {
        return Ok(false);
    };
    insert(alloc, members, name, member)?;
    Ok(true)
}

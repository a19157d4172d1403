ghost use Rattle.std.specs.Prelude.{◌<◌, ℕ, length, IfSome, IfOk};
ghost use Rattle.stab_json.specs.Values.{item_number, list_of};
ghost use Rattle.stab_script.specs.Standing.{MeansWithin, EntriesMean};

use crate::list::read_list;
use json::{Reader, Token};
use stab_frames::{Item, Sequence};
use std::alloc::{AllocError, Global};

/// The list of items that comes next, where it is one.
pub fn next_items(
    alloc: Global,
    reader: &mut Reader<'_>,
) -> Result<Option<Sequence<Item>>, AllocError>
    ensures value { IfOk result (λ found. IfSome found (λ items. (depth : ℕ) → 1 < depth
        → MeansWithin depth (list_of item_number) reader.old items reader.new)) }
    ensures shorter { IfOk result (λ found. IfSome found (λ _.
        length reader.new < length reader.old)) }
{
    let Some(items) = read_list::<Item>(alloc, reader)? else {
        return Ok(None);
    };
    Ok(Some(Sequence::from_vec(items)))
}

/// The lists of items of a list, whose opening bracket was taken.
fn read_lists(
    alloc: Global,
    reader: &mut Reader<'_>,
) -> Result<Option<Sequence<Sequence<Item>>>, AllocError>
    ensures value { IfOk result (λ found. IfSome found (λ lists. (depth : ℕ) → 1 < depth
        → EntriesMean depth (list_of item_number) (length reader.old) reader.old lists
        reader.new)) }
    ensures shorter { IfOk result (λ found. IfSome found (λ _.
        length reader.new < length reader.old)) }
{
    let mut lists = Sequence::new(alloc);
    'lists: while !reader.take_end_array() {
        let Some(items) = next_items(alloc, reader)? else {
            return Ok(None);
        };
        lists.push(items)?;
    }
    Ok(Some(lists))
}

/// The list of lists of items that comes next, where it is one.
pub fn next_item_lists(
    alloc: Global,
    reader: &mut Reader<'_>,
) -> Result<Option<Sequence<Sequence<Item>>>, AllocError>
    ensures value { IfOk result (λ found. IfSome found (λ lists. (depth : ℕ) → 2 < depth
        → MeansWithin depth (list_of (list_of item_number)) reader.old lists reader.new)) }
    ensures shorter { IfOk result (λ found. IfSome found (λ _.
        length reader.new < length reader.old)) }
{
    let Some(Token::BeginArray) = reader.next() else {
        return Ok(None);
    };
    let Some(lists) = read_lists(alloc, reader)? else {
        return Ok(None);
    };
    Ok(Some(lists))
}

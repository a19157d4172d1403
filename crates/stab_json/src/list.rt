ghost use Rattle.std.specs.Prelude.{◌≡◌, Option, IfOk, OnErr, IsSome, option_map};
ghost use Rattle.serde_json.specs.Data.{Data};
ghost use Rattle.serde_json.specs.View.{view, items_view};
ghost use Rattle.stab_json.specs.Values.{entries, label, item_number, list_or_absent};

use crate::value::{item, label};
use serde_json::Value;
use std::alloc::{AllocError, Global};

/// A kind of entry that a list in a job may have: mostly the type that such an entry is read as.
pub trait Entry<'v> {
    /// What an entry is read as.
    type Read: Drop;

    // What a value means as such an entry.
    ghost meaning: { Data → Option Self.Read };

    /// What the value means, where it means such an entry; only memory can be refused.
    fn read(alloc: Global, value: &'v Value) -> Result<Option<Self::Read>, AllocError>
        ensures { IfOk result (λ entry. entry ≡ meaning (view value.now)) };
}

/// A label, and as well a place in a queue.
impl<'v> Entry<'v> for u16 {
    type Read = u16;

    ghost meaning = { label };

    fn read(_alloc: Global, value: &'v Value) -> Result<Option<u16>, AllocError> {
        Ok(label(value))
    }
}

/// An item.
impl<'v> Entry<'v> for u32 {
    type Read = u32;

    ghost meaning = { item_number };

    fn read(_alloc: Global, value: &'v Value) -> Result<Option<u32>, AllocError> {
        Ok(item(value))
    }
}

/// The entries of a list, in their order, or `None` where one of them means nothing.
pub fn read_entries<'v, E: Entry<'v>>(
    alloc: Global,
    values: &'v [Value],
) -> Result<Option<Vec<E::Read>>, AllocError>
    ensures { IfOk result (λ list. option_map (λ its. its.items) list
        ≡ entries E.meaning (items_view values.now)) }
{
    let mut read = Vec::with_capacity(alloc, values.len())?;
    for value in values {
        let Some(entry) = E::read(alloc, value)? else {
            return Ok(None);
        };
        read.push(entry)?;
    }
    Ok(Some(read))
}

/// The entries of a list, which is empty where it is absent, or `None` where the value is no list
/// or one of the entries means nothing. A list that is absent takes no memory.
pub fn read_list<'v, E: Entry<'v>>(
    alloc: Global,
    value: Option<&'v Value>,
) -> Result<Option<Vec<E::Read>>, AllocError>
    ensures list { IfOk result (λ list. option_map (λ its. its.items) list
        ≡ list_or_absent E.meaning (option_map (λ given. view given.now) value.entry)) }
    ensures memory { OnErr result (IsSome (option_map (λ given. view given.now) value.entry)) }
{
    let Some(value) = value else {
        return Ok(Some(Vec::new(alloc)));
    };
    match value.as_array() {
        Some(values) => read_entries::<E>(alloc, values.as_slice()),
        None => Ok(None),
    }
}

ghost use Rattle.std.specs.Prelude.{◌≡◌, ◌<◌, length, option_map, option_and_then, IfOk, OnErr};
ghost use Rattle.serde_json.specs.Find.{get};
ghost use Rattle.serde_json.specs.View.{view, items_view};
ghost use Rattle.stab_json.specs.Values.{value_of, most_u16, most_u32, whole_to, capped};
ghost use Rattle.stab_json.specs.Values.{label, item_number, pair, pair_of_items};

use serde_json::Value;
use std::alloc::{AllocError, Global};

/// The largest whole number of 16 bits.
const MAX_U16: u64 = 65535;

/// The largest whole number of 32 bits.
const MAX_U32: u64 = 4_294_967_295;

/// The value that these bytes mean: they are UTF-8, and `serde_json` reads a value from them.
#[tactic(auto, using(crate::proofs::Bytes::value_of_read, crate::proofs::Bytes::value_of_unread))]
pub fn read_value(alloc: Global, bytes: &[u8]) -> Result<Option<Value>, AllocError>
    ensures value { IfOk result (λ its_value. option_map view its_value ≡ value_of bytes.now) }
    // Memory is refused only where there is at least one byte.
    ensures memory { OnErr result (0 < length bytes.now) }
{
    match Value::from_slice(alloc, bytes) {
        Ok(value) => Ok(Some(value)),
        Err(error) if error.is_memory() => Err(AllocError),
        Err(_) => Ok(None),
    }
}

/// The whole number that a member of an object is, the largest of 16 bits in place of a larger one.
pub fn u16_member(value: &Value, name: &str) -> Option<u16>
    ensures { result ≡ option_and_then (capped most_u16) (get name.now (view value.now)) }
{
    Some(whole_capped(value.get(name)?, MAX_U16)? as u16)
}

/// The whole number that a member of an object is, the largest of 32 bits in place of a larger one.
pub fn u32_member(value: &Value, name: &str) -> Option<u32>
    ensures { result ≡ option_and_then (capped most_u32) (get name.now (view value.now)) }
{
    Some(whole_capped(value.get(name)?, MAX_U32)? as u32)
}

/// A label, and as well a place in a queue: a whole number of 16 bits.
pub fn label(value: &Value) -> Option<u16>
    ensures { result ≡ label (view value.now) }
{
    Some(whole_up_to(value, MAX_U16)? as u16)
}

/// An item: a whole number of 32 bits.
pub fn item(value: &Value) -> Option<u32>
    ensures { result ≡ item_number (view value.now) }
{
    Some(whole_up_to(value, MAX_U32)? as u32)
}

/// The two values of a list of two.
pub fn pair(value: &Value) -> Option<(&Value, &Value)>
    ensures { option_map (λ two. (view two.0.now, view two.1.now)) result ≡ pair (view value.now) }
{
    pair_of(value.as_array()?.as_slice())
}

/// The two values, where there are two.
#[tactic(auto, using(crate::proofs::Pairs::fewer_are_no_pair, crate::proofs::Pairs::more_are_no_pair))]
fn pair_of(values: &[Value]) -> Option<(&Value, &Value)>
    ensures { option_map (λ two. (view two.0.now, view two.1.now)) result
        ≡ pair_of_items (items_view values.now) }
{
    match values {
        [first, second] => Some((first, second)),
        _ => None,
    }
}

/// A whole number that is no larger than a limit, where the value is one.
fn whole_up_to(value: &Value, limit: u64) -> Option<u64>
    ensures { result ≡ whole_to limit (view value.now) }
{
    let number = value.as_u64()?;
    if number <= limit { Some(number) } else { None }
}

/// A whole number, where the value is one, and the limit in place of one that is larger.
fn whole_capped(value: &Value, limit: u64) -> Option<u64>
    ensures { result ≡ capped limit (view value.now) }
{
    Some(value.as_u64()?.min(limit))
}

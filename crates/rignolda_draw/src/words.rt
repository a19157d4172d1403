//! Numbers, and what is delivered.

use itoa::Buffer;
use stab_core::Effect;
use stab_frames::Item;
use std::alloc::AllocError;

/// Adds a number.
pub(crate) fn push_decimal(text: &mut String, number: u64) -> Result<(), AllocError> {
    if number < 10 {
        return text.push(char::from(b'0' + number as u8));
    }
    let mut buffer = Buffer::new();
    text.push_str(buffer.format(number))
}

/// The item that the receiver delivered in a step with this effect.
pub(crate) fn delivered_by(effect: Effect) -> Option<Item> {
    match effect {
        Effect::Fresh(item) => Some(item),
        _ => None,
    }
}

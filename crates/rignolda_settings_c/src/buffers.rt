ghost use Rattle.std.specs.Prelude.{◌≡◌, Some, None};
ghost use Rattle.rignolda_agent.specs.BodySpelling.{Setting, entry_bytes};
ghost use Rattle.rignolda_agent.specs.Writing.{after_writing, end_of, is_written};
ghost use Rattle.rignolda_settings_c.specs.Calls.{begun, begun_end, end_code, kind_named};

use crate::bodies::kind_named;
use rignolda_agent::{Entry, write_entry, write_head};

/// Writes what a body has before its entries, and returns its end, from which on the first entry is
/// to be written; or returns 0 where the byte names no kind or the buffer is too short. A harmless
/// body has no count and no entries.
#[unsafe(no_mangle)]
pub extern "C" fn rignolda_body_begin(buffer: &mut [u8], kind: u8, number: u64, count: u32) -> usize
    ensures end { result ≡ begun_end buffer.old (kind_named kind) number count }
    ensures text { buffer.new ≡ begun buffer.old (kind_named kind) number count }
{
    match kind_named(kind) {
        None => 0,
        Some(kind) => write_head(buffer, kind, number, count).unwrap_or(0),
    }
}

/// Writes an entry that sets a key from this place on, and returns its end; or returns 0 where it
/// has no room there, or the key has more than 128 bytes or the value more than 1 MiB.
#[unsafe(no_mangle)]
pub extern "C" fn rignolda_body_set(buffer: &mut [u8], at: usize, key: &[u8], value: &[u8]) -> usize
    ensures end { let s : Setting = record { key = key.now; value = Some value.now } in
        result ≡ end_code (end_of (is_written buffer.old at s) at (entry_bytes s)) }
    ensures text { let s : Setting = record { key = key.now; value = Some value.now } in
        buffer.new ≡ after_writing (is_written buffer.old at s) buffer.old at (entry_bytes s) }
{
    let entry = Entry {
        key,
        value: Some(value),
    };
    write_entry(buffer, at, &entry).unwrap_or(0)
}

/// Writes an entry that unsets a key, in the same way.
#[unsafe(no_mangle)]
pub extern "C" fn rignolda_body_unset(buffer: &mut [u8], at: usize, key: &[u8]) -> usize
    ensures end { let s : Setting = record { key = key.now; value = None } in
        result ≡ end_code (end_of (is_written buffer.old at s) at (entry_bytes s)) }
    ensures text { let s : Setting = record { key = key.now; value = None } in
        buffer.new ≡ after_writing (is_written buffer.old at s) buffer.old at (entry_bytes s) }
{
    write_entry(buffer, at, &Entry { key, value: None }).unwrap_or(0)
}

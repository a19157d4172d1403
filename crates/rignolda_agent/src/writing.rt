ghost use Rattle.std.specs.Prelude.{◌≡◌, ◌+◌, ◌≤◌, ◌&&◌, true, ℕ, nat_le, if◌then◌else◌, List, length};
ghost use Rattle.std.specs.Option.{option_map};
ghost use Rattle.rignolda_agent.specs.Seen.{setting_of};
ghost use Rattle.rignolda_agent.specs.BodySpelling.{count_bytes, entry_bytes, head_bytes};
ghost use Rattle.rignolda_agent.specs.BodySpelling.{kind_byte, mark, value_bytes};
ghost use Rattle.rignolda_agent.specs.Writing.{after_writing, count_len, end_of, has_room};
ghost use Rattle.rignolda_agent.specs.Writing.{is_short, is_short_value, is_written, with_text};

use crate::body::{Entry, Kind};

/// The longest key and value, in bytes.
const KEY_LIMIT: usize = 128;

const VALUE_LIMIT: usize = 1_048_576;

/// Writes a text into the buffer from this place on, and gives its end.
fn put(buffer: &mut [u8], at: usize, text: &[u8]) -> usize
    requires { at + length text.now ≤ length buffer.old }
    ensures end { result ≡ at + length text.now }
    ensures text { buffer.new ≡ with_text buffer.old at text.now }
{
    let end = at + text.len();
    buffer[at..end].copy_from_slice(text);
    end
}

/// Whether a text of this length has room in a buffer, from this place on.
fn has_room(size: usize, at: usize, len: usize) -> bool
    ensures { result ≡ nat_le (at + len) size }
{
    at <= size && len <= size - at
}

fn kind_byte(kind: Kind) -> u8
    ensures { result ≡ kind_byte kind }
{
    match kind {
        Kind::Changes => b'C',
        Kind::Table => b'T',
        Kind::Harmless => b'H',
    }
}

/// How many bytes a head has.
fn head_len(kind: Kind) -> usize
    ensures { result ≡ 9 + count_len kind }
{
    match kind {
        Kind::Changes | Kind::Table => 13,
        Kind::Harmless => 9,
    }
}

fn put_count(buffer: &mut [u8], at: usize, kind: Kind, count: u32) -> usize
    requires { at + length (count_bytes kind count) ≤ length buffer.old }
    ensures end { result ≡ at + length (count_bytes kind count) }
    ensures text { buffer.new ≡ with_text buffer.old at (count_bytes kind count) }
{
    match kind {
        Kind::Changes | Kind::Table => put(buffer, at, &count.to_be_bytes()),
        Kind::Harmless => put(buffer, at, &[]),
    }
}

#[tactic(auto, using(crate::proofs::Texts::with_both))]
fn put_head(buffer: &mut [u8], kind: Kind, number: u64, count: u32) -> usize
    requires { length (head_bytes kind number count) ≤ length buffer.old }
    ensures end { result ≡ length (head_bytes kind number count) }
    ensures text { buffer.new ≡ with_text buffer.old 0 (head_bytes kind number count) }
{
    let at = put(buffer, 0, &[kind_byte(kind)]);
    let at = put(buffer, at, &number.to_be_bytes());
    put_count(buffer, at, kind, count)
}

/// Writes the head of a body into the buffer, and gives its end; or gives nothing and leaves the
/// buffer as it was, where it has no room in it. A harmless body has no count.
#[tactic(auto, using(crate::proofs::Texts::count_length))]
pub fn write_head(buffer: &mut [u8], kind: Kind, number: u64, count: u32) -> Option<usize>
    ensures end { result ≡ end_of (has_room buffer.old 0 (head_bytes kind number count)) 0
        (head_bytes kind number count) }
    ensures text { buffer.new ≡ after_writing (has_room buffer.old 0 (head_bytes kind number count))
        buffer.old 0 (head_bytes kind number count) }
{
    if !has_room(buffer.len(), 0, head_len(kind)) {
        return None;
    }
    Some(put_head(buffer, kind, number, count))
}

#[tactic(auto, using(crate::proofs::Texts::with_both))]
fn put_value(buffer: &mut [u8], at: usize, value: Option<&[u8]>) -> usize
    requires room { at + length (value_bytes (option_map (λ v. v.now) value)) ≤ length buffer.old }
    requires short { is_short_value (option_map (λ v. v.now) value) ≡ true }
    ensures end { result ≡ at + length (value_bytes (option_map (λ v. v.now) value.entry)) }
    ensures text { buffer.new ≡ with_text buffer.old at
        (value_bytes (option_map (λ v. v.now) value.entry)) }
{
    match value {
        None => put(buffer, at, &[]),
        Some(value) => {
            let at = put(buffer, at, &(value.len() as u32).to_be_bytes());
            put(buffer, at, value)
        }
    }
}

fn mark(entry: &Entry<'_>) -> u8
    ensures { result ≡ mark (setting_of entry.now).value }
{
    match entry.value {
        None => b'U',
        Some(_) => b'S',
    }
}

#[tactic(auto, using(crate::proofs::Texts::with_both))]
fn put_entry(buffer: &mut [u8], at: usize, entry: &Entry<'_>) -> usize
    requires room { at + length (entry_bytes (setting_of entry.now)) ≤ length buffer.old }
    requires short { is_short (setting_of entry.now) ≡ true }
    ensures end { result ≡ at + length (entry_bytes (setting_of entry.now)) }
    ensures text { buffer.new ≡ with_text buffer.old at (entry_bytes (setting_of entry.now)) }
{
    let at = put(buffer, at, &[mark(entry), entry.key.len() as u8]);
    let at = put(buffer, at, entry.key);
    put_value(buffer, at, entry.value)
}

/// How many bytes an entry has.
fn entry_len(entry: &Entry<'_>) -> usize
    requires { is_short (setting_of entry.now) ≡ true }
    ensures { result ≡ length (entry_bytes (setting_of entry.now)) }
{
    match entry.value {
        None => 2 + entry.key.len(),
        Some(value) => 6 + entry.key.len() + value.len(),
    }
}

fn is_short(entry: &Entry<'_>) -> bool
    ensures { result ≡ is_short (setting_of entry.now) }
{
    if entry.key.len() > KEY_LIMIT {
        return false;
    }
    match entry.value {
        None => true,
        Some(value) => value.len() <= VALUE_LIMIT,
    }
}

/// Writes an entry into the buffer from this place on, and gives its end; or gives nothing and
/// leaves the buffer as it was, where the entry has no room there, or its key has more than 128
/// bytes or its value more than 1 MiB.
pub fn write_entry(buffer: &mut [u8], at: usize, entry: &Entry<'_>) -> Option<usize>
    ensures end { result ≡ end_of (is_written buffer.old at (setting_of entry.now)) at
        (entry_bytes (setting_of entry.now)) }
    ensures text { buffer.new ≡ after_writing (is_written buffer.old at (setting_of entry.now))
        buffer.old at (entry_bytes (setting_of entry.now)) }
{
    if !is_short(entry) || !has_room(buffer.len(), at, entry_len(entry)) {
        return None;
    }
    Some(put_entry(buffer, at, entry))
}

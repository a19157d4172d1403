ghost use Rattle.std.specs.Prelude.{◌≡◌, List};
ghost use Rattle.rignolda_wire.specs.Words.{reports_of, up, up_is_written, word_at, word_bytes};
ghost use Rattle.rignolda_wire.specs.Words as words;
ghost use Rattle.rignolda_wire.specs.Writing.{after_writing, end_of};
ghost use Rattle.rignolda_settings_c.specs.Messages.{ReadWord, count_read, end_code, greeted_with};
ghost use Rattle.rignolda_settings_c.specs.Messages.{head_read, is_there};

use crate::message_buffers::greeting;
use crate::messages::{WireMessage, empty, shown};
use rignolda_wire::{Message, frame_head, reports, word, write_up};

/// Reads the hello in front of a word of a store: whether there is one, after writing it.
#[tactic(auto, using(crate::proofs::Places::word_within))]
#[unsafe(no_mangle)]
pub extern "C" fn rignolda_word_read(bytes: &[u8], found: &mut WireMessage) -> bool
    ensures { ReadWord bytes.now found.old (word_at bytes.now) result found.new }
{
    match word(bytes) {
        None => false,
        Some((hello, rest)) => {
            *found = WireMessage {
                end: bytes.len() - rest.len(),
                ..shown(&Message::Hello(hello))
            };
            true
        }
    }
}

/// How often a child has set its report: whether these bytes say so, all of them, after writing it.
#[unsafe(no_mangle)]
pub extern "C" fn rignolda_word_reports(bytes: &[u8], count: &mut u32) -> bool
    ensures there { result ≡ is_there (reports_of bytes.now) }
    ensures count { count.new ≡ count_read count.old (reports_of bytes.now) }
{
    match reports(bytes) {
        None => false,
        Some(it) => {
            *count = it;
            true
        }
    }
}

/// Writes a child's word, with these names, and returns its end; or returns 0 where there is no
/// room, or a name is too long.
#[unsafe(no_mangle)]
pub extern "C" fn rignolda_word_write(
    buffer: &mut [u8],
    hello: &WireMessage,
    from: &[u8],
    to: &[u8],
    reports: u32,
) -> usize
    ensures end { let g = greeted_with hello.now from.now to.now in
        result ≡ end_code
        (end_of (up_is_written buffer.old g reports) (word_bytes (up g reports))) }
    ensures text { let g = greeted_with hello.now from.now to.now in
        buffer.new ≡ after_writing (up_is_written buffer.old g reports) buffer.old
        (word_bytes (up g reports)) }
{
    write_up(buffer, &greeting(hello, from, to), reports).unwrap_or(0)
}

/// Reads what the frame in front has before its body, whatever length it says: whether that is
/// there, after writing its label, item and length.
#[unsafe(no_mangle)]
pub extern "C" fn rignolda_frame_head(bytes: &[u8], found: &mut WireMessage) -> bool
    ensures there { result ≡ is_there (words.head_of bytes.now) }
    ensures head { found.new ≡ head_read found.old (words.head_of bytes.now) }
{
    match frame_head(bytes) {
        None => false,
        Some(it) => {
            *found = WireMessage {
                item: it.item,
                body_length: it.len,
                ..empty(b'F', it.label)
            };
            true
        }
    }
}

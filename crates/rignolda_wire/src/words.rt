ghost use Rattle.std.specs.Prelude.{◌≡◌, ◌≤◌, List, length};
ghost use Rattle.std.specs.Option.{option_map};
ghost use Rattle.rignolda_wire.specs.Names.{name_limit};
ghost use Rattle.rignolda_wire.specs.Seen.{Reads, greeted, headed};
ghost use Rattle.rignolda_wire.specs.Words as words;
ghost use Rattle.rignolda_wire.specs.Words.{reports_of, up, up_is_written, word_at, word_bytes};
ghost use Rattle.rignolda_wire.specs.Writing.{after_writing, end_of, with_text};

use crate::fault::Fault;
use crate::fields::{u16_at, u32_at};
use crate::names::NAME_LIMIT;
use crate::reading::{letter_at, message};
use crate::said::{Expect, FrameHead, Greeting, Message};
use crate::writing::{put, put_hello};

/// The hello of what a link in a store shows, and the bytes behind it. What else is there is no
/// word.
pub fn word(bytes: &[u8]) -> Option<(Greeting<'_>, &[u8])>
    ensures { option_map (λ x. (greeted x.0, x.1.now)) result ≡ word_at bytes.now }
{
    match message(Expect::Hello, bytes) {
        Ok((Message::Hello(greeting), rest)) => Some((greeting, rest)),
        _ => None,
    }
}

#[tactic(auto, unfolding(crate::specs::Words::head_at))]
fn head_at(bytes: &[u8]) -> Result<(FrameHead, &[u8]), Fault>
    ensures { Reads (λ x. (headed x.0, x.1.now)) result (words.head_at bytes.now) }
{
    let (_, rest) = letter_at(b'F', bytes)?;
    let (label, rest) = u16_at(rest)?;
    let (item, rest) = u32_at(rest)?;
    let (len, rest) = u32_at(rest)?;
    Ok((FrameHead { label, item, len }, rest))
}

/// What the frame in front has before its body, if that is there.
pub fn frame_head(bytes: &[u8]) -> Option<FrameHead>
    ensures { option_map (λ x. headed x) result ≡ words.head_of bytes.now }
{
    match head_at(bytes) {
        Ok((head, _)) => Some(head),
        Err(_) => None,
    }
}

/// How often a child has set its report, if what is behind the hello of its word says so, all of
/// it.
pub fn reports(bytes: &[u8]) -> Option<u32>
    ensures { result ≡ reports_of bytes.now }
{
    match bytes {
        [a, b, c, d] => Some(u32::from_be_bytes([*a, *b, *c, *d])),
        _ => None,
    }
}

#[tactic(auto, using(crate::proofs::Texts::with_both, crate::proofs::Texts::as_long))]
fn put_up(buffer: &mut [u8], greeting: &Greeting<'_>, reports: u32) -> usize
    requires from { length greeting.now.from.now ≤ name_limit }
    requires to { length greeting.now.to.now ≤ name_limit }
    requires room { length (word_bytes (up (greeted greeting.now) reports)) ≤ length buffer.old }
    ensures end { result ≡ length (word_bytes (up (greeted greeting.now) reports)) }
    ensures text { buffer.new ≡ with_text buffer.old 0
        (word_bytes (up (greeted greeting.now) reports)) }
{
    let end = put_hello(buffer, false, greeting);
    put(buffer, end, &reports.to_be_bytes())
}

/// Writes a child's word, its hello and how often it has set its report, into the buffer from its
/// front on, and gives its end; or gives nothing, if there is no room or a name is too long. Of a
/// parent's word the hello and the head of the frame are written one after the other.
#[tactic(auto, using(crate::proofs::Texts::as_long))]
pub fn write_up(buffer: &mut [u8], greeting: &Greeting<'_>, reports: u32) -> Option<usize>
    ensures end { result ≡ end_of (up_is_written buffer.old (greeted greeting.now) reports)
        (word_bytes (up (greeted greeting.now) reports)) }
    ensures text { buffer.new ≡ after_writing
        (up_is_written buffer.old (greeted greeting.now) reports) buffer.old
        (word_bytes (up (greeted greeting.now) reports)) }
{
    let (from, to) = (greeting.from.len(), greeting.to.len());
    if from > NAME_LIMIT || to > NAME_LIMIT || 21 + from + to > buffer.len() {
        return None;
    }
    Some(put_up(buffer, greeting, reports))
}

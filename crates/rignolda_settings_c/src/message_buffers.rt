ghost use Rattle.std.specs.Prelude.{◌≡◌, nat_le, List, length};
ghost use Rattle.std.specs.Option.{option_map};
ghost use Rattle.rignolda_wire.specs.Refusals.{refusal_of};
ghost use Rattle.rignolda_wire.specs.Seen.{greeted, referred, said_of, signing};
ghost use Rattle.rignolda_wire.specs.Versions.{range_of};
ghost use Rattle.rignolda_wire.specs.Writing.{after_writing, end_of};
ghost use Rattle.rignolda_settings_c.specs.Messages.{end_code, expect_named, greeted_with};
ghost use Rattle.rignolda_settings_c.specs.Messages.{referred_with, said_with, signed_with};
ghost use Rattle.rignolda_settings_c.specs.Messages.{told_as, written, written_end};

use crate::messages::{WireMessage, expect_named};
use rignolda_wire::{
    Frame, Greeting, Message, NumberedWay, Reference, Refusal, SignedFrame, SignedReference, Way,
    range, write_head, write_refusal,
};

/// The hello, or look, that says this and has these names.
pub(crate) fn greeting<'a>(it: &WireMessage, from: &'a [u8], to: &'a [u8]) -> Greeting<'a>
    ensures { greeted result ≡ greeted_with it.now from.now to.now }
{
    Greeting {
        version: it.version,
        life: it.life,
        label: it.label,
        from,
        to,
    }
}

fn reference<'a>(it: &WireMessage, head: &'a [u8], digest: &'a [u8]) -> Reference<'a>
    ensures { referred result ≡ referred_with it.now head.now digest.now }
{
    Reference {
        label: it.label,
        item: it.item,
        len: it.body_length,
        head,
        digest,
    }
}

fn signed_frame<'a>(it: &WireMessage, signature: &'a [u8], body: &'a [u8]) -> SignedFrame<'a>
    ensures { signing result ≡ signed_with it.now signature.now body.now }
{
    SignedFrame {
        label: it.label,
        item: it.item,
        signature,
        body,
    }
}

/// The message that says this and has these texts and this signature.
fn message<'a>(
    it: &WireMessage,
    first: &'a [u8],
    second: &'a [u8],
    signature: &'a [u8],
) -> Option<Message<'a>>
    ensures { option_map (λ m. said_of m) result
        ≡ said_with it.now first.now second.now signature.now }
{
    match it.kind {
        b'H' => Some(Message::Hello(greeting(it, first, second))),
        b'L' => Some(Message::Look(greeting(it, first, second))),
        b'W' => Some(Message::Way(Way {
            cost: it.label,
            names: first,
        })),
        b'F' => Some(Message::Frame(Frame {
            label: it.label,
            item: it.item,
            body: first,
        })),
        b'D' => Some(Message::Reference(reference(it, first, second))),
        b'Q' => Some(Message::ReportRequest),
        b'A' => Some(Message::Ack(it.label)),
        b'N' => Some(Message::Lacks(it.label)),
        b'R' => Some(Message::Report(first)),
        b'G' => Some(Message::Goodbye),
        b'V' => Some(Message::NumberedWay(NumberedWay {
            number: it.table,
            way: Way {
                cost: it.label,
                names: first,
            },
        })),
        b'S' => Some(Message::SignedFrame(signed_frame(it, signature, first))),
        b'B' => Some(Message::SignedReference(SignedReference {
            reference: reference(it, first, second),
            signature,
        })),
        b'E' => Some(Message::Filler(it.label)),
        _ => None,
    }
}

/// Writes the message that says this and has these texts and this signature, from the front of the
/// buffer on: all of it but the text at the end of a way, a frame or a report, which follows. It
/// returns its end; or 0 where there is no room, the kind is none, or a text is too long.
#[unsafe(no_mangle)]
pub extern "C" fn rignolda_message_write(
    buffer: &mut [u8],
    head: &WireMessage,
    first: &[u8],
    second: &[u8],
    signature: &[u8],
) -> usize
    ensures end { result ≡ written_end buffer.old
        (said_with head.now first.now second.now signature.now) }
    ensures text { buffer.new ≡ written buffer.old
        (said_with head.now first.now second.now signature.now) }
{
    match message(head, first, second, signature) {
        None => 0,
        Some(message) => write_head(buffer, &message).unwrap_or(0),
    }
}

/// Writes what an end is told that expects this and is refused, for the reason of this byte, and
/// returns its end; or returns 0 where there is no room, or such an end is told nothing.
#[unsafe(no_mangle)]
pub extern "C" fn rignolda_refusal_write(buffer: &mut [u8], expect: u8, why: u8) -> usize
    ensures end { let text = told_as (expect_named expect) (refusal_of why) in
        result ≡ end_code (end_of (nat_le (length text) (length buffer.old)) text) }
    ensures text { let text = told_as (expect_named expect) (refusal_of why) in
        buffer.new ≡ after_writing (nat_le (length text) (length buffer.old)) buffer.old text }
{
    match expect_named(expect) {
        None => 0,
        Some(expect) => write_refusal(buffer, expect, Refusal::of(why)).unwrap_or(0),
    }
}

/// What says in the place of a label which versions an end speaks.
#[unsafe(no_mangle)]
pub extern "C" fn rignolda_versions_range(oldest: u8, newest: u8) -> u16
    ensures { result ≡ range_of oldest newest }
{
    range(oldest, newest)
}

ghost use Rattle.std.specs.Prelude.{◌≡◌, ◌+◌, ◌≤◌, ◌∷◌, true, List, length, map, nat_le};
ghost use Rattle.std.specs.Int.{w16, to_be_bytes};
ghost use Rattle.rignolda_wire.specs.Names.{name_limit};
ghost use Rattle.rignolda_wire.specs.Said as said;
ghost use Rattle.rignolda_wire.specs.Said.{body_limit, fourth, hello, numbered, refers};
ghost use Rattle.rignolda_wire.specs.Said.{refers_signed, report, report_limit, signature_limit};
ghost use Rattle.rignolda_wire.specs.Said.{signed, way_limit};
ghost use Rattle.rignolda_wire.specs.Seen.{framed, greeted, numbering, referred, routed, said_of};
ghost use Rattle.rignolda_wire.specs.Seen.{signing, signing_reference};
ghost use Rattle.rignolda_wire.specs.Writing.{after_writing, end_of, head_bytes, is_short};
ghost use Rattle.rignolda_wire.specs.Writing.{is_reference, is_written, joined, with_text};

use crate::names::NAME_LIMIT;
use crate::reading::{BODY_LIMIT, DIGEST_LEN, HEAD_LEN, REPORT_LIMIT, SIGNATURE_LIMIT, WAY_LIMIT};
use crate::said::{
    Frame, Greeting, Message, NumberedWay, Reference, SignedFrame, SignedReference, Way,
};

/// Writes a text into the buffer from this place on, and gives its end.
pub(crate) fn put(buffer: &mut [u8], at: usize, text: &[u8]) -> usize
    requires { at + length text.now ≤ length buffer.old }
    ensures end { result ≡ at + length text.now }
    ensures text { buffer.new ≡ with_text buffer.old at text.now }
{
    let end = at + text.len();
    buffer[at..end].copy_from_slice(text);
    end
}

/// Writes a text into the buffer and gives its end, if there is room for it.
pub(crate) fn put_if_room(buffer: &mut [u8], text: &[u8]) -> Option<usize>
    ensures end { result ≡ end_of (nat_le (length text.now) (length buffer.old)) text.now }
    ensures text { buffer.new ≡ after_writing (nat_le (length text.now) (length buffer.old))
        buffer.old text.now }
{
    if text.len() > buffer.len() {
        return None;
    }
    Some(put(buffer, 0, text))
}

/// Writes texts into the buffer, one after the other from its front on, and gives their end.
#[tactic(auto, using(crate::proofs::Texts::with_none))]
fn put_all(buffer: &mut [u8], texts: &[&[u8]]) -> usize
    requires { length (joined (map (λ text. text.now) texts.now)) ≤ length buffer.old }
    ensures end { result ≡ length (joined (map (λ text. text.now) texts.now)) }
    ensures text { buffer.new ≡ with_text buffer.old 0 (joined (map (λ text. text.now) texts.now)) }
{
    let mut at = 0;
    for text in texts {
        at = put(buffer, at, text);
    }
    at
}

/// The last of the four letters of a look, and of a hello.
fn fourth(is_look: bool) -> u8
    ensures { result ≡ fourth is_look }
{
    if is_look { b'L' } else { b'D' }
}

#[tactic(auto, using(crate::proofs::Texts::nothing_more))]
pub(crate) fn put_hello(buffer: &mut [u8], is_look: bool, g: &Greeting<'_>) -> usize
    requires from { length g.now.from.now ≤ name_limit }
    requires to { length g.now.to.now ≤ name_limit }
    requires room { length (head_bytes (hello is_look (greeted g.now))) ≤ length buffer.old }
    ensures end { result ≡ length (head_bytes (hello is_look (greeted g.now))) }
    ensures text { buffer.new
        ≡ with_text buffer.old 0 (head_bytes (hello is_look (greeted g.now))) }
{
    let first = [b'R', b'G', b'N', fourth(is_look), g.version];
    let (life, label) = (g.life.to_be_bytes(), g.label.to_be_bytes());
    let (from_len, to_len) = ([g.from.len() as u8], [g.to.len() as u8]);
    put_all(
        buffer,
        &[&first, &life, &label, &from_len, g.from, &to_len, g.to],
    )
}

#[tactic(auto, using(crate::proofs::Texts::nothing_more))]
fn put_way_head(buffer: &mut [u8], way: &Way<'_>) -> usize
    requires short { length way.now.names.now ≤ way_limit }
    requires room { length (head_bytes (said.way (routed way.now))) ≤ length buffer.old }
    ensures end { result ≡ length (head_bytes (said.way (routed way.now))) }
    ensures text { buffer.new ≡ with_text buffer.old 0 (head_bytes (said.way (routed way.now))) }
{
    let (cost, len) = (
        way.cost.to_be_bytes(),
        (way.names.len() as u16).to_be_bytes(),
    );
    put_all(buffer, &[b"W", &cost, &len])
}

#[tactic(auto, using(crate::proofs::Texts::nothing_more))]
fn put_frame_head(buffer: &mut [u8], frame: &Frame<'_>) -> usize
    requires short { length frame.now.body.now ≤ body_limit }
    requires room { length (head_bytes (said.frame (framed frame.now))) ≤ length buffer.old }
    ensures end { result ≡ length (head_bytes (said.frame (framed frame.now))) }
    ensures text { buffer.new
        ≡ with_text buffer.old 0 (head_bytes (said.frame (framed frame.now))) }
{
    let (label, item) = (frame.label.to_be_bytes(), frame.item.to_be_bytes());
    let len = (frame.body.len() as u32).to_be_bytes();
    put_all(buffer, &[b"F", &label, &item, &len])
}

#[tactic(auto, using(crate::proofs::Texts::nothing_more))]
fn put_reference(buffer: &mut [u8], it: &Reference<'_>) -> usize
    requires { length (head_bytes (refers (referred it.now))) ≤ length buffer.old }
    ensures end { result ≡ length (head_bytes (refers (referred it.now))) }
    ensures text { buffer.new ≡ with_text buffer.old 0 (head_bytes (refers (referred it.now))) }
{
    let (label, item) = (it.label.to_be_bytes(), it.item.to_be_bytes());
    let len = it.len.to_be_bytes();
    put_all(buffer, &[b"D", &label, &item, &len, it.head, it.digest])
}

/// A letter and a label.
#[tactic(auto, using(crate::proofs::Texts::nothing_more))]
fn put_label(buffer: &mut [u8], letter: u8, label: u16) -> usize
    requires { 3 ≤ length buffer.old }
    ensures end { result ≡ 3 }
    ensures text { buffer.new ≡ with_text buffer.old 0 (letter ∷ to_be_bytes w16 label) }
{
    put_all(buffer, &[&[letter], &label.to_be_bytes()])
}

#[tactic(auto, using(crate::proofs::Texts::nothing_more))]
fn put_report_head(buffer: &mut [u8], text: &[u8]) -> usize
    requires short { length text.now ≤ report_limit }
    requires room { length (head_bytes (report text.now)) ≤ length buffer.old }
    ensures end { result ≡ length (head_bytes (report text.now)) }
    ensures text { buffer.new ≡ with_text buffer.old 0 (head_bytes (report text.now)) }
{
    put_all(buffer, &[b"R", &(text.len() as u32).to_be_bytes()])
}

#[tactic(auto, using(crate::proofs::Texts::nothing_more))]
fn put_numbered_way_head(buffer: &mut [u8], it: &NumberedWay<'_>) -> usize
    requires short { length it.now.way.names.now ≤ way_limit }
    requires room { length (head_bytes (numbered (numbering it.now))) ≤ length buffer.old }
    ensures end { result ≡ length (head_bytes (numbered (numbering it.now))) }
    ensures text { buffer.new ≡ with_text buffer.old 0 (head_bytes (numbered (numbering it.now))) }
{
    let (number, cost) = (it.number.to_be_bytes(), it.way.cost.to_be_bytes());
    let len = (it.way.names.len() as u16).to_be_bytes();
    put_all(buffer, &[b"V", &number, &cost, &len])
}

#[tactic(auto, using(crate::proofs::Texts::nothing_more))]
fn put_signed_frame_head(buffer: &mut [u8], it: &SignedFrame<'_>) -> usize
    requires vouched { length it.now.signature.now ≤ signature_limit }
    requires short { length it.now.body.now ≤ body_limit }
    requires room { length (head_bytes (signed (signing it.now))) ≤ length buffer.old }
    ensures end { result ≡ length (head_bytes (signed (signing it.now))) }
    ensures text { buffer.new ≡ with_text buffer.old 0 (head_bytes (signed (signing it.now))) }
{
    let (label, item) = (it.label.to_be_bytes(), it.item.to_be_bytes());
    let signature_len = (it.signature.len() as u16).to_be_bytes();
    let len = (it.body.len() as u32).to_be_bytes();
    put_all(
        buffer,
        &[b"S", &label, &item, &signature_len, it.signature, &len],
    )
}

#[tactic(auto, using(crate::proofs::Texts::nothing_more, crate::proofs::Texts::behind_both))]
fn put_signed_reference(buffer: &mut [u8], it: &SignedReference<'_>) -> usize
    requires vouched { length it.now.signature.now ≤ signature_limit }
    requires room { length (head_bytes (refers_signed (signing_reference it.now)))
        ≤ length buffer.old }
    ensures end { result ≡ length (head_bytes (refers_signed (signing_reference it.now))) }
    ensures text { buffer.new
        ≡ with_text buffer.old 0 (head_bytes (refers_signed (signing_reference it.now))) }
{
    let reference = &it.reference;
    let (label, item) = (reference.label.to_be_bytes(), reference.item.to_be_bytes());
    let len = reference.len.to_be_bytes();
    let signature_len = (it.signature.len() as u16).to_be_bytes();
    put_all(
        buffer,
        &[
            b"B",
            &label,
            &item,
            &len,
            reference.head,
            reference.digest,
            &signature_len,
            it.signature,
        ],
    )
}

fn put_head(buffer: &mut [u8], message: &Message<'_>) -> usize
    requires short { is_short (said_of message.now) ≡ true }
    requires room { length (head_bytes (said_of message.now)) ≤ length buffer.old }
    ensures end { result ≡ length (head_bytes (said_of message.now)) }
    ensures text { buffer.new ≡ with_text buffer.old 0 (head_bytes (said_of message.now)) }
{
    match *message {
        Message::Hello(greeting) => put_hello(buffer, false, &greeting),
        Message::Look(greeting) => put_hello(buffer, true, &greeting),
        Message::Way(way) => put_way_head(buffer, &way),
        Message::Frame(frame) => put_frame_head(buffer, &frame),
        Message::Reference(reference) => put_reference(buffer, &reference),
        Message::ReportRequest => put(buffer, 0, b"Q"),
        Message::Ack(label) => put_label(buffer, b'A', label),
        Message::Lacks(label) => put_label(buffer, b'N', label),
        Message::Report(report) => put_report_head(buffer, report),
        Message::Goodbye => put(buffer, 0, b"G"),
        Message::NumberedWay(way) => put_numbered_way_head(buffer, &way),
        Message::SignedFrame(frame) => put_signed_frame_head(buffer, &frame),
        Message::SignedReference(reference) => put_signed_reference(buffer, &reference),
        Message::Filler(label) => put_label(buffer, b'E', label),
    }
}

/// Whether a reference has the front and the digest of a body.
fn is_reference(it: &Reference<'_>) -> bool
    ensures { result ≡ is_reference (referred it.now) }
{
    it.head.len() == HEAD_LEN && it.digest.len() == DIGEST_LEN
}

/// Whether each length is within its limit.
fn is_short(message: &Message<'_>) -> bool
    ensures { result ≡ is_short (said_of message.now) }
{
    match *message {
        Message::Hello(it) | Message::Look(it) => {
            it.from.len() <= NAME_LIMIT && it.to.len() <= NAME_LIMIT
        }
        Message::Way(way) => way.names.len() <= usize::from(WAY_LIMIT),
        Message::Frame(frame) => frame.body.len() <= BODY_LIMIT as usize,
        Message::Reference(it) => is_reference(&it),
        Message::Report(report) => report.len() <= REPORT_LIMIT as usize,
        Message::NumberedWay(it) => it.way.names.len() <= usize::from(WAY_LIMIT),
        Message::SignedFrame(it) => {
            it.signature.len() <= usize::from(SIGNATURE_LIMIT)
                && it.body.len() <= BODY_LIMIT as usize
        }
        Message::SignedReference(it) => {
            is_reference(&it.reference) && it.signature.len() <= usize::from(SIGNATURE_LIMIT)
        }
        Message::ReportRequest
        | Message::Ack(_)
        | Message::Lacks(_)
        | Message::Goodbye
        | Message::Filler(_) => true,
    }
}

/// How many bytes the head has.
fn len_of_head(message: &Message<'_>) -> usize
    requires { is_short (said_of message.now) ≡ true }
    ensures { result ≡ length (head_bytes (said_of message.now)) }
{
    match *message {
        Message::Hello(it) | Message::Look(it) => 17 + (it.from.len() + it.to.len()),
        Message::Way(_) | Message::Report(_) => 5,
        Message::Frame(_) => 11,
        Message::Reference(_) => 11 + HEAD_LEN + DIGEST_LEN,
        Message::NumberedWay(_) => 13,
        Message::SignedFrame(it) => 13 + it.signature.len(),
        Message::SignedReference(it) => 13 + HEAD_LEN + DIGEST_LEN + it.signature.len(),
        Message::Ack(_) | Message::Lacks(_) | Message::Filler(_) => 3,
        Message::ReportRequest | Message::Goodbye => 1,
    }
}

/// Writes the head of a message into the buffer, and gives its end: all but the body of a frame,
/// the names of a way and the text of a report, signed and numbered ones too, which follow it. It
/// gives nothing and leaves the buffer as it was, if there is no room, or a length of the message is
/// not within its limit.
pub fn write_head(buffer: &mut [u8], message: &Message<'_>) -> Option<usize>
    ensures end { result ≡ end_of (is_written buffer.old (said_of message.now))
        (head_bytes (said_of message.now)) }
    ensures text { buffer.new ≡ after_writing (is_written buffer.old (said_of message.now))
        buffer.old (head_bytes (said_of message.now)) }
{
    if !is_short(message) || len_of_head(message) > buffer.len() {
        return None;
    }
    Some(put_head(buffer, message))
}

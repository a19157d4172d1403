ghost use Rattle.std.specs.Prelude.{◌≡◌, List, []};
ghost use Rattle.rignolda_wire.specs.Names.{is_name as names_one};
ghost use Rattle.rignolda_wire.specs.Said.{refers_signed, signed};
ghost use Rattle.rignolda_wire.specs.Seen.{greeted, referred, said_of, signing, signing_reference};
ghost use Rattle.rignolda_wire.specs.Versions.{range_of, versions_of};
ghost use Rattle.rignolda_settings_c.specs.Messages.{Read, expect_named, read_as, reason_code};
ghost use Rattle.rignolda_settings_c.specs.Messages.{reference_of};
ghost use Rattle.rignolda_settings_c.specs.Messages.{refused_as, said_by, shown_of};
ghost use Rattle.rignolda_settings_c.specs.Messages as defined;

use rignolda_wire::{
    Expect, Fault, Greeting, Message, Reference, SignedFrame, SignedReference, is_name, message,
    range, refused, versions,
};

/// A message in front of some bytes, as C sees it: what it says beside its texts, where these lie
/// in the bytes, and where it ends. What a message of its kind does not have is 0.
#[repr(C)]
#[derive(Clone, Copy)]
pub struct WireMessage {
    /// Of a hello and of a look.
    pub life: u64,
    /// The number of the last whole table, of a way from version 5 on.
    pub table: u64,
    /// Of a frame, with and without its body.
    pub item: u32,
    /// How long the body of a frame is that comes without it.
    pub body_length: u32,
    /// The label, or what a way costs.
    pub label: u16,
    /// Of a hello and of a look.
    pub version: u8,
    /// Which message it is.
    pub kind: u8,
    /// Where the first text begins.
    pub first: usize,
    /// How long it is.
    pub first_length: usize,
    /// Where the second text begins.
    pub second: usize,
    /// How long it is.
    pub second_length: usize,
    /// Where the signature begins.
    pub signature: usize,
    /// How long it is.
    pub signature_length: usize,
    /// Where the next message begins.
    pub end: usize,
}

/// Where the signature of a frame without its body begins: behind 11 bytes, the front of the body,
/// its digest and the length.
const SIGNATURE_OF_A_REFERENCE: usize = 54;

/// There is a message.
const FOUND: u8 = 0;

/// No reason is said.
const NO_REASON: u8 = 255;

/// What may come, by the byte that names it.
pub(crate) fn expect_named(byte: u8) -> Option<Expect>
    ensures { result ≡ expect_named byte }
{
    match byte {
        b'H' => Some(Expect::Hello),
        b'W' => Some(Expect::Way),
        b'F' => Some(Expect::Frames),
        b'A' => Some(Expect::Acks),
        b'V' => Some(Expect::NumberedWay),
        b'S' => Some(Expect::SignedFrames),
        _ => None,
    }
}

fn fault_code(fault: Fault) -> u8
    ensures { result ≡ defined.fault_code fault }
{
    match fault {
        Fault::More => 1,
        Fault::NoHello => 2,
        Fault::NoVersion => 3,
        Fault::NoName => 4,
        Fault::NoMessage => 5,
        Fault::LongBody => 6,
        Fault::LongWay => 7,
        Fault::NoNameOfWay => 8,
        Fault::LongReport => 9,
        Fault::LongSignature => 10,
    }
}

/// One of this kind, with nothing but a label.
pub(crate) fn empty(kind: u8, label: u16) -> WireMessage
    ensures { result ≡ defined.empty kind label }
{
    WireMessage {
        life: 0,
        table: 0,
        item: 0,
        body_length: 0,
        label,
        version: 0,
        kind,
        first: 0,
        first_length: 0,
        second: 0,
        second_length: 0,
        signature: 0,
        signature_length: 0,
        end: 0,
    }
}

/// A hello or a look, whose names lie behind its first 16 bytes.
fn greeting(kind: u8, it: &Greeting<'_>) -> WireMessage
    ensures { result ≡ defined.greeting kind (greeted it.now) }
{
    let from = it.from.len();
    WireMessage {
        life: it.life,
        version: it.version,
        first: 16,
        first_length: from,
        second: 16 + from + 1,
        second_length: it.to.len(),
        ..empty(kind, it.label)
    }
}

/// A frame without its body, of which the front and the digest lie behind 11 bytes.
fn reference(kind: u8, it: &Reference<'_>) -> WireMessage
    ensures { result ≡ reference_of kind (referred it.now) }
{
    let front = it.head.len();
    WireMessage {
        item: it.item,
        body_length: it.len,
        first: 11,
        first_length: front,
        second: 11 + front,
        second_length: it.digest.len(),
        ..empty(kind, it.label)
    }
}

/// A frame with a signature, which lies behind 9 bytes, in front of the body.
fn signed_frame(it: &SignedFrame<'_>) -> WireMessage
    ensures { result ≡ shown_of (signed (signing it.now)) }
{
    let len = it.signature.len();
    WireMessage {
        item: it.item,
        first: 13 + len,
        first_length: it.body.len(),
        signature: 9,
        signature_length: len,
        ..empty(b'S', it.label)
    }
}

/// A frame without its body, with a signature behind the digest.
fn signed_reference(it: &SignedReference<'_>) -> WireMessage
    ensures { result ≡ shown_of (refers_signed (signing_reference it.now)) }
{
    WireMessage {
        signature: SIGNATURE_OF_A_REFERENCE,
        signature_length: it.signature.len(),
        ..reference(b'B', &it.reference)
    }
}

/// A message, without its end.
pub(crate) fn shown(message: &Message<'_>) -> WireMessage
    ensures { result ≡ shown_of (said_of message.now) }
{
    match *message {
        Message::Hello(it) => greeting(b'H', &it),
        Message::Look(it) => greeting(b'L', &it),
        Message::Way(it) => WireMessage {
            first: 5,
            first_length: it.names.len(),
            ..empty(b'W', it.cost)
        },
        Message::Frame(it) => WireMessage {
            item: it.item,
            first: 11,
            first_length: it.body.len(),
            ..empty(b'F', it.label)
        },
        Message::Reference(it) => reference(b'D', &it),
        Message::ReportRequest => empty(b'Q', 0),
        Message::Ack(label) => empty(b'A', label),
        Message::Lacks(label) => empty(b'N', label),
        Message::Report(text) => WireMessage {
            first: 5,
            first_length: text.len(),
            ..empty(b'R', 0)
        },
        Message::Goodbye => empty(b'G', 0),
        Message::NumberedWay(it) => WireMessage {
            table: it.number,
            first: 13,
            first_length: it.way.names.len(),
            ..empty(b'V', it.way.cost)
        },
        Message::SignedFrame(it) => signed_frame(&it),
        Message::SignedReference(it) => signed_reference(&it),
        Message::Filler(label) => empty(b'E', label),
    }
}

/// Reads the message in front of the bytes, where this may come: 'H' a hello, 'W' the way of a
/// candidate, 'F' what a parent says, 'A' what a child says; from version 5 on 'V' the way of a
/// candidate, and 'S' what a parent says. It returns 0, after writing what is there; 1 where more
/// has to come; or the number of the first fault.
#[tactic(auto, using(crate::proofs::Places::found_there, crate::proofs::Places::within))]
#[unsafe(no_mangle)]
pub extern "C" fn rignolda_message_read(expect: u8, bytes: &[u8], found: &mut WireMessage) -> u8
    ensures { Read bytes.now found.old (read_as (expect_named expect) bytes.now) result found.new }
{
    let Some(expect) = expect_named(expect) else {
        return fault_code(Fault::NoMessage);
    };
    match message(expect, bytes) {
        Ok((message, rest)) => {
            *found = WireMessage {
                end: bytes.len() - rest.len(),
                ..shown(&message)
            };
            FOUND
        }
        Err(fault) => fault_code(fault),
    }
}

/// Why the other end refuses this one, which expects this, if these are all the bytes that came
/// before it closed the connection: the byte of the reason, or 255 where it does not.
#[unsafe(no_mangle)]
pub extern "C" fn rignolda_refusal_read(expect: u8, bytes: &[u8]) -> u8
    ensures { result ≡ reason_code (refused_as (expect_named expect) bytes.now) }
{
    match expect_named(expect) {
        None => NO_REASON,
        Some(expect) => match refused(expect, bytes) {
            None => NO_REASON,
            Some(why) => why.byte(),
        },
    }
}

/// Which versions an end speaks that says this version and label in a look, or as the parent that
/// begins, in the form of such a label.
#[unsafe(no_mangle)]
pub extern "C" fn rignolda_versions_read(version: u8, label: u16) -> u16
    ensures { let v = versions_of (said_by version label) in result ≡ range_of v.0 v.1 }
{
    let greeting = Greeting {
        version,
        life: 0,
        label,
        from: b"",
        to: b"",
    };
    let (oldest, newest) = versions(&greeting);
    range(oldest, newest)
}

/// Whether these bytes may be the name of an agent.
#[unsafe(no_mangle)]
pub extern "C" fn rignolda_is_name(bytes: &[u8]) -> bool
    ensures { result ≡ names_one bytes.now }
{
    is_name(bytes)
}

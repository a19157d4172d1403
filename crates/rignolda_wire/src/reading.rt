ghost use Rattle.std.specs.Prelude.{◌≡◌, List, MatchResult, Ok, Err};
ghost use Rattle.rignolda_wire.specs.Names.{is_name, is_name_or_none};
ghost use Rattle.rignolda_wire.specs.Reading as reads;
ghost use Rattle.rignolda_wire.specs.Seen.{Reads, framed, greeted, numbering, referred, routed};
ghost use Rattle.rignolda_wire.specs.Seen.{said_of, signing, signing_reference};

use crate::fault::Fault;
use crate::fields::{
    byte_at, counted_at, limited_at, short_text_at, text_at, u16_at, u32_at, u64_at,
};
use crate::names::{NAME_LIMIT, is_name, is_name_or_none, names_in};
use crate::said::{
    Expect, Frame, Greeting, Message, NumberedWay, Reference, SignedFrame, SignedReference, Way,
};

/// The oldest version of a hello, and of a look.
const OLDEST: u8 = 1;

const OLDEST_OF_LOOKS: u8 = 2;

/// The longest body, in bytes.
pub(crate) const BODY_LIMIT: u32 = 16_777_216;

/// The longest way, in bytes, and its most names.
pub(crate) const WAY_LIMIT: u16 = 8_320;

const NAMES_LIMIT: usize = 128;

/// The longest report, in bytes.
pub(crate) const REPORT_LIMIT: u32 = 1_048_576;

/// The longest signature, in bytes.
pub(crate) const SIGNATURE_LIMIT: u16 = 1_024;

/// How many bytes of a body a reference has, and how many its digest has.
pub(crate) const HEAD_LEN: usize = 9;

pub(crate) const DIGEST_LEN: usize = 32;

// ---- Hellos

/// The bytes after this letter.
#[tactic(auto, unfolding(crate::specs::Reading::letter_at))]
pub(crate) fn letter_at(letter: u8, bytes: &[u8]) -> Result<(u8, &[u8]), Fault>
    ensures { Reads (λ x. (x.0, x.1.now)) result (reads.letter_at letter bytes.now) }
{
    let (byte, rest) = byte_at(bytes)?;
    if byte != letter {
        return Err(Fault::NoHello);
    }
    Ok((byte, rest))
}

#[tactic(auto, unfolding(crate::specs::Reading::version_at))]
fn version_at(least: u8, bytes: &[u8]) -> Result<(u8, &[u8]), Fault>
    ensures { Reads (λ x. (x.0, x.1.now)) result (reads.version_at least bytes.now) }
{
    let (version, rest) = byte_at(bytes)?;
    if version < least {
        return Err(Fault::NoVersion);
    }
    Ok((version, rest))
}

/// The length of a name, which is refused if it is above the limit.
#[tactic(auto, unfolding(crate::specs::Reading::name_len_at))]
fn name_len_at(bytes: &[u8]) -> Result<(usize, &[u8]), Fault>
    ensures { Reads (λ x. (x.0, x.1.now)) result (reads.name_len_at bytes.now) }
{
    let (len, rest) = byte_at(bytes)?;
    let len = usize::from(len);
    if len > NAME_LIMIT {
        return Err(Fault::NoName);
    }
    Ok((len, rest))
}

#[tactic(auto, unfolding(crate::specs::Reading::name_at))]
fn name_at(bytes: &[u8]) -> Result<(&[u8], &[u8]), Fault>
    ensures { Reads (λ x. (x.0.now, x.1.now)) result (reads.name_at is_name bytes.now) }
{
    let (len, rest) = name_len_at(bytes)?;
    let (name, rest) = text_at(len, rest)?;
    if !is_name(name) {
        return Err(Fault::NoName);
    }
    Ok((name, rest))
}

#[tactic(auto, unfolding(crate::specs::Reading::name_at))]
fn name_or_none_at(bytes: &[u8]) -> Result<(&[u8], &[u8]), Fault>
    ensures { Reads (λ x. (x.0.now, x.1.now)) result (reads.name_at is_name_or_none bytes.now) }
{
    let (len, rest) = name_len_at(bytes)?;
    let (name, rest) = text_at(len, rest)?;
    if !is_name_or_none(name) {
        return Err(Fault::NoName);
    }
    Ok((name, rest))
}

#[tactic(auto, unfolding(crate::specs::Reading::greeting_at))]
fn greeting_at(least: u8, bytes: &[u8]) -> Result<(Greeting<'_>, &[u8]), Fault>
    ensures { Reads (λ x. (greeted x.0, x.1.now)) result (reads.greeting_at least bytes.now) }
{
    let (version, rest) = version_at(least, bytes)?;
    let (life, rest) = u64_at(rest)?;
    let (label, rest) = u16_at(rest)?;
    let (from, rest) = name_at(rest)?;
    let (to, rest) = name_or_none_at(rest)?;
    let greeting = Greeting {
        version,
        life,
        label,
        from,
        to,
    };
    Ok((greeting, rest))
}

#[tactic(auto, unfolding(crate::specs::Reading::fourth_at))]
fn fourth_at(bytes: &[u8]) -> Result<(Message<'_>, &[u8]), Fault>
    ensures { Reads (λ x. (said_of x.0, x.1.now)) result (reads.fourth_at bytes.now) }
{
    let (byte, rest) = byte_at(bytes)?;
    match byte {
        b'L' => {
            let (greeting, rest) = greeting_at(OLDEST_OF_LOOKS, rest)?;
            Ok((Message::Look(greeting), rest))
        }
        b'D' => {
            let (greeting, rest) = greeting_at(OLDEST, rest)?;
            Ok((Message::Hello(greeting), rest))
        }
        _ => Err(Fault::NoHello),
    }
}

#[tactic(auto, unfolding(crate::specs::Reading::hello_at))]
fn hello_at(bytes: &[u8]) -> Result<(Message<'_>, &[u8]), Fault>
    ensures { Reads (λ x. (said_of x.0, x.1.now)) result (reads.hello_at bytes.now) }
{
    let (_, rest) = letter_at(b'R', bytes)?;
    let (_, rest) = letter_at(b'G', rest)?;
    let (_, rest) = letter_at(b'N', rest)?;
    fourth_at(rest)
}

// ---- What a parent says

#[tactic(auto, unfolding(crate::specs::Reading::frame_at))]
fn frame_at(bytes: &[u8]) -> Result<(Frame<'_>, &[u8]), Fault>
    ensures { Reads (λ x. (framed x.0, x.1.now)) result (reads.frame_at bytes.now) }
{
    let (label, rest) = u16_at(bytes)?;
    let (item, rest) = u32_at(rest)?;
    let (body, rest) = counted_at(BODY_LIMIT, Fault::LongBody, rest)?;
    Ok((Frame { label, item, body }, rest))
}

#[tactic(auto, unfolding(crate::specs::Reading::reference_at))]
fn reference_at(bytes: &[u8]) -> Result<(Reference<'_>, &[u8]), Fault>
    ensures { Reads (λ x. (referred x.0, x.1.now)) result (reads.reference_at bytes.now) }
{
    let (label, rest) = u16_at(bytes)?;
    let (item, rest) = u32_at(rest)?;
    let (len, rest) = limited_at(BODY_LIMIT, Fault::LongBody, rest)?;
    let (head, rest) = text_at(HEAD_LEN, rest)?;
    let (digest, rest) = text_at(DIGEST_LEN, rest)?;
    let reference = Reference {
        label,
        item,
        len,
        head,
        digest,
    };
    Ok((reference, rest))
}

#[tactic(auto, unfolding(crate::specs::Reading::names_at))]
fn names_at(bytes: &[u8]) -> Result<(&[u8], &[u8]), Fault>
    ensures { Reads (λ x. (x.0.now, x.1.now)) result (reads.names_at bytes.now) }
{
    let (names, rest) = short_text_at(WAY_LIMIT, Fault::LongWay, bytes)?;
    let (count, each) = names_in(names);
    if count > NAMES_LIMIT {
        return Err(Fault::LongWay);
    }
    if !each {
        return Err(Fault::NoNameOfWay);
    }
    Ok((names, rest))
}

#[tactic(auto, unfolding(crate::specs::Reading::way_at))]
fn way_at(bytes: &[u8]) -> Result<(Way<'_>, &[u8]), Fault>
    ensures { Reads (λ x. (routed x.0, x.1.now)) result (reads.way_at bytes.now) }
{
    let (cost, rest) = u16_at(bytes)?;
    let (names, rest) = names_at(rest)?;
    Ok((Way { cost, names }, rest))
}

#[tactic(auto, unfolding(crate::specs::Reading::candidate_at))]
fn candidate_at(bytes: &[u8]) -> Result<(Message<'_>, &[u8]), Fault>
    ensures { Reads (λ x. (said_of x.0, x.1.now)) result (reads.candidate_at bytes.now) }
{
    let (byte, rest) = byte_at(bytes)?;
    match byte {
        b'W' => way_at(rest).map(|(way, rest)| (Message::Way(way), rest)),
        _ => Err(Fault::NoMessage),
    }
}

#[tactic(auto, unfolding(crate::specs::Reading::parent_at))]
fn parent_at(bytes: &[u8]) -> Result<(Message<'_>, &[u8]), Fault>
    ensures { Reads (λ x. (said_of x.0, x.1.now)) result (reads.parent_at bytes.now) }
{
    let (byte, rest) = byte_at(bytes)?;
    match byte {
        b'F' => frame_at(rest).map(|(frame, rest)| (Message::Frame(frame), rest)),
        b'D' => reference_at(rest).map(|(reference, rest)| (Message::Reference(reference), rest)),
        b'W' => way_at(rest).map(|(way, rest)| (Message::Way(way), rest)),
        b'Q' => Ok((Message::ReportRequest, rest)),
        _ => Err(Fault::NoMessage),
    }
}

// ---- What a parent says from version 5 on

#[tactic(auto, unfolding(crate::specs::Reading::numbered_at))]
fn numbered_way_at(bytes: &[u8]) -> Result<(NumberedWay<'_>, &[u8]), Fault>
    ensures { Reads (λ x. (numbering x.0, x.1.now)) result (reads.numbered_at bytes.now) }
{
    let (number, rest) = u64_at(bytes)?;
    let (way, rest) = way_at(rest)?;
    Ok((NumberedWay { number, way }, rest))
}

#[tactic(auto, unfolding(crate::specs::Reading::numbering_candidate_at))]
fn numbering_candidate_at(bytes: &[u8]) -> Result<(Message<'_>, &[u8]), Fault>
    ensures { Reads (λ x. (said_of x.0, x.1.now)) result (reads.numbering_candidate_at bytes.now) }
{
    let (byte, rest) = byte_at(bytes)?;
    match byte {
        b'V' => numbered_way_at(rest).map(|(way, rest)| (Message::NumberedWay(way), rest)),
        _ => Err(Fault::NoMessage),
    }
}

#[tactic(auto, unfolding(crate::specs::Reading::signed_at))]
fn signed_frame_at(bytes: &[u8]) -> Result<(SignedFrame<'_>, &[u8]), Fault>
    ensures { Reads (λ x. (signing x.0, x.1.now)) result (reads.signed_at bytes.now) }
{
    let (label, rest) = u16_at(bytes)?;
    let (item, rest) = u32_at(rest)?;
    let (signature, rest) = short_text_at(SIGNATURE_LIMIT, Fault::LongSignature, rest)?;
    let (body, rest) = counted_at(BODY_LIMIT, Fault::LongBody, rest)?;
    let frame = SignedFrame {
        label,
        item,
        signature,
        body,
    };
    Ok((frame, rest))
}

#[tactic(auto, unfolding(crate::specs::Reading::signed_reference_at))]
fn signed_reference_at(bytes: &[u8]) -> Result<(SignedReference<'_>, &[u8]), Fault>
    ensures { Reads (λ x. (signing_reference x.0, x.1.now)) result
        (reads.signed_reference_at bytes.now) }
{
    let (reference, rest) = reference_at(bytes)?;
    let (signature, rest) = short_text_at(SIGNATURE_LIMIT, Fault::LongSignature, rest)?;
    let reference = SignedReference {
        reference,
        signature,
    };
    Ok((reference, rest))
}

#[tactic(auto, unfolding(crate::specs::Reading::signing_parent_at))]
fn signing_parent_at(bytes: &[u8]) -> Result<(Message<'_>, &[u8]), Fault>
    ensures { Reads (λ x. (said_of x.0, x.1.now)) result (reads.signing_parent_at bytes.now) }
{
    let (byte, rest) = byte_at(bytes)?;
    match byte {
        b'S' => signed_frame_at(rest).map(|(frame, rest)| (Message::SignedFrame(frame), rest)),
        b'B' => signed_reference_at(rest).map(|(it, rest)| (Message::SignedReference(it), rest)),
        b'V' => numbered_way_at(rest).map(|(way, rest)| (Message::NumberedWay(way), rest)),
        b'E' => {
            let (label, rest) = u16_at(rest)?;
            Ok((Message::Filler(label), rest))
        }
        b'Q' => Ok((Message::ReportRequest, rest)),
        _ => Err(Fault::NoMessage),
    }
}

// ---- What a child says

#[tactic(auto, unfolding(crate::specs::Reading::child_at))]
fn child_at(bytes: &[u8]) -> Result<(Message<'_>, &[u8]), Fault>
    ensures { Reads (λ x. (said_of x.0, x.1.now)) result (reads.child_at bytes.now) }
{
    let (byte, rest) = byte_at(bytes)?;
    match byte {
        b'A' => {
            let (label, rest) = u16_at(rest)?;
            Ok((Message::Ack(label), rest))
        }
        b'N' => {
            let (label, rest) = u16_at(rest)?;
            Ok((Message::Lacks(label), rest))
        }
        b'R' => {
            let (report, rest) = counted_at(REPORT_LIMIT, Fault::LongReport, rest)?;
            Ok((Message::Report(report), rest))
        }
        b'G' => Ok((Message::Goodbye, rest)),
        _ => Err(Fault::NoMessage),
    }
}

/// The message in front of what came, and the bytes after it; or that more has to come, or why it
/// is none.
pub fn message(expect: Expect, bytes: &[u8]) -> Result<(Message<'_>, &[u8]), Fault>
    ensures { MatchResult result
        (λ x. reads.message_at expect bytes.now ≡ Ok (said_of x.0, x.1.now))
        (λ fault. reads.message_at expect bytes.now ≡ Err fault) }
{
    match expect {
        Expect::Hello => hello_at(bytes),
        Expect::Way => candidate_at(bytes),
        Expect::NumberedWay => numbering_candidate_at(bytes),
        Expect::Frames => parent_at(bytes),
        Expect::SignedFrames => signing_parent_at(bytes),
        Expect::Acks => child_at(bytes),
    }
}

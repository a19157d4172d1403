ghost use Rattle.std.specs.Prelude.{◌≡◌, nat_le, List, length};
ghost use Rattle.rignolda_wire.specs.Refusals.{byte_of, reason, reason_or_none, refusal_of, told};
ghost use Rattle.rignolda_wire.specs.Refusals as refusals;
ghost use Rattle.rignolda_wire.specs.Writing.{after_writing, end_of};

use crate::said::Expect;
use crate::writing::put_if_room;

/// Why the other end refuses this one.
#[derive(Clone, Copy, Debug, PartialEq, Eq)]
pub enum Refusal {
    /// It does not say.
    NotSaid,
    /// Its name is not the one that this end says.
    OtherName,
    /// No child of this name may connect to it.
    NoChild,
    /// No parent of this name may connect to it.
    NoParent,
    /// It has an address of this end.
    Calls,
    /// The certificate of this end has not the name that this end says.
    Certificate,
    /// It has as many children as it may have.
    Full,
    /// Another process with the name of this end has connected to it.
    Twin,
}

/// What stands before a reason: no way costs so much, no table has such a number, and no look has
/// such a rank.
const REFUSED: u8 = 255;

/// The version in front of a reason, by which a connection begins.
const FIRST: u8 = 2;

impl Refusal {
    /// The byte that stands for a reason.
    pub fn byte(self) -> u8
        ensures { result ≡ byte_of self }
    {
        match self {
            Refusal::NotSaid => 0,
            Refusal::OtherName => 1,
            Refusal::NoChild => 2,
            Refusal::NoParent => 3,
            Refusal::Calls => 4,
            Refusal::Certificate => 5,
            Refusal::Full => 6,
            Refusal::Twin => 7,
        }
    }

    /// What a byte stands for. One of a later release says nothing.
    pub fn of(byte: u8) -> Refusal
        ensures { result ≡ refusal_of byte }
    {
        match byte {
            1 => Refusal::OtherName,
            2 => Refusal::NoChild,
            3 => Refusal::NoParent,
            4 => Refusal::Calls,
            5 => Refusal::Certificate,
            6 => Refusal::Full,
            7 => Refusal::Twin,
            _ => Refusal::NotSaid,
        }
    }
}

fn reason(bytes: &[u8]) -> Option<Refusal>
    ensures { result ≡ reason bytes.now }
{
    match bytes {
        [REFUSED, byte] => Some(Refusal::of(*byte)),
        _ => None,
    }
}

fn reason_or_none(bytes: &[u8]) -> Option<Refusal>
    ensures { result ≡ reason_or_none bytes.now }
{
    match bytes {
        [] => Some(Refusal::NotSaid),
        [_, ..] => reason(bytes),
    }
}

/// Why the other end refuses this one, if these are all the bytes that came before it closed the
/// connection.
pub fn refused(expect: Expect, bytes: &[u8]) -> Option<Refusal>
    ensures { result ≡ refusals.refused expect bytes.now }
{
    match (expect, bytes) {
        (Expect::Hello, [b'R', b'G', b'N', b'L', FIRST, why @ ..]) => reason_or_none(why),
        (Expect::Frames, [b'W', why @ ..]) | (Expect::SignedFrames, [b'V', why @ ..]) => {
            reason(why)
        }
        _ => None,
    }
}

/// Writes what an end is told that expects this and is refused, into the buffer from its front on,
/// and gives its end; or gives nothing, if there is no room. In the place of a hello or of a
/// parent's messages it is told why; else it is told nothing.
pub fn write_refusal(buffer: &mut [u8], expect: Expect, why: Refusal) -> Option<usize>
    ensures end { result
        ≡ end_of (nat_le (length (told expect why)) (length buffer.old)) (told expect why) }
    ensures text { buffer.new
        ≡ after_writing (nat_le (length (told expect why)) (length buffer.old)) buffer.old
        (told expect why) }
{
    match (expect, why) {
        (Expect::Hello, Refusal::NotSaid) => put_if_room(buffer, &[b'R', b'G', b'N', b'L', FIRST]),
        (Expect::Hello, _) => {
            let told = [b'R', b'G', b'N', b'L', FIRST, REFUSED, why.byte()];
            put_if_room(buffer, &told)
        }
        (Expect::Frames, _) => put_if_room(buffer, &[b'W', REFUSED, why.byte()]),
        (Expect::SignedFrames, _) => put_if_room(buffer, &[b'V', REFUSED, why.byte()]),
        _ => put_if_room(buffer, &[]),
    }
}

ghost use Rattle.std.specs.Prelude.{◌≡◌, ◌-◌, [], List, MatchResult, Ok, Err};
ghost use Rattle.std.specs.Option.{option_map};
ghost use Rattle.rignolda_agent.specs.Reading.{body_of, count_at, entries_at, entry_at, heard};
ghost use Rattle.rignolda_agent.specs.Reading.{key_at, kind_at, marked_at, next_at, said_by};
ghost use Rattle.rignolda_agent.specs.Reading.{settings_of, value_at};
ghost use Rattle.rignolda_agent.specs.BodySpelling.{is_above, is_allowed};
ghost use Rattle.rignolda_agent.specs.Seen.{Reads, count_of, head_of, key_and_rest, rest_of};
ghost use Rattle.rignolda_agent.specs.Seen.{setting_of};

use crate::body::{Entry, Head, Kind};
use crate::fault::Fault;
use crate::fields::{byte_at, text_at, u32_at, u64_at};
use crate::keys::is_key;
use crate::summing::checksum;

/// The longest value, in bytes.
const VALUE_LIMIT: u32 = 1_048_576;

/// The most settings of a body.
const SETTINGS_LIMIT: u32 = 65_536;

/// The longest body, in bytes.
const BODY_LIMIT: usize = 16_777_216;

#[tactic(auto, unfolding(crate::specs::Reading::kind_at))]
fn kind_at(bytes: &[u8]) -> Result<(Kind, &[u8]), Fault>
    ensures { Reads (λ x. (x.0, x.1.now)) result (kind_at bytes.now) }
{
    match bytes {
        [] => Err(Fault::Short),
        [b'C', rest @ ..] => Ok((Kind::Changes, rest)),
        [b'T', rest @ ..] => Ok((Kind::Table, rest)),
        [b'H', rest @ ..] => Ok((Kind::Harmless, rest)),
        [_, ..] => Err(Fault::NoKind),
    }
}

#[tactic(auto, unfolding(crate::specs::Reading::key_at))]
fn key_at(bytes: &[u8]) -> Result<(&[u8], &[u8]), Fault>
    ensures { Reads (λ x. (x.0.now, x.1.now)) result (key_at bytes.now) }
{
    let (len, rest) = byte_at(bytes)?;
    let (key, rest) = text_at(usize::from(len), rest)?;
    if !is_key(key) {
        return Err(Fault::NoKey);
    }
    Ok((key, rest))
}

#[tactic(auto, unfolding(crate::specs::Reading::value_at))]
fn value_at(bytes: &[u8]) -> Result<(&[u8], &[u8]), Fault>
    ensures { Reads (λ x. (x.0.now, x.1.now)) result (value_at bytes.now) }
{
    let (len, rest) = u32_at(bytes)?;
    if len > VALUE_LIMIT {
        return Err(Fault::Long);
    }
    text_at(len as usize, rest)
}

/// The value behind a mark and a key.
#[tactic(auto, unfolding(crate::specs::Reading::marked_at))]
fn marked_at(mark: u8, bytes: &[u8]) -> Result<(Option<&[u8]>, &[u8]), Fault>
    ensures { Reads (λ x. (option_map (λ v. v.now) x.0, x.1.now)) result
        (marked_at mark bytes.now) }
{
    match mark {
        b'S' => {
            let (value, rest) = value_at(bytes)?;
            Ok((Some(value), rest))
        }
        b'U' => Ok((None, bytes)),
        _ => Err(Fault::NoMark),
    }
}

/// The entry in front of some bytes, and the bytes after it, or the first fault of it.
#[tactic(auto, unfolding(crate::specs::Reading::entry_at))]
pub fn entry(bytes: &[u8]) -> Result<(Entry<'_>, &[u8]), Fault>
    ensures { MatchResult result (λ x. entry_at bytes.now ≡ Ok (setting_of x.0, x.1.now))
        (λ fault. entry_at bytes.now ≡ Err fault) }
{
    let (mark, rest) = byte_at(bytes)?;
    let (key, rest) = key_at(rest)?;
    let (value, rest) = marked_at(mark, rest)?;
    Ok((Entry { key, value }, rest))
}

fn is_above(before: &[u8], key: &[u8]) -> bool
    ensures { result ≡ is_above before.now key.now }
{
    before.cmp(key).is_lt()
}

fn is_allowed(kind: Kind, entry: &Entry<'_>) -> bool
    ensures { result ≡ is_allowed kind (setting_of entry.now) }
{
    match kind {
        Kind::Changes => true,
        Kind::Table => entry.value.is_some(),
        Kind::Harmless => false,
    }
}

/// The key of the entry that follows that of a key in a body of this kind, and the bytes after it.
#[tactic(auto, unfolding(crate::specs::Reading::next_at))]
fn next_at<'a>(kind: Kind, before: &[u8], bytes: &'a [u8]) -> Result<(&'a [u8], &'a [u8]), Fault>
    ensures { Reads (λ x. (x.0.now, x.1.now)) result
        (key_and_rest (next_at kind before.now bytes.now)) }
{
    let (entry, rest) = entry(bytes)?;
    if !is_above(before, entry.key) {
        return Err(Fault::Order);
    }
    if !is_allowed(kind, &entry) {
        return Err(Fault::Unset);
    }
    Ok((entry.key, rest))
}

/// The bytes after so many entries.
#[tactic(auto, using(crate::proofs::Loop::goes_on, crate::proofs::Loop::stops, crate::proofs::Loop::ends))]
fn after_entries(kind: Kind, count: u32, bytes: &[u8]) -> Result<&[u8], Fault>
    ensures { Reads (λ x. x.now) result (rest_of (entries_at kind [] count bytes.now)) }
{
    let mut before: &[u8] = &[];
    let mut rest = bytes;
    for _ in 0..count {
        let (key, after) = next_at(kind, before, rest)?;
        before = key;
        rest = after;
    }
    Ok(rest)
}

#[tactic(auto, unfolding(crate::specs::Reading::count_at))]
fn count_at(kind: Kind, bytes: &[u8]) -> Result<(u32, &[u8]), Fault>
    ensures { Reads (λ x. (x.0, x.1.now)) result (count_at kind bytes.now) }
{
    match kind {
        Kind::Harmless => Ok((0, bytes)),
        Kind::Changes | Kind::Table => {
            let (count, rest) = u32_at(bytes)?;
            if count > SETTINGS_LIMIT {
                return Err(Fault::Many);
            }
            Ok((count, rest))
        }
    }
}

/// How many settings all of the bytes say.
#[tactic(auto, unfolding(crate::specs::Reading::settings_of), using(crate::proofs::Heads::settled))]
fn settings_of(kind: Kind, bytes: &[u8]) -> Result<u32, Fault>
    ensures { Reads (λ x. x) result (count_of (settings_of kind bytes.now)) }
{
    let (count, rest) = count_at(kind, bytes)?;
    let rest = after_entries(kind, count, rest)?;
    if !rest.is_empty() {
        return Err(Fault::Trailing);
    }
    Ok(count)
}

#[tactic(auto, unfolding(crate::specs::Reading::said_by), using(crate::proofs::Heads::headed))]
fn said_by(bytes: &[u8]) -> Result<Head, Fault>
    ensures { Reads (λ x. x) result (head_of (said_by bytes.now)) }
{
    let (kind, rest) = kind_at(bytes)?;
    let (number, rest) = u64_at(rest)?;
    let count = settings_of(kind, rest)?;
    Ok(Head {
        kind,
        number,
        count,
    })
}

/// The head of a body, if all of the bytes say one, or their first fault.
#[tactic(auto, unfolding(crate::specs::Reading::body_of))]
pub fn head(bytes: &[u8]) -> Result<Head, Fault>
    ensures { result ≡ head_of (body_of bytes.now) }
{
    if bytes.len() > BODY_LIMIT {
        return Err(Fault::Large);
    }
    said_by(bytes)
}

/// The same of bytes beside an item, which has to be their checksum.
pub fn heard(item: u32, bytes: &[u8]) -> Result<Head, Fault>
    ensures { result ≡ head_of (heard item bytes.now) }
{
    if checksum(bytes) != item {
        return Err(Fault::Unfit);
    }
    head(bytes)
}

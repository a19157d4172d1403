ghost use Rattle.std.specs.Prelude.{◌≡◌, List, drop};
ghost use Rattle.rignolda_agent.specs.BodySpelling.{kind_byte};
ghost use Rattle.rignolda_agent.specs.Checksum.{checksum};
ghost use Rattle.rignolda_agent.specs.Reading.{entry_at, heard};
ghost use Rattle.rignolda_agent.specs.Seen.{head_of};
ghost use Rattle.rignolda_settings_c.specs.Calls.{Found, check_code, fault_code, kind_named};
ghost use Rattle.rignolda_settings_c.specs.Calls.{written_head};

use rignolda_agent::{Fault, Kind, checksum, entry, heard};

/// The bytes are a body.
const BODY: u8 = 0;

/// What a body has before its entries, as C sees it.
#[repr(C)]
#[derive(Clone, Copy)]
pub struct BodyHead {
    /// The number of the body.
    pub number: u64,
    /// How many entries it has.
    pub count: u32,
    /// Its first byte: 'C' for changes, 'T' for a whole table, 'H' for a harmless body.
    pub kind: u32,
}

/// Where an entry lies in the bytes of a body, as C sees it. The next one begins at `value +
/// value_length`, also where the key is unset.
#[repr(C)]
#[derive(Clone, Copy)]
pub struct BodyEntry {
    /// Where the key begins.
    pub key: usize,
    /// How long the key is.
    pub key_length: usize,
    /// Where the value begins.
    pub value: usize,
    /// How long the value is: 0 where there is none.
    pub value_length: usize,
}

fn kind_byte(kind: Kind) -> u8
    ensures { result ≡ kind_byte kind }
{
    match kind {
        Kind::Changes => b'C',
        Kind::Table => b'T',
        Kind::Harmless => b'H',
    }
}

/// The kind that a byte names.
pub(crate) fn kind_named(byte: u8) -> Option<Kind>
    ensures { result ≡ kind_named byte }
{
    match byte {
        b'C' => Some(Kind::Changes),
        b'T' => Some(Kind::Table),
        b'H' => Some(Kind::Harmless),
        _ => None,
    }
}

fn fault_code(fault: Fault) -> u8
    ensures { result ≡ fault_code fault }
{
    match fault {
        Fault::Unfit => 1,
        Fault::Large => 2,
        Fault::Short => 3,
        Fault::NoKind => 4,
        Fault::Many => 5,
        Fault::NoMark => 6,
        Fault::NoKey => 7,
        Fault::Order => 8,
        Fault::Long => 9,
        Fault::Unset => 10,
        Fault::Trailing => 11,
    }
}

/// Reads the bytes beside an item, all of them, and returns 0 if they are a body that fits it,
/// after writing the head; else it returns the number of the first fault.
#[unsafe(no_mangle)]
pub extern "C" fn rignolda_body_check(item: u32, bytes: &[u8], found: &mut BodyHead) -> u8
    ensures code { result ≡ check_code (heard item bytes.now) }
    ensures head { found.new ≡ written_head found.old (head_of (heard item bytes.now)) }
{
    match heard(item, bytes) {
        Ok(it) => {
            *found = BodyHead {
                number: it.number,
                count: it.count,
                kind: u32::from(kind_byte(it.kind)),
            };
            BODY
        }
        Err(fault) => fault_code(fault),
    }
}

/// The checksum CRC-32 of some bytes.
#[unsafe(no_mangle)]
pub extern "C" fn rignolda_checksum(bytes: &[u8]) -> u32
    ensures { result ≡ checksum bytes.now }
{
    checksum(bytes)
}

/// Reads the entry that begins at this place, and returns its first byte, 'S' where it sets its key
/// and 'U' where it unsets it, after writing where it lies; or returns 0 where there is none. In a
/// body that was checked, as many entries as its head says follow each other from the head's end to
/// the end of the bytes.
#[tactic(auto, using(crate::proofs::Entries::set_found, crate::proofs::Entries::unset_found, crate::proofs::Entries::set_fits, crate::proofs::Entries::unset_fits, crate::proofs::Entries::none_past))]
#[unsafe(no_mangle)]
pub extern "C" fn rignolda_body_read(bytes: &[u8], at: usize, found: &mut BodyEntry) -> u8
    ensures { Found bytes.now found.old (entry_at (drop at bytes.now)) result found.new }
{
    if at > bytes.len() {
        return 0;
    }
    let (_, rest) = bytes.split_at(at);
    let Ok((it, _)) = entry(rest) else {
        return 0;
    };
    let key = at + 2;
    let key_length = it.key.len();
    match it.value {
        Some(value) => {
            *found = BodyEntry {
                key,
                key_length,
                value: key + key_length + 4,
                value_length: value.len(),
            };
            b'S'
        }
        None => {
            *found = BodyEntry {
                key,
                key_length,
                value: key + key_length,
                value_length: 0,
            };
            b'U'
        }
    }
}

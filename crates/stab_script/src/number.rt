ghost use Rattle.std.specs.Prelude.{◌≡◌, ◌≤◌, ◌<◌, ℕ, List, length, Some, IfSome};
ghost use Rattle.std.specs.Str.Parse.{IsNumeral, digits_value};
ghost use Rattle.json.specs.Token.{Token as SpecToken};
ghost use Rattle.serde_json.specs.Data.{number, unsigned};
ghost use Rattle.serde_json.specs.Read.{number_of};
ghost use Rattle.stab_json.specs.Values.{most_u16, most_u32};
ghost use Rattle.stab_script.specs.Plain.{IsRead, IsWhole};
ghost use Rattle.stab_script.specs.Standing.{Stands};

use crate::entry::Entry;
use json::{Reader, Token};

/// The largest number that a digit more leaves within 64 bits.
const MOST_BEFORE_A_DIGIT: u64 = 1_844_674_407_370_955_160;

/// The whole number that the text of a JSON number is, where it is digits alone and one of 64 bits,
/// but for the six largest of these.
#[tactic(auto, using(crate::proofs::Numbers::digit_is))]
pub fn whole_of(text: &str) -> Option<u64>
    ensures value { IfSome result (λ n. number_of text.now ≡ Some (unsigned n)) }
    ensures plain { IsNumeral 10 text.now → digits_value 10 text.now ≤ most_u32
        → result ≡ Some (digits_value 10 text.now) }
{
    let bytes = text.as_bytes();
    if bytes.is_empty() {
        return None;
    }
    let mut number: u64 = 0;
    for byte in bytes {
        if !byte.is_ascii_digit() || number > MOST_BEFORE_A_DIGIT {
            return None;
        }
        number = number * 10 + (*byte - b'0') as u64;
    }
    Some(number)
}

/// The whole number that comes next.
pub fn next_whole(reader: &mut Reader<'_>) -> Option<u64>
    ensures value { IfSome result (λ n. (depth : ℕ)
        → Stands depth reader.old (number (unsigned n)) reader.new) }
    ensures shorter { IfSome result (λ _. length reader.new < length reader.old) }
    ensures plain { (most : ℕ) (rest : List SpecToken) → most ≤ most_u32
        → IsWhole most reader.old rest
        → (n : ℕ) × (n ≤ most) × (result ≡ Some n) × (reader.new ≡ rest) }
{
    match reader.next()? {
        Token::Number(text) => whole_of(text),
        _ => None,
    }
}

/// The whole number of 16 bits that comes next.
pub fn next_u16(reader: &mut Reader<'_>) -> Option<u16>
    ensures value { IfSome result (λ n. (depth : ℕ)
        → Stands depth reader.old (number (unsigned n)) reader.new) }
    ensures small { IfSome result (λ n. n ≤ 65535) }
    ensures shorter { IfSome result (λ _. length reader.new < length reader.old) }
    ensures plain { (rest : List SpecToken) → IsWhole most_u16 reader.old rest
        → IsRead result reader.new rest }
{
    let number = next_whole(reader)?;
    if number <= 65535 {
        Some(number as u16)
    } else {
        None
    }
}

/// The whole number of 32 bits that comes next.
pub(crate) fn next_u32(reader: &mut Reader<'_>) -> Option<u32>
    ensures value { IfSome result (λ n. (depth : ℕ)
        → Stands depth reader.old (number (unsigned n)) reader.new) }
    ensures small { IfSome result (λ n. n ≤ 4294967295) }
    ensures shorter { IfSome result (λ _. length reader.new < length reader.old) }
    ensures plain { (rest : List SpecToken) → IsWhole most_u32 reader.old rest
        → IsRead result reader.new rest }
{
    let number = next_whole(reader)?;
    if number <= 4_294_967_295 {
        Some(number as u32)
    } else {
        None
    }
}

/// A label.
impl Entry for u16 {
    type Read = u16;

    ghost use Rattle.stab_json.specs.Values.{label};

    ghost meaning = { label };

    ghost form = { IsWhole most_u16 };

    fn next(reader: &mut Reader<'_>) -> Option<u16> {
        let label = next_u16(reader)?;
        Some(label)
    }
}

/// An item.
impl Entry for u32 {
    type Read = u32;

    ghost use Rattle.stab_json.specs.Values.{item_number};

    ghost meaning = { item_number };

    ghost form = { IsWhole most_u32 };

    fn next(reader: &mut Reader<'_>) -> Option<u32> {
        let item = next_u32(reader)?;
        Some(item)
    }
}

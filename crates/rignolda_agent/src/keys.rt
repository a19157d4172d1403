ghost use Rattle.std.specs.Prelude.{◌≡◌, length};
ghost use Rattle.std.specs.List.{list_all};
ghost use Rattle.rignolda_agent.specs.BodySpelling.{is_key, is_key_byte};

/// The longest key, in bytes.
const KEY_LIMIT: usize = 128;

/// Beside each byte whether it may be in a key.
static KEY_BYTES: [bool; 256] = [
    false, false, false, false, false, false, false, false, false, false, false, false, false,
    false, false, false, false, false, false, false, false, false, false, false, false, false,
    false, false, false, false, false, false, false, false, false, false, false, false, false,
    false, false, false, false, false, false, true, true, false, true, true, true, true, true,
    true, true, true, true, true, false, false, false, false, false, false, false, true, true,
    true, true, true, true, true, true, true, true, true, true, true, true, true, true, true, true,
    true, true, true, true, true, true, true, true, false, false, false, false, true, false, true,
    true, true, true, true, true, true, true, true, true, true, true, true, true, true, true, true,
    true, true, true, true, true, true, true, true, true, false, false, false, false, false, false,
    false, false, false, false, false, false, false, false, false, false, false, false, false,
    false, false, false, false, false, false, false, false, false, false, false, false, false,
    false, false, false, false, false, false, false, false, false, false, false, false, false,
    false, false, false, false, false, false, false, false, false, false, false, false, false,
    false, false, false, false, false, false, false, false, false, false, false, false, false,
    false, false, false, false, false, false, false, false, false, false, false, false, false,
    false, false, false, false, false, false, false, false, false, false, false, false, false,
    false, false, false, false, false, false, false, false, false, false, false, false, false,
    false, false, false, false, false, false, false, false, false, false, false, false, false,
    false, false, false, false, false, false, false, false, false, false,
];

fn is_key_byte(byte: u8) -> bool
    ensures { result ≡ is_key_byte byte }
{
    KEY_BYTES[byte as usize]
}

/// Whether these are. (Each of them is looked at, so that no branch waits for another.)
#[tactic(auto, using(crate::proofs::KeyBytes::all_eight))]
fn are_eight(eight: &[u8]) -> bool
    requires { length eight.now ≡ 8 }
    ensures { result ≡ list_all is_key_byte eight.now }
{
    let first = is_key_byte(eight[0]) & is_key_byte(eight[1]);
    let second = is_key_byte(eight[2]) & is_key_byte(eight[3]);
    let third = is_key_byte(eight[4]) & is_key_byte(eight[5]);
    let last = is_key_byte(eight[6]) & is_key_byte(eight[7]);
    (first & second) & (third & last)
}

fn are_few(bytes: &[u8]) -> bool
    ensures { result ≡ list_all is_key_byte bytes.now }
{
    let mut rest = bytes;
    while let [first, others @ ..] = rest {
        if !is_key_byte(*first) {
            return false;
        }
        rest = others;
    }
    true
}

#[tactic(auto, using(crate::proofs::KeyBytes::good_eight, crate::proofs::KeyBytes::bad_eight))]
fn are_key_bytes(bytes: &[u8]) -> bool
    ensures { result ≡ list_all is_key_byte bytes.now }
{
    let mut rest = bytes;
    while rest.len() >= 8 {
        let (eight, others) = rest.split_at(8);
        if !are_eight(eight) {
            return false;
        }
        rest = others;
    }
    are_few(rest)
}

/// Whether this may be the key of a setting: 1 to 128 letters, digits, `.`, `_` and `-`, with no dot
/// or hyphen in front.
pub fn is_key(key: &[u8]) -> bool
    ensures { result ≡ is_key key.now }
{
    match key {
        [] => false,
        [first, ..] => {
            *first != b'.' && *first != b'-' && key.len() <= KEY_LIMIT && are_key_bytes(key)
        }
    }
}

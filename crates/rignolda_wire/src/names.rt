ghost use Rattle.std.specs.Prelude.{◌≡◌, ◌+◌, ◌≤◌, ◌&&◌, ◌∷◌, [], List, ℕ, length, MatchOption};
ghost use Rattle.std.specs.List.{list_all};
ghost use Rattle.rignolda_wire.specs.Names.{is_between, is_name, is_name_byte, is_name_or_none};
ghost use Rattle.rignolda_wire.specs.Names.{are_names, line_end, split};

/// The longest name of an agent, in bytes.
pub(crate) const NAME_LIMIT: usize = 64;

fn is_between(low: u8, high: u8, byte: u8) -> bool
    ensures { result ≡ is_between low high byte }
{
    low <= byte && byte <= high
}

fn is_name_byte(byte: u8) -> bool
    ensures { result ≡ is_name_byte byte }
{
    (is_between(b'0', b'9', byte) || is_between(b'A', b'Z', byte) || is_between(b'a', b'z', byte))
        || ((byte == b'-' || byte == b'.') || byte == b'_')
}

fn are_name_bytes(bytes: &[u8]) -> bool
    ensures { result ≡ list_all is_name_byte bytes.now }
{
    bytes.iter().all(|byte| is_name_byte(*byte))
}

/// Whether this may be the name of an agent: 1 to 64 letters, digits, `.`, `_` and `-`, with no dot
/// or hyphen in front.
pub fn is_name(name: &[u8]) -> bool
    ensures { result ≡ is_name name.now }
{
    match name {
        [] => false,
        [first, ..] => {
            *first != b'.' && *first != b'-' && name.len() <= NAME_LIMIT && are_name_bytes(name)
        }
    }
}

pub(crate) fn is_name_or_none(name: &[u8]) -> bool
    ensures { result ≡ is_name_or_none name.now }
{
    match name {
        [] => true,
        [_, ..] => is_name(name),
    }
}

/// Where the first line feed is, or the end where there is none.
fn line_end(text: &[u8]) -> usize
    ensures end { result ≡ line_end text.now }
    ensures within { result ≤ length text.now }
{
    let mut at = 0;
    let mut rest = text;
    while let [first, others @ ..] = rest {
        if *first == b'\n' {
            return at;
        }
        at += 1;
        rest = others;
    }
    at
}

/// How many names a text has, and whether each of them may be the name of an agent.
#[tactic(auto, using(crate::proofs::Lines::counts_on, crate::proofs::Lines::names_on, crate::proofs::Lines::counts_last, crate::proofs::Lines::names_last))]
pub(crate) fn names_in(text: &[u8]) -> (usize, bool)
    ensures count { result.0 ≡ length (split text.now) }
    ensures each { result.1 ≡ are_names text.now }
{
    let mut count = 1;
    let mut each = true;
    let mut rest = text;
    loop {
        let end = line_end(rest);
        let (name, _) = rest.split_at(end);
        each = each & is_name(name);
        if end == rest.len() {
            return (count, each);
        }
        let (_, others) = rest.split_at(end + 1);
        count += 1;
        rest = others;
    }
}

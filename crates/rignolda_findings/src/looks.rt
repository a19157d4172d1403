//! What the bytes of a job seem to be, before they are read.

/// Among how many of the first bytes of a job the names of its members are looked for.
const LOOKED_AT: usize = 65_536;

/// Whether these bytes seem to be those of a link job. No fact rests on it: it decides alone which
/// reader off the text is tried, since the name of a member may be written otherwise, and it may be
/// there and name no member.
pub fn seems_a_link_job(bytes: &[u8]) -> bool {
    has_text(bytes, b"\"events\"") && !has_text(bytes, b"\"tree\"")
}

/// Whether these bytes seem to have steps, in the same way.
pub fn seems_to_have_steps(bytes: &[u8]) -> bool {
    has_text(bytes, b"\"steps\"")
}

/// Whether a text in quotes begins among the first of these bytes.
fn has_text(bytes: &[u8], text: &[u8]) -> bool {
    let end = if bytes.len() < LOOKED_AT {
        bytes.len()
    } else {
        LOOKED_AT
    };
    for place in 0..end {
        // (mostly the first byte tells)
        if bytes[place] == b'"' && bytes[place..].starts_with(text) {
            return true;
        }
    }
    false
}

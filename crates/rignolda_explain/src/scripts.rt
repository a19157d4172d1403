//! What is wrong with scripts.

use crate::links::place_of_link;
use rignolda_findings::{Known, Notes, Piece, Place, look_at_members, look_at_whole};
use serde_json::Value;
use stab_job::JobFault;
use stab_json::pair;
use stab_script::ScriptFault;
use stab_tree::Tree;
use std::alloc::AllocError;

/// The most acts that a list of a script may have.
const MAX_ACTS: u64 = 100_000;

/// The largest rate.
const MAX_RATE: u64 = 1000;

/// What a script is.
const SCRIPT: &str = "a script is null, an object of texts of letters, or one with a \"seed\"";

/// What a list of acts for what is sent is.
const OUT: &str = "the acts for what is sent are a text of the letters P, D and E";

/// What a list of acts for what is received is.
const IN: &str = "the acts for what is received are a text of the letters T and K";

/// What a seed is.
const SEED: &str = "a seed is a list of two whole numbers, the state and the stream";

/// What the length of a drawn script is.
const LENGTH: &str = "the length of a drawn script is a whole number up to 100000";

/// What the rate of losses is.
const LOSS: &str = "the loss is a whole number up to 1000, how many of a thousand are dropped";

/// What the rate of repetitions is.
const REPEAT: &str = "the repeat is a whole number up to 1000, how many of a thousand are kept";

/// The members of a script that is written out.
const WRITTEN_MEMBERS: Known = Known {
    what: "a script",
    names: &["frames_out", "frames_in", "acks_out", "acks_in", "seed"],
    idle: &["length", "loss", "repeat"],
    reason: "without a \"seed\"",
};

/// The members of a script that is drawn.
const DRAWN_MEMBERS: Known = Known {
    what: "a drawn script",
    names: &["seed", "length", "loss", "repeat"],
    idle: &["frames_out", "frames_in", "acks_out", "acks_in"],
    reason: "beside a \"seed\"",
};

/// The lists of a script that is written out, the letters of each, and what it is.
const WRITTEN: [(&str, &str, &str); 4] = [
    ("frames_out", "PDE", OUT),
    ("frames_in", "TK", IN),
    ("acks_out", "PDE", OUT),
    ("acks_in", "TK", IN),
];

/// The numbers of a script that is drawn, but for its seed, and what each is.
const DRAWN: [(&str, &str); 3] = [("length", LENGTH), ("loss", LOSS), ("repeat", REPEAT)];

/// Looks at the shape of a script.
pub(crate) fn look_at_script(
    notes: &mut Notes,
    place: Place<'_>,
    script: &Value,
) -> Result<(), AllocError> {
    match script {
        Value::Null => Ok(()),
        Value::Object(_) => match script.get("seed") {
            Some(seed) => look_at_draw(notes, place, seed, script),
            None => look_at_lists(notes, place, script),
        },
        _ => notes.wrong(&place, script, SCRIPT),
    }
}

/// Looks at the shape of a drawn script.
fn look_at_draw(
    notes: &mut Notes,
    place: Place<'_>,
    seed: &Value,
    script: &Value,
) -> Result<(), AllocError> {
    if !is_seed(seed) {
        notes.wrong(&place.part("seed"), seed, SEED)?;
    }
    for (name, want) in DRAWN {
        look_at_whole(notes, &place.part(name), script.get(name), want)?;
    }
    Ok(())
}

/// Whether a value is a list of two whole numbers.
fn is_seed(seed: &Value) -> bool {
    match pair(seed) {
        Some((state, stream)) => state.is_u64() && stream.is_u64(),
        None => false,
    }
}

/// Looks at the shape of a script that is written out.
fn look_at_lists(notes: &mut Notes, place: Place<'_>, script: &Value) -> Result<(), AllocError> {
    for (name, letters, want) in WRITTEN {
        let acts = script.get(name);
        look_at_letters(notes, place.part(name), acts, (letters.as_bytes(), want))?;
    }
    Ok(())
}

/// Looks at a list of acts: these are its letters, and what it is.
fn look_at_letters(
    notes: &mut Notes,
    place: Place<'_>,
    acts: Option<&Value>,
    want: (&[u8], &'static str),
) -> Result<(), AllocError> {
    let Some(acts) = acts else {
        return Ok(());
    };
    let Some(text) = acts.as_str() else {
        return notes.wrong(&place, acts, want.1);
    };
    match wrong_letter(text.as_bytes(), want.0) {
        Some(at) => notes.wrong(&place.item(at), acts, want.1),
        None => Ok(()),
    }
}

/// The place of the first letter that is not one of these.
fn wrong_letter(text: &[u8], letters: &[u8]) -> Option<usize> {
    for (at, letter) in text.iter().enumerate() {
        if !letters.contains(letter) {
            return Some(at);
        }
    }
    None
}

/// Looks at the lengths and the rates of the scripts.
pub(crate) fn look_at_made_scripts(
    notes: &mut Notes,
    scripts: Option<&Value>,
    tree: &Tree,
) -> Result<(), AllocError> {
    let Some(Value::Array(scripts)) = scripts else {
        return Ok(());
    };
    for (i, script) in scripts.iter().enumerate() {
        look_at_made(notes, place_of_link("scripts", i, tree), script)?;
    }
    Ok(())
}

/// Looks at the lengths and the rates of a script.
fn look_at_made(notes: &mut Notes, place: Place<'_>, script: &Value) -> Result<(), AllocError> {
    if script.get("seed").is_some() {
        look_at_length(notes, place.part("length"), whole_at(script, "length"))?;
        look_at_rate(notes, place.part("loss"), whole_at(script, "loss"), LOSS)?;
        return look_at_rate(
            notes,
            place.part("repeat"),
            whole_at(script, "repeat"),
            REPEAT,
        );
    }
    for (name, _, _) in WRITTEN {
        look_at_length(notes, place.part(name), length_at(script, name))?;
    }
    Ok(())
}

/// The whole number that a member is.
fn whole_at(script: &Value, member: &str) -> Option<u64> {
    script.get(member)?.as_u64()
}

/// The length of the text that a member is.
fn length_at(script: &Value, member: &str) -> Option<u64> {
    Some(script.get(member)?.as_str()?.len() as u64)
}

/// Looks whether a list has too many acts.
fn look_at_length(
    notes: &mut Notes,
    place: Place<'_>,
    length: Option<u64>,
) -> Result<(), AllocError> {
    match length {
        Some(length) if length > MAX_ACTS => notes.refuse(
            JobFault::Script(ScriptFault::TooLong),
            &place,
            &[
                Piece::Number(length),
                Piece::Words(" acts are too many; at most 100000 are allowed"),
            ],
        ),
        _ => Ok(()),
    }
}

/// Looks whether a rate is too large.
fn look_at_rate(
    notes: &mut Notes,
    place: Place<'_>,
    rate: Option<u64>,
    want: &str,
) -> Result<(), AllocError> {
    match rate {
        Some(rate) if rate > MAX_RATE => notes.refuse(
            JobFault::Script(ScriptFault::RateOutOfRange),
            &place,
            &[Piece::Number(rate), Piece::Words("; "), Piece::Words(want)],
        ),
        _ => Ok(()),
    }
}

/// Looks for members of a script that are not known.
pub(crate) fn look_at_script_members(
    notes: &mut Notes,
    place: Place<'_>,
    script: &Value,
) -> Result<(), AllocError> {
    if script.get("seed").is_some() {
        look_at_members(notes, place, script, DRAWN_MEMBERS)
    } else {
        look_at_members(notes, place, script, WRITTEN_MEMBERS)
    }
}

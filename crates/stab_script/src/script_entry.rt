ghost use Rattle.std.specs.Prelude.{◌≡◌, ◌≢◌, ℕ, Option, codes, true, Ok, Err, MatchResult, IfOk};
ghost use Rattle.std.specs.Prelude.{OnErr};
ghost use Rattle.serde_json.specs.Find.{get};
ghost use Rattle.serde_json.specs.View.{view};
ghost use Rattle.stab_script.specs.MadeScripts.{made, takes_memory, script};
ghost use Rattle.stab_script.specs.ScriptEntries.{out_letter, in_letter, letters};
ghost use Rattle.stab_script.specs.ScriptEntries.{letters_or_absent, lists, draw, script_entry};
ghost use Rattle.stab_script.specs.ScriptEntries.{is_object};

use crate::fault::PartFault;
use serde_json::Value;
use stab_acts::{InAct, OutAct, Script, ScriptFault};
use stab_frames::Sequence;
use stab_json::{Entry, pair, u16_member, u32_member};
use std::alloc::{AllocError, Global};

/// What an entry of a job's scripts says. Its acts are not counted and its numbers not checked
/// before [`make`](ScriptEntry::make).
#[derive(Debug, Drop)]
pub enum ScriptEntry {
    /// The acts that its letters name.
    Lists {
        frames_out: Sequence<OutAct>,
        frames_in: Sequence<InAct>,
        acks_out: Sequence<OutAct>,
        acks_in: Sequence<InAct>,
    },
    /// The numbers of a draw; one too large for its place is the largest there.
    Draw {
        state: u64,
        stream: u64,
        len: u32,
        loss: u16,
        repeat: u16,
    },
}

impl<'v> Entry<'v> for ScriptEntry {
    type Read = ScriptEntry;

    ghost meaning = { script_entry };

    fn read(alloc: Global, value: &'v Value) -> Result<Option<ScriptEntry>, AllocError> {
        read_entry(alloc, value)
    }
}

impl ScriptEntry {
    /// The script of this entry, or the first check that its acts or its numbers fail. Only a draw
    /// takes memory.
    pub fn make(self, alloc: Global) -> Result<Script, ScriptFault>
        ensures script { MatchResult result
            (λ script. made self ≡ Ok script)
            (λ fault. fault ≢ ScriptFault.Memory → made self ≡ Err fault) }
        ensures memory { result ≡ Err ScriptFault.Memory → takes_memory self ≡ true }
    {
        match self {
            ScriptEntry::Lists {
                frames_out,
                frames_in,
                acks_out,
                acks_in,
            } => Script::new(
                frames_out.into_vec(),
                frames_in.into_vec(),
                acks_out.into_vec(),
                acks_in.into_vec(),
            ),
            ScriptEntry::Draw {
                state,
                stream,
                len,
                loss,
                repeat,
            } => Script::from_seed(alloc, state, stream, len, loss, repeat),
        }
    }
}

/// The script that an entry of a job's scripts means, or the first check that it fails. Only an
/// object takes memory.
pub fn read_script(alloc: Global, value: &Value) -> Result<Script, PartFault>
    ensures script { MatchResult result
        (λ made. script (view value.now) ≡ Ok made)
        (λ fault. fault ≢ PartFault.Memory → script (view value.now) ≡ Err fault) }
    ensures memory { result ≡ Err PartFault.Memory → is_object (view value.now) ≡ true }
{
    let Some(entry) = read_entry(alloc, value)? else {
        return Err(PartFault::Shape);
    };
    match entry.make(alloc) {
        Ok(script) => Ok(script),
        Err(ScriptFault::Memory) => Err(PartFault::Memory),
        Err(fault) => Err(PartFault::Script(fault)),
    }
}

/// What an entry of a job's scripts says, or `None` where it has another shape.
fn read_entry(alloc: Global, value: &Value) -> Result<Option<ScriptEntry>, AllocError>
    ensures entry { IfOk result (λ entry. entry ≡ script_entry (view value.now)) }
    ensures memory { OnErr result (is_object (view value.now) ≡ true) }
{
    match value {
        Value::Null => Ok(Some(ScriptEntry::Lists {
            frames_out: Sequence::new(alloc),
            frames_in: Sequence::new(alloc),
            acks_out: Sequence::new(alloc),
            acks_in: Sequence::new(alloc),
        })),
        Value::Object(_) => match value.get("seed") {
            Some(seed) => Ok(read_draw(seed, value)),
            None => read_lists(alloc, value),
        },
        _ => Ok(None),
    }
}

/// The numbers of a draw of an object with a seed.
fn read_draw(seed: &Value, value: &Value) -> Option<ScriptEntry>
    ensures { result ≡ draw (view seed.now) (view value.now) }
{
    let (state, stream) = pair(seed)?;
    Some(ScriptEntry::Draw {
        state: state.as_u64()?,
        stream: stream.as_u64()?,
        len: u32_member(value, "length")?,
        loss: u16_member(value, "loss")?,
        repeat: u16_member(value, "repeat")?,
    })
}

/// The four lists of an object whose members are texts of letters.
fn read_lists(alloc: Global, value: &Value) -> Result<Option<ScriptEntry>, AllocError>
    ensures { IfOk result (λ entry. entry ≡ lists (view value.now)) }
{
    let Some(frames_out) = letters_member(alloc, value, "frames_out")? else {
        return Ok(None);
    };
    let Some(frames_in) = letters_member(alloc, value, "frames_in")? else {
        return Ok(None);
    };
    let Some(acks_out) = letters_member(alloc, value, "acks_out")? else {
        return Ok(None);
    };
    let Some(acks_in) = letters_member(alloc, value, "acks_in")? else {
        return Ok(None);
    };
    Ok(Some(ScriptEntry::Lists {
        frames_out,
        frames_in,
        acks_out,
        acks_in,
    }))
}

/// The acts of the text that a member of an object is: no acts where it is absent, `None` where it
/// is no text or has a letter that names no act.
fn letters_member<A: Lettered>(
    alloc: Global,
    value: &Value,
    name: &str,
) -> Result<Option<Sequence<A>>, AllocError>
    ensures { IfOk result (λ acts. acts
        ≡ letters_or_absent A.of_letter (get name.now (view value.now))) }
{
    let Some(text) = value.get(name) else {
        return Ok(Some(Sequence::new(alloc)));
    };
    match text.as_str() {
        Some(text) => read_letters(alloc, text.as_bytes()),
        None => Ok(None),
    }
}

/// The acts of these letters, or `None` where one of them names none.
fn read_letters<A: Lettered>(alloc: Global, text: &[u8]) -> Result<Option<Sequence<A>>, AllocError>
    ensures { IfOk result (λ acts. acts ≡ letters A.of_letter text.now) }
{
    let mut acts = Sequence::with_capacity(alloc, text.len())?;
    for letter in text {
        let Some(act) = A::of_letter(*letter) else {
            return Ok(None);
        };
        acts.push(act)?;
    }
    Ok(Some(acts))
}

/// An act that a letter names.
trait Lettered: Sized + Drop {
    // The act of a letter, by its code.
    ghost of_letter: { ℕ → Option Self };

    /// The act of a letter, by its code.
    fn of_letter(letter: u8) -> Option<Self>
        ensures { result ≡ of_letter letter };
}

/// The letters of sent frames and acknowledgements with their acts, each letter at its code modulo
/// 8. Where no letter has a place, there is one of another place, which is never the one that is
/// looked for.
static OUT_LETTERS: [(u8, OutAct); 8] = [
    (b'P', OutAct::Pass),
    (b'P', OutAct::Pass),
    (b'P', OutAct::Pass),
    (b'P', OutAct::Pass),
    (b'D', OutAct::Drop),
    (b'E', OutAct::Evict),
    (b'P', OutAct::Pass),
    (b'P', OutAct::Pass),
];

/// The letters of what is received with their acts, each letter at its code modulo 2.
static IN_LETTERS: [(u8, InAct); 2] = [(b'T', InAct::Take), (b'K', InAct::Keep)];

impl Lettered for OutAct {
    ghost of_letter = { out_letter };

    fn of_letter(letter: u8) -> Option<OutAct> {
        let (code, act) = OUT_LETTERS[usize::from(letter % 8)];
        if code == letter { Some(act) } else { None }
    }
}

impl Lettered for InAct {
    ghost of_letter = { in_letter };

    fn of_letter(letter: u8) -> Option<InAct> {
        let (code, act) = IN_LETTERS[usize::from(letter % 2)];
        if code == letter { Some(act) } else { None }
    }
}

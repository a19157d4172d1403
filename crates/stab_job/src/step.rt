ghost use Rattle.std.specs.Prelude.{◌≡◌, ◌∷◌, ◌<◌, ℕ, List, length, Some, IfOk, IfSome};
ghost use Rattle.json.specs.Token as token;
ghost use Rattle.serde_json.specs.Data.{number as number_data, unsigned};
ghost use Rattle.stab_json.specs.Values.{list_of};
ghost use Rattle.stab_script.specs.Events.{plain_act, loss_act};
ghost use Rattle.stab_job.specs.ScheduleEntries.{NamedAct, named_act};
ghost use Rattle.stab_job.specs.Steps.{AreKept};
ghost use Rattle.stab_script.specs.Members.{in_member};
ghost use Rattle.stab_script.specs.Standing.{Means, MeansWithin, EntriesMean};

use crate::stream_schedule::Schedule;
use json::{Reader, Token};
use stab_core::LinkAct;
use stab_script::whole_of;
use std::alloc::{AllocError, Global};
use std::marker::Model;

/// A step of a schedule: an act on the link into the node of a name, which the text lends.
#[derive(Drop)]
pub(crate) struct Step<'t> {
    pub(crate) child: &'t str,
    pub(crate) act: LinkAct,
}

impl<'t> Model for Step<'t> {
    ghost use Rattle.stab_job.specs.ScheduleEntries.{NamedAct};

    ghost Value = { NamedAct };

    ghost view = { λ s. record { child = s.child.now; act = s.act } };
}

/// The act that a word names by itself. It is compared with the words of its length alone.
fn act_of_word(word: &str) -> Option<LinkAct>
    ensures { IfSome result (λ act. plain_act word.now ≡ Some act) }
{
    match word.len() {
        5 => match word {
            "offer" => Some(LinkAct::Offer),
            "close" => Some(LinkAct::Close),
            _ => None,
        },
        8 => match word {
            "send_ack" => Some(LinkAct::SendAck),
            "recv_ack" => Some(LinkAct::RecvAck { keep: false }),
            _ => None,
        },
        10 => match word {
            "send_frame" => Some(LinkAct::SendFrame),
            "recv_frame" => Some(LinkAct::RecvFrame { keep: false }),
            _ => None,
        },
        _ => match word {
            "recv_ack_keep" => Some(LinkAct::RecvAck { keep: true }),
            "recv_frame_keep" => Some(LinkAct::RecvFrame { keep: true }),
            _ => None,
        },
    }
}

/// The loss that a word names, of what is at a place.
fn loss_of_word(word: &str, place: u64) -> Option<LinkAct>
    ensures { IfSome result (λ act. loss_act word.now (number_data (unsigned place)) ≡ Some act) }
{
    match word {
        "lose_frame" if place <= 65535 => Some(LinkAct::LoseFrame(place as u16)),
        "lose_ack" if place <= 65535 => Some(LinkAct::LoseAck(place as u16)),
        _ => None,
    }
}

/// The act of a step of three entries, of which a place is to come.
fn next_loss(reader: &mut Reader<'_>, word: &str) -> Option<LinkAct>
    ensures value { IfSome result (λ act. (child : List ℕ) (depth : ℕ) → 0 < depth
        → MeansWithin depth named_act
        (token.begin_array ∷ token.string child ∷ token.string word.now ∷ reader.old)
        (record { child = child; act = act }) reader.new) }
    ensures shorter { IfSome result (λ _. length reader.new < length reader.old) }
{
    let Token::Number(text) = reader.next()? else {
        return None;
    };
    let place = whole_of(text)?;
    let act = loss_of_word(word, place)?;
    if reader.take_end_array() {
        Some(act)
    } else {
        None
    }
}

/// The act of a step, whose name and word were taken.
pub fn next_act(reader: &mut Reader<'_>, word: &str) -> Option<LinkAct>
    ensures value { IfSome result (λ act. (child : List ℕ) (depth : ℕ) → 0 < depth
        → MeansWithin depth named_act
        (token.begin_array ∷ token.string child ∷ token.string word.now ∷ reader.old)
        (record { child = child; act = act }) reader.new) }
    ensures shorter { IfSome result (λ _. length reader.new < length reader.old) }
{
    if reader.take_end_array() {
        act_of_word(word)
    } else {
        next_loss(reader, word)
    }
}

/// The step that comes next: a list of a name and a word, and for the word of a loss also a place.
fn next_step<'t>(reader: &mut Reader<'t>) -> Option<Step<'t>>
    ensures value { IfSome result (λ step. Means named_act reader.old step reader.new) }
    ensures shorter { IfSome result (λ _. length reader.new < length reader.old) }
{
    let Token::BeginArray = reader.next()? else {
        return None;
    };
    let Token::String(child) = reader.next()? else {
        return None;
    };
    let Token::String(word) = reader.next()? else {
        return None;
    };
    let act = next_act(reader, word)?;
    Some(Step { child, act })
}

/// The steps of a list, whose opening bracket was taken; they are kept, or only counted.
fn read_entries(
    alloc: Global,
    reader: &mut Reader<'_>,
    keeps: bool,
) -> Result<Option<Schedule>, AllocError>
    ensures value { IfOk result (λ found. IfSome found (λ steps. (acts : List NamedAct)
        × AreKept keeps steps acts × ((depth : ℕ) → 0 < depth
        → EntriesMean depth named_act (length reader.old) reader.old acts reader.new))) }
    ensures shorter { IfOk result (λ found. IfSome found (λ _.
        length reader.new < length reader.old)) }
{
    let mut steps = Schedule::new(alloc, keeps);
    'entries: while !reader.take_end_array() {
        let Some(step) = next_step(reader) else {
            return Ok(None);
        };
        if !steps.push(alloc, step)? {
            return Ok(None);
        }
    }
    Ok(Some(steps))
}

/// The schedule that comes next, where each entry of it is a step; the steps are kept, or only
/// counted.
pub(crate) fn read_steps(
    alloc: Global,
    reader: &mut Reader<'_>,
    keeps: bool,
) -> Result<Option<Schedule>, AllocError>
    ensures value { IfOk result (λ found. IfSome found (λ steps. (acts : List NamedAct)
        × AreKept keeps steps acts
        × MeansWithin in_member (list_of named_act) reader.old acts reader.new)) }
    ensures shorter { IfOk result (λ found. IfSome found (λ _.
        length reader.new < length reader.old)) }
{
    let Some(Token::BeginArray) = reader.next() else {
        return Ok(None);
    };
    let Some(steps) = read_entries(alloc, reader, keeps)? else {
        return Ok(None);
    };
    Ok(Some(steps))
}

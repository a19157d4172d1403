ghost use Rattle.std.specs.Prelude.{◌≡◌, ◌∷◌, ◌<◌, List, length, IfSome};
ghost use Rattle.json.specs.Token as token;
ghost use Rattle.serde_json.specs.Data.{Data, number as number_data, unsigned, string as string_data};
ghost use Rattle.stab_script.specs.Events.{event, numbered_event};
ghost use Rattle.stab_script.specs.Plain.{IsEvent, IsRead};
ghost use Rattle.stab_script.specs.Standing.{StandsInLists};

use crate::events::plain_act;
use crate::number::{next_whole, whole_of};
use json::{Reader, Token};
use stab_core::Event;

/// The event that a word is by itself, where it is one. It is compared with the words of its length
/// alone.
fn event_of_its_length(word: &str) -> Option<Event>
    ensures { IfSome result (λ its_event. event (string_data word.now) ≡ Some its_event) }
{
    match word.len() {
        8 => match word {
            "send_ack" => Some(Event::SendAck),
            "recv_ack" => Some(Event::RecvAck { keep: false }),
            _ => None,
        },
        10 => match word {
            "send_frame" => Some(Event::SendFrame),
            "recv_frame" => Some(Event::RecvFrame { keep: false }),
            _ => None,
        },
        _ => match word {
            "recv_ack_keep" => Some(Event::RecvAck { keep: true }),
            "recv_frame_keep" => Some(Event::RecvFrame { keep: true }),
            "close" => Some(Event::Close),
            _ => None,
        },
    }
}

/// The event that a word is by itself, or `None` where it is none.
fn word_event(word: &str) -> Option<Event>
    ensures { result ≡ event (string_data word.now) }
{
    match event_of_its_length(word) {
        Some(event) => Some(event),
        None => plain_act(word)?.event(None),
    }
}

/// The event of a word and a number: the offer of an item, or a loss at a place.
fn numbered_event(word: &str, number: u64) -> Option<Event>
    ensures { result ≡ numbered_event word.now (number_data (unsigned number)) }
{
    match word {
        "offer" => {
            if number <= 4_294_967_295 {
                Some(Event::Offer(number as u32))
            } else {
                None
            }
        }
        "lose_frame" => {
            if number <= 65535 {
                Some(Event::LoseFrame(number as u16))
            } else {
                None
            }
        }
        "lose_ack" => {
            if number <= 65535 {
                Some(Event::LoseAck(number as u16))
            } else {
                None
            }
        }
        _ => None,
    }
}

/// What a list of a word and a whole number means as an event, whose opening bracket was taken.
fn listed_event(reader: &mut Reader<'_>) -> Option<Option<Event>>
    ensures value { IfSome result (λ found. (d : Data)
        × (StandsInLists (token.begin_array ∷ reader.old) d reader.new) × (event d ≡ found)) }
    ensures shorter { IfSome result (λ _. length reader.new < length reader.old) }
    ensures plain { (rest : List token.Token) → IsEvent (token.begin_array ∷ reader.old) rest
        → IsRead result reader.new rest }
{
    let Token::String(word) = reader.next()? else {
        return None;
    };
    let number = next_whole(reader)?;
    if reader.take_end_array() {
        Some(numbered_event(word, number))
    } else {
        None
    }
}

/// What the value that comes next means as an event: `Some(None)` where it means none, and `None`
/// where it has another form than a word, a list of a word and a whole number, or a whole number,
/// truth value or null, which is no event.
#[inline(always)]
pub(crate) fn next_event(reader: &mut Reader<'_>) -> Option<Option<Event>>
    ensures value { IfSome result (λ found. (d : Data)
        × (StandsInLists reader.old d reader.new) × (event d ≡ found)) }
    ensures shorter { IfSome result (λ _. length reader.new < length reader.old) }
    ensures plain { (rest : List token.Token) → IsEvent reader.old rest
        → IsRead result reader.new rest }
{
    match reader.next()? {
        Token::String(word) => Some(word_event(word)),
        Token::BeginArray => listed_event(reader),
        Token::Number(text) => match whole_of(text) {
            Some(_) => Some(None),
            None => None,
        },
        Token::Bool(_) => Some(None),
        Token::Null => Some(None),
        _ => None,
    }
}

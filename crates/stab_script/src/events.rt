ghost use Rattle.std.specs.Prelude.{◌≡◌};
ghost use Rattle.serde_json.specs.View.{view};
ghost use Rattle.stab_script.specs.Events.{plain_act, loss_act, numbered_event, event};

use serde_json::Value;
use stab_core::{Event, LinkAct};
use stab_json::{item, label, pair};

/// The act that a word names by itself.
pub fn plain_act(word: &str) -> Option<LinkAct>
    ensures { result ≡ plain_act word.now }
{
    match word {
        "offer" => Some(LinkAct::Offer),
        "send_frame" => Some(LinkAct::SendFrame),
        "recv_frame" => Some(LinkAct::RecvFrame { keep: false }),
        "recv_frame_keep" => Some(LinkAct::RecvFrame { keep: true }),
        "send_ack" => Some(LinkAct::SendAck),
        "recv_ack" => Some(LinkAct::RecvAck { keep: false }),
        "recv_ack_keep" => Some(LinkAct::RecvAck { keep: true }),
        "close" => Some(LinkAct::Close),
        _ => None,
    }
}

/// The loss that a word names, of what is at a place.
pub fn loss_act(word: &str, place: &Value) -> Option<LinkAct>
    ensures { result ≡ loss_act word.now (view place.now) }
{
    match word {
        "lose_frame" => Some(LinkAct::LoseFrame(label(place)?)),
        "lose_ack" => Some(LinkAct::LoseAck(label(place)?)),
        _ => None,
    }
}

/// The event of a word and a number: the offer of an item, or a loss at a place.
fn numbered_event(word: &str, item_or_place: &Value) -> Option<Event>
    ensures { result ≡ numbered_event word.now (view item_or_place.now) }
{
    if word == "offer" {
        LinkAct::Offer.event(item(item_or_place))
    } else {
        loss_act(word, item_or_place)?.event(None)
    }
}

/// The event that a value means: a word alone, or a list of a word and a number.
pub(crate) fn event(value: &Value) -> Option<Event>
    ensures { result ≡ event (view value.now) }
{
    match value {
        Value::String(word) => plain_act(word.as_str())?.event(None),
        Value::Array(_) => {
            let (word, number) = pair(value)?;
            numbered_event(word.as_str()?, number)
        }
        _ => None,
    }
}

//! What is wrong with the steps of a scenario, which no reader of `stab` looks at.

ghost use Rattle.std.specs.Prelude.{◌≡◌, ◌<◌, None, Some, IsOk, OnOk, codes, length};
ghost use Rattle.rignolda_findings.specs.Gathered.{Adds, most_findings};
ghost use Rattle.serde_json.specs.Data.{Data};
ghost use Rattle.serde_json.specs.Find.{as_array, get};
ghost use Rattle.serde_json.specs.View.{view};

use crate::changes::look_at_number_of_changes;
use crate::found::{add_found, look_at_list};
use crate::names::{Whole, look_at_link, look_at_name};
use crate::strikes::{is_label, look_at_strike};
use rignolda_findings::{Matter, Notes, Piece, Place, add_word, is_loss};
use serde_json::Value;
use stab_json::label;
use stab_script::plain_act;
use stab_tree::Tree;
use std::alloc::AllocError;

/// What the steps are.
const STEPS: &str = "the steps are a list of steps";

/// What a step is.
const STEP: &str =
    "a step is an act as in a schedule, or [\"publish\", items], [\"restart\", node, \
items], [\"strike\", node, start], [\"rounds\", count] or [\"reading_rounds\", count]";

/// What goes with a list of items in a step of two.
const PUBLISH: &str = "the word before a list of items is \"publish\"";

/// What goes with a list of items in a step of three.
const RESTART: &str = "the word before a node and a list of items is \"restart\"";

/// What goes with a start.
const STRIKE: &str = "the word before a node and a start is \"strike\"";

/// What goes with a number.
const ROUNDS: &str = "the word before a number is \"rounds\" or \"reading_rounds\"";

/// How many rounds there are.
const COUNT: &str = "how many rounds there are is a whole number from 0 to 65535";

/// What an offer is.
const OFFER: &str = "an offer in a step names no item, since the parent offers its next one";

/// What a loss is.
const LOSS: &str = "a loss is written with its place, a whole number from 0 to 65535";

/// What an act without a place is.
const PLAIN: &str = "this act has no place";

/// Looks at the steps of a job, where it has some.
pub fn look_at_steps(notes: &mut Notes, job: &Value, tree: &Tree) -> Result<(), AllocError>
    ensures absent { OnOk result (get (codes "steps") (view job.now) ≡ None
        → notes.new ≡ notes.old) }
    ensures no_memory { get (codes "steps") (view job.now) ≡ None → IsOk result }
    ensures no_list { OnOk result ((steps : Data)
        → get (codes "steps") (view job.now) ≡ Some steps → as_array steps ≡ None
        → length notes.old.findings < most_findings
        → Adds Matter.Command notes.old notes.new) }
{
    let Some(steps) = job.get("steps") else {
        return Ok(());
    };
    let Value::Array(steps) = steps else {
        return add_found(notes, Place::member("steps"), steps, STEPS);
    };
    let whole = Whole { job, tree };
    look_at_each(notes, whole, steps.as_slice())?;
    look_at_number_of_changes(notes, whole, steps.as_slice())
}

/// Looks at each step.
fn look_at_each(notes: &mut Notes, whole: Whole<'_>, steps: &[Value]) -> Result<(), AllocError> {
    for (i, step) in steps.iter().enumerate() {
        if notes.is_done() {
            break;
        }
        look_at_one(notes, whole, Place::member("steps").entry(i), step)?;
    }
    Ok(())
}

/// Looks at one step.
fn look_at_one(
    notes: &mut Notes,
    whole: Whole<'_>,
    place: Place<'_>,
    step: &Value,
) -> Result<(), AllocError> {
    let Some(parts) = step.as_array() else {
        return add_found(notes, place, step, STEP);
    };
    match parts.as_slice() {
        [word, Value::Array(items)] => {
            look_at_word(notes, place, word, "publish", PUBLISH)?;
            look_at_list(notes, place.item(1), items.as_slice())
        }
        [word, Value::Number(_)] => look_at_rounds(notes, place, word, &parts[1]),
        [name, word] => look_at_act(notes, whole, place, (name, word, None)),
        [word, name, Value::Array(items)] => {
            look_at_word(notes, place, word, "restart", RESTART)?;
            look_at_name(notes, whole, place.item(1), name)?;
            look_at_list(notes, place.item(2), items.as_slice())
        }
        [word, name, Value::Object(_)] => {
            look_at_word(notes, place, word, "strike", STRIKE)?;
            look_at_strike(notes, whole, place, (name, &parts[2]))
        }
        [name, word, number] => look_at_act(notes, whole, place, (name, word, Some(number))),
        _ => add_found(notes, place, step, STEP),
    }
}

/// Looks whether a step begins with this word.
fn look_at_word(
    notes: &mut Notes,
    place: Place<'_>,
    word: &Value,
    wanted: &str,
    want: &str,
) -> Result<(), AllocError> {
    if word.as_str() == Some(wanted) {
        return Ok(());
    }
    add_found(notes, place.item(0), word, want)
}

/// Looks at a step of rounds.
fn look_at_rounds(
    notes: &mut Notes,
    place: Place<'_>,
    word: &Value,
    count: &Value,
) -> Result<(), AllocError> {
    if word.as_str() != Some("rounds") && word.as_str() != Some("reading_rounds") {
        add_found(notes, place.item(0), word, ROUNDS)?;
    }
    if label(count).is_none() {
        add_found(notes, place.item(1), count, COUNT)?;
    }
    Ok(())
}

/// Looks at an act: the name of a node, a word, and the place of a loss.
fn look_at_act(
    notes: &mut Notes,
    whole: Whole<'_>,
    place: Place<'_>,
    act: (&Value, &Value, Option<&Value>),
) -> Result<(), AllocError> {
    let (name, word, number) = act;
    let Some(word) = word.as_str() else {
        return add_found(notes, place.item(1), word, STEP);
    };
    look_at_act_word(notes, place, word, number)?;
    look_at_link(notes, whole, place.item(0), name)?;
    Ok(())
}

/// Looks at the word of an act, and the place of a loss.
fn look_at_act_word(
    notes: &mut Notes,
    place: Place<'_>,
    word: &str,
    number: Option<&Value>,
) -> Result<(), AllocError> {
    let want = if is_loss(word) {
        if is_label(number) {
            return Ok(());
        }
        LOSS
    } else if plain_act(word).is_none() {
        return add_word(notes, Matter::Command, &place.item(1), word);
    } else if number.is_none() {
        return Ok(());
    } else if word == "offer" {
        OFFER
    } else {
        PLAIN
    };
    notes.add(Matter::Command, &place, &[Piece::Words(want)])
}

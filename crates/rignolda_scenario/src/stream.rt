//! Steps that are read off the tokens of a text, without a value. What ends a step is told by its
//! first word, so an act on a node that is called as such a word is read by its value.

ghost use Rattle.std.specs.Prelude.{◌∷◌, ◌<◌, ℕ, length, IfOk, IfSome};
ghost use Rattle.json.specs.Token as token;
ghost use Rattle.serde_json.specs.Data.{string};
ghost use Rattle.stab_script.specs.Standing.{EntriesMean, MeansWithin};
ghost use Rattle.rignolda_scenario.specs.NamedSteps.{named_of, named_of_three, named_of_two};
ghost use Rattle.rignolda_scenario.specs.NamedSteps.{named_step};

use crate::named::{NamedSteps, ReadStep};
use json::{Reader, Token};
use stab_job::{Beside, next_act};
use stab_script::{next_items, next_start, next_u16};
use std::alloc::{AllocError, Global};

/// The last value of a step of two that begins with this word.
fn last_of_two<'t>(
    alloc: Global,
    reader: &mut Reader<'t>,
    word: &str,
) -> Result<Option<ReadStep<'t>>, AllocError>
    ensures value { IfOk result (λ found. IfSome found (λ step. (depth : ℕ) → 1 < depth
        → MeansWithin depth (named_of_two (string word.now)) reader.old (named_of step)
        reader.new)) }
    ensures shorter { IfOk result (λ found. IfSome found (λ _.
        length reader.new < length reader.old)) }
{
    match word {
        "publish" => {
            let Some(items) = next_items(alloc, reader)? else {
                return Ok(None);
            };
            Ok(Some(ReadStep::Publish(items)))
        }
        "rounds" => {
            let Some(count) = next_u16(reader) else {
                return Ok(None);
            };
            Ok(Some(ReadStep::Rounds(count)))
        }
        "reading_rounds" => {
            let Some(count) = next_u16(reader) else {
                return Ok(None);
            };
            Ok(Some(ReadStep::ReadingRounds(count)))
        }
        _ => Ok(None),
    }
}

/// The last value of a step of three that begins with this word, and then has this name.
fn last_of_three<'t>(
    alloc: Global,
    reader: &mut Reader<'t>,
    word: &str,
    name: &'t str,
) -> Result<Option<ReadStep<'t>>, AllocError>
    ensures value { IfOk result (λ found. IfSome found (λ step. (depth : ℕ) → 2 < depth
        → MeansWithin depth (named_of_three (string word.now) (string name.now)) reader.old
        (named_of step) reader.new)) }
    ensures shorter { IfOk result (λ found. IfSome found (λ _.
        length reader.new < length reader.old)) }
{
    match word {
        "restart" => {
            let Some(items) = next_items(alloc, reader)? else {
                return Ok(None);
            };
            Ok(Some(ReadStep::Restart(name, items)))
        }
        "strike" => {
            let Some(start) = next_start(alloc, reader)? else {
                return Ok(None);
            };
            Ok(Some(ReadStep::Strike(name, start)))
        }
        _ => Ok(None),
    }
}

/// The step of two values that begins with this word, which was taken.
fn next_of_two<'t>(
    alloc: Global,
    word: &str,
    reader: &mut Reader<'t>,
) -> Result<Option<ReadStep<'t>>, AllocError>
    ensures value { IfOk result (λ found. IfSome found (λ step. (depth : ℕ) → 3 < depth
        → MeansWithin depth named_step (token.begin_array ∷ token.string word.now ∷ reader.old)
        (named_of step) reader.new)) }
    ensures shorter { IfOk result (λ found. IfSome found (λ _.
        length reader.new < length reader.old)) }
{
    let Some(step) = last_of_two(alloc, reader, word)? else {
        return Ok(None);
    };
    if reader.take_end_array() {
        Ok(Some(step))
    } else {
        Ok(None)
    }
}

/// The step of three values that begins with this word, which was taken.
fn next_of_three<'t>(
    alloc: Global,
    reader: &mut Reader<'t>,
    word: &str,
) -> Result<Option<ReadStep<'t>>, AllocError>
    ensures value { IfOk result (λ found. IfSome found (λ step. (depth : ℕ) → 3 < depth
        → MeansWithin depth named_step (token.begin_array ∷ token.string word.now ∷ reader.old)
        (named_of step) reader.new)) }
    ensures shorter { IfOk result (λ found. IfSome found (λ _.
        length reader.new < length reader.old)) }
{
    let Some(Token::String(name)) = reader.next() else {
        return Ok(None);
    };
    let Some(step) = last_of_three(alloc, reader, word, name)? else {
        return Ok(None);
    };
    if reader.take_end_array() {
        Ok(Some(step))
    } else {
        Ok(None)
    }
}

/// The act on the link into the node of this name, which was taken.
fn next_act_on<'t>(reader: &mut Reader<'t>, name: &'t str) -> Option<ReadStep<'t>>
    ensures value { IfSome result (λ step. (depth : ℕ) → 3 < depth
        → MeansWithin depth named_step (token.begin_array ∷ token.string name.now ∷ reader.old)
        (named_of step) reader.new) }
    ensures shorter { IfSome result (λ _. length reader.new < length reader.old) }
{
    let Token::String(word) = reader.next()? else {
        return None;
    };
    let act = next_act(reader, word)?;
    Some(ReadStep::Act(name, act))
}

/// The step that begins with this text, which was taken: the word of its kind, or the name of a
/// node.
fn step_after<'t>(
    alloc: Global,
    reader: &mut Reader<'t>,
    first: &'t str,
) -> Result<Option<ReadStep<'t>>, AllocError>
    ensures value { IfOk result (λ found. IfSome found (λ step. (depth : ℕ) → 3 < depth
        → MeansWithin depth named_step (token.begin_array ∷ token.string first.now ∷ reader.old)
        (named_of step) reader.new)) }
    ensures shorter { IfOk result (λ found. IfSome found (λ _.
        length reader.new < length reader.old)) }
{
    match first {
        "publish" | "rounds" | "reading_rounds" => next_of_two(alloc, first, reader),
        "restart" | "strike" => next_of_three(alloc, reader, first),
        _ => Ok(next_act_on(reader, first)),
    }
}

/// The step that comes next.
fn next_step<'t>(alloc: Global, reader: &mut Reader<'t>) -> Result<Option<ReadStep<'t>>, AllocError>
    ensures value { IfOk result (λ found. IfSome found (λ step. (depth : ℕ) → 3 < depth
        → MeansWithin depth named_step reader.old (named_of step) reader.new)) }
    ensures shorter { IfOk result (λ found. IfSome found (λ _.
        length reader.new < length reader.old)) }
{
    let Some(Token::BeginArray) = reader.next() else {
        return Ok(None);
    };
    let Some(Token::String(first)) = reader.next() else {
        return Ok(None);
    };
    step_after(alloc, reader, first)
}

/// The steps of a list, whose opening bracket was taken.
fn rest_of_steps(alloc: Global, reader: &mut Reader<'_>) -> Result<Option<NamedSteps>, AllocError>
    ensures value { IfOk result (λ found. IfSome found (λ steps. (depth : ℕ) → 3 < depth
        → EntriesMean depth named_step (length reader.old) reader.old steps reader.new)) }
    ensures shorter { IfOk result (λ found. IfSome found (λ _.
        length reader.new < length reader.old)) }
{
    let mut steps = NamedSteps::new(alloc);
    'steps: while !reader.take_end_array() {
        let Some(step) = next_step(alloc, reader)? else {
            return Ok(None);
        };
        if !steps.push(alloc, step)? {
            return Ok(None);
        }
    }
    Ok(Some(steps))
}

/// The steps of a scenario, as a member beside those of a job.
pub(crate) enum StepList {}

impl Beside for StepList {
    ghost use Rattle.std.specs.Prelude.{codes};
    ghost use Rattle.stab_json.specs.Values.{list_of};
    ghost use Rattle.rignolda_scenario.specs.NamedSteps.{named_step};

    type Read = NamedSteps;

    ghost its_name = { codes "steps" };

    ghost meaning = { list_of named_step };

    fn is_named(name: &str) -> bool {
        name == "steps"
    }

    fn next(alloc: Global, reader: &mut Reader<'_>) -> Result<Option<NamedSteps>, AllocError> {
        let Some(Token::BeginArray) = reader.next() else {
            return Ok(None);
        };
        let Some(steps) = rest_of_steps(alloc, reader)? else {
            return Ok(None);
        };
        Ok(Some(steps))
    }
}

//! What one value of a list of steps means.

ghost use Rattle.std.specs.Prelude.{◌≡◌, ◌≢◌, MatchResult, Ok, Err, Some, None, option_and_then};
ghost use Rattle.std.specs.Prelude.{option_map};
ghost use Rattle.serde_json.specs.View.{view, items_view};
ghost use Rattle.serde_json.specs.Find.{as_str};
ghost use Rattle.stab_json.specs.Values.{entries, item_number};
ghost use Rattle.stab_script.specs.Events.{plain_act, loss_act};
ghost use Rattle.stab_script.specs.Starts.{start};
ghost use Rattle.rignolda_scenario.specs.Entries.{act_step, is_word, link_named, node_named};
ghost use Rattle.rignolda_scenario.specs.Entries.{publish_step, restart_step, rounds_step};
ghost use Rattle.rignolda_scenario.specs.Entries.{start_fits, step_of, step_of_items};
ghost use Rattle.rignolda_scenario.specs.Entries.{step_of_three, step_of_two, strike_step};
ghost use Rattle.rignolda_scenario.specs.Entries.{two_or_three};

use crate::fault::StepFault;
use crate::finder::NodeFinder;
use crate::step::Step;
use serde_json::Value;
use stab_core::{LinkAct, Start};
use stab_frames::{Item, Params, Sequence};
use stab_json::{label, read_entries};
use stab_script::{PartFault, loss_act, plain_act, read_start};
use stab_tree::NodeId;
use stab_treecore::{Change, TreeEvent};
use std::alloc::Global;

/// Whether a value is this word.
fn is_word(value: &Value, word: &str) -> bool
    ensures { result ≡ is_word word.now (view value.now) }
{
    match value.as_str() {
        Some(its_word) => its_word == word,
        None => false,
    }
}

/// The node that a value names.
fn node_named(finder: &NodeFinder<'_>, value: &Value) -> Result<NodeId, StepFault>
    ensures { result ≡ node_named finder.now (view value.now) }
{
    match value.as_str() {
        Some(name) => finder.find(name).ok_or(StepFault::UnknownNode),
        None => Err(StepFault::Shape),
    }
}

/// The child of the link that a value names, and the place of the link.
fn link_named(finder: &NodeFinder<'_>, value: &Value) -> Result<(NodeId, u16), StepFault>
    ensures { result ≡ link_named finder.now (view value.now) }
{
    let child = node_named(finder, value)?;
    match finder.tree().link_place(child) {
        Some(place) => Ok((child, place)),
        None => Err(StepFault::Root),
    }
}

/// An act on the link that a value names, where there is an act.
fn act_step(finder: &NodeFinder<'_>, value: &Value, act: Option<LinkAct>) -> Result<Step, StepFault>
    ensures { result ≡ act_step finder.now (view value.now) act }
{
    let Some(act) = act else {
        return Err(StepFault::Shape);
    };
    let (child, _) = link_named(finder, value)?;
    Ok(Step::One(Change::Act(TreeEvent { child, act })))
}

/// The act that a value names by itself.
fn plain_of(word: &Value) -> Option<LinkAct>
    ensures { result ≡ option_and_then plain_act (as_str (view word.now)) }
{
    plain_act(word.as_str()?)
}

/// The loss that a value names, of what is at a place.
fn loss_of(word: &Value, place: &Value) -> Option<LinkAct>
    ensures { result
        ≡ option_and_then (λ its_word. loss_act its_word (view place.now))
        (as_str (view word.now)) }
{
    loss_act(word.as_str()?, place)
}

/// The items that these values are.
fn items_of(alloc: Global, values: &[Value]) -> Result<Sequence<Item>, StepFault>
    ensures { MatchResult result
        (λ items. entries item_number (items_view values.now) ≡ Some items)
        (λ fault. fault ≢ StepFault.Memory
        → (fault ≡ StepFault.Shape) × (entries item_number (items_view values.now) ≡ None)) }
{
    match read_entries::<Item>(alloc, values)? {
        Some(items) => Ok(Sequence::from_vec(items)),
        None => Err(StepFault::Shape),
    }
}

/// Items that are published.
fn publish_step(alloc: Global, word: &Value, values: &[Value]) -> Result<Step, StepFault>
    ensures { MatchResult result
        (λ step. publish_step (view word.now) (items_view values.now) ≡ Ok step)
        (λ fault. fault ≢ StepFault.Memory
        → publish_step (view word.now) (items_view values.now) ≡ Err fault) }
{
    if !is_word(word, "publish") {
        return Err(StepFault::Shape);
    }
    let items = items_of(alloc, values)?;
    Ok(Step::One(Change::Publish(items)))
}

/// The restart of the node that a value names, with these items.
fn restart_step(
    alloc: Global,
    finder: &NodeFinder<'_>,
    word: &Value,
    name: &Value,
    values: &[Value],
) -> Result<Step, StepFault>
    ensures { MatchResult result
        (λ step. restart_step finder.now (view word.now) (view name.now) (items_view values.now)
        ≡ Ok step)
        (λ fault. fault ≢ StepFault.Memory
        → restart_step finder.now (view word.now) (view name.now) (items_view values.now)
        ≡ Err fault) }
{
    if !is_word(word, "restart") {
        return Err(StepFault::Shape);
    }
    let items = items_of(alloc, values)?;
    let node = node_named(finder, name)?;
    Ok(Step::One(Change::Restart(node, items)))
}

/// The start that a value is.
fn start_of(alloc: Global, value: &Value) -> Result<Start, StepFault>
    ensures { MatchResult result
        (λ made. start (view value.now) ≡ Some made)
        (λ fault. fault ≢ StepFault.Memory → (fault ≡ StepFault.Shape)
        × (start (view value.now) ≡ None)) }
{
    match read_start(alloc, value) {
        Ok(start) => Ok(start),
        Err(PartFault::Memory) => Err(StepFault::Memory),
        Err(_) => Err(StepFault::Shape),
    }
}

/// Whether a link of these parameters can have this in it.
pub(crate) fn start_fits(params: Params, start: &Start) -> Result<(), StepFault>
    ensures { result ≡ start_fits params start.now }
{
    let capacity = usize::from(params.capacity());
    if start.frames.len() > capacity {
        return Err(StepFault::TooManyFrames);
    }
    if start.acks.len() > capacity {
        return Err(StepFault::TooManyAcks);
    }
    Ok(())
}

/// A strike at the link that a value names, after which this is in it; the links have these
/// parameters.
fn strike_step(
    alloc: Global,
    finder: &NodeFinder<'_>,
    word: &Value,
    name: &Value,
    value: &Value,
    params: &[Params],
) -> Result<Step, StepFault>
    ensures { MatchResult result
        (λ step. strike_step finder.now params.now (view word.now) (view name.now)
        (view value.now) ≡ Ok step)
        (λ fault. fault ≢ StepFault.Memory
        → strike_step finder.now params.now (view word.now) (view name.now)
        (view value.now) ≡ Err fault) }
{
    if !is_word(word, "strike") {
        return Err(StepFault::Shape);
    }
    let start = start_of(alloc, value)?;
    let (child, place) = link_named(finder, name)?;
    let Some(own) = params.get(usize::from(place)) else {
        return Err(StepFault::Root);
    };
    start_fits(*own, &start)?;
    Ok(Step::One(Change::Strike(child, start)))
}

/// The step of `count` rounds, of the kind that a value names.
fn rounds_step(word: &Value, count: u16) -> Result<Step, StepFault>
    ensures { result ≡ rounds_step (view word.now) count }
{
    if is_word(word, "rounds") {
        return Ok(Step::Rounds(count));
    }
    if is_word(word, "reading_rounds") {
        return Ok(Step::ReadingRounds(count));
    }
    Err(StepFault::Shape)
}

/// The step of a list of two values.
fn step_of_two(
    alloc: Global,
    finder: &NodeFinder<'_>,
    first: &Value,
    second: &Value,
) -> Result<Step, StepFault>
    ensures { MatchResult result
        (λ step. step_of_two finder.now (view first.now) (view second.now) ≡ Ok step)
        (λ fault. fault ≢ StepFault.Memory
        → step_of_two finder.now (view first.now) (view second.now) ≡ Err fault) }
{
    match second {
        Value::Array(values) => publish_step(alloc, first, values.as_slice()),
        Value::Number(_) => match label(second) {
            Some(count) => rounds_step(first, count),
            None => Err(StepFault::Shape),
        },
        _ => act_step(finder, first, plain_of(second)),
    }
}

/// The step of a list of three values, where the links have these parameters.
fn step_of_three(
    alloc: Global,
    finder: &NodeFinder<'_>,
    params: &[Params],
    first: &Value,
    second: &Value,
    third: &Value,
) -> Result<Step, StepFault>
    ensures { MatchResult result
        (λ step. step_of_three finder.now params.now (view first.now) (view second.now)
        (view third.now) ≡ Ok step)
        (λ fault. fault ≢ StepFault.Memory
        → step_of_three finder.now params.now (view first.now) (view second.now)
        (view third.now) ≡ Err fault) }
{
    match third {
        Value::Array(values) => restart_step(alloc, finder, first, second, values.as_slice()),
        Value::Object(_) => strike_step(alloc, finder, first, second, third, params),
        _ => act_step(finder, first, loss_of(second, third)),
    }
}

/// The two values of a list, and the third where there are three.
#[tactic(auto, using(crate::proofs::Entries::few_are_none, crate::proofs::Entries::more_are_none))]
fn two_or_three(values: &[Value]) -> Option<(&Value, &Value, Option<&Value>)>
    ensures { option_map (λ p. (view p.0.now, view p.1.now, option_map (λ v. view v.now) p.2))
        result ≡ two_or_three (items_view values.now) }
{
    match values {
        [first, second] => Some((first, second, None)),
        [first, second, third] => Some((first, second, Some(third))),
        _ => None,
    }
}

/// The step that these values are, where the links have these parameters.
fn step_of_values(
    alloc: Global,
    finder: &NodeFinder<'_>,
    params: &[Params],
    values: &[Value],
) -> Result<Step, StepFault>
    ensures { MatchResult result
        (λ step. step_of_items finder.now params.now (items_view values.now) ≡ Ok step)
        (λ fault. fault ≢ StepFault.Memory
        → step_of_items finder.now params.now (items_view values.now) ≡ Err fault) }
{
    match two_or_three(values) {
        Some((first, second, None)) => step_of_two(alloc, finder, first, second),
        Some((first, second, Some(third))) => {
            step_of_three(alloc, finder, params, first, second, third)
        }
        None => Err(StepFault::Shape),
    }
}

/// The step that a value is, of a tree whose links have these parameters.
pub(crate) fn read_step(
    alloc: Global,
    finder: &NodeFinder<'_>,
    params: &[Params],
    value: &Value,
) -> Result<Step, StepFault>
    ensures { MatchResult result
        (λ step. step_of finder.now params.now (view value.now) ≡ Ok step)
        (λ fault. fault ≢ StepFault.Memory
        → step_of finder.now params.now (view value.now) ≡ Err fault) }
{
    match value.as_array() {
        Some(values) => step_of_values(alloc, finder, params, values.as_slice()),
        None => Err(StepFault::Shape),
    }
}

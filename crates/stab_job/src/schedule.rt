ghost use Rattle.std.specs.Prelude.{◌≡◌, ◌≢◌, IfErr, true, MatchResult, Ok, Err, option_map};
ghost use Rattle.std.specs.Prelude.{option_and_then};
ghost use Rattle.serde_json.specs.View.{view, items_view};
ghost use Rattle.serde_json.specs.Find.{as_str};
ghost use Rattle.stab_script.specs.Events.{plain_act, loss_act};
ghost use Rattle.stab_job.specs.Jobs.{schedule};
ghost use Rattle.stab_job.specs.Refusals.{is_of_value};
ghost use Rattle.stab_job.specs.ScheduleEntries.{NamedAct, named_act, act_of_items, on_child};

use crate::fault::JobFault;
use serde_json::Value;
use stab_core::LinkAct;
use stab_frames::Sequence;
use stab_script::{loss_act, plain_act};
use stab_tree::Tree;
use stab_treecore::TreeEvent;
use std::alloc::Global;

/// The name and the act of an entry of a schedule.
fn named_act(value: &Value) -> Option<(&str, LinkAct)>
    ensures { option_map (λ p. record { child = p.0.now; act = p.1 }) result
        ≡ named_act (view value.now) }
{
    act_of(value.as_array()?.as_slice())
}

/// The name and the act that the values of an entry are.
#[tactic(auto, using(crate::proofs::Entries::fewer_are_no_act, crate::proofs::Entries::more_are_no_act))]
fn act_of(values: &[Value]) -> Option<(&str, LinkAct)>
    ensures { option_map (λ p. record { child = p.0.now; act = p.1 }) result
        ≡ act_of_items (items_view values.now) }
{
    match values {
        [child, word] => on_child(child, plain_of(word)),
        [child, word, place] => on_child(child, loss_of(word, place)),
        _ => None,
    }
}

/// The act that a value names by itself.
fn plain_of(word: &Value) -> Option<LinkAct>
    ensures { result ≡ option_and_then plain_act (as_str (view word.now)) }
{
    plain_act(word.as_str()?)
}

/// The loss that a value names, of what is at a place.
fn loss_of(word: &Value, place: &Value) -> Option<LinkAct>
    ensures { result
        ≡ option_and_then (λ its_word. loss_act its_word (view place.now))
        (as_str (view word.now)) }
{
    loss_act(word.as_str()?, place)
}

/// An act on the link into the node that a value names, if there is one.
fn on_child(child: &Value, act: Option<LinkAct>) -> Option<(&str, LinkAct)>
    ensures { option_map (λ p. record { child = p.0.now; act = p.1 }) result
        ≡ on_child (view child.now) act }
{
    Some((child.as_str()?, act?))
}

/// The events of a schedule over the nodes of a tree, or the first check that it fails over all of
/// its entries.
#[tactic(auto, using(crate::proofs::Schedules::schedule_at_first, crate::proofs::Schedules::known_act, crate::proofs::Schedules::unknown_act))]
pub(crate) fn read_schedule(
    alloc: Global,
    tree: &Tree,
    values: &[Value],
) -> Result<Sequence<TreeEvent>, JobFault>
    ensures schedule { MatchResult result
        (λ events. schedule tree.now.names (items_view values.now) ≡ Ok events)
        (λ fault. fault ≢ JobFault.Memory
        → schedule tree.now.names (items_view values.now) ≡ Err fault) }
    ensures reported { IfErr result (λ fault. is_of_value fault ≡ true) }
{
    let mut events = Sequence::with_capacity(alloc, values.len())?;
    let mut all_known = true;
    for value in values {
        let Some((name, act)) = named_act(value) else {
            return Err(JobFault::Event);
        };
        match tree.find(name) {
            Some(child) => events.push(TreeEvent { child, act })?,
            None => all_known = false,
        }
    }
    if all_known {
        Ok(events)
    } else {
        Err(JobFault::UnknownNode)
    }
}

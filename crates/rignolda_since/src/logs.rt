//! What each node received since a moment, as a job has it.

ghost use Rattle.std.specs.List.{list_all};
ghost use Rattle.std.specs.Prelude.{◌≡◌, ◌≢◌, ◌<◌, MatchResult, Ok, Err, IfOk, length, nat_le};
ghost use Rattle.std.specs.Prelude.{option_map};
ghost use Rattle.serde_json.specs.Data.{Data};
ghost use Rattle.serde_json.specs.View.{view};
ghost use Rattle.stab_job.specs.Parts.{SameBeside};
ghost use Rattle.stab_json.specs.Values.{item_number, list_of};
ghost use Rattle.rignolda_since.specs.Logs.{HasLogs, fitting, from_at, from_of, has_places, logs};
ghost use Rattle.rignolda_since.specs.Logs.{received_at, received_of, received_meaning, the_lists};

use json::Reader;
use serde_json::Value;
use stab_frames::{Item, Sequence};
use stab_job::Beside;
use stab_json::{Entry, read_list};
use stab_script::next_item_lists;
use stab_tree::{NodeId, Tree};
use std::alloc::{AllocError, Global};
use std::marker::Model;
use thiserror::Error;

/// Why a value has no logs, in the order of the checks.
#[derive(Clone, Copy, Debug, PartialEq, Eq, Error)]
pub enum LogsFault {
    /// It has no member `received` that is a list of lists of items, or its member `from` is no
    /// list of items.
    #[error("logs: wrong shape")]
    Shape,
    /// There is not one list for each node.
    #[error("logs: wrong number of lists")]
    Lists,
    /// There is a member `from`, and it has not one place for each node.
    #[error("logs: wrong number of places")]
    Places,
    /// A place is past the end of the published items.
    #[error("logs: a place past the end of the items")]
    Place,
    /// Memory was refused.
    #[error("out of memory")]
    Memory,
}

impl From<AllocError> for LogsFault {
    ghost use Rattle.std.specs.Prelude.{◌≡◌};
    ghost use Rattle.rignolda_since.specs.declared.logs.LogsFault.TheVariants.{Memory};

    ghost from_gives = { λ _ fault. fault ≡ Memory };

    fn from(_refused: AllocError) -> LogsFault {
        LogsFault::Memory
    }
}

/// What each node of a tree received since a moment, in file order.
#[derive(Debug)]
pub struct Logs {
    /// The items of each node, in the order in which it received them.
    received: Sequence<Sequence<Item>>,
    /// Where in the published items the count of each node begins; where there are no places, each
    /// begins with the first item.
    from: Vec<u32>,
}

impl Drop for Logs {
    fn drop(self) {
        let Logs {
            received: _,
            from: _,
        } = self;
    }
}

impl Model for Logs {
    ghost use Rattle.rignolda_since.specs.Logs.{LogsValue};

    ghost Value = { LogsValue };

    ghost view = { λ l. record {
      received = l.received;
      from = l.from.items;
    } };
}

impl Logs {
    /// What a node received.
    pub fn received_at(&self, node: NodeId) -> &[Item]
        requires { node < length self.now.received }
        ensures { result.now ≡ received_at self.now node }
    {
        self.received.as_slice()[node.index()].as_slice()
    }

    /// Where in the published items the count of a node begins.
    pub fn from_at(&self, node: NodeId) -> u32
        ensures { result ≡ from_at self.now node }
    {
        match self.from.get(node.index()) {
            Some(place) => *place,
            None => 0,
        }
    }
}

/// The list of a node in a list of them: a list of items.
enum ListEntry {}

impl<'v> Entry<'v> for ListEntry {
    type Read = Sequence<Item>;

    ghost meaning = { list_of item_number };

    fn read(alloc: Global, value: &'v Value) -> Result<Option<Sequence<Item>>, AllocError> {
        match read_list::<Item>(alloc, Some(value))? {
            Some(items) => Ok(Some(Sequence::from_vec(items))),
            None => Ok(None),
        }
    }
}

/// The lists of the member `received`, read off the tokens of a job.
pub enum Received {}

impl Beside for Received {
    type Read = Sequence<Sequence<Item>>;

    ghost its_name = { the_lists };

    ghost meaning = { received_meaning };

    fn is_named(name: &str) -> bool {
        name == "received"
    }

    fn next(
        alloc: Global,
        reader: &mut Reader<'_>,
    ) -> Result<Option<Sequence<Sequence<Item>>>, AllocError> {
        let lists = next_item_lists(alloc, reader)?;
        Ok(lists)
    }
}

/// The logs of the nodes of a tree that a job has, where these items are published, or the first
/// check that they fail. The value has the members of the job, but for `received` where its lists
/// were read.
pub fn read_logs(
    alloc: Global,
    tree: &Tree,
    items: &[Item],
    value: &Value,
    received: Option<Sequence<Sequence<Item>>>,
) -> Result<Logs, LogsFault>
    ensures logs { (d : Data) → HasLogs d (view value.now) received → MatchResult result
        (λ its. logs tree.now (length items.now) d ≡ Ok its)
        (λ fault. fault ≢ LogsFault.Memory → logs tree.now (length items.now) d ≡ Err fault) }
    ensures per_node { IfOk result (λ its. length its.received ≡ length tree.now.parents) }
{
    let Some(received) = received_of(alloc, value, received)? else {
        return Err(LogsFault::Shape);
    };
    let Some(from) = from_of(alloc, value)? else {
        return Err(LogsFault::Shape);
    };
    fitting(
        tree,
        items.len(),
        has_places(value),
        Logs { received, from },
    )
}

/// The lists that a job has.
fn received_of(
    alloc: Global,
    value: &Value,
    received: Option<Sequence<Sequence<Item>>>,
) -> Result<Option<Sequence<Sequence<Item>>>, AllocError>
    ensures { IfOk result (λ lists. (d : Data) → HasLogs d (view value.now) received
        → lists ≡ received_of d) }
{
    if received.is_some() {
        return Ok(received);
    }
    match value.get("received") {
        None => Ok(None),
        Some(given) => match read_list::<ListEntry>(alloc, Some(given))? {
            Some(lists) => Ok(Some(Sequence::from_vec(lists))),
            None => Ok(None),
        },
    }
}

/// The places that a value has.
fn from_of(alloc: Global, value: &Value) -> Result<Option<Vec<u32>>, AllocError>
    ensures { IfOk result (λ places. option_map (λ its. its.items) places
        ≡ from_of (view value.now)) }
{
    read_list::<u32>(alloc, value.get("from"))
}

/// Whether a value has a member with places.
fn has_places(value: &Value) -> bool
    ensures { result ≡ has_places (view value.now) }
{
    value.get("from").is_some()
}

/// Logs that fit a tree whose root publishes `count` items.
fn fitting(tree: &Tree, count: usize, with_places: bool, logs: Logs) -> Result<Logs, LogsFault>
    ensures fitting { result ≡ fitting tree.now count with_places logs }
    ensures per_node { IfOk result (λ fit. length fit.received ≡ length tree.now.parents) }
{
    let nodes = usize::from(tree.len());
    if logs.received.len() != nodes {
        return Err(LogsFault::Lists);
    }
    if with_places && logs.from.len() != nodes {
        return Err(LogsFault::Places);
    }
    if !are_places(&logs.from, count) {
        return Err(LogsFault::Place);
    }
    Ok(logs)
}

/// Whether each place is among those of `count` items, or just behind them.
fn are_places(places: &[u32], count: usize) -> bool
    ensures { result ≡ list_all (λ place. nat_le place count) places.now }
{
    places.iter().all(|place| *place as usize <= count)
}

//! What the parent of each node had for it at the moment from which a report counts.

ghost use Rattle.std.specs.Prelude.{◌≡◌, ◌≢◌, ◌<◌, MatchResult, Ok, Err, IfOk, length};
ghost use Rattle.serde_json.specs.View.{view};
ghost use Rattle.stab_json.specs.Values.{item_number, list_of};
ghost use Rattle.rignolda_since.specs.Backlogs.{backlog_at, backlogs, fitting};

use serde_json::Value;
use stab_frames::{Item, Sequence};
use stab_json::{Entry, read_list};
use stab_tree::{NodeId, Tree};
use std::alloc::{AllocError, Global};
use thiserror::Error;

/// Why a value is no list of backlogs, in the order of the checks.
#[derive(Clone, Copy, Debug, PartialEq, Eq, Error)]
pub enum BacklogFault {
    /// It is no list of lists of items.
    #[error("backlogs: wrong shape")]
    Shape,
    /// There is not one list for each node.
    #[error("backlogs: wrong number of backlogs")]
    Count,
    /// The root has a backlog, and no node is above it.
    #[error("backlogs: backlog at the root")]
    Root,
    /// Memory was refused.
    #[error("out of memory")]
    Memory,
}

impl From<AllocError> for BacklogFault {
    ghost use Rattle.std.specs.Prelude.{◌≡◌};
    ghost use Rattle.rignolda_since.specs.declared.backlogs.BacklogFault.TheVariants.{Memory};

    ghost from_gives = { λ _ fault. fault ≡ Memory };

    fn from(_refused: AllocError) -> BacklogFault {
        BacklogFault::Memory
    }
}

/// A backlog in a list of them: a list of items.
enum BacklogEntry {}

impl<'v> Entry<'v> for BacklogEntry {
    type Read = Sequence<Item>;

    ghost meaning = { list_of item_number };

    fn read(alloc: Global, value: &'v Value) -> Result<Option<Sequence<Item>>, AllocError> {
        match read_list::<Item>(alloc, Some(value))? {
            Some(items) => Ok(Some(Sequence::from_vec(items))),
            None => Ok(None),
        }
    }
}

/// The backlogs of the nodes of a tree that a value means, or the first check that it fails.
pub fn read_backlogs(
    alloc: Global,
    tree: &Tree,
    value: &Value,
) -> Result<Sequence<Sequence<Item>>, BacklogFault>
    ensures backlogs { MatchResult result
        (λ lists. backlogs tree.now (view value.now) ≡ Ok lists)
        (λ fault. fault ≢ BacklogFault.Memory → backlogs tree.now (view value.now) ≡ Err fault) }
    ensures per_node { IfOk result (λ lists. length lists ≡ length tree.now.parents) }
{
    let Some(lists) = read_list::<BacklogEntry>(alloc, Some(value))? else {
        return Err(BacklogFault::Shape);
    };
    fitting(tree, Sequence::from_vec(lists))
}

/// Backlogs that fit a tree.
fn fitting(
    tree: &Tree,
    lists: Sequence<Sequence<Item>>,
) -> Result<Sequence<Sequence<Item>>, BacklogFault>
    ensures fitting { result ≡ fitting tree.now lists }
    ensures per_node { IfOk result (λ fit. length fit ≡ length tree.now.parents) }
{
    let root = tree.root();
    if lists.len() != usize::from(tree.len()) {
        return Err(BacklogFault::Count);
    }
    if backlog_at(lists.as_slice(), root).len() != 0 {
        return Err(BacklogFault::Root);
    }
    Ok(lists)
}

/// What the parent of a node had for it.
pub(crate) fn backlog_at(lists: &[Sequence<Item>], node: NodeId) -> &[Item]
    requires known { node < length lists.now }
    ensures { result.now ≡ backlog_at lists.now node }
{
    lists[node.index()].as_slice()
}

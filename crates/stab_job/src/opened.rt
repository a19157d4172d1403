//! What a job says of the openings of its nodes.

ghost use Rattle.std.specs.Prelude.{◌≡◌, ◌≢◌, ◌≤◌, [], codes, length, replicate, IfErr, IfOk};
ghost use Rattle.std.specs.Prelude.{Err, MatchResult, Ok, true};
ghost use Rattle.serde_json.specs.Find.{get};
ghost use Rattle.serde_json.specs.View.{view};
ghost use Rattle.stab_json.specs.Values.{item_number, list_of};
ghost use Rattle.stab_job.specs.JobOpenings.{hold_of, lists_given, lists_of, openings_of};
ghost use Rattle.stab_job.specs.Refusals.{is_of_value};
ghost use Rattle.stab_tree.specs.NodeOpenings.{FitTree, most_hold};

use crate::fault::JobFault;
use crate::members::list_member;
use crate::version::Version;
use serde_json::Value;
use stab_frames::{Item, Sequence};
use stab_json::{Entry, read_list, u16_member};
use stab_tree::Tree;
use stab_treecore::Openings;
use std::alloc::{AllocError, Global};

/// An opening in a list of them: a list of items.
enum OpeningEntry {}

impl<'v> Entry<'v> for OpeningEntry {
    type Read = Sequence<Item>;

    ghost meaning = { list_of item_number };

    fn read(alloc: Global, value: &'v Value) -> Result<Option<Sequence<Item>>, AllocError> {
        match read_list::<Item>(alloc, Some(value))? {
            Some(items) => Ok(Some(Sequence::from_vec(items))),
            None => Ok(None),
        }
    }
}

/// How many items an opening has at most: none in the first version.
pub(crate) fn hold_of(version: Version, value: &Value) -> Option<u16>
    ensures { result ≡ hold_of version (view value.now) }
{
    match version {
        Version::First => Some(0),
        Version::Second => u16_member(value, "h"),
    }
}

/// The lists that are given: none in the first version.
pub(crate) fn lists_given(
    alloc: Global,
    version: Version,
    value: &Value,
) -> Result<Option<Option<Sequence<Sequence<Item>>>>, AllocError>
    ensures { IfOk result (λ lists. lists ≡ lists_given version (view value.now)) }
{
    match version {
        Version::First => Ok(Some(None)),
        Version::Second => list_member::<OpeningEntry>(alloc, value, "openings"),
    }
}

/// An empty list for each of that many nodes.
#[tactic(auto, using(crate::proofs::Linked::one_more_alike))]
fn empty_lists(alloc: Global, nodes: u16) -> Result<Sequence<Sequence<Item>>, AllocError>
    ensures { IfOk result (λ lists. lists ≡ replicate nodes []) }
{
    let mut lists = Sequence::with_capacity(alloc, usize::from(nodes))?;
    'nodes: for _ in 0..nodes {
        lists.push(Sequence::new(alloc))?;
    }
    Ok(lists)
}

/// The lists of that many nodes, which are empty where none are given.
fn lists_of(
    alloc: Global,
    nodes: u16,
    given: Option<Sequence<Sequence<Item>>>,
) -> Result<Sequence<Sequence<Item>>, AllocError>
    ensures { IfOk result (λ lists. lists ≡ lists_of nodes given) }
{
    match given {
        Some(lists) => Ok(lists),
        None => empty_lists(alloc, nodes),
    }
}

/// The openings of the nodes of a tree, or the first check that they fail.
pub(crate) fn openings_of(
    alloc: Global,
    tree: &Tree,
    hold: u16,
    given: Option<Sequence<Sequence<Item>>>,
) -> Result<Openings, JobFault>
    ensures openings { MatchResult result
        (λ openings. openings_of tree.now hold given ≡ Ok openings)
        (λ fault. fault ≢ JobFault.Memory → openings_of tree.now hold given ≡ Err fault) }
    ensures fit { IfOk result (FitTree tree.now.parents) }
    ensures few_held { IfOk result (λ openings. openings.hold ≤ most_hold) }
    ensures reported { IfErr result (λ fault. is_of_value fault ≡ true) }
{
    let lists = lists_of(alloc, tree.len(), given)?;
    let openings = Openings::new(tree, hold, lists.into_vec())?;
    Ok(openings)
}
